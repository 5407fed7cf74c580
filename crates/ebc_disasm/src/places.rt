//! Places in their order, of which those that have been passed are left behind.

ghost use Rattle.std.specs.Prelude.{◌≡◌, ℕ, ◌+◌, ◌<◌, ◌≤◌, ◌^◌, IfOk, slice_get};
ghost use Rattle.std.specs.List.{AllPairs, find};
ghost use Rattle.std.specs.List.Sorted.{IsPermutation};
ghost use Rattle.pe_image.specs.Images.{IsImage};
ghost use Rattle.ebc_disasm.specs.Listings.{labels};
ghost use Rattle.ebc_disasm.specs.Walks.{IsLeft, reaches};

use crate::bytes::named;
use pe_image::Image;
use std::alloc::{AllocError, Global};

// The places with a label.
#[tactic(auto, unfolding(crate::specs::Listings::labels), using(crate::proofs::Coming::more_none, crate::proofs::Coming::more_some))]
fn labelled(alloc: Global, image: &Image) -> Result<Vec<u32>, AllocError>
    requires { IsImage image.now }
    ensures { IfOk result (λ places. places.items ≡ labels image.now) }
{
    let relocs = image.relocs.as_slice();
    let mut places = Vec::with_capacity(alloc, relocs.len() + 1)?;
    places.push(image.entry)?;
    for place in relocs {
        if let Some(target) = named(image, *place) {
            places.push(target)?;
        }
    }
    Ok(places)
}

// The places with a label, ascending. One may stand there more than once.
pub(crate) fn labels(alloc: Global, image: &Image) -> Result<Vec<u32>, AllocError>
    requires { IsImage image.now }
    ensures same { IfOk result (λ places. IsPermutation (labels image.now) places.items) }
    ensures ascend { IfOk result (λ places. AllPairs (λ p q. p ≤ q) places.items) }
{
    let mut places = labelled(alloc, image)?;
    places.sort_unstable();
    Ok(places)
}

// What is left of places once those are left behind whose `span` bytes end at a place or before it.
pub(crate) fn past(places: &[u32], span: u32, place: u32) -> &[u32]
    requires { span < 9 }
    ensures left { IsLeft span place places.now result.now }
    ensures first { find (reaches span place) result.now ≡ slice_get result.now 0 }
{
    for (i, next) in places.iter().enumerate() {
        if u64::from(*next) + u64::from(span) > u64::from(place) {
            return &places[i..];
        }
    }
    &places[places.len()..]
}
