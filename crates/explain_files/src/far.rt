//! What is said of a fixup whose bytes don't hold its distance.

ghost use Rattle.std.specs.Prelude.{◌≤◌, All, length};
ghost use Rattle.ebc_object.specs.Objects.{IsObject};

use crate::fixups::fixup_said;
use crate::symbols::{Laid, fixup_in, place_in, target_of};
use ebc_base::NoMemory;
use ebc_link::{Home, LinkPlan, homes_of};
use ebc_object::{Fixup, Object};
use explain_base::{Line, Said};
use std::alloc::Global;

// What goes a distance by the kind of a fixup, and which distances it can go.
fn form_text(kind: u8) -> (&'static str, &'static str) {
    match kind {
        1 => ("JMP8", "an even distance from -256 to 254"),
        2 => ("MOVRELw", "a distance from -32768 to 32767"),
        3 => ("a 32-bit form", "a distance from -2147483648 to 2147483647"),
        _ => ("a 64-bit form", "a distance of 64 bits"),
    }
}

fn far_line(alloc: Global, objects: &[Object], homes: &[Home], laid: &Laid, fixup: &Fixup) -> Line {
    let (form, wanted) = form_text(fixup.kind);
    let mut what = Line::of(alloc, form);
    match target_of(objects, homes, laid, fixup) {
        Some((symbol, place)) => {
            let from = place_in(laid.home, fixup.section, fixup.from);
            what.text(" goes ")
                .signed(i128::from(place) - i128::from(from))
                .text(" bytes to ");
            what.text(symbol.name.as_str())
                .text(", at place ")
                .hexadecimal(place);
        }
        None => {
            what.text(" doesn't reach its symbol");
        }
    }
    what.text("; wanted: ").text(wanted);
    what
}

/// What is said of the fixup at a place, which doesn't reach its symbol; none if no fixup is there.
pub(crate) fn far_said(
    alloc: Global,
    plan: &LinkPlan,
    objects: &[Object],
    place: u32,
) -> Result<Option<Said>, NoMemory>
    requires objects { All IsObject objects.now }
    requires few { length objects.now ≤ 256 }
{
    let homes = homes_of(alloc, objects)?;
    let Some((laid, fixup)) = fixup_in(plan, objects, homes.as_slice(), place) else {
        return Ok(None);
    };
    let what = far_line(alloc, objects, homes.as_slice(), &laid, fixup);
    Ok(Some(fixup_said(laid.file, laid.object, fixup, what, "")))
}
