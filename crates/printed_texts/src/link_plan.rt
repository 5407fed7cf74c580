//! The plan of a sample.
ghost use Rattle.std.specs.Prelude.{◌≡◌, IfOk};
ghost use Rattle.ebc_link.specs.Plans.{IsPlan};
ghost use Rattle.printed_texts.specs.Samples.{sample_plan};

use ebc_base::{Name, NoMemory, Sequence};
use ebc_link::LinkPlan;
use std::alloc::Global;

/// The plan of every sample: its one object, entered at its first function.
///
/// # Errors
///
/// Want of memory alone.
pub fn plan(alloc: Global) -> Result<LinkPlan, NoMemory>
    ensures plan { IfOk result (λ plan. plan ≡ sample_plan) }
    ensures conditions { IfOk result IsPlan }
{
    let mut objects = Vec::new(alloc);
    objects.push(Name::new(String::from_str(alloc, "sample")?))?;
    let entry = Name::new(String::from_str(alloc, "f0")?);
    Ok(LinkPlan {
        objects: Sequence::new(objects),
        entry,
        subsystem: 11,
        base: 65536,
    })
}
