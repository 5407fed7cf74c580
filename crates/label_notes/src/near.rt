//! The label before a place.

use crate::map::noted_label_text;
use crate::shared::shared_names;
use ebc_base::{Name, NoMemory};
use label_places::Label;
use std::alloc::Global;

// The last label at or before a place.
fn label_before(labels: &[Label], place: u32) -> Option<&Label> {
    let mut found: Option<&Label> = None;
    let mut least = 0u32;
    for label in labels {
        if least <= label.position.place && label.position.place <= place {
            least = label.position.place;
            found = Some(label);
        }
    }
    found
}

/// The line of the last label at or before a place, of objects whose files have these names; empty where there is none.
pub(crate) fn near_line(
    alloc: Global,
    objects: &[Name],
    labels: &[Label],
    place: u32,
) -> Result<String, NoMemory> {
    let Some(label) = label_before(labels, place) else {
        return Ok(String::new(alloc));
    };
    let shared = shared_names(alloc, labels)?;
    let name = noted_label_text(alloc, objects, &shared, label)?;
    let more = place.saturating_sub(label.position.place);
    if more == 0 {
        Ok(format!(in alloc; "at {name}\n")?)
    } else {
        Ok(format!(in alloc; "at {name}+{more}\n")?)
    }
}
