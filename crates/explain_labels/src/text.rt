//! A text of notes with labels.

use ebc_link::LinkPlan;
use label_places::Labels;
use std::alloc::Global;

/// A text of notes with labels that has a fault: the name of its file, its bytes, and the plan and the labels that it is of.
#[derive(Clone, Copy)]
pub struct LabelledText<'a> {
    pub alloc: Global,
    pub file: &'a str,
    pub bytes: &'a [u8],
    pub plan: &'a LinkPlan,
    pub labels: &'a Labels,
}
