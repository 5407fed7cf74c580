//! Where an instruction stands.

/// Where an instruction stands: its place, the place of the next instruction, the number of the function that it is in,
/// and the place that a relocated immediate names, where there is one.
#[derive(Clone, Copy, PartialEq, Eq)]
pub struct Here {
    pub place: u32,
    pub next: u32,
    pub func: u32,
    pub reloc: Option<u32>,
}
