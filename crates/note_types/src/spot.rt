//! Where a run stands.

/// Where a run stands between two steps.
#[derive(Clone, Copy, PartialEq, Eq)]
pub enum Spot {
    /// At a place of the image, an offset from its base in bytes.
    Place(u32),
    /// At the gate, through which a function returns to the firmware.
    Gate,
    /// At another address.
    Wild(u64),
}
