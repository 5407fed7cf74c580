//! What is linked.

use ebc_base::{Name, Sequence};

/// A link plan: what is linked to an image, and what the image is to be. docs/LINKING.md, "Plans".
#[derive(PartialEq, Drop)]
pub struct LinkPlan {
    /// The names of the objects' files, 1 to 256, each another text that isn't empty. The objects are laid in this order.
    pub objects: Sequence<Name>,
    /// The name of the symbol at which the image is entered.
    pub entry: Name,
    /// What runs the image: 10 an application, 11 a boot service driver, 12 a runtime driver (Subsystem).
    pub subsystem: u16,
    /// The address for which the image is linked: a multiple of 65536 below 2^32 (ImageBase).
    pub base: u64,
}
