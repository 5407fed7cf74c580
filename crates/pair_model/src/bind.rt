//! Which function of image B answers the calls of which method of image A.
use ebc_base::Sequence;

/// A method of image A, and the function of image B that its calls enter. Each is its number, from 0 in the order of its notes.
#[derive(Clone, Copy, PartialEq, Eq)]
pub struct Bind {
    pub method: u32,
    pub function: u32,
}

/// A list of binds, in the order in which they were written.
pub type Binds = Sequence<Bind>;
