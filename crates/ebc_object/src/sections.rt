//! The bytes of the two sections.

ghost use Rattle.std.specs.Prelude.{◌≡◌, ◌≤◌, nat_eq};
ghost use Rattle.std.specs.List.{list_all};
ghost use Rattle.ebc_object.specs.Objects.{section_bytes, width};
ghost use Rattle.ebc_object.specs.Readings.{has_zeros};

/// The code and the data of an object.
#[derive(Clone, Copy)]
pub(crate) struct Sections<'a> {
    pub code: &'a [u8],
    pub contents: &'a [u8],
}

impl<'a> Sections<'a> {
    // The bytes of a section by its number.
    pub fn bytes(&self, section: u8) -> &'a [u8]
        ensures { result.now ≡ section_bytes self.now.code.now self.now.contents.now section }
    {
        match section {
            1 => self.code,
            2 => self.contents,
            _ => &[],
        }
    }
}

// How many bytes a fixup of a kind fills in.
pub fn width(kind: u8) -> usize
    ensures width { result ≡ width kind }
    ensures small { result ≤ 8 }
{
    match kind {
        1 => 1,
        2 => 2,
        3 => 4,
        _ => 8,
    }
}

// Whether bytes are zeros.
fn are_zeros(bytes: &[u8]) -> bool
    ensures { result ≡ list_all (λ b. nat_eq b 0) bytes.now }
{
    bytes.iter().all(|byte| *byte == 0)
}

// Whether there are so many bytes at an offset, all of them zeros.
#[tactic(auto, unfolding(crate::specs::Readings::has_zeros))]
pub fn has_zeros(bytes: &[u8], at: u32, count: usize) -> bool
    requires { count ≤ 8 }
    ensures { result ≡ has_zeros bytes.now at count }
{
    let at = at as usize;
    at + count <= bytes.len() && are_zeros(&bytes[at..at + count])
}
