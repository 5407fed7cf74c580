//! The widths of runs.
ghost use Rattle.std.specs.Prelude.{◌≡◌};
ghost use Rattle.ebc_cli.specs.Numbers.{width_of};

/// How many bits an address has in a run.
#[derive(Clone, Copy)]
pub enum Width {
    Bits32,
    Bits64,
}

/// The width that a word spells: `32` or `64`.
pub fn width_of(word: &str) -> Option<Width>
    ensures { result ≡ width_of word.now }
{
    if word == "32" {
        return Some(Width::Bits32);
    }
    if word == "64" {
        return Some(Width::Bits64);
    }
    None
}
