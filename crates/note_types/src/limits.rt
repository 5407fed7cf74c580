//! The limits of notes, by their version, which is 1 or 2. docs/NOTES.md lists them.
ghost use Rattle.std.specs.Prelude.{◌≡◌};
ghost use Rattle.note_types.specs.Limits.{code_limit, point_limit};

/// How many bytes of code all functions of notes of a version have at most, together; 0 for a version that isn't there.
pub fn code_limit(version: u32) -> u64
    ensures { result ≡ code_limit version }
{
    if version == 1 {
        262_144
    } else if version == 2 {
        1_048_576
    } else {
        0
    }
}

/// How many points notes of a version have at most; 0 for a version that isn't there.
pub fn point_limit(version: u32) -> u64
    ensures { result ≡ point_limit version }
{
    if version == 1 {
        16_384
    } else if version == 2 {
        32_768
    } else {
        0
    }
}
