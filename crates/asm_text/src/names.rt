//! Names beside registers.

ghost use Rattle.std.specs.Prelude.{◌≡◌};
ghost use Rattle.asm_text.specs.Names.{is_register};

// Whether a text names a register where one can stand.
pub(crate) fn is_register(text: &[u8]) -> bool
    ensures { result ≡ is_register text.now }
{
    matches!(text, [b'R', b'0'..=b'7'])
}
