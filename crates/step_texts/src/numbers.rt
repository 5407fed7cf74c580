//! Numbers in hexadecimal digits.
ghost use Rattle.std.specs.Prelude.{Some};
ghost use Rattle.asm_text.specs.Numbers.{hex_text};

use std::fmt;

/// A number of 64 bits, as it is printed.
#[derive(Clone, Copy)]
pub(crate) struct Number(pub u64);

impl fmt::Display for Number {
    ghost output = { λ x. Some (hex_text 16 x.0) };

    #[tactic(auto, using(asm_text::proofs::HexLaws::raw64))]
    fn fmt<W: fmt::Write>(&self, f: &mut fmt::Formatter<W>) -> fmt::Result {
        let number = self.0;
        write!(f, "{number:016x}")
    }
}

/// A byte, as it is printed.
#[derive(Clone, Copy)]
pub(crate) struct Byte(pub u8);

impl fmt::Display for Byte {
    ghost output = { λ x. Some (hex_text 2 x.0) };

    #[tactic(auto, using(asm_text::proofs::HexLaws::raw8))]
    fn fmt<W: fmt::Write>(&self, f: &mut fmt::Formatter<W>) -> fmt::Result {
        let byte = self.0;
        write!(f, "{byte:02x}")
    }
}

/// A number of 16 bits, as it is printed.
#[derive(Clone, Copy)]
pub(crate) struct Unit(pub u16);

impl fmt::Display for Unit {
    ghost output = { λ x. Some (hex_text 4 x.0) };

    #[tactic(auto, using(asm_text::proofs::HexLaws::raw16))]
    fn fmt<W: fmt::Write>(&self, f: &mut fmt::Formatter<W>) -> fmt::Result {
        let number = self.0;
        write!(f, "{number:04x}")
    }
}
