//! Numbers in hexadecimal digits.
ghost use Rattle.std.specs.Prelude.{Some};
ghost use Rattle.printed_texts.specs.RunTexts.{place_text, spot_text, wild_text};

use note_types::Spot;
use std::fmt::{self, Display};

/// A place, an offset in bytes, printed in eight hexadecimal digits.
#[derive(Clone, Copy, PartialEq, Eq)]
pub struct Place(pub u32);

impl fmt::Display for Place {
    ghost output = { λ p. Some (place_text p.0) };

    #[tactic(auto, using(crate::proofs::HexLaws::place))]
    fn fmt<W: fmt::Write>(&self, f: &mut fmt::Formatter<W>) -> fmt::Result {
        let place = self.0;
        write!(f, "{place:08x}")
    }
}

// A number that has no reading, printed as such, in 16 hexadecimal digits.
#[derive(Clone, Copy)]
pub(crate) struct Wild(pub u64);

impl fmt::Display for Wild {
    ghost output = { λ x. Some (wild_text x.0) };

    #[tactic(auto, using(crate::proofs::HexLaws::wild))]
    fn fmt<W: fmt::Write>(&self, f: &mut fmt::Formatter<W>) -> fmt::Result {
        let number = self.0;
        write!(f, "wild {number:016x}")
    }
}

/// Where a run stands, as it is printed.
#[derive(Clone, Copy)]
pub struct ShownSpot(pub Spot);

impl fmt::Display for ShownSpot {
    ghost output = { λ s. Some (spot_text s.0) };

    fn fmt<W: fmt::Write>(&self, f: &mut fmt::Formatter<W>) -> fmt::Result {
        match self.0 {
            Spot::Place(place) => Place(place).fmt(f),
            Spot::Gate => f.write_str("gate"),
            Spot::Wild(number) => Wild(number).fmt(f),
        }
    }
}
