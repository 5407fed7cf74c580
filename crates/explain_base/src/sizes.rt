//! Pairs in sentences, each a count of natural units and a count of bytes.

use crate::line::Line;
use note_types::Pair;
use rules_base::Distance;

impl Line {
    /// Adds the pair of a distance: `(N, C)`.
    pub fn distance(&mut self, distance: Distance) -> &mut Line {
        self.text("(")
            .signed(i128::from(distance.n))
            .text(", ")
            .signed(i128::from(distance.c))
            .text(")")
    }

    /// Adds the pair of a size.
    pub fn size(&mut self, size: Pair) -> &mut Line {
        self.pair(u64::from(size.n), u64::from(size.c))
    }

    /// Adds a pair of two counts.
    pub fn pair(&mut self, n: u64, c: u64) -> &mut Line {
        self.text("(").number(n).text(", ").number(c).text(")")
    }
}
