//! Calls `ebc` over files in memory, row by row, as the lines of the standard input say, beside what each call is to
//! answer, print and write. It prints each that does otherwise, with what was wanted and what was found, and how many
//! answers of each kind held. docs/crates/ebc_rows.md has the lines.
#![tactic(auto)]

mod asked;
mod file;
mod rows;
mod tally;

use rows::Rows;
use std::io::{self, BufRead, BufReader};

fn main(rt: HostRuntime) -> io::Result<()> {
    let alloc = rt.alloc();
    let mut rows = Rows::new(alloc);
    for line in BufReader::new(alloc, rt.reader())?.lines(alloc) {
        let told = rows.tell(alloc, line?.as_str())?;
        print!(rt; "{told}")?;
    }
    let last = rows.last(alloc)?;
    print!(rt; "{last}")
}
