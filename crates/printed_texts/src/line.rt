//! The line of a sample.
ghost use Rattle.std.specs.Prelude.{◌≡◌, IfOk, Some};
ghost use Rattle.printed_texts.specs.Samples.{ending_number, number_or_dash, sample_line, value_number};

use ebc_base::NoMemory;
use note_types::{Ending, Value};
use std::alloc::Global;
use std::fmt::{self, Display};

// The number in a value, where it has one and no more.
fn value_number(value: Value) -> Option<u64>
    ensures { result ≡ value_number value }
{
    match value {
        Value::Int(number) => Some(number),
        Value::StatusOk(code) | Value::StatusError(code) => Some(u64::from(code)),
        Value::Handle(handle) => Some(u64::from(handle)),
        _ => None,
    }
}

// The number in the value with which a run finished.
fn ending_number(ending: Ending) -> Option<u64>
    ensures { result ≡ ending_number ending }
{
    match ending {
        Ending::Finished(value) => value_number(value),
        _ => None,
    }
}

// A number, or a dash where there is none.
#[derive(Clone, Copy)]
struct ShownNumber(Option<u64>);

impl fmt::Display for ShownNumber {
    ghost output = { λ n. Some (number_or_dash n.0) };

    fn fmt<W: fmt::Write>(&self, f: &mut fmt::Formatter<W>) -> fmt::Result {
        match self.0 {
            Some(number) => write!(f, "{number}"),
            None => f.write_str("-"),
        }
    }
}

/// What is shown of a sample.
#[derive(Clone, Copy)]
pub struct ShownSample<'a> {
    /// How many functions it has.
    pub functions: u32,
    /// How many bytes its code has.
    pub code: usize,
    /// How its run at 4 bytes an address ended.
    pub ending: Ending,
    /// How many steps that run took.
    pub steps: u64,
    /// The line of its check, without the line feed.
    pub verdict: &'a str,
    /// The last line of its run at both widths, with the line feed.
    pub last: &'a str,
}

/// The line of a sample.
///
/// # Errors
///
/// Want of memory alone.
pub fn sample_line(alloc: Global, shown: &ShownSample) -> Result<Vec<u8>, NoMemory>
    ensures { IfOk result (λ line. line.items ≡ sample_line shown.now.functions shown.now.code (ending_number shown.now.ending)
        shown.now.steps shown.now.verdict.now shown.now.last.now) }
{
    let (functions, code, steps) = (shown.functions, shown.code, shown.steps);
    let number = ShownNumber(ending_number(shown.ending));
    let (verdict, last) = (shown.verdict, shown.last);
    let line = format!(in alloc;
        "sample {functions} code {code} result {number} steps {steps} {verdict} {last}"
    )?;
    Ok(line.into_bytes())
}
