//! How a call of the program ends.
ghost use Rattle.std.specs.Prelude.{◌≡◌};
ghost use Rattle.cli_base.specs.Outcomes.{exit_status};

use note_types::RuleName;

/// What a call of the program answers. docs/COMMANDS.md has the line that each prints.
#[derive(Clone, Copy, Debug, PartialEq, Eq)]
pub enum Outcome {
    /// The work is done; for a check, the code is neutral.
    Done,
    /// The check refuses the instruction at this place, an offset in bytes, by this rule.
    Refused { place: u32, rule: RuleName },
    /// The words are no command.
    BadWords,
    /// The file that this word names, counted from 0, isn't of its form, by the fault of this number;
    /// docs/COMMANDS.md has the numbers.
    BadInput { word: u8, fault: u8 },
    /// A read failed.
    ReadFault,
    /// The output failed.
    WriteFault,
    /// Memory ran out.
    NoMemory,
    /// The file that this word names, counted from 0, is past its limit.
    TooLarge { word: u8 },
    /// Two runs differ, first after so many steps.
    Differ { step: u64 },
    /// The folder has no file that this word, counted from 0, names.
    Missing { word: u8 },
}

impl Outcome {
    /// The exit status, from 0 to 9.
    pub fn code(&self) -> u8
        ensures { result ≡ exit_status self.now }
    {
        match self {
            Outcome::Done => 0,
            Outcome::Refused { .. } => 1,
            Outcome::BadWords => 2,
            Outcome::BadInput { .. } => 3,
            Outcome::ReadFault => 4,
            Outcome::WriteFault => 5,
            Outcome::NoMemory => 6,
            Outcome::TooLarge { .. } => 7,
            Outcome::Differ { .. } => 8,
            Outcome::Missing { .. } => 9,
        }
    }
}
