//! The programs, and what their words stand for.
ghost use Rattle.std.specs.Prelude.{◌≡◌};
ghost use Rattle.explain_answers.specs.Words.{program_name};

/// A program whose answers are explained.
#[derive(Clone, Copy)]
pub enum Program {
    Ebc,
    EbcPlaces,
    EbcNotes,
    EbcLint,
}

impl Program {
    /// Its name.
    pub fn name(&self) -> &'static str
        ensures { result.now ≡ program_name self.now }
    {
        match self {
            Program::Ebc => "ebc",
            Program::EbcPlaces => "ebc_places",
            Program::EbcNotes => "ebc_notes",
            Program::EbcLint => "ebc_lint",
        }
    }

    /// Whether it completes notes.
    pub(crate) fn completes(&self) -> bool {
        match self {
            Program::EbcNotes => true,
            Program::Ebc | Program::EbcPlaces | Program::EbcLint => false,
        }
    }
}

/// What a word stands for.
#[derive(Clone, Copy)]
pub(crate) enum Slot {
    Image,
    Notes,
    Script,
    Image2,
    Notes2,
    Script2,
    Binds,
    Plan,
    Source,
    Code,
    Rom,
    NewObject,
    NewImage,
    NewRom,
    Width,
    Steps,
    PairSteps,
    Number,
    Count,
    Vendor,
    Device,
    Wrap,
    List,
    Take,
}

/// What becomes of a word.
#[derive(Clone, Copy)]
pub(crate) enum Use {
    /// It names a file that is read.
    Read,
    /// It names a file that is written.
    Written,
    /// It is a number with a limit.
    Number,
    /// It is one of few words.
    Word,
}

impl Slot {
    /// What it becomes.
    pub fn purpose(&self) -> Use {
        match self {
            Slot::Image
            | Slot::Notes
            | Slot::Script
            | Slot::Image2
            | Slot::Notes2
            | Slot::Script2
            | Slot::Binds
            | Slot::Plan
            | Slot::Source
            | Slot::Code
            | Slot::Rom => Use::Read,
            Slot::NewObject | Slot::NewImage | Slot::NewRom => Use::Written,
            Slot::Steps | Slot::PairSteps | Slot::Number | Slot::Count => Use::Number,
            Slot::Width | Slot::Vendor | Slot::Device | Slot::Wrap | Slot::List | Slot::Take =>
                Use::Word,
        }
    }

    /// Its name in a usage line.
    pub fn name(&self) -> &'static str {
        match self {
            Slot::Image | Slot::NewImage => "IMAGE",
            Slot::Notes => "NOTES",
            Slot::Script => "SCRIPT",
            Slot::Image2 => "IMAGE2",
            Slot::Notes2 => "NOTES2",
            Slot::Script2 => "SCRIPT2",
            Slot::Binds => "BINDS",
            Slot::Plan => "PLAN",
            Slot::Source => "SRC",
            Slot::Code => "CODE",
            Slot::Rom | Slot::NewRom => "ROM",
            Slot::NewObject => "OBJ",
            Slot::Width => "WIDTH",
            Slot::Steps | Slot::PairSteps => "STEPS",
            Slot::Number => "NUMBER",
            Slot::Count => "N",
            Slot::Vendor => "VENDOR",
            Slot::Device => "DEVICE",
            Slot::Wrap => "wrap",
            Slot::List => "list",
            Slot::Take => "take",
        }
    }

    /// How many bytes its file may have, or how great its number may be. docs/COMMANDS.md, "Commands", has the limits.
    pub fn limit(&self) -> u64 {
        match self {
            Slot::Image | Slot::Image2 => 4_194_304,
            Slot::Code => 262_144,
            Slot::Rom => 16_777_216,
            Slot::Steps => 10_000_000,
            Slot::PairSteps => 100_000,
            Slot::Number => 65_535,
            Slot::Count => 4_096,
            _ => 1_048_576,
        }
    }
}

// The slots of `rom`, by its second word, which is the first of them.
fn rom_slots(second: &str) -> Option<&'static [Slot]> {
    match second {
        "wrap" => Some(&[
            Slot::Wrap,
            Slot::Vendor,
            Slot::Device,
            Slot::Image,
            Slot::NewRom,
        ]),
        "list" => Some(&[Slot::List, Slot::Rom]),
        "take" => Some(&[Slot::Take, Slot::Rom, Slot::Number, Slot::NewImage]),
        _ => None,
    }
}

// The slots of the commands that run programs.
fn run_slots(command: &str) -> Option<&'static [Slot]> {
    match command {
        "run" => Some(&[
            Slot::Width,
            Slot::Image,
            Slot::Notes,
            Slot::Script,
            Slot::Steps,
        ]),
        "twin" => Some(&[Slot::Image, Slot::Notes, Slot::Script, Slot::Steps]),
        "pair" => Some(&[
            Slot::Image,
            Slot::Notes,
            Slot::Script,
            Slot::Image2,
            Slot::Notes2,
            Slot::Script2,
            Slot::Binds,
            Slot::PairSteps,
        ]),
        "sample" => Some(&[Slot::Count]),
        _ => None,
    }
}

// The slots of the commands that run nothing.
fn file_slots(command: &str) -> Option<&'static [Slot]> {
    match command {
        "asm" => Some(&[Slot::Source, Slot::NewObject]),
        "link" => Some(&[Slot::Plan, Slot::NewImage]),
        "list" => Some(&[Slot::Image]),
        "check" | "infer" => Some(&[Slot::Image, Slot::Notes]),
        _ => None,
    }
}

/// What the words after the command `first` of `ebc` stand for; none if there is no such command. Of `rom` the second word is among them.
pub(crate) fn command_slots(first: &str, rest: &[String]) -> Option<&'static [Slot]> {
    if first == "rom" {
        return rom_slots(rest.first()?.as_str());
    }
    if first == "check" && rest.len() == 1 {
        return Some(&[Slot::Code]);
    }
    match file_slots(first) {
        Some(slots) => Some(slots),
        None => run_slots(first),
    }
}

/// What the words of `ebc_notes` stand for.
pub(crate) fn notes_slots(count: usize) -> &'static [Slot] {
    match count {
        1 => &[Slot::Plan],
        _ => &[Slot::Plan, Slot::Notes],
    }
}
