//! Laws of what scripts write, of what the host reads, sees and places, of what cells take and where they lie, and of thunks.
ghost use Rattle.neutral_machine.specs.CellLaw.{CellsTakeWhatFits};
ghost use Rattle.neutral_machine.specs.Laws.{CellsApart, ThunkMade};
ghost use Rattle.neutral_machine.specs.Named.{ThingsAreNamed};
ghost use Rattle.neutral_machine.specs.RangeLaw.{RangesLieAsMemory, StackIsWithinLimit};
ghost use Rattle.neutral_machine.specs.ReadingLaw.{ReadingsAlike};
ghost use Rattle.neutral_machine.specs.TurnLaw.{SeenIsTurn, TurnIsSeen};
ghost use Rattle.neutral_machine.specs.WrittenLaw.{WrittenFits, WrittenNumberShows};

/// Under a valid placement things have addresses of their own, and typed objects lie apart within the width, where they are
/// as the rules on an image and the reader of scripts have them.
pub fn things_are_named()
    ensures { ThingsAreNamed }
{}

/// A written value that fits a type has a neutral value that fits it.
pub fn written_value_fits()
    ensures { WrittenFits }
{}

/// The number of a written value, at either width, shows its neutral value.
pub fn written_number_shows()
    ensures { WrittenNumberShows }
{}

/// A number that shows a neutral value is read, at either width, as the value is.
pub fn readings_are_alike()
    ensures { ReadingsAlike }
{}

/// All that the host places under a valid placement lies as the objects of a machine's memory do: above address 0, within the
/// width, and apart.
pub fn ranges_lie_as_memory()
    ensures { RangesLieAsMemory }
{}

/// The stack of notes that a reader gives is within the limit, at either width.
pub fn stack_is_within_limit()
    ensures { StackIsWithinLimit }
{}

/// A cell takes exactly the values that fit its content type.
pub fn cells_take_what_fits()
    ensures { CellsTakeWhatFits }
{}

/// The host sees something exactly where the step is its own, and the neutral machine, which may be stuck, only there.
pub fn turn_is_seen()
    ensures at_width { TurnIsSeen }
    ensures neutral { SeenIsTurn }
{}

/// The law that two typed cells share no byte, at either width, wherever the objects lie.
pub fn cells_apart()
    ensures { CellsApart }
{}

/// The law that the machine stands with one thunk more once the thunk's address is stored in the next cell (UEFI
/// specification, "BREAK", break code 5).
pub fn thunk_made()
    ensures { ThunkMade }
{}
