//! Laws of what is read and printed.
ghost use Rattle.protocol_script.specs.PrintedLaw.{PrintedArgumentsAreRead, PrintedValuesAreRead};
ghost use Rattle.protocol_script.specs.ReadLaw.{ReadArgumentsAreRead, ReadNamesAreGiven, ReadValuesAreRead};

/// What reports print of a value that scripts can write is read as that value, under notes whose names are apart; and so it is
/// with arguments.
pub fn printed_texts_are_read()
    ensures values { PrintedValuesAreRead }
    ensures arguments { PrintedArgumentsAreRead }
{}

/// The functions and the methods of notes that a text stands for have names that texts can have, each a name of its own.
pub fn read_names_are_given()
    ensures { ReadNamesAreGiven }
{}

/// Under notes that a text stands for, what reports print of a value that scripts can write is read as that value, and so it is
/// with arguments.
pub fn read_notes_print_and_read()
    ensures values { ReadValuesAreRead }
    ensures arguments { ReadArgumentsAreRead }
{}
