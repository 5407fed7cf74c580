//! The law of printed types.
ghost use Rattle.printed_texts.specs.NamedTypes.{PrintedTypesAreRead};

/// What is printed of a type of a function is read as that type, things of the notes and fields of locals by their names, where these
/// have names that texts can have.
#[tactic(auto, using(crate::proofs::PrintedTypeLaws::printed_types))]
pub fn printed_types_are_read()
    ensures { PrintedTypesAreRead }
{}
