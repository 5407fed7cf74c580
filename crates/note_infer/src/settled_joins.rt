//! What was joined in once need not be joined in again.

ghost use Rattle.note_infer.specs.JoinLaws.{FirstAgain, StatesAgain, StatesSettle, TypesAgain, TypesSettle};

/// What was joined in is joined in again without a change, also where others were joined in since.
pub fn joins_settle()
    ensures types_again { TypesAgain }
    ensures types_settle { TypesSettle }
    ensures states_again { StatesAgain }
    ensures states_settle { StatesSettle }
    ensures first_again { FirstAgain }
{}
