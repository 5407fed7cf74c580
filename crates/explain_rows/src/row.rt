//! What is said of a row, by the rule that fails.

ghost use Rattle.ebc_insn.specs.Spelling.{WellFormed};

use crate::arguments::{said_of_arguments, said_of_lent};
use crate::calls::{said_of_level, said_of_site};
use crate::form::said_of_form;
use crate::memory::{said_of_address, said_of_null, said_of_unwritten};
use crate::numbers::{said_of_compare, said_of_divide};
use crate::returns::said_of_return;
use crate::stack::said_of_stack;
use crate::store::said_of_store;
use crate::thunks::said_of_thunk;
use explain_base::{Said, Scene};
use note_types::RuleName;

/// What is said of an instruction that is refused by a rule of its row: what was found and what the rule wants, with the key of the
/// notes that is concerned. `None` for other rules, and where nothing is known beside the place and the rule.
pub fn row_said(scene: &Scene, rule: RuleName) -> Option<Said>
    requires { WellFormed scene.now.insn.now }
{
    match rule {
        RuleName::Form => said_of_form(scene),
        RuleName::Stack => Some(said_of_stack(scene)),
        RuleName::Address => said_of_address(scene),
        RuleName::Null => said_of_null(scene),
        RuleName::Unwritten => match said_of_unwritten(scene) {
            Some(said) => Some(said),
            None => said_of_lent(scene),
        },
        RuleName::Store => said_of_store(scene),
        RuleName::Compare => said_of_compare(scene),
        RuleName::Divide => said_of_divide(scene),
        RuleName::Site => said_of_site(scene),
        RuleName::Level => said_of_level(scene),
        RuleName::Thunk => Some(said_of_thunk(scene)),
        RuleName::Arguments => said_of_arguments(scene),
        RuleName::Return => Some(said_of_return(scene)),
        _ => None,
    }
}
