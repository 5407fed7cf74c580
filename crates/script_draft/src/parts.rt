//! The texts of what cells hold and get, and of functions that are entered.
ghost use Rattle.std.specs.Prelude.{◌≡◌, IfOk, Some, None};
ghost use Rattle.script_draft.specs.PartTexts.{callback_of, cell_value_of, out_of, write_of};

use crate::pieces::values_of;
use crate::value::ValueText;
use note_texts::{FromText, number_of, parts_at, split_at};
use note_types::{Name, Sequence};
use std::alloc::{AllocError, Global};

/// `INSTANCE FIELD VALUE`, what a cell of an object holds at first.
#[derive(Drop)]
pub struct CellValueText {
    pub instance: u64,
    pub field: Name,
    pub value: ValueText,
}

/// `FUNCTION VALUE, VALUE`, a function that the firmware enters and the values of its parameters.
#[derive(Drop)]
pub struct CallbackText {
    pub function: Name,
    pub values: Sequence<ValueText>,
}

/// `ARGUMENT VALUE`, what a method leaves in the cell that an argument is the address of.
#[derive(Drop)]
pub struct OutText {
    pub argument: u64,
    pub value: ValueText,
}

/// `OBJECT INSTANCE FIELD VALUE`, what a method leaves in a cell of an object.
#[derive(Drop)]
pub struct WriteText {
    pub object: u64,
    pub instance: u64,
    pub field: Name,
    pub value: ValueText,
}

impl FromText for CellValueText {
    ghost reads_as = { cell_value_of };

    #[tactic(auto, unfolding(crate::specs::PartTexts::cell_value_of))]
    fn from_text(alloc: Global, text: &str) -> Result<Option<Self>, AllocError>
        ensures value { IfOk result (λ cell. cell ≡ cell_value_of text.now) }
    {
        let Some((instance, rest)) = split_at(b' ', text) else {
            return Ok(None);
        };
        let Some((field, value)) = split_at(b' ', rest) else {
            return Ok(None);
        };
        let Some(instance) = number_of(instance.as_bytes()) else {
            return Ok(None);
        };
        let Some(field) = Name::from_text(alloc, field)? else {
            return Ok(None);
        };
        let Some(value) = ValueText::from_text(alloc, value)? else {
            return Ok(None);
        };
        Ok(Some(CellValueText {
            instance,
            field,
            value,
        }))
    }
}

impl FromText for CallbackText {
    ghost reads_as = { callback_of };

    #[tactic(auto, unfolding(crate::specs::PartTexts::callback_of))]
    fn from_text(alloc: Global, text: &str) -> Result<Option<Self>, AllocError>
        ensures value { IfOk result (λ callback. callback ≡ callback_of text.now) }
    {
        let (name, rest) = parts_at(b' ', text);
        let Some(function) = Name::from_text(alloc, name)? else {
            return Ok(None);
        };
        let Some(rest) = rest else {
            return Ok(Some(CallbackText {
                function,
                values: Sequence::new(Vec::new(alloc)),
            }));
        };
        let Some(values) = values_of(alloc, rest)? else {
            return Ok(None);
        };
        Ok(Some(CallbackText { function, values }))
    }
}

impl FromText for OutText {
    ghost reads_as = { out_of };

    #[tactic(auto, unfolding(crate::specs::PartTexts::out_of))]
    fn from_text(alloc: Global, text: &str) -> Result<Option<Self>, AllocError>
        ensures value { IfOk result (λ out. out ≡ out_of text.now) }
    {
        let Some((argument, value)) = split_at(b' ', text) else {
            return Ok(None);
        };
        let Some(argument) = number_of(argument.as_bytes()) else {
            return Ok(None);
        };
        let Some(value) = ValueText::from_text(alloc, value)? else {
            return Ok(None);
        };
        Ok(Some(OutText { argument, value }))
    }
}

impl FromText for WriteText {
    ghost reads_as = { write_of };

    #[tactic(auto, unfolding(crate::specs::PartTexts::write_of))]
    fn from_text(alloc: Global, text: &str) -> Result<Option<Self>, AllocError>
        ensures value { IfOk result (λ write. write ≡ write_of text.now) }
    {
        let Some((object, rest)) = split_at(b' ', text) else {
            return Ok(None);
        };
        let Some(object) = number_of(object.as_bytes()) else {
            return Ok(None);
        };
        let Some(cell) = CellValueText::from_text(alloc, rest)? else {
            return Ok(None);
        };
        let CellValueText {
            instance,
            field,
            value,
        } = cell;
        Ok(Some(WriteText {
            object,
            instance,
            field,
            value,
        }))
    }
}
