//! What the tables of a text are filled with, and its lists.
use crate::context::{Context, Found};
use crate::known::Known;
use toml::Value;

/// The labels, and what else of the text says what its tables leave out.
#[derive(Clone, Copy)]
pub(crate) struct Rows<'a> {
    pub context: Context<'a>,
    pub known: &'a Known,
    pub found: Found<'a>,
}

/// The lists of a text in whose tables labels may stand; none where no list stands at the key.
#[derive(Drop)]
pub(crate) struct Lists {
    pub statics: Option<Vec<Value>>,
    pub thunks: Option<Vec<Value>>,
    pub functions: Option<Vec<Value>>,
    pub points: Option<Vec<Value>>,
    pub sites: Option<Vec<Value>>,
}

/// The numbers that functions, points and sites had before they were put in order.
#[derive(Drop)]
pub(crate) struct Orders {
    pub functions: Vec<usize>,
    pub points: Vec<usize>,
    pub sites: Vec<usize>,
}
