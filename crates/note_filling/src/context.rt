//! What a text is filled with.
use ebc_base::Name;
use label_places::Labels;
use note_types::Pair;
use toml::Value;

/// The labels of a plan's objects, and the names of the objects' files.
#[derive(Clone, Copy)]
pub struct Context<'a> {
    pub labels: &'a Labels,
    pub names: &'a [Name],
}

/// What was found in the code: the levels and needs of functions in the order of the text, as far as they are known. 0 stands for others.
#[derive(Clone, Copy)]
pub struct Found<'a> {
    pub levels: &'a [u64],
    pub needs: &'a [Pair],
}

/// Points and sites that a text doesn't have.
#[derive(Drop)]
pub struct More {
    pub points: Vec<Value>,
    pub sites: Vec<Value>,
}
