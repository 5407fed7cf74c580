//! The names that notes give.
use ebc_base::NameTable;

/// The names that notes give, by their numbers.
#[derive(Drop)]
pub struct NameTables {
    pub shape: NameTable,
    pub function: NameTable,
    pub signature: NameTable,
    /// The methods, in the order in which the signatures first name them.
    pub method: NameTable,
}
