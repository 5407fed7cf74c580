//! Labels sought by references.

ghost use Rattle.std.specs.Prelude.{◌≡◌, slice_get, option_map};
ghost use Rattle.label_places.specs.Sought.{is_object, position_of};
ghost use Rattle.label_places.specs.Views.{is_meant_in, meant_so_far, only_in, reference_view};

use crate::label::{Labels, Position};
use crate::reference::Reference;
use ebc_base::Name;

/// Why no label is meant.
#[derive(Clone, Copy, PartialEq, Eq)]
pub enum NotFound {
    /// None has the name.
    Unknown,
    /// Several have it.
    Several,
}

// Whether the object of this name is meant.
fn is_object(object: Option<&str>, name: Option<&Name>) -> bool
    ensures { result ≡ is_object (option_map (λ o. o.now) object.entry) (option_map (λ n. n.now) name.entry) }
{
    match (object, name) {
        (None, _) => true,
        (Some(_), None) => false,
        (Some(object), Some(name)) => name.as_str() == object,
    }
}

// Whether a position is in an object that is meant.
fn is_meant_in(names: &[Name], object: Option<&str>, position: Position) -> bool
    ensures { result ≡ is_meant_in names.now (option_map (λ o. o.now) object.entry) position }
{
    is_object(object, names.get(position.object))
}

// Whether a label is meant beside one that was, or not: the one that is meant so far.
fn meant_so_far(
    found: Option<Position>,
    position: Position,
    is_meant: bool,
) -> Result<Option<Position>, NotFound>
    ensures { result ≡ meant_so_far found position is_meant }
{
    match found {
        Some(_) if is_meant => Err(NotFound::Several),
        None if is_meant => Ok(Some(position)),
        _ => Ok(found),
    }
}

// Where the one of some labels stands that is in an object of this name.
fn only_in(
    names: &[Name],
    positions: &[Position],
    object: Option<&str>,
) -> Result<Position, NotFound>
    ensures { result ≡ only_in names.now (option_map (λ o. o.now) object.entry) positions.now }
{
    let mut found: Option<Position> = None;
    for position in positions {
        let is_meant = is_meant_in(names, object, *position);
        match meant_so_far(found, *position, is_meant) {
            Ok(so_far) => found = so_far,
            Err(end) => return Err(end),
        }
    }
    found.ok_or(NotFound::Unknown)
}

impl Labels {
    /// Where the one label stands that a reference names, over objects whose files have these names. It looks only at the labels of that
    /// name, which it finds by halving.
    ///
    /// # Errors
    ///
    /// Unknown where no label is meant, and Several where two or more are.
    pub fn find(&self, names: &[Name], reference: &Reference) -> Result<Position, NotFound>
        ensures { result ≡ position_of names.now self.now.labels (reference_view reference.now) }
    {
        match self.by_name.get(reference.name) {
            Some(positions) => only_in(names, positions.as_slice(), reference.object),
            None => Err(NotFound::Unknown),
        }
    }
}
