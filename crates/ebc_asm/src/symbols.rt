//! The symbols of a source.

ghost use Rattle.std.specs.Prelude.{◌≡◌, length, IfOk};
ghost use Rattle.ebc_asm.specs.Held.{symbols_of};

use crate::names::Standing;
use ebc_base::Name;
use ebc_object::Symbol;
use std::alloc::{AllocError, Global};

// The symbols of names and of their places.
pub(crate) fn symbols(
    alloc: Global,
    names: Vec<Name>,
    places: Vec<Standing>,
) -> Result<Vec<Symbol>, AllocError>
    requires { length places.items ≡ length names.items }
    ensures { IfOk result (λ symbols. symbols.items ≡ symbols_of names.items places.items) }
{
    let mut symbols = Vec::new(alloc);
    let mut rest = places.into_iter();
    for name in names {
        let Some(place) = rest.next() else {
            return Ok(symbols);
        };
        let (kind, global, offset) = (place.kind, place.global, place.offset);
        symbols.push(Symbol {
            name,
            kind,
            global,
            offset,
        })?;
    }
    Ok(symbols)
}
