//! Where an image is entered.

ghost use Rattle.std.specs.Prelude.{◌≡◌, All};
ghost use Rattle.std.specs.List.{find};
ghost use Rattle.std.specs.Option.{option_map};
ghost use Rattle.ebc_object.specs.declared.object.Symbol.{Symbol};
ghost use Rattle.ebc_link.specs.Layout.{place_in};
ghost use Rattle.ebc_link.specs.Links.{is_entry};
ghost use Rattle.ebc_link.specs.Walks.{HasSmallOffset, IsLow};

use crate::globals::is_definition;
use crate::layout::Home;
use ebc_base::Name;
use ebc_object::Symbol;

// Whether a symbol is the entry of this name, by how many bytes of code its object has.
fn is_entry(name: &Name, size: usize, symbol: &Symbol) -> bool
    ensures { result ≡ is_entry name.now size symbol.now }
{
    is_definition(symbol)
        && symbol.name == *name
        && symbol.kind == 1
        && symbol.offset % 2 == 0
        && (symbol.offset as usize) < size
}

/// The place of the entry of this name, if it is one of the symbols of an object with so many bytes of code.
pub(crate) fn entry(name: &Name, symbols: &[Symbol], size: usize, home: Home) -> Option<u32>
    requires low { IsLow home }
    requires offsets { All HasSmallOffset symbols.now }
    ensures { result ≡ option_map (λ (s : Symbol). place_in home 1 s.offset) (find (is_entry name.now size) symbols.now) }
{
    for symbol in symbols {
        if is_entry(name, size, symbol) {
            return Some(home.start(1) + symbol.offset);
        }
    }
    None
}
