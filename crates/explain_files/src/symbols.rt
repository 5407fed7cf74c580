//! Where the fixups and the symbols of objects stand in the image that they are linked to.

use ebc_link::{Home, LinkPlan};
use ebc_object::{Fixup, Object, Symbol};

/// An object with the name of its file and its home.
#[derive(Clone, Copy)]
pub(crate) struct Laid<'a> {
    pub file: &'a str,
    pub object: &'a Object,
    pub home: Home,
}

/// The name of the file of an object, by its number in the plan; empty if the plan has no such number.
pub(crate) fn file_name(plan: &LinkPlan, number: usize) -> &str {
    match plan.objects.as_slice().get(number) {
        Some(name) => name.as_str(),
        None => "",
    }
}

/// The place of an offset in a section of an object: 2 is the data, and any other the code.
pub(crate) fn place_in(home: Home, section: u8, offset: u32) -> u64 {
    let start = if section == 2 {
        home.contents
    } else {
        home.code
    };
    u64::from(start) + u64::from(offset)
}

// The fixup of an object at a place.
fn fixup_at(object: &Object, home: Home, place: u32) -> Option<&Fixup> {
    for fixup in object.fixups.as_slice() {
        if place_in(home, fixup.section, fixup.offset) == u64::from(place) {
            return Some(fixup);
        }
    }
    None
}

/// The fixup at a place, with its object.
pub(crate) fn fixup_in<'a>(
    plan: &'a LinkPlan,
    objects: &'a [Object],
    homes: &[Home],
    place: u32,
) -> Option<(Laid<'a>, &'a Fixup)> {
    for (number, (object, home)) in objects.iter().zip(homes.iter()).enumerate() {
        if let Some(fixup) = fixup_at(object, *home, place) {
            let laid = Laid {
                file: file_name(plan, number),
                object,
                home: *home,
            };
            return Some((laid, fixup));
        }
    }
    None
}

/// The definition of a name that all objects see, if an object has one.
pub(crate) fn definition_in<'a>(object: &'a Object, name: &str) -> Option<&'a Symbol> {
    for symbol in object.symbols.as_slice() {
        if symbol.kind != 0 && symbol.global == 1 && symbol.name.as_str() == name {
            return Some(symbol);
        }
    }
    None
}

// The place of a symbol of an object with a home, if it is defined.
fn symbol_place(objects: &[Object], homes: &[Home], home: Home, symbol: &Symbol) -> Option<u64> {
    if symbol.kind != 0 {
        return Some(place_in(home, symbol.kind, symbol.offset));
    }
    for (object, home) in objects.iter().zip(homes.iter()) {
        if let Some(definition) = definition_in(object, symbol.name.as_str()) {
            return Some(place_in(*home, definition.kind, definition.offset));
        }
    }
    None
}

/// The symbol of a fixup of an object, and its place, if it is defined.
pub(crate) fn target_of<'a>(
    objects: &[Object],
    homes: &[Home],
    laid: &Laid<'a>,
    fixup: &Fixup,
) -> Option<(&'a Symbol, u64)> {
    let symbol = laid.object.symbols.as_slice().get(fixup.symbol as usize)?;
    let place = symbol_place(objects, homes, laid.home, symbol)?;
    Some((symbol, place))
}
