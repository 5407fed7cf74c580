//! What objects define for all, and the places of their symbols.

ghost use Rattle.std.specs.Prelude.{◌≡◌, ◌+◌, ◌<◌, ◌≤◌, ◌^◌, ◌++◌, ◌∷◌, [], bytes_eq, length, map, not, slice_get, All, IfOk, OnOk};
ghost use Rattle.std.specs.List.{find};
ghost use Rattle.std.specs.Option.{option_map};
ghost use Rattle.ebc_base.specs.Steps.{only_if};
ghost use Rattle.ebc_object.specs.declared.object.Symbol.{Symbol};
ghost use Rattle.ebc_object.specs.Objects.{IsObject, most};
ghost use Rattle.ebc_link.specs.Layout.{laid_with};
ghost use Rattle.ebc_link.specs.Symbols.{Definition, definitions, definitions_in, first_again, first_in, is_definition, is_undefined};
ghost use Rattle.ebc_link.specs.Symbols.{names_of, places_of, symbol_place, undefined_in};
ghost use Rattle.ebc_link.specs.Links.{Twice, Undefined, unless_some};
ghost use Rattle.ebc_link.specs.Walks.{Checks, HasSmallOffset, IsLow, IsPaired, defined};

use crate::end::LinkEnd;
use crate::layout::Home;
use ebc_base::{Name, NameTable, Sequence};
use ebc_object::{Object, Symbol};
use std::alloc::Global;

/// The places of an object's symbols, by their numbers.
pub(crate) type SymbolPlaces = Sequence<u32>;

/// What objects define for all: the names, and the place of each.
#[derive(Drop)]
pub(crate) struct Globals {
    pub names: NameTable,
    pub places: Vec<u32>,
}

/// Whether a symbol defines a name that all objects see.
pub(crate) fn is_definition(symbol: &Symbol) -> bool
    ensures { result ≡ is_definition symbol.now }
{
    symbol.global == 1 && symbol.kind != 0
}

impl Globals {
    // Nothing is defined.
    fn new(alloc: Global) -> Globals
        ensures paired { IsPaired result }
        ensures none { defined result ≡ [] }
        ensures empty { length result.names ≡ 0 }
    {
        Globals {
            names: NameTable::new(alloc),
            places: Vec::new(alloc),
        }
    }

    // Takes what a symbol defines for all.
    fn add(&mut self, alloc: Global, symbol: &Symbol, home: Home) -> Result<(), LinkEnd>
        requires low { IsLow home }
        requires offset { HasSmallOffset symbol.now }
        requires room { length self.old.names < 2 ^ 30 }
        requires paired { IsPaired self.old }
        ensures twice { Checks result (unless_some Twice
            (first_again (names_of (defined self.old)) (names_of (definitions_in home (symbol.now ∷ []))))) }
        ensures defined { OnOk result (defined self.new ≡ defined self.old ++ definitions_in home (symbol.now ∷ [])) }
        ensures paired { OnOk result (IsPaired self.new) }
        ensures few { OnOk result (length self.new.names ≤ length self.old.names + 1) }
    {
        if !is_definition(symbol) {
            return Ok(());
        }
        if !self.names.add(alloc, &symbol.name)? {
            return Err(LinkEnd::Twice(symbol.name.copy(alloc)?));
        }
        self.places.push(home.start(symbol.kind) + symbol.offset)?;
        Ok(())
    }

    // Takes what symbols define for all.
    fn add_all(&mut self, alloc: Global, symbols: &[Symbol], home: Home) -> Result<(), LinkEnd>
        requires low { IsLow home }
        requires offsets { All HasSmallOffset symbols.now }
        requires few { length symbols.now ≤ most }
        requires room { length self.old.names ≤ 2 ^ 29 }
        requires paired { IsPaired self.old }
        ensures twice { Checks result (unless_some Twice
            (first_again (names_of (defined self.old)) (names_of (definitions_in home symbols.now)))) }
        ensures defined { OnOk result (defined self.new ≡ defined self.old ++ definitions_in home symbols.now) }
        ensures paired { OnOk result (IsPaired self.new) }
        ensures few { OnOk result (length self.new.names ≤ length self.old.names + most) }
    {
        for symbol in symbols {
            self.add(alloc, symbol, home)?;
        }
        Ok(())
    }

    /// What objects define for all.
    ///
    /// # Errors
    ///
    /// Twice: the first name that is defined again. Or there was no memory.
    pub fn of(alloc: Global, objects: &[Object], homes: &[Home]) -> Result<Globals, LinkEnd>
        requires objects { All IsObject objects.now }
        requires few { length objects.now ≤ 256 }
        requires homes { length homes.now ≡ length objects.now }
        requires low { All IsLow homes.now }
        ensures twice { Checks result (unless_some Twice (first_again [] (names_of (definitions (laid_with objects.now homes.now))))) }
        ensures defined { IfOk result (λ globals. defined globals ≡ definitions (laid_with objects.now homes.now)) }
        ensures paired { IfOk result IsPaired }
    {
        let mut globals = Globals::new(alloc);
        for (number, object) in objects.iter().enumerate() {
            globals.add_all(alloc, object.symbols.as_slice(), homes[number])?;
        }
        Ok(globals)
    }

    // The place of a number.
    fn place_numbered(&self, number: usize) -> Option<u32>
        ensures { result ≡ slice_get self.now.places.items number }
    {
        self.places.as_slice().get(number).copied()
    }

    // The place of the definition of a name, if there is one.
    fn place(&self, name: &Name) -> Option<u32>
        requires { IsPaired self.now }
        ensures { result ≡ option_map (λ (d : Definition). d.place)
            (find (λ (d : Definition). bytes_eq name.now d.name) (defined self.now)) }
    {
        self.place_numbered(self.names.number(name) as usize)
    }

    // The place of a symbol of an object, unless nothing defines its name.
    fn symbol_place(&self, symbol: &Symbol, home: Home) -> Option<u32>
        requires low { IsLow home }
        requires offset { HasSmallOffset symbol.now }
        requires paired { IsPaired self.now }
        ensures { result ≡ only_if (not (is_undefined (defined self.now) symbol.now)) (symbol_place (defined self.now) home symbol.now) }
    {
        if symbol.kind == 0 {
            self.place(&symbol.name)
        } else {
            Some(home.start(symbol.kind) + symbol.offset)
        }
    }

    // The places of the symbols of an object.
    fn symbol_places(
        &self,
        alloc: Global,
        symbols: &[Symbol],
        home: Home,
    ) -> Result<SymbolPlaces, LinkEnd>
        requires low { IsLow home }
        requires offsets { All HasSmallOffset symbols.now }
        requires paired { IsPaired self.now }
        ensures undefined { Checks result (unless_some Undefined
            (option_map (λ (s : Symbol). s.name) (find (is_undefined (defined self.now)) symbols.now))) }
        ensures places { IfOk result (λ places. places ≡ map (symbol_place (defined self.now) home) symbols.now) }
    {
        let mut places = Vec::with_capacity(alloc, symbols.len())?;
        for symbol in symbols {
            match self.symbol_place(symbol, home) {
                Some(place) => places.push(place)?,
                None => return Err(LinkEnd::Undefined(symbol.name.copy(alloc)?)),
            }
        }
        Ok(Sequence::new(places))
    }

    /// The places of the symbols of each object.
    ///
    /// # Errors
    ///
    /// Undefined: the first symbol that its object doesn't define, and no other defines for all. Or there was no memory.
    pub fn places(
        &self,
        alloc: Global,
        objects: &[Object],
        homes: &[Home],
    ) -> Result<Vec<SymbolPlaces>, LinkEnd>
        requires objects { All IsObject objects.now }
        requires homes { length homes.now ≡ length objects.now }
        requires low { All IsLow homes.now }
        requires paired { IsPaired self.now }
        ensures undefined { Checks result (unless_some Undefined
            (first_in (undefined_in (defined self.now)) (laid_with objects.now homes.now))) }
        ensures places { IfOk result (λ places. places.items ≡ map (places_of (defined self.now)) (laid_with objects.now homes.now)) }
    {
        let mut places = Vec::with_capacity(alloc, objects.len())?;
        for (number, object) in objects.iter().enumerate() {
            places.push(self.symbol_places(alloc, object.symbols.as_slice(), homes[number])?)?;
        }
        Ok(places)
    }
}
