//! The objects that are linked, once each symbol has a place.

ghost use Rattle.std.specs.Prelude.{◌≡◌, ◌⊎◌, ◌+◌, ◌-◌, ◌<◌, ◌≤◌, ◌^◌, ◌++◌, ◌∷◌, drop, length, All, IfOk, OnOk};
ghost use Rattle.std.specs.List.{flat_map};
ghost use Rattle.ebc_object.specs.Objects.{IsObject};
ghost use Rattle.pe_image.specs.Files.{zeros};
ghost use Rattle.pe_image.specs.Mapped.{AreBytes};
ghost use Rattle.ebc_link.specs.Fixups.{far_in, filled_section, relocs_in, relocs_of};
ghost use Rattle.ebc_link.specs.Layout.{contents_start, laid_objects, section_from};
ghost use Rattle.ebc_link.specs.Links.{entry_in, linked_image};
ghost use Rattle.ebc_link.specs.Symbols.{definitions, first_in, places_of};
ghost use Rattle.ebc_link.specs.Walks.{ArePacked, Checks, IsBounds, IsPiece, IsResolved, resolution, defined_in, laid_in, laid_of};

use crate::end::LinkEnd;
use crate::globals::{Globals, SymbolPlaces};
use crate::layout::{Bounds, CODE_START, Home, homes};
use crate::piece::Piece;
use crate::plan::LinkPlan;
use crate::sections::linked_sections;
use ebc_base::{Name, Sequence};
use ebc_object::Object;
use pe_image::Image;
use std::alloc::{AllocError, Global};

/// Objects, where they stand, what they define for all, and the places of the symbols of each.
#[derive(Drop)]
pub(crate) struct Resolved<'a> {
    pub objects: &'a [Object],
    pub homes: Vec<Home>,
    pub globals: Globals,
    pub places: Vec<SymbolPlaces>,
}

// Appends so many zeros.
fn append_zeros(bytes: &mut Vec<u8>, count: usize) -> Result<(), AllocError>
    requires { count ≤ 2 ^ 30 }
    ensures { OnOk result (bytes.new.items ≡ bytes.old.items ++ zeros count) }
{
    bytes.resize(bytes.len() + count, 0)
}

impl<'a> Resolved<'a> {
    /// Objects whose symbols have places, with the data from a place on.
    ///
    /// # Errors
    ///
    /// Twice: the first name that is defined again. Else Undefined: the first symbol that nothing defines. Or there was no
    /// memory.
    pub fn of(alloc: Global, objects: &'a [Object], start: u32) -> Result<Resolved<'a>, LinkEnd>
        requires objects { All IsObject objects.now }
        requires few { length objects.now ≤ 256 }
        requires start { start ≡ contents_start objects.now }
        requires small { start ≤ 2 ^ 29 + 0x1000 }
        ensures resolution { Checks result (resolution (laid_objects objects.now)) }
        ensures resolved { IfOk result IsResolved }
        ensures objects { IfOk result (λ resolved. resolved.objects.now ≡ objects.now) }
        ensures definitions { IfOk result (λ resolved. defined_in resolved ≡ definitions (laid_objects objects.now)) }
    {
        let homes = homes(alloc, objects, start)?;
        let globals = Globals::of(alloc, objects, &homes)?;
        let places = globals.places(alloc, objects, &homes)?;
        Ok(Resolved {
            objects,
            homes,
            globals,
            places,
        })
    }

    // The object of a number.
    fn piece(&self, number: usize) -> Piece<'_>
        requires resolved { IsResolved self.now }
        requires number { number < length self.now.objects.now }
        ensures piece { IsPiece result }
        ensures laid { drop number (laid_in self.now) ≡ laid_of result ∷ drop (number + 1) (laid_in self.now) }
        ensures places { result.places.now ≡ places_of (defined_in self.now) (laid_of result) }
    {
        Piece {
            object: &self.objects[number],
            home: self.homes[number],
            places: self.places[number].as_slice(),
        }
    }

    /// Where the first fixup is whose bytes don't hold its distance.
    pub fn first_far(&self) -> Option<u32>
        requires { IsResolved self.now }
        ensures { result ≡ first_in (far_in (defined_in self.now)) (laid_in self.now) }
    {
        for number in 0..self.objects.len() {
            if let Some(place) = self.piece(number).first_far() {
                return Some(place);
            }
        }
        None
    }

    /// The place of the entry of this name, if an object has it.
    pub fn entry(&self, name: &Name) -> Option<u32>
        requires { IsResolved self.now }
        ensures { result ≡ first_in (entry_in name.now) (laid_in self.now) }
    {
        for number in 0..self.objects.len() {
            if let Some(place) = self.piece(number).entry(name) {
                return Some(place);
            }
        }
        None
    }

    // Appends the places of the addresses in a section.
    fn append_relocs(&self, relocs: &mut Vec<u32>, section: u8) -> Result<(), AllocError>
        requires { IsResolved self.now }
        ensures { OnOk result (relocs.new.items ≡ relocs.old.items ++ flat_map (relocs_in section) (laid_in self.now)) }
    {
        for number in 0..self.objects.len() {
            self.piece(number).append_relocs(relocs, section)?;
        }
        Ok(())
    }

    /// The places of addresses, ascending.
    #[tactic(auto, unfolding(crate::specs::Fixups::relocs_of))]
    pub fn relocs(&self, alloc: Global) -> Result<Vec<u32>, AllocError>
        requires { IsResolved self.now }
        ensures { IfOk result (λ relocs. relocs.items ≡ relocs_of (laid_in self.now)) }
    {
        let mut relocs = Vec::new(alloc);
        self.append_relocs(&mut relocs, 1)?;
        self.append_relocs(&mut relocs, 2)?;
        Ok(relocs)
    }

    // The bytes of the code or of the data of all objects, from a place to an end, in an image for this base.
    fn bytes(
        &self,
        alloc: Global,
        section: u8,
        start: u32,
        end: u32,
        base: u64,
    ) -> Result<Vec<u8>, AllocError>
        requires resolved { IsResolved self.now }
        requires section { (section ≡ 1) ⊎ (section ≡ 2) }
        requires base { base < 2 ^ 32 }
        requires packed { ArePacked section (filled_section section base (defined_in self.now)) start (laid_in self.now) }
        ensures { IfOk result (λ bytes.
            bytes.items ≡ section_from section (filled_section section base (defined_in self.now)) start (laid_in self.now)) }
    {
        let mut bytes = Vec::with_capacity(alloc, end.saturating_sub(start) as usize)?;
        for number in 0..self.objects.len() {
            let piece = self.piece(number);
            let at = start as usize + bytes.len();
            append_zeros(&mut bytes, piece.home.start(section) as usize - at)?;
            piece.append_bytes(&mut bytes, section, base)?;
        }
        Ok(bytes)
    }

    /// The image of the objects, entered at a place, of a size, and with relocations at these places.
    #[tactic(auto, unfolding(crate::specs::Links::linked_image))]
    pub fn image(
        &self,
        alloc: Global,
        plan: &LinkPlan,
        bounds: Bounds,
        entry: u32,
        size: u32,
        relocs: Vec<u32>,
    ) -> Result<Image, AllocError>
        requires resolved { IsResolved self.now }
        requires base { plan.now.base < 2 ^ 32 }
        requires bounds { IsBounds self.now.objects.now bounds }
        requires size { size ≡ (linked_image plan.now (defined_in self.now) (laid_in self.now) bounds.contents_start entry).size }
        requires relocs { relocs.items ≡ relocs_of (laid_in self.now) }
        ensures image { IfOk result (λ image.
            image ≡ linked_image plan.now (defined_in self.now) (laid_in self.now) bounds.contents_start entry) }
        ensures bytes { IfOk result AreBytes }
    {
        let text = self.bytes(alloc, 1, CODE_START, bounds.code_end, plan.base)?;
        let start = bounds.contents_start;
        let contents = self.bytes(alloc, 2, start, bounds.contents_end, plan.base)?;
        Ok(Image {
            base: plan.base,
            entry,
            size,
            subsystem: plan.subsystem,
            sections: Sequence::new(linked_sections(alloc, text, contents)?),
            relocs: Sequence::new(relocs),
        })
    }
}
