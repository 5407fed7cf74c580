//! One object of those that are linked, where it stands.

ghost use Rattle.std.specs.Prelude.{◌≡◌, ◌⊎◌, ◌<◌, ◌^◌, ◌++◌, not, OnOk};
ghost use Rattle.std.specs.List.{find};
ghost use Rattle.std.specs.Option.{option_map};
ghost use Rattle.ebc_object.specs.Objects.{section_bytes};
ghost use Rattle.ebc_object.specs.declared.object.Fixup.{Fixup};
ghost use Rattle.ebc_link.specs.Fixups.{bytes_for, in_section, is_near, place_of, relocs_in, with_fixups};
ghost use Rattle.ebc_link.specs.Links.{entry_in};
ghost use Rattle.ebc_link.specs.Walks.{IsPiece, laid_of};

use crate::entry::entry;
use crate::fixups::{append_relocs, fill, first_far};
use crate::layout::Home;
use ebc_base::Name;
use ebc_object::Object;
use std::alloc::AllocError;

/// An object, where it stands, and the places of its symbols.
#[derive(Clone, Copy)]
pub(crate) struct Piece<'a> {
    pub object: &'a Object,
    pub home: Home,
    pub places: &'a [u32],
}

impl<'a> Piece<'a> {
    /// Where the first fixup is whose bytes don't hold its distance.
    pub fn first_far(&self) -> Option<u32>
        requires { IsPiece self.now }
        ensures { result ≡ option_map (place_of self.now.home)
            (find (λ (f : Fixup). not (is_near self.now.places.now self.now.home f)) self.now.object.now.fixups) }
    {
        first_far(self.object.fixups.as_slice(), self.places, self.home)
    }

    /// The place of the entry of this name, if the object has it.
    pub fn entry(&self, name: &Name) -> Option<u32>
        requires { IsPiece self.now }
        ensures { result ≡ entry_in name.now (laid_of self.now) }
    {
        let symbols = self.object.symbols.as_slice();
        entry(name, symbols, self.object.code.len(), self.home)
    }

    /// Appends the places of the addresses in a section.
    pub fn append_relocs(&self, relocs: &mut Vec<u32>, section: u8) -> Result<(), AllocError>
        requires { IsPiece self.now }
        ensures { OnOk result (relocs.new.items ≡ relocs.old.items ++ relocs_in section (laid_of self.now)) }
    {
        append_relocs(relocs, self.object.fixups.as_slice(), self.home, section)
    }

    // The bytes of the code or of the data.
    fn bytes(&self, section: u8) -> &'a [u8]
        requires { (section ≡ 1) ⊎ (section ≡ 2) }
        ensures { result.now ≡ section_bytes self.now.object.now.code self.now.object.now.contents section }
    {
        if section == 1 {
            self.object.code.as_slice()
        } else {
            self.object.contents.as_slice()
        }
    }

    /// Appends the bytes of the code or of the data once their fixups are filled in, in an image for this base.
    pub fn append_bytes(&self, all: &mut Vec<u8>, section: u8, base: u64) -> Result<(), AllocError>
        requires piece { IsPiece self.now }
        requires base { base < 2 ^ 32 }
        requires section { (section ≡ 1) ⊎ (section ≡ 2) }
        ensures { OnOk result (all.new.items ≡
            all.old.items ++ with_fixups (bytes_for base self.now.places.now self.now.home)
            (section_bytes self.now.object.now.code self.now.object.now.contents section) (in_section section self.now.object.now.fixups)) }
    {
        let start = all.len();
        all.extend_from_slice(self.bytes(section))?;
        let fixups = self.object.fixups.as_slice();
        fill(
            &mut all[start..],
            fixups,
            section,
            base,
            self.places,
            self.home,
        );
        Ok(())
    }
}
