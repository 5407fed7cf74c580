//! Types, cells, items of the stack and accesses in sentences.

use crate::line::Line;
use note_types::{Cell, FnNote, Item, Notes, SlotKind, Ty, content_type};
use printed_texts::type_text;
use rules_base::{Access, local_fields};

/// By which instructions a cell is loaded and stored.
pub fn accesses_of(cell: Cell) -> &'static str {
    match cell {
        Cell::I8 => "MOVb",
        Cell::I16 => "MOVw",
        Cell::I32 => "MOVd and the 32-bit forms",
        Cell::I64 | Cell::P64 { .. } => "MOVq and the 64-bit forms",
        Cell::N | Cell::Handle | Cell::Entry | Cell::Ptr { .. } => "MOVn",
        Cell::Stat => "MOVn, and loaded by MOVsn too",
        Cell::Method(_) => "MOVn, and never stored to",
    }
}

/// How an instruction reaches memory.
pub fn access_text(access: Access) -> &'static str {
    match access {
        Access::Byte => "a MOVb",
        Access::Word => "a MOVw",
        Access::Dword => "a MOVd or a 32-bit form",
        Access::Qword => "a MOVq",
        Access::Form64 => "a 64-bit form",
        Access::Natural => "a natural access",
        Access::Signed => "a MOVsn",
    }
}

/// The letter of a slot's kind.
pub fn kind_text(kind: SlotKind) -> &'static str {
    match kind {
        SlotKind::N => "n",
        SlotKind::Q => "q",
        SlotKind::D => "d",
    }
}

impl Line {
    /// Adds a type of a function, as notes spell it.
    pub fn type_of(&mut self, notes: &Notes, f: &FnNote, t: Ty) -> &mut Line {
        let made = type_text(self.alloc, notes, local_fields(notes, f), t);
        self.made(made, "")
    }

    /// Adds a cell: of a pointer in 64 bits `PTR in 64 bits`, and of others as notes spell it.
    pub fn cell(&mut self, notes: &Notes, f: &FnNote, cell: Cell) -> &mut Line {
        match cell {
            Cell::I8 => self.text("i8"),
            Cell::I16 => self.text("i16"),
            Cell::I32 => self.text("i32"),
            Cell::I64 => self.text("i64"),
            Cell::N => self.text("n"),
            Cell::Stat => self.text("stat"),
            Cell::P64 { .. } => self
                .type_of(notes, f, content_type(&cell))
                .text(" in 64 bits"),
            _ => self.type_of(notes, f, content_type(&cell)),
        }
    }

    /// Adds an item of the stack: a slot's kind and type, or `locals`.
    pub fn item(&mut self, notes: &Notes, f: &FnNote, item: &Item) -> &mut Line {
        match item {
            Item::Slot { kind, ty } => self.text(kind_text(*kind)).text(" ").type_of(notes, f, *ty),
            Item::Locals => self.text("locals"),
        }
    }
}
