//! The fault of a file as the answer's line tells it, `bad FILE FAULT DETAIL`. docs/COMMANDS.md, "Faults", has the names.

use asm_text::AsmFault;
use ebc_base::{Name, NoMemory};
use note_types::TomlFault;
use pe_image::ImageFault;
use std::alloc::Global;

/// The name of a file's fault, and its detail: the path of a key, a line or an offset.
#[derive(Clone, Copy)]
pub(crate) struct PrintedFault<'a> {
    name: &'a str,
    detail: &'a str,
}

impl<'a> PrintedFault<'a> {
    /// The fault that a line tells of the file of that name; none if it tells of no fault, or of another file.
    pub fn in_line(line: &'a str, file: &str) -> Option<PrintedFault<'a>> {
        let told = line.strip_prefix("bad ")?.strip_prefix(file)?;
        let (name, detail) = told.strip_prefix(' ')?.split_once(' ')?;
        Some(PrintedFault {
            name,
            detail: detail.trim_end(),
        })
    }

    /// Whether it is that of a number or a count past its range, at this path.
    pub fn is_range_of(&self, path: &str) -> bool {
        self.name == "range" && self.detail == path
    }

    /// The fault of a text in TOML; none if it is one of something else.
    pub fn of_toml(&self, alloc: Global) -> Result<Option<TomlFault>, NoMemory> {
        let path = Name::new(String::from_str(alloc, self.detail)?);
        Ok(match self.name {
            "nottoml" => Some(TomlFault::NotToml),
            "missing" => Some(TomlFault::Missing(path)),
            "kind" => Some(TomlFault::Kind(path)),
            "name" => Some(TomlFault::Name(path)),
            "range" => Some(TomlFault::Range(path)),
            "twice" => Some(TomlFault::Twice(path)),
            _ => None,
        })
    }

    /// The fault of notes with labels, and what is printed behind its path; none if it is one of something else.
    pub fn of_labelled(&self, alloc: Global) -> Result<Option<(TomlFault, &'a str)>, NoMemory> {
        // A key of other than letters and digits stands in quotes, and has no label.
        let (path, behind) = match self.detail.split_once(' ') {
            Some((path, behind)) if !path.contains('"') => (path, behind),
            Some(_) if !self.detail.ends_with('"') => {
                self.detail.rsplit_once(' ').unwrap_or((self.detail, ""))
            }
            _ => (self.detail, ""),
        };
        let fault = PrintedFault {
            name: self.name,
            detail: path,
        };
        match fault.of_toml(alloc)? {
            Some(fault) => Ok(Some((fault, behind))),
            None => Ok(None),
        }
    }

    /// The fault of a source, and its line, from 1; none if it is one of something else.
    pub fn of_source(&self) -> Option<(AsmFault, u64)> {
        let fault = match self.name {
            "word" => AsmFault::Word,
            "operand" => AsmFault::Operand,
            "number" => AsmFault::Number,
            "index" => AsmFault::Index,
            "label" => AsmFault::Label,
            "twice" => AsmFault::Twice,
            "far" => AsmFault::Far,
            "section" => AsmFault::Section,
            _ => return None,
        };
        Some((fault, self.detail.parse::<u64>().ok()?))
    }

    /// The fault of an image, and its offset in the file; none if it is one of something else.
    pub fn of_image(&self) -> Option<(ImageFault, u64)> {
        let fault = match self.name {
            "short" => ImageFault::Short,
            "mz" => ImageFault::Mz,
            "pe" => ImageFault::Pe,
            "machine" => ImageFault::Machine,
            "magic" => ImageFault::Magic,
            "section" => ImageFault::Section,
            "overlap" => ImageFault::Overlap,
            "align" => ImageFault::Align,
            "reloc" => ImageFault::Reloc,
            "entry" => ImageFault::Entry,
            _ => return None,
        };
        Some((fault, self.detail.parse::<u64>().ok()?))
    }
}
