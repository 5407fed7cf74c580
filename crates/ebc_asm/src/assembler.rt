//! The lines of a source as they are taken.

ghost use Rattle.std.specs.Prelude.{◌≡◌, List, [], ℕ, IfOk, OnOk, length};
ghost use Rattle.asm_text.specs.Texts.{IsHeldLine, IsHeldStatement, seen_line, seen_name, seen_statement};
ghost use Rattle.asm_text.specs.Lines as lines;
ghost use Rattle.ebc_asm.specs.Held.{Adds, AreLabels, Fits, Holds, Takes, TakesText, bytes_here, global_is_known, held_object};
ghost use Rattle.ebc_asm.specs.Sources.{is_instruction};
ghost use Rattle.ebc_asm.specs.Symbols.{global_of};

use crate::end::LineEnd;
use crate::names::Names;
use crate::pieces::data_after;
use crate::sections::{Section, section_kind};
use crate::symbols::symbols;
use asm_text::{AsmFault, Line, Statement, line_in};
use ebc_base::{Name, NameTable, NoMemory, Sequence};
use ebc_object::Object;
use std::alloc::Global;

// The name that a statement makes global, if any.
fn global_of<'a>(statement: &Option<Statement<'a>>) -> Option<&'a str>
    ensures { seen_name result ≡ global_of (seen_statement statement.now) }
{
    match statement {
        Some(Statement::Global(name)) => Some(name),
        _ => None,
    }
}

fn is_instruction(statement: &Option<Statement>) -> bool
    ensures { result ≡ is_instruction (seen_statement statement.now) }
{
    matches!(statement, Some(Statement::Instruction { .. }))
}

// Whether a name, if any, is among the labels.
fn global_is_known(
    alloc: Global,
    labels: &NameTable,
    global: Option<&str>,
) -> Result<bool, NoMemory>
    ensures { IfOk result (λ known. known ≡ global_is_known labels.now (seen_name global.entry)) }
{
    match global {
        Some(name) => Ok(labels.has(&Name::new(String::from_str(alloc, name)?))),
        None => Ok(true),
    }
}

/// What the lines so far stand for.
#[derive(Drop)]
pub(crate) struct Assembler {
    pub names: Names,
    pub code: Section,
    pub contents: Section,
    pub in_data: bool,
}

impl Assembler {
    /// No lines.
    #[tactic(auto, unfolding(crate::specs::Pieces::ends_in_data, crate::specs::Pieces::section_of, crate::specs::Symbols::fixups_in, crate::specs::Symbols::names_with))]
    pub fn new(alloc: Global) -> Assembler
        ensures fits { Fits result }
        ensures holds { Holds [] result }
    {
        Assembler {
            names: Names::new(alloc),
            code: Section::new(alloc),
            contents: Section::new(alloc),
            in_data: false,
        }
    }

    // The end of the section that the next line stands in.
    fn here(&self) -> u32
        requires { Fits self.now }
        ensures { result ≡ length (bytes_here self.now) }
    {
        if self.in_data {
            self.contents.bytes.len() as u32
        } else {
            self.code.bytes.len() as u32
        }
    }

    // Adds a statement to the section that it stands in.
    fn add(&mut self, alloc: Global, statement: &Option<Statement>) -> Result<(), LineEnd>
        requires held { IsHeldStatement statement.now }
        requires fits { Fits self.old }
        ensures fits { OnOk result (Fits self.new) }
        ensures adds { Adds result (seen_statement statement.now) self.old self.new }
    {
        if self.in_data {
            self.contents.add(alloc, true, statement, &mut self.names)
        } else {
            self.code.add(alloc, false, statement, &mut self.names)
        }
    }

    // Takes a line.
    fn take(&mut self, alloc: Global, labels: &NameTable, line: &Line) -> Result<(), LineEnd>
        requires held { IsHeldLine line.now }
        requires fits { Fits self.old }
        ensures fits { OnOk result (Fits self.new) }
        ensures takes { (texts : List (List ℕ)) → AreLabels labels.now texts → (before : List lines.Line) → Holds before self.old →
            Takes result texts before (seen_line line.now) self.new }
    {
        let global = global_of(&line.statement);
        if !global_is_known(alloc, labels, global)? {
            return Err(LineEnd::Fault(AsmFault::Label));
        }
        let (kind, offset) = (section_kind(self.in_data), self.here());
        self.names.take_label(alloc, line.label, kind, offset)?;
        self.names.take_global(alloc, global)?;
        self.add(alloc, &line.statement)?;
        if self.in_data && is_instruction(&line.statement) {
            return Err(LineEnd::Fault(AsmFault::Section));
        }
        self.in_data = data_after(self.in_data, &line.statement);
        Ok(())
    }

    /// Takes the text of a line, in a source whose lines have these labels.
    ///
    /// # Errors
    ///
    /// The lowest fault of the line. Or there was no memory.
    pub fn take_text(
        &mut self,
        alloc: Global,
        labels: &NameTable,
        text: &[u8],
    ) -> Result<(), LineEnd>
        requires fits { Fits self.old }
        ensures fits { OnOk result (Fits self.new) }
        ensures takes { (texts : List (List ℕ)) → AreLabels labels.now texts → (before : List lines.Line) → Holds before self.old →
            TakesText result texts before text.now self.new }
    {
        let line = line_in(text)?;
        self.take(alloc, labels, &line)
    }

    /// The object that the lines stand for.
    pub fn into_object(self, alloc: Global) -> Result<Object, NoMemory>
        requires { Fits self }
        ensures { IfOk result (λ object. object ≡ held_object self) }
    {
        let Assembler {
            names,
            code,
            contents,
            ..
        } = self;
        let Names { table, places } = names;
        let symbols = symbols(alloc, table.into_names(alloc)?.into_vec(), places)?;
        let mut fixups = code.fixups;
        fixups.extend_from_slice(contents.fixups.as_slice())?;
        Ok(Object {
            code: Sequence::new(code.bytes),
            contents: Sequence::new(contents.bytes),
            symbols: Sequence::new(symbols),
            fixups: Sequence::new(fixups),
        })
    }
}
