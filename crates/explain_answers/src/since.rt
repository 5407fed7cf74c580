//! Since when nothing is known of the registers that a refused instruction reads.
ghost use Rattle.note_types.specs.Records.{IsNotes};
ghost use Rattle.pe_image.specs.Images.{IsImage};

use crate::refusals::scene_of;
use ebc_insn::{Insn, well_formed};
use explain_base::{Line, Said, Scene};
use explain_rows::loss_line;
use note_types::{Notes, Ty};
use pe_image::Image;
use state_walk::{Before, Since, before};
use std::alloc::Global;

// The registers that an instruction reads, but for R0; 0 for none.
fn registers(insn: &Insn) -> [u8; 2] {
    match insn {
        Insn::Ret | Insn::Break { .. } => [7, 0],
        Insn::Compare { left, right, .. } => [*left, right.reg],
        Insn::CompareImm { left, .. } => [left.reg, 0],
        Insn::Arith { left, right, .. }
        | Insn::Move { left, right, .. }
        | Insn::MoveSigned { left, right, .. } => [left.reg, right.reg],
        Insn::MoveImm { left, .. }
        | Insn::MoveImmNatural { left, .. }
        | Insn::MoveRelative { left, .. } => [left.reg, 0],
        Insn::Push { op, .. }
        | Insn::Pop { op, .. }
        | Insn::PushNatural { op, .. }
        | Insn::PopNatural { op, .. }
        | Insn::Call { op, .. } => [op.reg, 0],
        _ => [0, 0],
    }
}

// The registers that an instruction reads, each once and without R0; 0 for none.
fn read_registers(insn: &Insn) -> [u8; 2] {
    let [first, second] = registers(insn);
    if second == first {
        [first, 0]
    } else {
        [first, second]
    }
}

// Writes a register with its type, behind a text, unless it is R0.
fn write_register(scene: &Scene, reg: u8, before: &str, line: &mut Line) {
    if let (true, Some(t)) = (reg != 0, scene.state.regs.get(reg as usize)) {
        line.text(before).text("R").number(u64::from(reg));
        line.text(" is ").type_of(scene.notes, scene.f, *t);
    }
}

// Writes the registers that an instruction reads, with their types, behind a text if there are any.
fn write_registers(scene: &Scene, before: &str, line: &mut Line) {
    let [first, second] = read_registers(scene.insn);
    write_register(scene, first, before, line);
    write_register(scene, second, if first == 0 { before } else { ", " }, line);
}

// Writes since when nothing is known of a register.
fn write_since(reg: u8, what: &str, place: u32, line: &mut Line) {
    line.text("R")
        .number(u64::from(reg))
        .text(" is any since ")
        .text(what)
        .at(place);
}

// The line of the instruction that left nothing known of a register; empty if no more is known than that.
fn lost_line(scene: &Scene, reg: u8) -> Line {
    let mut line = Line::new(scene.alloc);
    if let Insn::Call { .. } = scene.insn {
        write_since(reg, "the call at ", scene.here.place, &mut line);
        line.text("; a call leaves R4 to R6 any");
        return line;
    }
    if !well_formed(scene.insn) {
        return line;
    }
    write_since(reg, "", scene.here.place, &mut line);
    line.text(" ").insn(scene.insn);
    write_registers(scene, ", where ", &mut line);
    if let Some(loss) = loss_line(scene) {
        line.text("; ").line(&loss);
    }
    line
}

// The line of a register of which nothing is known since the instruction at a place.
fn instruction_since(alloc: Global, image: &Image, notes: &Notes, reg: u8, place: u32) -> Line
    requires image { IsImage image.now }
    requires notes { IsNotes notes.now }
{
    let Some(at) = before(image, notes, place) else {
        return Line::new(alloc);
    };
    match scene_of(alloc, notes, &at) {
        Some(scene) => lost_line(&scene, reg),
        None => Line::new(alloc),
    }
}

// The line of a register of which nothing is known; empty where no more is known than that.
fn since_line(alloc: Global, image: &Image, notes: &Notes, reg: u8, since: Since) -> Line
    requires image { IsImage image.now }
    requires notes { IsNotes notes.now }
{
    match since {
        Since::Entry => Line::new(alloc),
        Since::Point(place) => {
            let mut line = Line::new(alloc);
            write_since(reg, "the point at ", place, &mut line);
            line.text(", which leaves it out");
            line
        }
        Since::Instruction(place) => instruction_since(alloc, image, notes, reg, place),
    }
}

// Since when nothing is known of a register; `None` of R0, and where something is.
fn lost_since(at: &Before, reg: u8) -> Option<Since> {
    if reg == 0 {
        return None;
    }
    match at.state.as_ref()?.regs.get(reg as usize) {
        Some(Ty::Any) => at.since.get(reg as usize).copied(),
        _ => None,
    }
}

// Adds the line of a register, if nothing is known of it.
fn add_register(image: &Image, notes: &Notes, at: &Before, reg: u8, said: &mut Said)
    requires image { IsImage image.now }
    requires notes { IsNotes notes.now }
{
    if let Some(since) = lost_since(at, reg) {
        said.add(since_line(said.what.alloc, image, notes, reg, since));
    }
}

/// Adds a line for each register that the instruction reads and of which nothing is known: since when.
pub(crate) fn add_since(image: &Image, notes: &Notes, at: &Before, said: &mut Said)
    requires image { IsImage image.now }
    requires notes { IsNotes notes.now }
{
    let Some((insn, _)) = &at.insn else {
        return;
    };
    let [first, second] = read_registers(insn);
    add_register(image, notes, at, first, said);
    add_register(image, notes, at, second, said);
}
