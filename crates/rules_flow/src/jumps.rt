//! Jumps, and the places that they and calls go to.

ghost use Rattle.std.specs.Prelude.{◌≡◌, ◌+ℤ◌, IfOk, map, pos};
ghost use Rattle.std.specs.List.Sorted.{IsStrictlyIncreasing};
ghost use Rattle.note_types.specs.declared.state.State.{State};
ghost use Rattle.rules_base.specs.Outcomes.{gives_map};
ghost use Rattle.rules_flow.specs.Jumps.{absolute, jump8_row, jump_row, jump_to, jumps, no_target, place_within, point_at, relative};
ghost use Rattle.rules_flow.specs.Jumps.{target_of};
ghost use Rattle.rules_flow.specs.Steps.{FitsStep, successors_of};

use crate::placed::number_from;
use crate::step::Step;
use ebc_insn::{Cond, Extra, Operand};
use note_types::{FnNote, Notes, Point, RuleName};
use rules_base::Here;

// ---- targets

/// How an instruction says where it goes: whether it is far and relative, its operand, and what stands beside it.
#[derive(Clone, Copy)]
pub struct Aim<'a> {
    pub far: bool,
    pub relative: bool,
    pub op: &'a Operand,
    pub extra: &'a Extra,
}

// The place that a relocated immediate names, where there is one.
fn absolute(reloc: Option<u32>) -> Result<i128, RuleName>
    ensures { result ≡ absolute reloc }
{
    match reloc {
        Some(place) => Ok(i128::from(place)),
        None => Err(RuleName::Relocation),
    }
}

fn onward(place: u32, distance: i64) -> i128
    ensures { result ≡ pos place +ℤ distance }
{
    i128::from(place) + i128::from(distance)
}

// The place so many bytes past the next instruction, of an instruction that isn't relocated.
fn relative(here: &Here, imm: i64) -> Result<i128, RuleName>
    ensures { result ≡ relative here.now imm }
{
    if here.reloc.is_some() {
        Err(RuleName::Relocation)
    } else {
        Ok(onward(here.next, imm))
    }
}

// A form that has no target known beforehand.
fn no_target(here: &Here) -> Result<i128, RuleName>
    ensures { result ≡ no_target here.now }
{
    if here.reloc.is_some() {
        Err(RuleName::Relocation)
    } else {
        Err(RuleName::Form)
    }
}

/// The place to which a jump or a byte code call goes: an immediate of 64 bits, relocated or relative, or a relative one
/// beside R0.
#[tactic(auto, unfolding(crate::specs::Jumps::target_of))]
pub fn target_of(here: &Here, aim: Aim) -> Result<i128, RuleName>
    ensures { result ≡ target_of here.now aim.entry.far aim.entry.relative aim.entry.op.now aim.entry.extra.now }
{
    match (aim.far, aim.relative, aim.extra) {
        (true, true, Extra::Imm(imm)) => relative(here, *imm),
        (true, false, Extra::Imm(_)) => absolute(here.reloc),
        (false, true, Extra::Imm(imm)) => if aim.op.reg == 0 && !aim.op.indirect {
            relative(here, *imm)
        } else {
            no_target(here)
        },
        _ => no_target(here),
    }
}

// ---- points

// The place of a point, where the function's code has it.
fn place_within(f: &FnNote, p: &Point) -> Option<u32>
    ensures { result ≡ place_within f.now p.now }
{
    if f.place <= p.place && p.place < f.end {
        Some(p.place)
    } else {
        None
    }
}

// The place, where the function has a point there.
#[tactic(auto, unfolding(crate::specs::Jumps::point_at))]
fn point_at(notes: &Notes, f: &FnNote, place: i128) -> Option<u32>
    requires { IsStrictlyIncreasing (map (λ p. p.place) notes.now.point) }
    ensures { result ≡ point_at notes.now f.now place }
{
    let points = notes.point.as_slice();
    let number = number_from(points, place)?;
    let p = points.get(number)?;
    place_within(f, p)
}

// ---- jumps

// A jump: both successors of one on a condition are narrowed.
fn jump(place: u32, cond: Cond) -> Step
    ensures goes { (s : State) → successors_of s result ≡ jumps s place cond }
    ensures fits { (s : State) → FitsStep s result }
{
    match cond {
        Cond::Always => Step::Goes { place },
        Cond::Set => Step::Parts { place, set: true },
        Cond::Clear => Step::Parts { place, set: false },
    }
}

// A jump to a place.
fn jump_to(notes: &Notes, f: &FnNote, cond: Cond, place: i128) -> Result<Step, RuleName>
    requires { IsStrictlyIncreasing (map (λ p. p.place) notes.now.point) }
    ensures goes { (s : State) → gives_map (successors_of s) result ≡ jump_to notes.now f.now s cond place }
    ensures fits { (s : State) → IfOk result (FitsStep s) }
{
    let p = point_at(notes, f, place).ok_or(RuleName::Target)?;
    Ok(jump(p, cond))
}

/// JMP.
#[tactic(auto, unfolding(crate::specs::Jumps::jump_row))]
pub fn jump_row(
    notes: &Notes,
    f: &FnNote,
    here: &Here,
    cond: Cond,
    aim: Aim,
) -> Result<Step, RuleName>
    requires { IsStrictlyIncreasing (map (λ p. p.place) notes.now.point) }
    ensures goes { (s : State) → gives_map (successors_of s) result ≡
        jump_row notes.now f.now here.now s cond aim.entry.far aim.entry.relative aim.entry.op.now aim.entry.extra.now }
    ensures fits { (s : State) → IfOk result (FitsStep s) }
{
    let place = target_of(here, aim)?;
    jump_to(notes, f, cond, place)
}

/// JMP8.
#[tactic(auto, unfolding(crate::specs::Jumps::jump8_row))]
pub fn jump8_row(
    notes: &Notes,
    f: &FnNote,
    here: &Here,
    cond: Cond,
    words: i8,
) -> Result<Step, RuleName>
    requires { IsStrictlyIncreasing (map (λ p. p.place) notes.now.point) }
    ensures goes { (s : State) → gives_map (successors_of s) result ≡ jump8_row notes.now f.now here.now s cond words }
    ensures fits { (s : State) → IfOk result (FitsStep s) }
{
    let place = relative(here, i64::from(words) * 2)?;
    jump_to(notes, f, cond, place)
}
