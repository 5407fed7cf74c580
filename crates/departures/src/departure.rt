//! Whether EDK2's interpreter departs from the machine at an instruction.

ghost use Rattle.std.specs.Prelude.{◌≡◌, ◌&&◌, ◌-◌, ◌^◌, pos, ◌+ℤ◌, ◌*ℤ◌, map, nat_le};
ghost use Rattle.std.specs.List.Sorted.{IsStrictlyIncreasing};
ghost use Rattle.ebc_insn.specs.Spelling.{ExtraFits, IsOperand, WellFormed};
ghost use Rattle.machine_alu.specs.Alu.{bits_of};
ghost use Rattle.rules_base.specs.Values.{form_access, operand_value};
ghost use Rattle.departures.specs.Calls.{calls_native, is_many_apart};
ghost use Rattle.departures.specs.Fields.{is_foreign, loaded_field};
ghost use Rattle.departures.specs.Departures.{breaks, compares_negative, compares_unsigned, cuts, departs, divides_signed};
ghost use Rattle.departures.specs.Departures.{divides_smallest, is_cut_behind, may_be, may_reach, pops_sum, reads_narrow, reads_r7};
ghost use Rattle.departures.specs.Departures.{shifts, shifts_past, takes_all, type_may_be, type_may_reach, units_may_reach};

use crate::above::Uncut;
use crate::call::{calls_far, calls_function, calls_native, is_many_apart, is_odd};
use crate::field::{is_foreign, loaded_field};
use crate::kind::Kind;
use crate::narrow::{is_any, is_unary, is_unnarrowed, reads_left};
use crate::operand::{is_r7, is_register_itself};
use ebc_insn::{ArithOp, CmpOp, Extra, Insn, Operand, Size};
use note_types::{FnNote, Notes, RuleName, State, Ty, divides};
use rules_base::{Loaded, form_access, operand_value};

// Whether a number has more bits than a form.
fn is_longer(wide: bool, x: u64) -> bool
    ensures { result ≡ nat_le (2 ^ bits_of wide) x }
{
    if wide { false } else { 4_294_967_296 <= x }
}

// Whether the low bits of a number of a type may be these, as many as a form has.
fn type_may_be(wide: bool, x: u64, t: &Ty) -> bool
    ensures { result ≡ type_may_be (bits_of wide) x t.now }
{
    match t {
        Ty::Int { lo, hi, div } => {
            is_longer(wide, *hi) || (*lo <= x && x <= *hi && divides(*div, x))
        }
        _ => true,
    }
}

// The same of an operand's value.
fn may_be(wide: bool, x: u64, value: &Result<Loaded, RuleName>) -> bool
    ensures { result ≡ may_be (bits_of wide) x value.now }
{
    match value {
        Ok(value) => type_may_be(wide, x, &value.ty),
        Err(_) => true,
    }
}

// Natural units of 4 bytes, and bytes.
fn least_bytes(n: i32, c: i32) -> i64
    ensures { result ≡ n *ℤ pos 4 +ℤ c }
{
    i64::from(n) * 4 + i64::from(c)
}

// Natural units of 8 bytes, and bytes.
fn most_bytes(n: i32, c: i32) -> i64
    ensures { result ≡ n *ℤ pos 8 +ℤ c }
{
    i64::from(n) * 8 + i64::from(c)
}

// Whether natural units and bytes may be so many bytes, or more, or fewer than none.
fn units_may_reach(x: u8, n: i32, c: i32) -> bool
    ensures { result ≡ units_may_reach x n c }
{
    least_bytes(n, c) < 0 || i64::from(x) <= most_bytes(n, c)
}

// Whether an operand's value may be so large, or larger.
fn may_reach(x: u8, value: &Result<Loaded, RuleName>) -> bool
    ensures { result ≡ may_reach x value.now }
{
    match value {
        Ok(value) => match value.ty {
            Ty::Int { hi, .. } => u64::from(x) <= hi,
            Ty::Lin { n, c } => units_may_reach(x, n, c),
            _ => true,
        },
        Err(_) => true,
    }
}

fn divides_signed(op: ArithOp, wide: bool) -> bool
    ensures { result ≡ divides_signed op wide }
{
    match op {
        ArithOp::Div => true,
        ArithOp::Mod => wide,
        _ => false,
    }
}

fn shifts(op: ArithOp) -> bool
    ensures { result ≡ shifts op }
{
    matches!(op, ArithOp::Shl | ArithOp::Shr | ArithOp::Ashr)
}

fn compares_unsigned(op: CmpOp) -> bool
    ensures { result ≡ compares_unsigned op }
{
    matches!(op, CmpOp::Ulte | CmpOp::Ugte)
}

// The least signed number of a form, and -1 there, as they are without a sign.
fn smallest(wide: bool) -> u64
    ensures { result ≡ 2 ^ (bits_of wide - 1) }
{
    if wide { 1 << 63 } else { 1 << 31 }
}

fn minus_one(wide: bool) -> u64
    ensures { result ≡ 2 ^ bits_of wide - 1 }
{
    if wide { u64::MAX } else { 4_294_967_295 }
}

fn takes_all(op: ArithOp) -> bool
    ensures { result ≡ takes_all op }
{
    !matches!(op, ArithOp::Extb | ArithOp::Extw | ArithOp::Extd)
}

/// What is around an instruction, as far as departures hang on it.
#[derive(Clone, Copy)]
pub struct Around {
    /// Which bits of R7 may be before it as a native call left them.
    pub uncut: Uncut,
    /// Some instruction of the image stores into the field of an object that it loads.
    pub stored: bool,
    /// Some instruction of the image calls its function.
    pub called: bool,
    /// An argument of the native call at its place may be an address in a text without a zero.
    pub unended: bool,
    /// The instruction behind it, and the place of the next one.
    pub behind: Option<(Insn, u32)>,
}

/// An instruction, with its function, the state before it, and what is around it.
#[derive(Clone, Copy)]
pub struct Scene<'a> {
    pub notes: &'a Notes,
    pub f: &'a FnNote,
    pub place: u32,
    pub state: &'a State,
    pub around: Around,
    pub insn: &'a Insn,
}

impl<'a> Scene<'a> {
    // The value of an operand.
    fn value(&self, wide: bool, op: &Operand, extra: &Extra) -> Result<Loaded, RuleName>
        requires op { IsOperand op.now }
        requires extra { ExtraFits 16 op.now extra.now }
        ensures { result ≡ operand_value self.now.notes.now self.now.f.now self.now.state.now (form_access wide) op.now extra.now }
    {
        operand_value(
            self.notes,
            self.f,
            self.state,
            form_access(wide),
            op,
            16,
            extra,
        )
    }

    fn reads_r7(&self) -> bool
        ensures { result ≡ reads_r7 self.now.f.now self.now.around.called self.now.insn.now }
    {
        match self.insn {
            Insn::Compare {
                wide: true,
                left,
                right,
                ..
            } => *left == 7 || is_r7(right),
            Insn::CompareImm {
                wide: true,
                left,
                ..
            } => is_r7(left),
            Insn::Arith {
                op,
                wide: true,
                left,
                right,
                ..
            } => (is_r7(right) && takes_all(*op)) || (is_r7(left) && !is_unary(*op)),
            Insn::Move {
                size: Size::Qword,
                right,
                ..
            } => is_r7(right),
            Insn::Push { wide: true, op, .. } => is_r7(op),
            Insn::Ret => self.around.called && !is_any(&self.f.result),
            _ => false,
        }
    }

    fn divides_smallest(&self) -> bool
        requires { WellFormed self.now.insn.now }
        ensures { result ≡ divides_smallest self.now.notes.now self.now.f.now self.now.state.now self.now.insn.now }
    {
        match self.insn {
            Insn::Arith {
                op,
                wide,
                left,
                right,
                extra,
            } => divides_signed(*op, *wide)
                && may_be(
                    *wide,
                    smallest(*wide),
                    &self.value(*wide, left, &Extra::Nothing),
                )
                && may_be(*wide, minus_one(*wide), &self.value(*wide, right, extra)),
            _ => false,
        }
    }

    fn shifts_past(&self) -> bool
        requires { WellFormed self.now.insn.now }
        ensures { result ≡ shifts_past self.now.notes.now self.now.f.now self.now.state.now self.now.insn.now }
    {
        match self.insn {
            Insn::Arith {
                op,
                wide,
                right,
                extra,
                ..
            } => {
                let bits = if *wide { 64 } else { 32 };
                shifts(*op) && may_reach(bits, &self.value(*wide, right, extra))
            }
            _ => false,
        }
    }

    // Whether the instruction loads a field whose value may be none of its cell, unless one stores into it.
    fn loads_foreign(&self) -> bool
        requires { WellFormed self.now.insn.now }
        ensures { result ≡ is_foreign self.now.notes.now
            (loaded_field self.now.notes.now self.now.f.now self.now.state.now self.now.insn.now)
            (is_cut_behind self.now.around.behind self.now.insn.now) }
    {
        let loaded = loaded_field(self.notes, self.f, self.state, self.insn);
        let cut = is_cut_behind(&self.around.behind, self.insn);
        is_foreign(self.notes, &loaded, cut)
    }

    // Whether it reads what may lie above a number of one, two or four bytes.
    fn reads_narrow(&self) -> bool
        requires { WellFormed self.now.insn.now }
        ensures { result ≡ reads_narrow self.now.notes.now self.now.f.now self.now.state.now self.now.around self.now.insn.now }
    {
        let around = &self.around;
        reads_left(&around.uncut, self.f, around.called, self.insn)
            || is_unnarrowed(self.notes, self.f, self.state, &around.behind, self.insn)
    }

    // Whether it is a native call of nine or more arguments over a stack that isn't a multiple of eight bytes.
    fn calls_many(&self) -> bool
        requires { IsStrictlyIncreasing (map (λ x. x.place) self.now.notes.now.site) }
        ensures { result ≡ (calls_native self.now.insn.now && is_many_apart self.now.notes.now self.now.f.now self.now.place
            self.now.state.now) }
    {
        calls_native(self.insn) && is_many_apart(self.notes, self.f, self.place, self.state)
    }

    /// Whether the interpreter departs so from the machine at the instruction.
    #[tactic(auto, unfolding(crate::specs::Departures::departs))]
    pub fn departs(&self, kind: Kind) -> bool
        requires insn { WellFormed self.now.insn.now }
        requires sites { IsStrictlyIncreasing (map (λ x. x.place) self.now.notes.now.site) }
        ensures { result ≡ departs kind self.now.notes.now self.now.f.now self.now.place self.now.state.now self.now.around
            self.now.insn.now }
    {
        match kind {
            Kind::Status => self.around.uncut.natural && self.reads_r7(),
            Kind::Narrow => self.reads_narrow(),
            Kind::Popn => pops_sum(self.insn),
            Kind::Divide => self.divides_smallest(),
            Kind::Shift => self.shifts_past(),
            Kind::Compare => compares_negative(self.insn),
            Kind::Break => breaks(self.insn),
            Kind::Unwritten => !self.around.stored && self.loads_foreign(),
            Kind::Far => calls_far(self.insn),
            Kind::Odd => { calls_function(self.insn) && is_odd(self.notes, self.f, self.state) }
            Kind::Frame => self.calls_many(),
            Kind::String => calls_native(self.insn) && self.around.unended,
        }
    }
}

// Whether an instruction moves the low 32 bits of a register to itself.
fn cuts(reg: u8, insn: &Insn) -> bool
    ensures { result ≡ cuts reg insn.now }
{
    match insn {
        Insn::Move {
            size: Size::Dword,
            left,
            right,
            ..
        } => is_register_itself(reg, left) && is_register_itself(reg, right),
        _ => false,
    }
}

// Whether a move of natural size to a register is cut by the instruction behind it.
fn is_cut_behind(behind: &Option<(Insn, u32)>, insn: &Insn) -> bool
    ensures { result ≡ is_cut_behind behind.now insn.now }
{
    match (behind, insn) {
        (
            Some((behind, _)),
            Insn::Move {
                size: Size::Natural,
                left,
                ..
            },
        ) => !left.indirect && cuts(left.reg, behind),
        _ => false,
    }
}

fn pops_sum(insn: &Insn) -> bool
    ensures { result ≡ pops_sum insn.now }
{
    match insn {
        Insn::PopNatural {
            extra: Extra::Imm(_),
            ..
        } => true,
        _ => false,
    }
}

fn compares_negative(insn: &Insn) -> bool
    ensures { result ≡ compares_negative insn.now }
{
    match insn {
        Insn::CompareImm {
            op,
            wide: true,
            imm,
            ..
        } => compares_unsigned(*op) && *imm < 0,
        _ => false,
    }
}

fn breaks(insn: &Insn) -> bool
    ensures { result ≡ breaks insn.now }
{
    match insn {
        Insn::Break { code } => *code != 5,
        _ => false,
    }
}
