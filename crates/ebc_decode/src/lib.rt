//! Reading and writing the instructions of EFI Byte Code (UEFI specification, chapter "EFI Byte Code Virtual Machine",
//! section "Instruction Encoding").
//!
//! Promises:
//!
//! - `decode`: `found` says that what is answered is well formed and spelled by the bytes of its length; `length`, that
//!   these are at least 2 and lie within the code; `only`, that what is spelled there is answered, whatever follows;
//!   `none`, that under a fault no instruction is spelled there; `reading`, that the answer is the definition's, with
//!   each fault in its order.
//! - `decode_first`: what `decode` answers at place 0, as a `Decoded`: well formed (`well_formed`), and as a result the
//!   definition's answer (`reading`). Its number has no part in the answer: code of its own is made for each, so that
//!   the compiler puts it into a caller that alone uses it.
//! - `encode`: of a well-formed instruction, `spelled` gives its spelling, and `read_again` says that this reads as the
//!   instruction with its length, whatever follows.
//! - `one_spelling`: no spelling is a proper prefix of another.
//! - `reserved_is_exact`: two bytes with an opcode of a spelling are refused as reserved, or for the index of a direct
//!   operand, exactly where they begin no spelling.
#![tactic(auto)]

mod bits;
mod field;
mod form;
mod insn;
mod reader;

ghost use Rattle.std.specs.Prelude.{◌≡◌, ℕ, ◌+◌, ◌≤◌, List, ◌++◌, length, take, drop, Ok, IfOk, OnErr};
ghost use Rattle.arrayvec.specs.ArrayVec.{array_vec_len};
ghost use Rattle.ebc_insn.specs.declared.Insn.{Insn};
ghost use Rattle.ebc_insn.specs.Spelling.{Spells, WellFormed, bytes_of, field_bytes, field_size, spelling};
ghost use Rattle.ebc_decode.specs.Reading.{OneSpelling, ReservedIsExact, form_at, read, read_form, result_of};

use crate::bits::{arith_op_at, cmp_op_at, size_at};
use crate::reader::{
    read_arith, read_break, read_call, read_compare, read_compare_imm, read_jump, read_jump8,
    read_load_special, read_move, read_move_imm, read_move_imm_natural, read_move_relative,
    read_move_signed, read_pop, read_pop_natural, read_push, read_push_natural, read_ret,
    read_store_special,
};
use arrayvec::ArrayVec;
use ebc_insn::{Code, Field, Insn, Size, parts};

/// Why bytes begin with no spelling of an instruction. The first that holds is told, in the order that `decode` has.
#[derive(Clone, Copy, PartialEq, Eq)]
pub enum DecodeFault {
    /// There are fewer than two bytes, or fewer than the instruction's length ("Instruction Encoding").
    Short,
    /// The opcode, the low six bits of the first byte, is 27, 34 or 3A to 3F ("Instruction Opcode Byte Encoding").
    Opcode,
    /// A bit of the first two bytes is set that must be zero, or a bit is zero that must be set ("EBC Instruction Set").
    Reserved,
    /// The tag of an index of 16 bits is 7 ("Natural Indexing").
    IndexTag,
    /// Operand 1 of a move or of a comparison with an immediate is direct and has an index ("MOV", "CMPI").
    DirectIndex,
}

/// What bytes are read as. A step takes it as it is, and not as a `Result` of a pair: the compiler copies a pair in whole
/// words, so that the parts of each instruction would be packed into words and taken out of them again.
#[derive(Clone, Copy)]
pub enum Decoded {
    /// The instruction that they begin with, and its length in bytes, 2 to 18 ("Instruction Encoding").
    Found(Insn, usize),
    /// Why they begin with none.
    Fault(DecodeFault),
}

impl Decoded {
    ghost use Rattle.std.specs.Prelude.{◌≡◌};
    ghost use Rattle.ebc_decode.specs.Reading.{result_of};

    // The same as a result.
    fn result(self) -> Result<(Insn, usize), DecodeFault>
        ensures { result ≡ result_of self }
    {
        match self {
            Decoded::Found(insn, length) => Ok((insn, length)),
            Decoded::Fault(fault) => Err(fault),
        }
    }
}

/// The instruction that the bytes of `code` from place `at` on begin with, and its length in bytes, 2 to 18 (UEFI
/// specification, "Instruction Encoding"). The faults are tried in this order:
///
/// 1. fewer than two bytes: `Short`;
/// 2. an opcode without a spelling: `Opcode`;
/// 3. a bit that must be zero or one and isn't: `Reserved`;
/// 4. an index beside a direct operand 1: `DirectIndex`;
/// 5. fewer bytes than the instruction's length: `Short`;
/// 6. tag 7 in an index of 16 bits: `IndexTag`.
#[inline(always)]
pub fn decode(code: &[u8], at: usize) -> Result<(Insn, usize), DecodeFault>
    requires { at ≤ length code.now }
    // What is answered is well formed, and the bytes of its length are its spelling.
    ensures found { IfOk result (λ (i, n). Spells (take n (drop at code.now)) i) }
    ensures length { IfOk result (λ (i, n). (2 ≤ n) × (at + n ≤ length code.now)) }

    // What is spelled there is answered, whatever follows.
    ensures only { (i : Insn) (rest : List ℕ) → WellFormed i → drop at code.now ≡ spelling i ++ rest →
        result ≡ Ok (i, length (spelling i)) }
    ensures none { OnErr result ((i : Insn) (rest : List ℕ) → WellFormed i → drop at code.now ≡ spelling i ++ rest → ⊥) }

    // Each fault in its order.
    ensures reading { result ≡ read (drop at code.now) }
{
    read::<0>(&code[at..]).result()
}

/// The instruction that bytes begin with, and its length in bytes, as `decode` answers them at place 0. `COPY` has no part in the
/// answer: code of its own is made for each, so that the compiler puts it into a caller that alone uses it.
#[inline(always)]
pub fn decode_first<const COPY: usize>(bytes: &[u8]) -> Decoded
    ensures well_formed { IfOk (result_of result) (λ (i, n). WellFormed i) }
    ensures reading { result_of result ≡ read bytes.now }
{
    read::<COPY>(bytes)
}

#[inline(always)]
#[tactic(auto, unfolding(crate::specs::Reading::read))]
fn read<const COPY: usize>(bytes: &[u8]) -> Decoded
    ensures { result_of result ≡ read bytes.now }
{
    match bytes {
        [b0, b1, rest @ ..] => read_opcode::<COPY>(*b0 % 64, *b0, *b1, rest),
        _ => Decoded::Fault(DecodeFault::Short),
    }
}

// Reads by the opcode, with one branch on it: a row for each ("EBC Instruction Set").
#[tactic(auto, unfolding(crate::specs::Reading::form_at))]
fn read_opcode<const COPY: usize>(opcode: u8, b0: u8, b1: u8, rest: &[u8]) -> Decoded
    ensures { result_of result ≡ read_form (form_at opcode) b0 b1 rest.now }
{
    match opcode {
        0x00 => read_break(b0, b1, rest),
        0x01 => read_jump(b0, b1, rest),
        0x02 => read_jump8(b0, b1, rest),
        0x03 => read_call(b0, b1, rest),
        0x04 => read_ret(b0, b1, rest),
        0x05..=0x09 => read_compare(cmp_op_at(opcode - 0x05), b0, b1, rest),
        0x0A..=0x1C => read_arith(arith_op_at(opcode - 0x0A), b0, b1, rest),
        0x1D..=0x20 => read_move(size_at(opcode - 0x1D), 16, b0, b1, rest),
        0x21..=0x24 => read_move(size_at(opcode - 0x21), 32, b0, b1, rest),
        0x25 => read_move_signed(16, b0, b1, rest),
        0x26 => read_move_signed(32, b0, b1, rest),
        0x28 => read_move(Size::Qword, 64, b0, b1, rest),
        0x29 => read_load_special(b0, b1, rest),
        0x2A => read_store_special(b0, b1, rest),
        0x2B => read_push(b0, b1, rest),
        0x2C => read_pop(b0, b1, rest),
        0x2D..=0x31 => read_compare_imm(cmp_op_at(opcode - 0x2D), b0, b1, rest),
        0x32 => read_move(Size::Natural, 16, b0, b1, rest),
        0x33 => read_move(Size::Natural, 32, b0, b1, rest),
        0x35 => read_push_natural(b0, b1, rest),
        0x36 => read_pop_natural(b0, b1, rest),
        0x37 => read_move_imm(b0, b1, rest),
        0x38 => read_move_imm_natural(b0, b1, rest),
        0x39 => read_move_relative(b0, b1, rest),
        _ => Decoded::Fault(DecodeFault::Opcode),
    }
}

/// The bytes that spell an instruction (UEFI specification, "Instruction Encoding"): 2 to 18.
pub fn encode(i: &Insn) -> ArrayVec<u8, 18>
    requires { WellFormed i.now }
    ensures spelled { result.items ≡ spelling i.now }

    // What is written is read, with its length, whatever follows.
    ensures read_again { (rest : List ℕ) → read (result.items ++ rest) ≡ Ok (i.now, length result.items) }
{
    bytes_of(parts(i))
}

#[tactic(auto, unfolding(ebc_insn::specs::Spelling::bytes_of))]
fn bytes_of(code: Code) -> ArrayVec<u8, 18>
    ensures { result.items ≡ bytes_of code }
{
    let mut bytes = ArrayVec::new();
    bytes.push(code.first);
    bytes.push(code.second);
    append(&mut bytes, code.one);
    append(&mut bytes, code.two);
    bytes
}

// Appends the bytes of a field.
#[tactic(auto, unfolding(ebc_insn::specs::Spelling::field_bytes))]
fn append(bytes: &mut ArrayVec<u8, 18>, field: Field)
    requires { array_vec_len bytes.old + field_size field ≤ 18 }
    ensures items { bytes.new.items ≡ bytes.old.items ++ field_bytes field }
    ensures len { array_vec_len bytes.new ≡ array_vec_len bytes.old + field_size field }
{
    match field {
        Field::Nothing => {}
        Field::Word(n) => append_all(bytes, &n.to_le_bytes()),
        Field::Dword(n) => append_all(bytes, &n.to_le_bytes()),
        Field::Qword(n) => append_all(bytes, &n.to_le_bytes()),
    }
}

fn append_all(bytes: &mut ArrayVec<u8, 18>, more: &[u8])
    requires { array_vec_len bytes.old + length more.now ≤ 18 }
    ensures items { bytes.new.items ≡ bytes.old.items ++ more.now }
    ensures len { array_vec_len bytes.new ≡ array_vec_len bytes.old + length more.now }
{
    match bytes.try_extend_from_slice(more) {
        Ok(()) => {}
        Err(_) => unreachable!(),
    }
}

/// The law that no spelling is a proper prefix of another (UEFI specification, "Instruction Encoding").
pub fn one_spelling()
    ensures { OneSpelling }
{}

/// The law that two bytes with an opcode of a spelling are refused as `Reserved` or `DirectIndex` exactly where they
/// begin no spelling (UEFI specification, "EBC Instruction Set").
pub fn reserved_is_exact()
    ensures { ReservedIsExact }
{}
