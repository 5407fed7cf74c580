//! Mnemonics as they are written.

ghost use Rattle.std.specs.Prelude.{◌≡◌, ◌∷◌, ◌++◌, Some, []};
ghost use Rattle.asm_text.specs.Mnemonics.{relative_text, arith_stem, bits_letter, cmp_text, cond_text, long_text, native_text};
ghost use Rattle.asm_text.specs.Mnemonics.{size_letter, stem_of_form, suffix_of_form, wide_text, word_of};

use crate::form::Form;
use ebc_insn::{ArithOp, CmpOp, Cond, Size};
use std::fmt;

fn arith_stem(op: ArithOp) -> &'static str
    ensures { result.now ≡ arith_stem op }
{
    match op {
        ArithOp::Not => "NOT",
        ArithOp::Neg => "NEG",
        ArithOp::Add => "ADD",
        ArithOp::Sub => "SUB",
        ArithOp::Mul => "MUL",
        ArithOp::Mulu => "MULU",
        ArithOp::Div => "DIV",
        ArithOp::Divu => "DIVU",
        ArithOp::Mod => "MOD",
        ArithOp::Modu => "MODU",
        ArithOp::And => "AND",
        ArithOp::Or => "OR",
        ArithOp::Xor => "XOR",
        ArithOp::Shl => "SHL",
        ArithOp::Shr => "SHR",
        ArithOp::Ashr => "ASHR",
        ArithOp::Extb => "EXTNDB",
        ArithOp::Extw => "EXTNDW",
        ArithOp::Extd => "EXTNDD",
    }
}

fn cond_text(cond: Cond) -> &'static str
    ensures { result.now ≡ cond_text cond }
{
    match cond {
        Cond::Always => "",
        Cond::Set => "cs",
        Cond::Clear => "cc",
    }
}

fn wide_text(wide: bool) -> &'static str
    ensures { result.now ≡ wide_text wide }
{
    if wide { "64" } else { "32" }
}

fn relative_text(relative: bool) -> &'static str
    ensures { result.now ≡ relative_text relative }
{
    if relative { "" } else { "a" }
}

fn size_letter(size: Size) -> &'static str
    ensures { result.now ≡ size_letter size ∷ [] }
{
    match size {
        Size::Byte => "b",
        Size::Word => "w",
        Size::Dword => "d",
        Size::Qword => "q",
        Size::Natural => "n",
    }
}

fn bits_letter(bits: u8) -> &'static str
    ensures { result.now ≡ bits_letter bits ∷ [] }
{
    match bits {
        16 => "w",
        32 => "d",
        _ => "q",
    }
}

fn cmp_text(op: CmpOp) -> &'static str
    ensures { result.now ≡ cmp_text op }
{
    match op {
        CmpOp::Eq => "eq",
        CmpOp::Lte => "lte",
        CmpOp::Gte => "gte",
        CmpOp::Ulte => "ulte",
        CmpOp::Ugte => "ugte",
    }
}

fn native_text(native: bool) -> &'static str
    ensures { result.now ≡ native_text native }
{
    if native { "EX" } else { "" }
}

fn long_text(long: bool) -> &'static str
    ensures { result.now ≡ long_text long }
{
    if long { "d" } else { "w" }
}

fn stem_of_form(form: Form) -> &'static str
    ensures { result.now ≡ stem_of_form form }
{
    match form {
        Form::Break => "BREAK",
        Form::Jump { .. } => "JMP",
        Form::Jump8(_) => "JMP",
        Form::Call { .. } => "CALL",
        Form::Ret => "RET",
        Form::Compare { .. } => "CMP",
        Form::CompareImm { .. } => "CMPI",
        Form::Arith { op, .. } => arith_stem(op),
        Form::Move { .. } => "MOV",
        Form::MoveSigned { .. } => "MOV",
        Form::MoveImm { .. } => "MOVI",
        Form::MoveImmNatural { .. } => "MOVI",
        Form::MoveRelative { .. } => "MOVREL",
        Form::LoadSpecial => "LOADSP",
        Form::StoreSpecial => "STORESP",
        Form::Push { .. } => "PUSH",
        Form::Pop { .. } => "POP",
        Form::PushNatural => "PUSH",
        Form::PopNatural => "POP",
    }
}

// What follows the stem, in at most three parts.
fn suffix_of_form(form: Form) -> (&'static str, &'static str, &'static str)
    ensures { result.0.now ++ (result.1.now ++ result.2.now) ≡ suffix_of_form form }
{
    match form {
        Form::Break => ("", "", ""),
        Form::Jump {
            cond,
            far,
            relative,
        } => (wide_text(far), relative_text(relative), cond_text(cond)),
        Form::Jump8(cond) => ("", "8", cond_text(cond)),
        Form::Call {
            far,
            native,
            relative,
        } => (wide_text(far), native_text(native), relative_text(relative)),
        Form::Ret => ("", "", ""),
        Form::Compare { op, wide } => ("", wide_text(wide), cmp_text(op)),
        Form::CompareImm { op, wide, long } => (wide_text(wide), long_text(long), cmp_text(op)),
        Form::Arith { wide, .. } => ("", "", wide_text(wide)),
        Form::Move { size, bits } => ("", size_letter(size), bits_letter(bits)),
        Form::MoveSigned { bits } => ("s", "n", bits_letter(bits)),
        Form::MoveImm { size, bits } => ("", size_letter(size), bits_letter(bits)),
        Form::MoveImmNatural { bits } => ("", "n", bits_letter(bits)),
        Form::MoveRelative { bits } => ("", "", bits_letter(bits)),
        Form::LoadSpecial => ("", "", ""),
        Form::StoreSpecial => ("", "", ""),
        Form::Push { wide } => ("", "", wide_text(wide)),
        Form::Pop { wide } => ("", "", wide_text(wide)),
        Form::PushNatural => ("", "", "n"),
        Form::PopNatural => ("", "", "n"),
    }
}

// A part of a mnemonic. Most mnemonics have empty ones, for which the writer isn't called.
#[derive(Clone, Copy)]
struct Part(&'static str);

impl fmt::Display for Part {
    ghost output = { λ p. Some p.0.now };

    fn fmt<W: fmt::Write>(&self, f: &mut fmt::Formatter<W>) -> fmt::Result {
        if self.0.is_empty() {
            return Ok(());
        }
        f.write_str(self.0)
    }
}

impl fmt::Display for Form {
    ghost output = { λ f. Some (word_of f) };

    #[tactic(auto, unfolding(crate::specs::Mnemonics::word_of))]
    fn fmt<W: fmt::Write>(&self, f: &mut fmt::Formatter<W>) -> fmt::Result {
        let stem = Part(stem_of_form(*self));
        let (first, second, third) = suffix_of_form(*self);
        let (first, second, third) = (Part(first), Part(second), Part(third));
        write!(f, "{stem}{first}{second}{third}")
    }
}
