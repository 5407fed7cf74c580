//! Mnemonics as they are read.

ghost use Rattle.std.specs.Prelude.{◌≡◌, IfSome};
ghost use Rattle.asm_text.specs.Mnemonics.{FormFits, arith_form, arith_of, bare_form, bits_at, call_end, call_form, cmp_of, compare_form};
ghost use Rattle.asm_text.specs.Mnemonics.{compare_imm_form, cond_of, form_of, jump_end, jump_form, logic_of, long_at, move_imm_letters};
ghost use Rattle.asm_text.specs.Mnemonics.{move_letters, other_form, pop_form, push_form, relative_letter, size_at, stem_form, stem_of};
ghost use Rattle.asm_text.specs.Mnemonics.{wide_of};

use crate::form::Form;
use ebc_insn::{ArithOp, CmpOp, Cond, Size};

fn cond_of(text: &[u8]) -> Option<Cond>
    ensures { result ≡ cond_of text.now }
{
    if text == b"".as_slice() {
        Some(Cond::Always)
    } else if text == b"cs".as_slice() {
        Some(Cond::Set)
    } else if text == b"cc".as_slice() {
        Some(Cond::Clear)
    } else {
        None
    }
}

fn wide_of(text: &[u8]) -> Option<bool>
    ensures { result ≡ wide_of text.now }
{
    if text == b"32".as_slice() {
        Some(false)
    } else if text == b"64".as_slice() {
        Some(true)
    } else {
        None
    }
}

fn cmp_of(text: &[u8]) -> Option<CmpOp>
    ensures { result ≡ cmp_of text.now }
{
    if text == b"eq".as_slice() {
        Some(CmpOp::Eq)
    } else if text == b"lte".as_slice() {
        Some(CmpOp::Lte)
    } else if text == b"gte".as_slice() {
        Some(CmpOp::Gte)
    } else if text == b"ulte".as_slice() {
        Some(CmpOp::Ulte)
    } else if text == b"ugte".as_slice() {
        Some(CmpOp::Ugte)
    } else {
        None
    }
}

fn arith_of(text: &[u8]) -> Option<ArithOp>
    ensures { result ≡ arith_of text.now }
{
    if text == b"NOT".as_slice() {
        Some(ArithOp::Not)
    } else if text == b"NEG".as_slice() {
        Some(ArithOp::Neg)
    } else if text == b"ADD".as_slice() {
        Some(ArithOp::Add)
    } else if text == b"SUB".as_slice() {
        Some(ArithOp::Sub)
    } else if text == b"MUL".as_slice() {
        Some(ArithOp::Mul)
    } else if text == b"MULU".as_slice() {
        Some(ArithOp::Mulu)
    } else if text == b"DIV".as_slice() {
        Some(ArithOp::Div)
    } else if text == b"DIVU".as_slice() {
        Some(ArithOp::Divu)
    } else if text == b"MOD".as_slice() {
        Some(ArithOp::Mod)
    } else if text == b"MODU".as_slice() {
        Some(ArithOp::Modu)
    } else {
        logic_of(text)
    }
}

fn logic_of(text: &[u8]) -> Option<ArithOp>
    ensures { result ≡ logic_of text.now }
{
    if text == b"AND".as_slice() {
        Some(ArithOp::And)
    } else if text == b"OR".as_slice() {
        Some(ArithOp::Or)
    } else if text == b"XOR".as_slice() {
        Some(ArithOp::Xor)
    } else if text == b"SHL".as_slice() {
        Some(ArithOp::Shl)
    } else if text == b"SHR".as_slice() {
        Some(ArithOp::Shr)
    } else if text == b"ASHR".as_slice() {
        Some(ArithOp::Ashr)
    } else if text == b"EXTNDB".as_slice() {
        Some(ArithOp::Extb)
    } else if text == b"EXTNDW".as_slice() {
        Some(ArithOp::Extw)
    } else if text == b"EXTNDD".as_slice() {
        Some(ArithOp::Extd)
    } else {
        None
    }
}

fn size_at(letter: u8) -> Option<Size>
    ensures { result ≡ size_at letter }
{
    match letter {
        b'b' => Some(Size::Byte),
        b'w' => Some(Size::Word),
        b'd' => Some(Size::Dword),
        b'q' => Some(Size::Qword),
        b'n' => Some(Size::Natural),
        _ => None,
    }
}

fn bits_at(letter: u8) -> Option<u8>
    ensures { result ≡ bits_at letter }
{
    match letter {
        b'w' => Some(16),
        b'd' => Some(32),
        b'q' => Some(64),
        _ => None,
    }
}

fn move_letters(text: &[u8]) -> Option<Form>
    ensures form { result ≡ move_letters text.now }
    ensures fits { IfSome result FormFits }
{
    match text {
        [size, bits] => {
            let (size, bits) = (size_at(*size)?, bits_at(*bits)?);
            match size {
                Size::Qword => Some(Form::Move { size, bits }),
                _ if bits == 64 => None,
                _ => Some(Form::Move { size, bits }),
            }
        }
        [b's', b'n', bits] => {
            let bits = bits_at(*bits)?;
            if bits == 64 {
                None
            } else {
                Some(Form::MoveSigned { bits })
            }
        }
        _ => None,
    }
}

fn move_imm_letters(text: &[u8]) -> Option<Form>
    ensures form { result ≡ move_imm_letters text.now }
    ensures fits { IfSome result FormFits }
{
    let [size, bits] = text else {
        return None;
    };
    let (size, bits) = (size_at(*size)?, bits_at(*bits)?);
    match size {
        Size::Natural => Some(Form::MoveImmNatural { bits }),
        _ => Some(Form::MoveImm { size, bits }),
    }
}

fn relative_letter(text: &[u8]) -> Option<Form>
    ensures form { result ≡ relative_letter text.now }
    ensures fits { IfSome result FormFits }
{
    let [bits] = text else {
        return None;
    };
    let bits = bits_at(*bits)?;
    Some(Form::MoveRelative { bits })
}

fn jump_end(far: bool, text: &[u8]) -> Option<Form>
    ensures form { result ≡ jump_end far text.now }
    ensures fits { IfSome result FormFits }
{
    let (relative, text) = match text {
        [b'a', rest @ ..] => (false, rest),
        _ => (true, text),
    };
    let cond = cond_of(text)?;
    Some(Form::Jump {
        cond,
        far,
        relative,
    })
}

fn jump_form(text: &[u8]) -> Option<Form>
    ensures form { result ≡ jump_form text.now }
    ensures fits { IfSome result FormFits }
{
    match text {
        [b'8', rest @ ..] => Some(Form::Jump8(cond_of(rest)?)),
        [_, _, rest @ ..] => jump_end(wide_of(text.split_at(2).0)?, rest),
        _ => None,
    }
}

fn call_end(far: bool, text: &[u8]) -> Option<Form>
    ensures form { result ≡ call_end far text.now }
    ensures fits { IfSome result FormFits }
{
    let (native, relative) = if text == b"".as_slice() {
        (false, true)
    } else if text == b"a".as_slice() {
        (false, false)
    } else if text == b"EX".as_slice() {
        (true, true)
    } else if text == b"EXa".as_slice() {
        (true, false)
    } else {
        return None;
    };
    Some(Form::Call {
        far,
        native,
        relative,
    })
}

fn call_form(text: &[u8]) -> Option<Form>
    ensures form { result ≡ call_form text.now }
    ensures fits { IfSome result FormFits }
{
    match text {
        [_, _, rest @ ..] => call_end(wide_of(text.split_at(2).0)?, rest),
        _ => None,
    }
}

fn compare_form(text: &[u8]) -> Option<Form>
    ensures form { result ≡ compare_form text.now }
    ensures fits { IfSome result FormFits }
{
    match text {
        [_, _, rest @ ..] => {
            let wide = wide_of(text.split_at(2).0)?;
            let op = cmp_of(rest)?;
            Some(Form::Compare { op, wide })
        }
        _ => None,
    }
}

fn long_at(letter: u8) -> Option<bool>
    ensures { result ≡ long_at letter }
{
    match letter {
        b'w' => Some(false),
        b'd' => Some(true),
        _ => None,
    }
}

fn compare_imm_form(text: &[u8]) -> Option<Form>
    ensures form { result ≡ compare_imm_form text.now }
    ensures fits { IfSome result FormFits }
{
    match text {
        [_, _, letter, rest @ ..] => {
            let wide = wide_of(text.split_at(2).0)?;
            let long = long_at(*letter)?;
            let op = cmp_of(rest)?;
            Some(Form::CompareImm { op, wide, long })
        }
        _ => None,
    }
}

fn push_form(text: &[u8]) -> Option<Form>
    ensures form { result ≡ push_form text.now }
    ensures fits { IfSome result FormFits }
{
    if text == b"n".as_slice() {
        return Some(Form::PushNatural);
    }
    let wide = wide_of(text)?;
    Some(Form::Push { wide })
}

fn pop_form(text: &[u8]) -> Option<Form>
    ensures form { result ≡ pop_form text.now }
    ensures fits { IfSome result FormFits }
{
    if text == b"n".as_slice() {
        return Some(Form::PopNatural);
    }
    let wide = wide_of(text)?;
    Some(Form::Pop { wide })
}

fn bare_form(form: Form, text: &[u8]) -> Option<Form>
    ensures { result ≡ bare_form form text.now }
{
    if text.is_empty() { Some(form) } else { None }
}

fn arith_form(stem: &[u8], suffix: &[u8]) -> Option<Form>
    ensures form { result ≡ arith_form stem.now suffix.now }
    ensures fits { IfSome result FormFits }
{
    let op = arith_of(stem)?;
    let wide = wide_of(suffix)?;
    Some(Form::Arith { op, wide })
}

#[tactic(auto, unfolding(crate::specs::Mnemonics::stem_form))]
fn stem_form(stem: &[u8], suffix: &[u8]) -> Option<Form>
    ensures form { result ≡ stem_form stem.now suffix.now }
    ensures fits { IfSome result FormFits }
{
    if stem == b"MOV".as_slice() {
        move_letters(suffix)
    } else if stem == b"MOVI".as_slice() {
        move_imm_letters(suffix)
    } else if stem == b"MOVREL".as_slice() {
        relative_letter(suffix)
    } else if stem == b"JMP".as_slice() {
        jump_form(suffix)
    } else if stem == b"CALL".as_slice() {
        call_form(suffix)
    } else if stem == b"CMP".as_slice() {
        compare_form(suffix)
    } else if stem == b"CMPI".as_slice() {
        compare_imm_form(suffix)
    } else {
        other_form(stem, suffix)
    }
}

#[tactic(auto, unfolding(crate::specs::Mnemonics::other_form))]
fn other_form(stem: &[u8], suffix: &[u8]) -> Option<Form>
    ensures form { result ≡ other_form stem.now suffix.now }
    ensures fits { IfSome result FormFits }
{
    if stem == b"PUSH".as_slice() {
        push_form(suffix)
    } else if stem == b"POP".as_slice() {
        pop_form(suffix)
    } else if stem == b"RET".as_slice() {
        bare_form(Form::Ret, suffix)
    } else if stem == b"BREAK".as_slice() {
        bare_form(Form::Break, suffix)
    } else if stem == b"LOADSP".as_slice() {
        bare_form(Form::LoadSpecial, suffix)
    } else if stem == b"STORESP".as_slice() {
        bare_form(Form::StoreSpecial, suffix)
    } else {
        arith_form(stem, suffix)
    }
}

fn stem_of(word: &[u8]) -> (&[u8], &[u8])
    ensures { (result.0.now, result.1.now) ≡ stem_of word.now }
{
    match word.iter().position(|b| *b < b'A' || *b > b'Z') {
        Some(at) => word.split_at(at),
        None => (word, &[]),
    }
}

// The form that a mnemonic names.
#[tactic(auto, unfolding(crate::specs::Mnemonics::form_of))]
pub(crate) fn form_of(word: &[u8]) -> Option<Form>
    ensures form { result ≡ form_of word.now }
    ensures fits { IfSome result FormFits }
{
    let (stem, suffix) = stem_of(word);
    stem_form(stem, suffix)
}
