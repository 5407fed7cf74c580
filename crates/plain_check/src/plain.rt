//! The plain check of raw code.
ghost use Rattle.std.specs.Prelude.{◌≡◌, ◌≢◌, ◌+◌, ◌<◌, ◌≤◌, ◌^◌, ◌↔◌, ℕ, length, drop, IfOk, vec_len, Some, None};
ghost use Rattle.note_types.specs.declared.rule.RuleName.{RuleName};
ghost use Rattle.plain_check.specs.PlainChecks.{plain_verdict, first_refusal, places, reached, starts, is_plain, is_register, lands};
ghost use Rattle.plain_check.specs.PlainChecks.{passes, falls_through, instruction_rule, marked, after_place};
ghost use Rattle.plain_check.specs.PlainRules.{IsNeutral, IsRefused};
ghost use Rattle.plain_check.specs.PlainRuns.{RunsAlike};

use crate::verdict::Verdict;
use ebc_base::NoMemory;
use ebc_decode::decode;
use ebc_insn::{ArithOp, CmpOp, Cond, Insn, Operand, Size};
use note_types::RuleName;
use std::alloc::Global;

/// The verdict of the plain check on raw code (docs/PLAIN.md, "The check"). Its places, offsets in bytes, have 32 bits.
pub fn check_plain(alloc: Global, code: &[u8]) -> Result<Verdict, NoMemory>
    requires { length code.now < 2 ^ 32 }
    // The verdict is Neutral exactly where each instruction that lengths lead to meets every rule, and refuses exactly
    // the first place at which a rule fails, by the first rule that fails there.
    ensures neutral_exactly { IfOk result (λ verdict. verdict ≡ Verdict.Neutral ↔ IsNeutral code.now) }
    ensures refused_exactly { (place : ℕ) (rule : RuleName) →
        IfOk result (λ verdict. verdict ≡ Verdict.Refused place rule ↔ IsRefused code.now place rule) }

    // Neutral code has the same plain runs at both widths.
    ensures neutral_alike { IfOk result (λ verdict. verdict ≡ Verdict.Neutral → RunsAlike code.now) }

    // It is the verdict that is computed.
    ensures value { IfOk result (λ verdict. verdict ≡ plain_verdict code.now) }
{
    let verdict = verdict_of(alloc, code)?;
    Ok(verdict)
}

#[tactic(auto, unfolding(crate::specs::PlainChecks::plain_verdict))]
fn verdict_of(alloc: Global, code: &[u8]) -> Result<Verdict, NoMemory>
    requires { length code.now < 2 ^ 32 }
    ensures { IfOk result (λ verdict. verdict ≡ plain_verdict code.now) }
{
    if code.is_empty() {
        return Ok(Verdict::Refused {
            place: 0,
            rule: RuleName::End,
        });
    }
    let starts = starts_of(alloc, code)?;
    Ok(first_refusal(code, &starts))
}

// For each byte, whether an instruction starts there.
fn starts_of(alloc: Global, code: &[u8]) -> Result<Vec<bool>, NoMemory>
    requires { length code.now < 2 ^ 32 }
    ensures { IfOk result (λ marks. (place : ℕ) → marked marks.items place ≡ starts code.now place) }
{
    let mut marks = vec![in alloc; false; code.len()]?;
    let mut at = 0;
    while at < code.len() {
        let Ok((_, len)) = decode(code, at) else {
            break;
        };
        marks[at] = true;
        at += len;
    }
    Ok(marks)
}

// The first place at which a rule fails.
fn first_refusal(code: &[u8], marks: &[bool]) -> Verdict
    requires { length code.now < 2 ^ 32 }
    ensures { result ≡ first_refusal (marked marks.now) (length code.now) (places code.now) }
{
    let mut at = 0;
    while at < code.len() {
        match rule_at(code, at, marks) {
            Ok(next) => at = next,
            Err(rule) => {
                return Verdict::Refused {
                    place: at as u32,
                    rule,
                };
            }
        }
    }
    Verdict::Neutral
}

// The place after the instruction at a place, or the first rule that fails there.
fn rule_at(code: &[u8], at: usize, marks: &[bool]) -> Result<usize, RuleName>
    requires within { at < length code.now }
    requires size { length code.now < 2 ^ 32 }
    ensures judged { first_refusal (marked marks.now) (length code.now) (reached at 0 (drop at code.now)) ≡
        after_place (marked marks.now) code.now at result }
    ensures next { IfOk result (λ next. next ≤ length code.now) }
    ensures later { IfOk result (λ next. at < next) }
{
    let Ok((insn, len)) = decode(code, at) else {
        return Err(RuleName::Decode);
    };
    let next = at + len;
    match instruction_rule(&insn, next, code.len(), marks) {
        None => Ok(next),
        Some(rule) => Err(rule),
    }
}

// The first rule that fails at an instruction that ends before the place `next`.
fn instruction_rule(insn: &Insn, next: usize, size: usize, marks: &[bool]) -> Option<RuleName>
    requires { next < 2 ^ 32 }
    ensures { result ≡ instruction_rule (marked marks.now) size next insn.now }
{
    if !is_plain(insn) {
        return Some(RuleName::Form);
    }
    if !lands(insn, next, marks) {
        return Some(RuleName::Target);
    }
    if next == size && falls_through(insn) {
        return Some(RuleName::End);
    }
    None
}

// Whether an instruction is one of the forms of plain code.
fn is_plain(insn: &Insn) -> bool
    ensures { result ≡ is_plain insn.now }
{
    match insn {
        Insn::Jump8 { .. } | Insn::Ret => true,
        Insn::Compare {
            op: CmpOp::Eq,
            wide: true,
            right,
            ..
        } => is_register(right),
        Insn::Arith {
            op: ArithOp::Add,
            wide: true,
            left,
            right,
            ..
        } => is_register(left) && is_register(right),
        Insn::MoveImm {
            size: Size::Qword,
            bits: 16,
            left,
            ..
        } => is_register(left),
        _ => false,
    }
}

fn is_register(operand: &Operand) -> bool
    ensures { result ≡ is_register operand.now }
{
    !operand.indirect
}

// Whether the target of a jump is a start.
fn lands(insn: &Insn, next: usize, marks: &[bool]) -> bool
    requires { next < 2 ^ 32 }
    ensures { result ≡ lands (marked marks.now) next insn.now }
{
    match insn {
        Insn::Jump8 { words, .. } => is_marked(marks, next as i64 + 2 * *words as i64),
        _ => true,
    }
}

// Whether an address, which may lie before the code, is marked.
fn is_marked(marks: &[bool], address: i64) -> bool
    ensures { result ≡ passes (marked marks.now) address }
{
    if address < 0 {
        return false;
    }
    marks.get(address as usize).copied().unwrap_or(false)
}

// Whether control may go on at the next instruction.
fn falls_through(insn: &Insn) -> bool
    ensures { result ≡ falls_through insn.now }
{
    !matches!(
        insn,
        Insn::Ret
            | Insn::Jump8 {
                cond: Cond::Always,
                ..
            }
    )
}
