//! The notes of a sample.
ghost use Rattle.std.specs.Prelude.{◌≡◌, ◌<◌, ◌≤◌, IfOk, string_bytes};
ghost use Rattle.printed_texts.specs.Samples.{call_lines, function_notes, notes_text, place_lines, sample_end, sample_place, sample_result};

use ebc_base::NoMemory;
use std::alloc::{AllocError, Global};

// Where the code of a function begins.
fn sample_place(number: u32) -> u32
    requires { number < 4096 }
    ensures { result ≡ sample_place number }
{
    4096 + 14 * number
}

// Where the code of a function ends: the last is shorter.
fn sample_end(functions: u32, number: u32) -> u32
    requires below { number < functions }
    requires most { functions ≤ 4096 }
    ensures { result ≡ sample_end functions number }
{
    let length = if number + 1 == functions { 6 } else { 14 };
    sample_place(number) + length
}

// What a function returns: its number and those of the functions behind it, together.
#[tactic(auto, using(crate::proofs::SumLaws::half, crate::proofs::SumLaws::twice_fits))]
fn sample_result(functions: u32, number: u32) -> u32
    requires below { number < functions }
    requires most { functions ≤ 4096 }
    ensures { result ≡ sample_result functions number }
{
    let count = functions - number;
    let first_and_last = number + (functions - 1);
    count * first_and_last / 2
}

// The first lines of the table of a function: its name, and where its code begins and ends.
#[tactic(auto, unfolding(crate::specs::Samples::place_lines))]
fn place_lines(alloc: Global, number: u32, place: u32, end: u32) -> Result<String, AllocError>
    ensures { IfOk result (λ text. string_bytes text ≡ place_lines number place end) }
{
    format!(in alloc; "[[function]]\nname = \"f{number}\"\nplace = {place}\nend = {end}\n")
}

// The others: how many calls deep it goes, what they take of the stack, and what it returns.
#[tactic(auto, unfolding(crate::specs::Samples::call_lines))]
fn call_lines(alloc: Global, level: u32, value: u32) -> Result<String, AllocError>
    requires { level < 4096 }
    ensures { IfOk result (λ text. string_bytes text ≡ call_lines level value) }
{
    let bytes = 16 * level;
    format!(in alloc; "level = {level}\nneed = [0, {bytes}]\nresult = \"int:{value}..{value}\"\n")
}

// The table of a function.
fn function_notes(alloc: Global, functions: u32, number: u32) -> Result<String, AllocError>
    requires below { number < functions }
    requires most { functions ≤ 4096 }
    ensures { IfOk result (λ text. string_bytes text ≡ function_notes functions number) }
{
    let mut text = place_lines(
        alloc,
        number,
        sample_place(number),
        sample_end(functions, number),
    )?;
    let calls = call_lines(
        alloc,
        functions - 1 - number,
        sample_result(functions, number),
    )?;
    text.push_str(calls.as_str())?;
    Ok(text)
}

/// The notes of a sample of so many functions, at most 4,096.
///
/// # Errors
///
/// Want of memory alone.
pub fn notes(alloc: Global, functions: u32) -> Result<Vec<u8>, NoMemory>
    requires { functions ≤ 4096 }
    ensures { IfOk result (λ text. text.items ≡ notes_text functions) }
{
    let mut text = b"version = 1\nentry = \"f0\"\n".to_vec(alloc)?;
    for number in 0..functions {
        let table = function_notes(alloc, functions, number)?;
        text.extend_from_slice(table.as_bytes())?;
    }
    Ok(text)
}
