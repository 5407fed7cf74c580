//! The source of a sample.
ghost use Rattle.std.specs.Prelude.{◌≡◌, ◌<◌, ◌≤◌, ◌^◌, IfOk, length, string_bytes};
ghost use Rattle.printed_texts.specs.Samples.{calling_function, function_source, last_function, source_text};

use ebc_base::NoMemory;
use std::alloc::{AllocError, Global};

// The lines of the last function.
fn last_function(alloc: Global, number: u32) -> Result<String, AllocError>
    ensures { IfOk result (λ text. string_bytes text ≡ last_function number) }
{
    format!(in alloc; "f{number}:\nMOVIqw R7, {number}\nRET\n")
}

// The lines of a function before another one.
fn calling_function(alloc: Global, number: u32, next: u32) -> Result<String, AllocError>
    ensures { IfOk result (λ text. string_bytes text ≡ calling_function number next) }
{
    format!(in alloc; "f{number}:\nCALL32 f{next}\nMOVIqw R4, {number}\nADD64 R7, R4\nRET\n")
}

// The lines of a function.
fn function_source(alloc: Global, functions: u32, number: u32) -> Result<String, AllocError>
    requires { number < functions }
    ensures { IfOk result (λ text. string_bytes text ≡ function_source functions number) }
{
    if number + 1 == functions {
        last_function(alloc, number)
    } else {
        calling_function(alloc, number, number + 1)
    }
}

/// The source of a sample of so many functions, in assembly text. That of at most 4,096 functions has at most 1 MiB.
///
/// # Errors
///
/// Want of memory alone.
pub fn source(alloc: Global, functions: u32) -> Result<Vec<u8>, NoMemory>
    ensures text { IfOk result (λ text. text.items ≡ source_text functions) }
    ensures short { functions ≤ 4096 → IfOk result (λ text. length text.items ≤ 2 ^ 20) }
{
    let mut text = b".global f0\n".to_vec(alloc)?;
    for number in 0..functions {
        let lines = function_source(alloc, functions, number)?;
        text.extend_from_slice(lines.as_bytes())?;
    }
    Ok(text)
}
