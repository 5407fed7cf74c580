//! The lines of the warnings.
ghost use Rattle.std.specs.Prelude.{◌≡◌, ◌++◌, IfOk, OnOk};
ghost use Rattle.image_lint.specs.Texts.{kind_name, warning_line, warning_lines};

use image_warnings::{Kind, Warning};
use printed_texts::Place;
use std::alloc::{AllocError, Global};

/// The name of a kind of warning, as it is printed.
pub fn kind_name(kind: Kind) -> &'static str
    ensures { result.now ≡ kind_name kind }
{
    match kind {
        Kind::Status => "status",
        Kind::Narrow => "narrow",
        Kind::Popn => "popn",
        Kind::Divide => "divide",
        Kind::Shift => "shift",
        Kind::Compare => "compare",
        Kind::Break => "break",
        Kind::Unwritten => "unwritten",
        Kind::Far => "far",
        Kind::Odd => "odd",
        Kind::Frame => "frame",
        Kind::String => "string",
    }
}

// Appends the line of a warning.
#[tactic(auto, unfolding(crate::specs::Texts::warning_line))]
fn append_line(alloc: Global, warning: &Warning, out: &mut Vec<u8>) -> Result<(), AllocError>
    ensures { OnOk result (out.new.items ≡ out.old.items ++ warning_line warning.now) }
{
    let place = Place(warning.place);
    let kind = kind_name(warning.kind);
    let line = format!(in alloc; "warning {place} {kind}\n")?;
    out.extend_from_slice(line.as_bytes())?;
    Ok(())
}

/// The lines of warnings.
pub(crate) fn warning_lines(alloc: Global, warnings: &[Warning]) -> Result<Vec<u8>, AllocError>
    ensures { IfOk result (λ text. text.items ≡ warning_lines warnings.now) }
{
    let mut out = Vec::new(alloc);
    for warning in warnings {
        append_line(alloc, warning, &mut out)?;
    }
    Ok(out)
}
