//! What a program takes of the system, and what it says to it: its words and its exit status.
ghost use Rattle.std.specs.Prelude.{◌≡◌, ◌≢◌, [], IfErr, IfOk, IsErr, IsOkAnd, drop};
ghost use Rattle.std.specs.Process as process;
ghost use Rattle.std.specs.Vec.Iter.{into_iter_items};
ghost use Rattle.std_io.specs.IoError.{error_kind};
ghost use Rattle.std_io.specs.declared.io.kind.ErrorKind.TheVariants.{OutOfMemory};
ghost use Rattle.cli_base.specs.Outcomes.{exit_status};

use crate::outcome::Outcome;
use std::alloc::{AllocError, Global};
use std::process::ExitCode;
use std::rt::Env;
use std::{env, io};

// The arguments that remain, without the first of them, which is the program's name.
fn words_after_name(alloc: Global, args: env::Args) -> Result<Vec<String>, AllocError>
    ensures { IfOk result (λ words. words.items ≡ drop 1 (into_iter_items args)) }
{
    args.skip(1).collect(alloc)
}

// The words after the program's name, of what the system tells of its arguments: none where one of them isn't UTF-8.
fn words_in(alloc: Global, args: io::Result<env::Args>) -> Result<Vec<String>, AllocError>
    ensures words { IfOk args (λ all. IfOk result (λ words. words.items ≡ drop 1 (into_iter_items all))) }
    ensures none { IfErr args (λ e. error_kind e ≢ OutOfMemory → IsOkAnd result (λ words. words.items ≡ [])) }
    ensures memory { IfErr args (λ e. error_kind e ≡ OutOfMemory → IsErr result) }
{
    match args {
        Ok(args) => words_after_name(alloc, args),
        Err(e) if e.kind() == io::ErrorKind::OutOfMemory => Err(AllocError),
        Err(_) => Ok(Vec::new(alloc)),
    }
}

/// The words after the program's name, and none where one of them isn't UTF-8.
pub fn words_of<R: Env + AllocGlobal>(rt: &R) -> Result<Vec<String>, AllocError> {
    words_in(rt.alloc(), env::args(rt))
}

/// The status with which a program ends after an outcome.
pub fn status(outcome: Outcome) -> ExitCode
    ensures { process.exit_status result ≡ exit_status outcome }
{
    ExitCode::from(outcome.code())
}
