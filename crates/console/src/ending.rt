//! How a program ends.

ghost use Rattle.std.specs.Prelude.{◌≡◌, ◌↔◌, Ok, Err, IfOk, IsOk, MatchOption};
ghost use Rattle.console.specs.declared.failure.Failure.TheVariants.{Excess};

use crate::failure::Failure;
use std::process::ExitCode;
use std::{fmt, io};

/// The status of a program, which tells on standard error, after its name, of what kept it from doing what was asked.
pub fn finish<F: fmt::Display + Drop>(
    rt: &HostRuntime,
    program: &str,
    outcome: Result<(), F>,
) -> io::Result<ExitCode>
    ensures { IfOk result (λ code. (code ≡ ExitCode.SUCCESS) ↔ IsOk outcome) }
{
    match outcome {
        Ok(()) => Ok(ExitCode::SUCCESS),
        Err(failure) => {
            eprintln!(rt; "{program}: {failure}")?;
            Ok(ExitCode::FAILURE)
        }
    }
}

/// That a command has no further word.
pub fn no_more(word: Option<String>) -> Result<(), Failure>
    ensures { MatchOption word (result ≡ Ok tt) (λ w. result ≡ Err (Excess w)) }
{
    match word {
        Some(word) => Err(Failure::Excess(word)),
        None => Ok(()),
    }
}
