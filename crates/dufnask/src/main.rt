//! `dufnask`: what the curves of an hour come to.
#![tactic(auto)]

mod help;
mod wording;

use console::{Failure, bench, finish, no_more, reading, report};
use std::process::ExitCode;
use std::{env, fs, io};
use wording::{Meant, Worded};

fn main(rt: HostRuntime) -> io::Result<ExitCode> {
    finish(&rt, "dufnask", run(&rt).map_err(Worded))
}

/// Does what the words of the command line ask for.
fn run(rt: &HostRuntime) -> Result<(), Failure> {
    let mut words = env::args(rt)?;
    let _program = words.next();
    let Some(command) = words.next() else {
        println!(rt; "{}", help::TEXT)?;
        return Ok(());
    };
    match command.as_str() {
        "merit" => {
            let file = words.next();
            no_more(words.next())?;
            merit(rt, file)
        }
        "bench" => {
            no_more(words.next())?;
            bench::measure(rt)
        }
        "help" | "-h" | "--help" => {
            println!(rt; "{}", help::TEXT)?;
            Ok(())
        }
        _ => {
            eprintln!(rt; "{}", help::TEXT)?;
            Err(Failure::Command(command))
        }
    }
}

/// Prints the report on the hour in a file, or on standard input. Bytes that are no text are an error here, which
/// `console::read_text` lets stand as U+FFFD.
fn merit(rt: &HostRuntime, file: Option<String>) -> Result<(), Failure> {
    let heap = rt.alloc();
    let text = match file {
        Some(path) => fs::read_to_string(rt, path.as_str()).map_err(|error| Failure::File(
            path, error,
        ))?,
        None => io::read_to_string(heap, rt.stdin())?,
    };
    let sheet = reading::read(heap, text.as_str())?;
    report::print::<Meant>(rt, &sheet)
}
