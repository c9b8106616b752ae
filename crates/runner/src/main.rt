//! `dufnask`: runs call scripts on the days of a power market, and shows what the curves of an hour come to.
#![tactic(auto)]

use console::report::merit;
use console::{Failure, finish, help, no_more, read_text};
use std::process::ExitCode;
use std::{env, io};

fn main(rt: HostRuntime) -> io::Result<ExitCode> {
    finish(&rt, "dufnask", obey(&rt))
}

/// Does what the words of the command line ask for.
fn obey(rt: &HostRuntime) -> Result<(), Failure> {
    let mut words = env::args(rt)?;
    let _program = words.next();
    let Some(command) = words.next() else {
        return run(rt, None);
    };
    let file = words.next();
    no_more(words.next())?;
    match command.as_str() {
        "run" => run(rt, file),
        "merit" => merit(rt, file),
        "bench" => {
            no_more(file)?;
            console::bench::measure(rt)?;
            println!(rt; "")?;
            script::bench::measure(rt)
        }
        "help" | "-h" | "--help" => {
            no_more(file)?;
            println!(rt; "{}", help::TEXT)?;
            Ok(())
        }
        _ => {
            eprintln!(rt; "{}", help::TEXT)?;
            Err(Failure::Command(command))
        }
    }
}

/// Runs the call script in a file, or on standard input where none is named.
fn run(rt: &HostRuntime, file: Option<String>) -> Result<(), Failure> {
    let text = read_text(rt, file)?;
    script::run(rt, text.as_str())
}
