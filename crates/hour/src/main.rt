//! `hour`: what the curves of the hour on standard input come to.
#![tactic(auto)]

use console::finish;
use console::report::merit;
use std::io;
use std::process::ExitCode;

fn main(rt: HostRuntime) -> io::Result<ExitCode> {
    finish(&rt, "hour", merit(&rt, None))
}
