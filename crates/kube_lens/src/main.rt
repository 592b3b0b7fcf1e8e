//! The program: the words after its name, standard input and standard output, and an exit status.
#![tactic(auto)]

mod asked;
mod command;
mod running;

use crate::running::run;
use byte_edge::{StdSink, StdSource};
use run_edge::{Status, exit_of};
use std::process::ExitCode;
use std::{env, io};

fn main(rt: HostRuntime) -> ExitCode {
    exit_of(ended(&rt))
}

/// How the run on the words after the program's name ends.
fn ended(rt: &HostRuntime) -> io::Result<Status> {
    let words: Vec<String> = env::args(rt)?.skip(1).collect(rt.alloc())?;
    let mut source = StdSource::new(rt.stdin());
    let mut sink = StdSink::new(rt.stdout());
    Ok(run(rt.alloc(), &words, &mut source, &mut sink))
}
