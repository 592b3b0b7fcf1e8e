//! The program: the words after its name, standard input and standard output, and an exit status.
#![tactic(auto)]

use byte_edge::{StdSink, StdSource};
use kube_base::Steps;
use replay_top::run;
use run_edge::{Status, exit_of};
use std::process::ExitCode;
use std::sync::ledger::Blank;
use std::{env, io};
use zone_state::{Policies, full, partial};

fn main(rt: HostRuntime) -> ExitCode {
    exit_of(ended(&rt))
}

/// How the run on the words after the program's name ends.
fn ended(rt: &HostRuntime) -> io::Result<Status> {
    let words: Vec<String> = env::args(rt)?.skip(1).collect(rt.alloc())?;
    Ok(run(
        rt.alloc(),
        &words,
        &mut StdSource::new(rt.stdin()),
        &mut StdSink::new(rt.stdout()),
        &Policies::new(partial, full),
        &mut Steps::new(Blank::new(1)),
    ))
}
