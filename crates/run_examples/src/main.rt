//! Replays the documents of the folders that the arguments name, and says of each whether its trace is the stored one.
#![tactic(auto)]

use byte_edge::{MemSink, MemSource};
use kube_base::{NoMemory, Steps};
use replay_top::run;
use run_edge::{Status, Verdict};
use std::alloc::Global;
use std::io::ErrorKind;
use std::sync::ledger::Blank;
use std::{env, fs, io};
use zone_state::{Policies, full, partial};

/// How many bytes a source gives, and a sink takes, at once.
const CHUNK: usize = 100;

fn main(rt: HostRuntime) -> io::Result<()> {
    for name in env::args(&rt)?.skip(1) {
        compare(&rt, name.as_str())?;
    }
    Ok(())
}

fn compare(rt: &HostRuntime, name: &str) -> io::Result<()> {
    let document = fs::read(rt, format!(in rt.alloc(); "{name}/document.json")?.as_str())?;
    let trace = fs::read(rt, format!(in rt.alloc(); "{name}/trace.txt")?.as_str())?;
    match replays(rt.alloc(), document, trace.as_slice()) {
        Ok(true) => println!(rt; "{name} same"),
        Ok(false) => println!(rt; "{name} differs"),
        Err(_) => Err(io::Error::from(ErrorKind::OutOfMemory)),
    }
}

/// Whether the document is run, and its trace is this one.
fn replays(alloc: Global, document: Vec<u8>, trace: &[u8]) -> Result<bool, NoMemory> {
    let mut words = Vec::new(alloc);
    words.push(String::from_str(alloc, "replay")?)?;
    let mut source = MemSource::new(document, CHUNK, Vec::new(alloc));
    let mut sink = MemSink::new(alloc, trace.len().saturating_add(1), CHUNK, Vec::new(alloc))?;
    let mut steps = Steps::new(Blank::new(1));
    let ended = run(
        alloc,
        &words,
        &mut source,
        &mut sink,
        &Policies::new(partial, full),
        &mut steps,
    );
    Ok(ended == Status::Answered(Verdict::Done) && sink.held() == trace)
}
