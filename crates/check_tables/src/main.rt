//! Runs the cases of the tables that the arguments name, and tells each that ends otherwise than its table says.
#![tactic(auto)]

mod by_beats;
mod calm;
mod case;
mod document;
mod faults;
mod manifest;
mod many;
mod table;
mod tally;
mod trial;
mod writable;

use case::holds;
use faults::{after_faults, replays};
use kube_base::NoMemory;
use std::alloc::Global;
use std::io::ErrorKind;
use std::{env, fs, io};
use table::{Kind, Table, table_in};
use tally::Tally;

fn main(rt: HostRuntime) -> io::Result<()> {
    let mut total = Tally::new();
    for name in env::args(&rt)?.skip(1) {
        let text = fs::read_to_string(&rt, name.as_str())?;
        let tally = run_table(&rt, name.as_str(), text.as_str())?;
        let (cases, failed) = (tally.cases, tally.failed);
        println!(rt; "{name}: {cases} cases, {failed} failed")?;
        total.join(tally);
    }
    let (cases, failed) = (total.cases, total.failed);
    println!(rt; "all: {cases} cases, {failed} failed")
}

/// Runs the cases of a table. A text that is no table is a failed case.
fn run_table(rt: &HostRuntime, name: &str, text: &str) -> io::Result<Tally> {
    match table_in(text) {
        Some(table) => match table.kind {
            Kind::Trace => in_memory(replays(rt.alloc(), table.form, table.rest)),
            Kind::Faults => in_memory(after_faults(rt.alloc(), table.form, table.rest)),
            _ => run_rows(rt, name, table),
        },
        None => Ok(Tally::of(false)),
    }
}

/// Runs the case of each row.
fn run_rows(rt: &HostRuntime, name: &str, table: Table<'_>) -> io::Result<Tally> {
    let mut tally = Tally::new();
    for row in table.rest.lines() {
        let good = in_memory(holds(rt.alloc(), table.kind, table.form, row))?;
        if !good {
            println!(rt; "{name} differs: {row}")?;
        }
        tally.add(good);
    }
    Ok(tally)
}

fn in_memory<T: Drop>(ended: Result<T, NoMemory>) -> io::Result<T> {
    match ended {
        Ok(value) => Ok(value),
        Err(NoMemory) => Err(io::Error::from(ErrorKind::OutOfMemory)),
    }
}
