//! Ticks of a leader over a store that a script changes, beat by beat, and the deeds that each prints.
#![tactic(auto)]

mod change;
mod rows;
mod scene;

use rows::ROWS;
use std::io;

fn main(rt: HostRuntime) -> io::Result<()> {
    for row in ROWS {
        println!(rt; "{}", row.name)?;
        scene::play(&rt, &row)?;
    }
    Ok(())
}
