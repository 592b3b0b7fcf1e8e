//! Where bytes come from and go to: sources and sinks that may fail, each with a count of its faults.
#![tactic(auto)]

mod borrowed_sink;
mod calm_sink;
mod calm_source;
mod giving;
mod mem_sink;
mod mem_source;
mod outside;
mod std_sink;
mod std_source;
mod taking;

pub use borrowed_sink::BorrowedSink;
pub use calm_sink::CalmSink;
pub use calm_source::CalmSource;
pub use giving::give_all;
pub use mem_sink::MemSink;
pub use mem_source::MemSource;
pub use outside::{Failed, Sink, Source};
pub use std_sink::StdSink;
pub use std_source::StdSource;
pub use taking::{TakeFault, take_all};

#[cfg(test)]
mod tests;
