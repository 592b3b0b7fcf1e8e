//! The commands: from bytes to the trace of a document, the line on it, what is stored after a beat, the audit of a trace, the lines on
//! some pods, or the one refusal, and from a seed to the line on the run of its document.
#![tactic(auto)]

mod asked;
mod auditing;
mod buffer;
mod checking;
mod command;
mod counts;
mod generating;
mod processes;
mod reading;
mod running;
mod safe;
mod sizes;
mod state;
mod summary;
mod trace;

pub use processes::process_names;
pub use running::run;
