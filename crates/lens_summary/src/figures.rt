// What a trace comes to as JSON: the command `summary --json`, from bytes to text.

mod answering;
mod leaders;
mod lines;
mod objects;
mod totals;

pub use answering::{figures_of, parts};
