//! The lines of a trace: the first line, and a line for each deed.
#![tactic(auto)]

mod lines;
mod texts;
mod writing;

pub use lines::premise_end;
pub use texts::{add, add_number, name_of};
pub use writing::{FirstLine, WriteFault, write_deed, write_first};

#[cfg(test)]
mod tests;
