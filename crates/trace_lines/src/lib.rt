//! The lines of a trace: what the first one says and what each of the others does, by a grammar that stands alone.
#![tactic(auto)]

mod forms;
mod grammar;
mod header;
mod line;

pub use forms::read_line;
pub use grammar::cut;
pub use header::{Header, read_header};
pub use line::{Answer, Line, Says, Verb};
