//! Answers on the text of a trace: the commands `leaders`, in lines or as JSON, and `lines --json`, from bytes to text.
#![tactic(auto)]

mod answering;
mod judging;
mod leaders;
pub mod leaders_json;
pub mod lines;
mod object;
mod reading;
mod trace;

pub use answering::{Telling, answer_on};
pub use judging::{Judged, judge};
pub use leaders::leaders_in;
pub use object::object_answer;
pub use reading::read_lines;
pub use trace::Trace;
