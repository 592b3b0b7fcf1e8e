//! The inputs of `collect` and `place`, read from bytes.
#![tactic(auto)]

mod answering;
mod condition;
mod field;
mod laws;
mod missing;
mod reading;
mod row;
mod table;

pub use answering::{collect_answer, place_answer};
pub use laws::inputs_are_few;
pub use reading::{read_collect, read_place};
