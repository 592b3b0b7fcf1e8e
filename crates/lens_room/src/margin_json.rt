// How much room each lease leaves as JSON: the command `margin --json`, from bytes to text.

mod answering;
mod parts;

pub use answering::room_in;
pub use parts::{member, seconds, slack, stall};
