//! What the commands of both programs share: how a run ends, the input that a source has, what is asked of it, refusals, and the writing of
//! a finished text.
#![tactic(auto)]

mod answer;
mod asking;
mod exiting;
mod refusing;
mod status;
mod taking;
mod telling;

pub use answer::{Answer, Question};
pub use asking::ask;
pub use exiting::{exit_of, exit_status};
pub use refusing::{refuse, refuse_as, tell_refusal, tell_too_large};
pub use status::{Status, Verdict};
pub use taking::take_input;
pub use telling::{tell, tell_usage};
