//! How much room each lease leaves: the command `margin`, of a document or by flags, in lines or as JSON, from bytes to text, or from words
//! to text and status.
#![tactic(auto)]

pub mod by_flags;
mod late;
mod lines;
pub mod margin_json;
mod margins;

pub use late::{Late, late_reply};
pub use margins::{margins_in, verdict_by};
