//! Why a document is refused: the place in the text, what stands there, and a sentence; or that it is well formed. The command `explain`, in
//! lines or as JSON, from bytes to text.
#![tactic(auto)]

mod broken;
mod digits;
mod explaining;
mod front;
mod keys;
mod known;
mod lines;
mod nearest;
mod object;
mod odd;
mod place;
mod places;
mod rules;
mod saying;
mod scan;
mod sentence;
mod slips;
mod stop;
mod twice;
mod walk;

pub use explaining::explained;
