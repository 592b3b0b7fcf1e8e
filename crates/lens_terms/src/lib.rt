//! The terms of a trace's lines: who leads, from when to when, and how that ends; the stretches of beats in which a leader acts, the spans in
//! which nobody does, and where two do at once.
#![tactic(auto)]

mod acting;
mod closing;
mod closings;
mod gathering;
mod interruptions;
mod latest;
mod span;
mod standing;
mod standings;
mod stretch;
mod term;
mod together;
mod turn;

pub use acting::stretches_of;
pub use closing::{Closing, Ending, ended};
pub use gathering::terms_of;
pub use latest::Latest;
pub use span::{Span, leaderless};
pub use stretch::Stretch;
pub use term::Term;
pub use together::{beats_of_two, crossing, overlap};
pub use turn::Turn;
