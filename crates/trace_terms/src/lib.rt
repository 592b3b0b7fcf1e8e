//! The terms of a trace: who leads from when to when, whether two lead at one beat, whether leaders alone act, and whether
//! their taints are spaced.
#![tactic(auto)]

mod earlier;
mod mark;
mod nearest;
mod review;
mod role;
mod roll;
mod seat;
mod spacing;

pub use mark::Mark;
pub use nearest::{Nearest, Span};
pub use review::{Findings, Review};
pub use role::Role;
pub use roll::Roll;
pub use seat::Seat;
