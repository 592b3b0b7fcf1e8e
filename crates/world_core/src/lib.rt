//! The world of a document, which does one beat at a time.
#![tactic(auto)]

mod printing;
mod replay;
mod replies;
mod wakes;
mod world;

pub use replay::deeds_of;
pub use wakes::{Wakes, sooner_beat};
pub use world::World;
