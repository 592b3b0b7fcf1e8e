//! The zones of a leader's nodes: their limiters, and the nodes that wait in them.
#![tactic(auto)]

mod limit;
mod next_place;
mod place;
mod pushes;
mod queues;
mod zone_queues;
mod zones;

pub use limit::Limit;
pub use place::Place;
pub use pushes::ZonePushes;
pub use queues::Queues;
pub use zones::Zones;
