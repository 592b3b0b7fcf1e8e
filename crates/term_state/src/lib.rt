//! The cluster as a term of a leader sees and judges it, and the tries by which a tick writes.
#![tactic(auto)]

mod cluster;
mod eviction;
mod judge;
mod last;
mod moved;
mod node_try;
mod note;
mod queues;
mod rows;
mod take;
mod told;
mod tries;
mod view;
mod writes;

pub use cluster::Cluster;
pub use eviction::Eviction;
pub use node_try::NodeTry;
pub use told::Told;
pub use tries::{try_delete, try_delete_alone};
pub use view::View;
pub use writes::{NodeWrite, try_write};
