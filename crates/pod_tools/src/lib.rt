//! Which pods the garbage collector would delete, and on which nodes a pod may run.
#![tactic(auto)]

mod by_key;
mod collecting;
mod defaults;
mod judged;
mod oldest;
mod pick_lines;
mod placement_lines;
mod placing;
mod ready;
mod rows;
mod texts;

pub use collecting::{Cause, Pick, Picks, collect};
pub use defaults::defaulted;
pub use pick_lines::collect_lines;
pub use placement_lines::place_lines;
pub use placing::{Placement, Placements, place};
pub use ready::has_status;
pub use rows::{
    CollectInput, MissingRow, MissingRows, NodeRow, NodeRows, PlaceInput, PodRow, PodRows,
};
