//! What a trace comes to, as tables with columns as `kubectl get` prints them, or as JSON: the command `summary`, from bytes to text.
#![tactic(auto)]

mod cell;
pub mod figures;
mod leaders;
mod nodes;
mod outcome;
mod part;
mod pods;
mod row;
mod spread;
mod subject;
mod summary;
mod table;
mod totals;
mod zones;

pub use cell::Cell;
pub use pods::eviction_in;
pub use row::{Row, add_row};
pub use summary::summary_of;
pub use table::add_table;
