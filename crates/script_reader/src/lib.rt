//! The whole document: its settings, processes, objects and events, read from bytes.
//!
//! How the steps of the walk are named:
//! - `x_at` looks at a path that is handed in: an object at it, or the value under a key of that object, as `settings_at` and `whole_at`;
//!   `needed_x` does where the key has to be there. `controllers_at`, `kubelets_at` and `events_at` look under a key of the document itself.
//! - `x_in` takes the JSON value that was found: one of the document's own, whose path is fixed (`version_in`, `sets_in`), an item by its place
//!   (`controller_in`), or one under a key, with the path for its refusal (`whole_in`, `known_in`).
//! - `x_of` takes what is left once the JSON type is right, a list, a text or a number, as `events_of` and `kind_of`.
#![tactic(auto)]

mod cast;
mod choice;
mod document;
mod event;
pub mod field;
mod limits;
pub mod parts;
mod premise;
mod process;
mod reading;
mod rules;
mod script;
mod sets;
mod settings;
pub mod table;
mod waits;
mod what;

pub use document::Document;
pub use event::type_of;
pub use premise::{
    ClockRates, Demand, LongestPauses, answers_come, demand_of, late_calls, lease_part,
    lease_premise, longest_pauses, rates_of, waited_seconds,
};
pub use reading::{document_of, read_document, read_value};
pub use rules::has_release;
