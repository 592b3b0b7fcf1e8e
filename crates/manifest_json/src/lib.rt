//! Kubernetes manifests as `serde_json` values, read into typed objects and written back.
#![tactic(auto)]

pub mod codes;
pub mod fault;
pub mod field;
mod grammar;
mod kept;
mod lease;
mod list;
mod metadata;
mod node;
mod object;
mod pod;
mod scale;
mod write;

pub use fault::{Path, ReadFault, Refusal, fault_below};
pub use field::{number, number_joined};
pub use grammar::is_name;
pub use kept::Kept;
pub use list::{Listed, Objects, read_kept, read_list};
pub use object::{kind_of, read_object};
pub use pod::read_tolerations;
pub use scale::Scale;
pub use write::write_list;
