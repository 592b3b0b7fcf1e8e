//! Documents of a seed: a cluster with its kubelets and Pods, and crashes.
#![tactic(auto)]

mod crash;
mod draw;
mod generating;
mod law;
mod names;
mod node;
mod pod;
mod process;

pub use generating::generate;
pub use law::generated_documents_are_lawful;
