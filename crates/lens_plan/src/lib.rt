//! Which flags to start kube-controller-manager with so that somebody else leads soon enough after a crash: the command `tune`, from words to
//! text and status.
#![tactic(auto)]

mod decimals;
mod fault;
mod found;
mod given;
mod lines;
mod object;
mod running;
mod setting;
mod usage;
mod wanted;

pub use fault::Fault;
pub use found::Found;
pub use given::{Asked, read_wanted};
pub use running::run;
pub use setting::Setting;
pub use wanted::Wanted;
