//! The processes of a world: controllers and kubelets, each with its clock.
#![tactic(auto)]

mod clocks;
mod controller;
mod in_force;
mod kubelet;
mod moves;
mod process;
mod round_timing;
mod settings;
mod ticking;
mod waits;
mod waking;

pub use clocks::first_beat;
pub use controller::{Controller, Role};
pub use in_force::InForce;
pub use kubelet::Kubelet;
pub use moves::{Received, Stopped, Turn};
pub use process::Process;
pub use round_timing::RoundTiming;
pub use waits::{Waits, waits_at};
pub use waking::Waking;
