//! Which lease, renew deadline and retry period to take so that somebody else leads soon enough after a crash, two leaders are ruled out, and a
//! leader stays: the greatest that there are in whole steps, and the least failover for which there are some.
#![tactic(auto)]

mod first;
mod fitting;
mod plan;
mod searching;
mod wish;

pub use fitting::{bound, timeout_by, wait_by};
pub use plan::Plan;
pub use searching::{greatest_plan, least_failover};
pub use wish::{Timeout, Wish};
