//! A versioned store of objects. Each of its answers is a function of the history.
#![tactic(auto)]

mod faults;
mod replies;
mod since;
mod stamp;
mod status;
mod store;
#[cfg(test)]
mod tests;

pub use faults::{Posted, StoreFault};
pub use since::Since;
pub use store::Store;
