//! Buckets: a zone's, of one token, which limits how often nodes are tainted; and a term's, of many, which limits how often pods are deleted.
#![tactic(auto)]

mod allowance;
mod bucket;

pub use allowance::Allowance;
pub use bucket::Bucket;
