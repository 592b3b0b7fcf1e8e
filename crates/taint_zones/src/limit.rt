// How often the nodes of a zone are tainted.
use kube_objects::ZoneState;
use rate_bucket::Bucket;

/// State and rate of a zone at the last pass, and its limiter.
#[derive(Debug, Drop)]
pub struct Limit {
    pub state: ZoneState,
    pub rate: u32,
    pub bucket: Bucket,
}
