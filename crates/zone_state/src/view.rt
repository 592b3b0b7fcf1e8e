// What a rate policy sees of a zone.
use kube_objects::RatePolicy;

/// What a rate policy sees of a zone. Rates are in nodes per 1,000 s.
#[derive(Clone, Copy, Debug, PartialEq, Eq)]
pub struct ZoneView {
    /// The rate of a zone in a normal state.
    pub primary: u32,
    /// The rate of a zone in a disrupted state.
    pub secondary: u32,
    /// How many nodes the zone has.
    pub size: u32,
    /// A zone of more nodes than this is large.
    pub threshold: u32,
    pub policy: RatePolicy,
}
