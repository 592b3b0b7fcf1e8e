// Zones by their labels.

/// A zone: the numbers of its region and zone labels, 0 if a node has none. By region, then zone.
#[derive(Clone, Copy, Debug, PartialEq, Eq, PartialOrd, Ord)]
pub struct Place {
    pub region: u32,
    pub zone: u32,
}
