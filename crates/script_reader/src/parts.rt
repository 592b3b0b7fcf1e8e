// Keys of the document that are read together.
use crate::table::Version;
use kube_base::{Beat, Wall};

/// The beats: how long one is, which is the last, and the time of day at the first.
#[derive(Clone, Copy, Debug)]
pub struct Beats {
    pub millis: u32,
    pub end: Beat,
    pub epoch: Wall,
}

/// The timings of leader election. A controller may have its own.
#[derive(Clone, Copy, Debug)]
pub struct Timings {
    pub lease_seconds: u32,
    pub renew_millis: u32,
    pub retry_millis: u32,
    pub timeout_millis: u32,
}

/// The periods after which processes and nodes are judged.
#[derive(Clone, Copy, Debug)]
pub struct Periods {
    pub restart_millis: u32,
    pub monitor_millis: u32,
    pub grace_millis: u32,
    pub startup_millis: u32,
    pub node_lease_seconds: u32,
}

/// How fast nodes are tainted, and when a zone is disrupted.
#[derive(Clone, Copy, Debug)]
pub struct Rates {
    pub primary: u32,
    pub secondary: u32,
    pub large_zone: u32,
    pub unhealthy_percent: u32,
}

/// A process's clock, and whether it is up at first.
#[derive(Clone, Copy, Debug)]
pub struct Clock {
    pub rate_ppm: u32,
    pub offset_millis: i64,
    pub up: bool,
}

/// What holds for all events of a document: its version, and its last beat.
#[derive(Clone, Copy, Debug)]
pub struct Scope {
    pub version: Version,
    pub end: Beat,
}

/// A member of a set's `on`: a node, and how many of the set's pods are on it.
#[derive(Clone, Copy, Debug)]
pub struct Share {
    pub node: u32,
    pub pods: u32,
}
