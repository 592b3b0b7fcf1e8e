// The settings of a document.
use crate::{BucketRule, EvictRule, JudgeRule, ProbeRule, QueueRule, Rules, SightRule};
use kube_base::{Beat, Wall};

/// How fast nodes are tainted in zones that are disrupted.
#[derive(Clone, Copy, Debug, PartialEq, Eq)]
pub enum RatePolicy {
    Standard,
    Gentle,
    Halt,
}

/// All settings. Rates are in nodes per 1,000 s.
#[derive(Clone, Copy)]
pub struct Settings {
    pub beat_millis: u32,
    pub end_beat: Beat,
    /// The time of day at beat 0.
    pub epoch: Wall,
    pub lease_duration_seconds: u32,
    pub renew_deadline_millis: u32,
    pub retry_period_millis: u32,
    pub call_timeout_millis: u32,
    pub restart_millis: u32,
    pub monitor_period_millis: u32,
    pub grace_period_millis: u32,
    pub startup_grace_millis: u32,
    pub node_lease_duration_seconds: u32,
    pub primary_rate: u32,
    pub secondary_rate: u32,
    pub large_zone: u32,
    pub unhealthy_percent: u32,
    /// Whether a leader renews without a Get if it can.
    pub fast_renew: bool,
    pub rate_policy: RatePolicy,
    pub rules: Rules,
}

/// The settings of a controller's tick. Rates are in nodes per 1,000 s.
#[derive(Clone, Copy)]
pub struct TickSettings {
    /// How long after its lead a term waits with its first sync.
    pub first_sync_millis: u32,
    /// From when a node counts as silent.
    pub probe: ProbeRule,
    pub monitor_period_millis: u32,
    pub grace_period_millis: u32,
    pub startup_grace_millis: u32,
    pub node_lease_duration_seconds: u32,
    pub primary_rate: u32,
    pub secondary_rate: u32,
    pub large_zone: u32,
    pub unhealthy_percent: u32,
    pub rate_policy: RatePolicy,
    pub judge: JudgeRule,
    pub first_sight: SightRule,
    pub queue: QueueRule,
    /// Whether a zone's bucket starts empty or full.
    pub bucket: BucketRule,
    pub evict_from: EvictRule,
    /// How many pods a term may evict at once. 0 is no limit.
    pub evict_burst: u32,
    /// How many further pods it may evict in 1,000 s.
    pub evict_rate: u32,
    /// How long a pass takes for each pod that it sets not ready, and for how many pods it takes no time.
    pub ready_millis: u32,
    pub ready_burst: u32,
}
