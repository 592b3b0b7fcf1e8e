// The rules of a document: where upstream Kubernetes does otherwise than this project's profile, and how far a document goes with it.
ghost use Rattle.std.specs.Prelude.{◌≡◌};
ghost use Rattle.kube_objects.specs.Rules.{own_rules};

/// When a leader's attempt after a failed one comes: a retry period after it; at whole retry periods after its first failure; or after its first
/// attempt, at once if one came meanwhile. A candidate goes by its waits under each.
#[derive(Clone, Copy)]
pub enum RetryRule {
    After,
    Grid,
    Ticks,
}

/// Whose lease duration a candidate respects: that of the record, or its own.
#[derive(Clone, Copy)]
pub enum RespectRule {
    Record,
    Own,
}

/// From when a node counts as silent: the last time that it was heard of in the run, or by what the passes keep of it.
#[derive(Clone, Copy)]
pub enum ProbeRule {
    Run,
    Record,
}

/// When nodes are judged: at each tick, or at the passes alone.
#[derive(Clone, Copy)]
pub enum JudgeRule {
    Tick,
    Pass,
}

/// What a term does with the condition taints of a node that it first sees: it keeps them, or takes them off.
#[derive(Clone, Copy)]
pub enum SightRule {
    Keep,
    Strip,
}

/// Whether a zone's queue holds a node once, or again at each push.
#[derive(Clone, Copy)]
pub enum QueueRule {
    Once,
    Again,
}

/// Whether a zone's bucket starts empty or full.
#[derive(Clone, Copy)]
pub enum BucketRule {
    Empty,
    Full,
}

/// From when the seconds of a toleration count: the time of its taint, or the term's first sight of it.
#[derive(Clone, Copy)]
pub enum EvictRule {
    Added,
    Seen,
}

/// How a leader gives up its Lease: at a stop alone, or at each end of a term too: by what it had last, or by a look, with or without a check of
/// whose Lease it found.
#[derive(Clone, Copy)]
pub enum ReleaseRule {
    Stop,
    Own,
    Checked,
    Reread,
}

/// Whether a leader whose deadline has come acts until its release has ended.
#[derive(Clone, Copy)]
pub enum ReleaseActing {
    Still,
    Acts,
}

/// All rules of a document. They hold for its whole run.
#[derive(Clone, Copy)]
pub struct Rules {
    pub retries: RetryRule,
    pub respect: RespectRule,
    /// How long after its lead a term waits with its first sync.
    pub first_sync_millis: u32,
    pub probe: ProbeRule,
    pub judge: JudgeRule,
    pub first_sight: SightRule,
    pub queue: QueueRule,
    pub bucket: BucketRule,
    pub evict_from: EvictRule,
    /// How many pods a term may evict at once. 0 is no limit.
    pub evict_burst: u32,
    /// How many further pods it may evict in 1,000 s.
    pub evict_rate: u32,
    pub release: ReleaseRule,
    pub in_release: ReleaseActing,
    /// How long a pass works for each pod, over the first ones, of the nodes that it marks.
    pub ready_millis: u32,
    /// How many pods of these nodes cost a pass no time.
    pub ready_burst: u32,
}

impl Rules {
    /// The project's own rules, which hold if a document says nothing else.
    pub fn own() -> Rules
        ensures { result ≡ own_rules }
    {
        Rules {
            retries: RetryRule::After,
            respect: RespectRule::Record,
            first_sync_millis: 0,
            probe: ProbeRule::Run,
            judge: JudgeRule::Tick,
            first_sight: SightRule::Keep,
            queue: QueueRule::Once,
            bucket: BucketRule::Empty,
            evict_from: EvictRule::Added,
            evict_burst: 0,
            evict_rate: 20_000,
            release: ReleaseRule::Stop,
            in_release: ReleaseActing::Still,
            ready_millis: 0,
            ready_burst: 0,
        }
    }
}
