// The bounds on outages.
ghost use Rattle.std.specs.Prelude.{◌≡◌, ◌*◌, ◌≤◌};
ghost use Rattle.lens_bounds.specs.Outages as spec;
ghost use Rattle.lens_bounds.specs.Outages.{IsOutage};

use crate::beats::{beats_of, least_beats, most_beats, of_millis, of_seconds, whole_beats};
use crate::calm::Calm;

/// What a node's end depends on.
#[derive(Clone, Copy)]
pub struct Outage {
    /// The delays of controllers and kubelets, and the clocks of controllers.
    pub calm: Calm,
    /// Whether there is a kubelet at all.
    pub kubelets: bool,
    /// Whether a pass takes no time for the pods of the nodes that it marks.
    pub passes_take_no_work: bool,
    /// Whether a node's silence counts from when it was last heard of in the run.
    pub probes_by_run: bool,
    /// Whether nodes are judged at each tick, and keep their condition taints as they are first seen.
    pub judges_by_own: bool,
    /// Whether a zone's bucket starts empty.
    pub starts_empty: bool,
    /// Whether pods are due by the times of their nodes' taints, and go without a limit.
    pub evicts_by_own: bool,
    /// How far the slowest clock of a kubelet goes in a beat, in units of 10^-12 s.
    pub posts_slow: u64,
    /// And the fastest.
    pub posts_fast: u64,
    /// How long a kubelet waits for a reply.
    pub timeout_millis: u32,
    pub monitor_millis: u32,
    pub grace_millis: u32,
    pub node_lease_seconds: u32,
    /// How many nodes of a zone are tainted in 1,000 s.
    pub rate: u32,
    /// How many nodes of the zone wait before this one.
    pub ahead: u32,
}

/// So many milliseconds after a kubelet's death: what is added less what is taken. It may be before the death.
#[derive(Clone, Copy)]
pub struct Since {
    pub added: u128,
    pub taken: u128,
}

/// From when to when a node is marked, in milliseconds after its kubelet's death.
#[derive(Clone, Copy)]
pub struct Marked {
    pub least: Since,
    pub most: u128,
}

/// From when to when it is tainted, or its pods are gone.
#[derive(Clone, Copy)]
pub struct Tainted {
    pub least: Since,
    pub most: u128,
    /// If the zone's token is there as the node is marked.
    pub with_token: u128,
}

fn near_period(o: Outage) -> u128
    requires { IsOutage o }
    ensures is { result ≡ spec.near_period o }
    ensures some { 1 ≤ result }
    ensures few { result ≤ 4300000000000000 }
{
    beats_of(of_millis(u64::from(o.monitor_millis)), o.calm.fast)
}

fn far_period(o: Outage) -> u128
    requires { IsOutage o }
    ensures is { result ≡ spec.far_period o }
    ensures some { 1 ≤ result }
    ensures few { result ≤ 4300000000000000 }
{
    beats_of(of_millis(u64::from(o.monitor_millis)), o.calm.slow)
}

fn mark_most(o: Outage) -> u128
    requires { IsOutage o }
    ensures is { result ≡ spec.mark_most o }
    ensures few { result ≤ 9000000000000000 }
{
    let grace = whole_beats(of_millis(u64::from(o.grace_millis)), o.calm.slow);
    most_beats(near_period(o), far_period(o), grace + 1)
}

fn mark_least(o: Outage) -> u128
    requires { IsOutage o }
    ensures is { result ≡ spec.mark_least o }
    ensures few { result ≤ 30000000000000000000000000000000000 }
{
    let grace = whole_beats(of_millis(u64::from(o.grace_millis)), o.calm.fast);
    least_beats(near_period(o), far_period(o), grace + 1)
}

fn silent(o: Outage) -> u128
    requires { IsOutage o }
    ensures is { result ≡ spec.silent o }
    ensures few { result ≤ 5000000000000000000 }
{
    let round = beats_of(
        of_seconds(u64::from(o.node_lease_seconds)) / 4,
        o.posts_slow,
    );
    4 * u128::from(o.calm.far) + round.max(6 * u128::from(o.calm.far))
}

fn unknown_most(o: Outage) -> u128
    requires { IsOutage o }
    ensures is { result ≡ spec.unknown_most o }
    ensures few { result ≤ 20000000000000000 }
{
    (u128::from(o.calm.far) + far_period(o) + mark_most(o)).saturating_sub(2)
}

fn unknown_least(o: Outage) -> u128
    requires { IsOutage o }
    ensures is { result ≡ spec.unknown_least o }
    ensures few { result ≤ 40000000000000000000000000000000000 }
{
    5 * u128::from(o.calm.near) + mark_least(o)
}

/// A token's interval, in units of 10^-12 s.
#[tactic(auto, unfolding(kube_objects::specs::Tokens::token_size))]
fn interval(o: Outage) -> u128
    requires { 1 ≤ o.rate }
    ensures is { result ≡ spec.interval o }
    ensures few { result ≤ 1000000000000001 }
{
    let size: u128 = 1_000_000_000_000_000;
    size.div_ceil(u128::from(o.rate))
}

/// What comes of so many intervals in beats on a clock.
fn tokens(count: u64, interval: u128, speed: u64) -> u128
    requires speed { 1000 ≤ speed }
    requires count { count ≤ 4294967296 }
    requires interval { interval ≤ 1000000000000001 }
    ensures is { result ≡ spec.tokens count interval speed }
    ensures few { result ≤ 10000000000000000000000 }
{
    u128::from(count) * beats_of(interval, speed)
}

fn evict_least(o: Outage, seconds: u64) -> u128
    requires { IsOutage o }
    ensures is { result ≡ spec.evict_least o seconds }
    ensures few { result ≤ 20000000000000000000000000000 }
{
    if seconds == 0 {
        return 0;
    }
    whole_beats(of_seconds(seconds - 1), o.calm.fast) + 1
}

fn evict_most(o: Outage, seconds: u64) -> u128
    requires { IsOutage o }
    ensures is { result ≡ spec.evict_most o seconds }
    ensures few { result ≤ 20000000000000000000000000000 }
{
    beats_of(of_seconds(seconds), o.calm.slow)
}

fn posts(o: Outage) -> bool
    ensures { result ≡ spec.posts o }
{
    2 * u128::from(o.calm.far) * u128::from(o.posts_fast) <= of_millis(u64::from(o.timeout_millis))
}

fn marks(o: Outage) -> bool
    ensures { result ≡ spec.marks o }
{
    let heard = o.kubelets && posts(o);
    heard && o.passes_take_no_work && o.probes_by_run && o.calm.releases_by_stop
}

/// So many beats in milliseconds.
fn in_millis(o: Outage, beats: u128) -> u128
    requires outage { IsOutage o }
    requires few { beats ≤ 100000000000000000000000000000000000 }
    ensures { result ≡ beats * o.calm.beat_millis }
{
    beats * u128::from(o.calm.beat_millis)
}

fn since_death(o: Outage, beats: u128) -> Since
    requires outage { IsOutage o }
    requires few { beats ≤ 100000000000000000000000000000000000 }
    ensures { result ≡ spec.since_death o beats }
{
    Since {
        added: in_millis(o, beats),
        taken: in_millis(o, silent(o)),
    }
}

/// From the death of a node's kubelet until the node is marked Unknown, at least and at most, while a leader attends to its nodes. None if
/// the kubelets' replies come too late, there is no kubelet, passes take time, nodes are silent by what a term has recorded, or leaders give up
/// their Leases not at stops alone. Takes no memory.
#[tactic(auto, unfolding(crate::specs::Outages::until_unknown))]
pub fn until_unknown(o: Outage) -> Option<Marked>
    requires { IsOutage o }
    ensures { result ≡ spec.until_unknown o }
{
    if marks(o) {
        Some(Marked {
            least: since_death(o, unknown_least(o)),
            most: in_millis(o, unknown_most(o)),
        })
    } else {
        None
    }
}

/// Until it is tainted, if its zone has this rate all the while, and so many nodes of it wait before. None also if the rate is 0, nodes
/// are judged at passes alone or stripped at first sight, or a zone's bucket starts full. Takes no memory.
#[tactic(auto, unfolding(crate::specs::Outages::until_tainted))]
pub fn until_tainted(o: Outage) -> Option<Tainted>
    requires { IsOutage o }
    ensures { result ≡ spec.until_tainted o }
{
    tainted_by(o, 0, 0)
}

/// Until its pods are gone that tolerate the taint for so many seconds, and no other taint of the node counts for them. None also if pods are
/// due by what a leader has seen, or go within a limit. Takes no memory.
#[tactic(auto, unfolding(crate::specs::Outages::until_gone))]
pub fn until_gone(o: Outage, seconds: u64) -> Option<Tainted>
    requires { IsOutage o }
    ensures { result ≡ spec.until_gone o seconds }
{
    if o.evicts_by_own {
        tainted_by(o, evict_least(o, seconds), evict_most(o, seconds))
    } else {
        None
    }
}

fn tainted_by(o: Outage, least: u128, most: u128) -> Option<Tainted>
    requires outage { IsOutage o }
    requires least { least ≤ 20000000000000000000000000000 }
    requires most { most ≤ 20000000000000000000000000000 }
    ensures { result ≡ spec.tainted_if o (spec.taints o) least most }
{
    if marks(o) && o.judges_by_own && o.starts_empty && o.rate != 0 {
        Some(tainted_after(o, least, most))
    } else {
        None
    }
}

fn tainted_after(o: Outage, least: u128, most: u128) -> Tainted
    requires outage { IsOutage o }
    requires rate { 1 ≤ o.rate }
    requires least { least ≤ 20000000000000000000000000000 }
    requires most { most ≤ 20000000000000000000000000000 }
    ensures { result ≡ spec.tainted_after o least most }
{
    let interval = interval(o);
    let ahead = u64::from(o.ahead);
    let first = unknown_least(o) + tokens(ahead, interval, o.calm.fast);
    let last = unknown_most(o) + tokens(ahead + 1, interval, o.calm.slow);
    let soon = unknown_most(o) + tokens(ahead, interval, o.calm.slow);
    Tainted {
        least: since_death(o, first + least),
        most: in_millis(o, last + most),
        with_token: in_millis(o, soon + most),
    }
}
