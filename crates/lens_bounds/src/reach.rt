// What a document's processes and events let messages and clocks do.
ghost use Rattle.std.specs.Prelude.{◌≡◌, ◌≤◌, ◌==◌, ◌&&◌};
ghost use Rattle.script_reader.specs.Documents.{doc_of};
ghost use Rattle.script_reader.specs.Lawful.{IsLawfulDoc};
ghost use Rattle.takeover_laws.specs.Waits as waiting;
ghost use Rattle.lens_bounds.specs.Documents as spec;
ghost use Rattle.lens_bounds.specs.Elections.{IsCalm};
ghost use Rattle.lens_bounds.specs.Outages.{IsOutage};

use crate::calm::{Calm, Waits};
use crate::outages::Outage;
use kube_objects::{
    BucketRule, EvictRule, JudgeRule, NumberList, ProbeRule, Proc, ReleaseActing, ReleaseRule,
    Rules, SightRule, What,
};
use script_reader::Document;

/// What messages and clocks of some processes may do.
#[derive(Clone, Copy)]
pub struct Reach {
    /// The greatest delay of a message, one way, in beats.
    pub far: u32,
    /// The least rate of a clock, in parts per million.
    pub least: u32,
    /// And the greatest.
    pub greatest: u32,
}

fn with_rate(ppm: u32, reach: Reach) -> Reach
    ensures { result ≡ spec.with_rate ppm reach }
{
    Reach {
        far: reach.far,
        least: ppm.min(reach.least),
        greatest: ppm.max(reach.greatest),
    }
}

fn with_delay(requests: u32, replies: u32, reach: Reach) -> Reach
    ensures { result ≡ spec.with_delay requests replies reach }
{
    Reach {
        far: requests.max(replies.max(reach.far)),
        least: reach.least,
        greatest: reach.greatest,
    }
}

fn with_processes(processes: &[Proc], first: Reach) -> Reach
    ensures { result ≡ spec.with_processes processes.now first }
{
    let mut reach = first;
    for process in processes {
        reach = with_rate(process.rate_ppm, reach);
    }
    reach
}

fn is_meant(count: usize, controllers: bool, process: u32) -> bool
    ensures { result ≡ spec.is_meant count controllers process }
{
    if controllers {
        (process as usize) < count
    } else {
        (process as usize) >= count
    }
}

fn with_event(count: usize, controllers: bool, what: &What, reach: Reach) -> Reach
    ensures { result ≡ spec.with_event count controllers what.now reach }
{
    match what {
        What::Rate(id, ppm) => rate_if(is_meant(count, controllers, id.0), *ppm, reach),
        What::Delay(id, requests, replies) => {
            delay_if(
                is_meant(count, controllers, id.0),
                *requests,
                *replies,
                reach,
            )
        }
        What::Loss(_, _, _)
        | What::Crash(_)
        | What::Start(_)
        | What::Stop(_)
        | What::Watch(_, _)
        | What::Ready(_, _)
        | What::Pause(_, _)
        | What::Stall(_)
        | What::Put(_, _)
        | What::Remove(_) => reach,
    }
}

fn rate_if(meant: bool, ppm: u32, reach: Reach) -> Reach
    ensures { result ≡ spec.rate_if meant ppm reach }
{
    if meant { with_rate(ppm, reach) } else { reach }
}

fn delay_if(meant: bool, requests: u32, replies: u32, reach: Reach) -> Reach
    ensures { result ≡ spec.delay_if meant requests replies reach }
{
    if meant {
        with_delay(requests, replies, reach)
    } else {
        reach
    }
}

fn processes_of(document: &Document, controllers: bool) -> &[Proc]
    ensures { result.now ≡ spec.processes_of (doc_of document.now) controllers }
{
    if controllers {
        document.controllers.as_slice()
    } else {
        document.kubelets.as_slice()
    }
}

/// The greatest delay, and the least and greatest rate, that a document sets for its controllers, or for its kubelets.
#[tactic(auto, unfolding(crate::specs::Documents::reach_of))]
fn reach_of(document: &Document, controllers: bool) -> Reach
    ensures { result ≡ spec.reach_of (doc_of document.now) controllers }
{
    let count = document.controllers.as_slice().len();
    let mut reach = with_processes(
        processes_of(document, controllers),
        Reach {
            far: 1,
            least: u32::MAX,
            greatest: 0,
        },
    );
    for event in document.events.as_slice() {
        reach = with_event(count, controllers, &event.what, reach);
    }
    reach
}

fn least_from(first: u32, waits: &[u32]) -> u32
    ensures { result ≡ waiting.least_from first waits.now }
{
    let mut least = first;
    for wait in waits {
        least = (*wait).min(least);
    }
    least
}

fn greatest_from(first: u32, waits: &[u32]) -> u32
    ensures { result ≡ waiting.greatest_from first waits.now }
{
    let mut most = first;
    for wait in waits {
        most = (*wait).max(most);
    }
    most
}

/// The least and the greatest wait that a document says of a controller, in thousandths of its retry period.
fn waits_of(document: &Document) -> Waits
    ensures { result ≡ spec.waits_in (doc_of document.now).waits }
{
    let lists = document.waits.as_slice();
    Waits::Between(least_in(lists), greatest_in(lists))
}

fn least_in(lists: &[NumberList]) -> u32
    ensures { result ≡ spec.least_in 2200 lists.now }
{
    let mut least = 2200;
    for list in lists {
        least = least_from(least, list.as_slice());
    }
    least
}

fn greatest_in(lists: &[NumberList]) -> u32
    ensures { result ≡ spec.greatest_in 1000 lists.now }
{
    let mut most = 1000;
    for list in lists {
        most = greatest_from(most, list.as_slice());
    }
    most
}

/// Whether leaders give up their Leases at stops alone, each by one update, and nobody acts meanwhile.
fn releases_by_stop(rules: Rules) -> bool
    ensures { result ≡ (spec.is_stop rules.release && spec.is_still rules.in_release) }
{
    matches!(rules.release, ReleaseRule::Stop) && matches!(rules.in_release, ReleaseActing::Still)
}

fn calm_with(document: &Document, reach: Reach) -> Calm
    requires { document.now.settings.beat_millis ≤ 1000 }
    ensures { result ≡ spec.calm_with (doc_of document.now) reach }
{
    let micros = u64::from(document.settings.beat_millis) * 1000;
    Calm {
        beat_millis: document.settings.beat_millis,
        near: 1,
        far: reach.far,
        slow: micros * u64::from(reach.least),
        fast: micros * u64::from(reach.greatest),
        waits: waits_of(document),
        respect: document.settings.rules.respect,
        fast_renew: document.settings.fast_renew,
        releases_by_stop: releases_by_stop(document.settings.rules),
    }
}

/// The calm spans of a document's controllers, in which any delay and any rate may be that it sets for one of them. Takes no memory.
pub fn calm_of(document: &Document) -> Calm
    requires { IsLawfulDoc (doc_of document.now) }
    ensures is { result ≡ spec.calm_of (doc_of document.now) }
    ensures calm { IsCalm result }
{
    calm_with(document, reach_of(document, true))
}

/// What the end of a document's nodes depends on, of which none waits before another. Takes no memory.
pub fn outage_of(document: &Document) -> Outage
    requires { IsLawfulDoc (doc_of document.now) }
    ensures is { result ≡ spec.outage_of (doc_of document.now) }
    ensures outage { IsOutage result }
{
    outage_with(
        document,
        reach_of(document, true),
        reach_of(document, false),
    )
}

/// Whether nodes are judged at each tick, and keep their condition taints as they are first seen.
fn judges_by_own(rules: Rules) -> bool
    ensures { result ≡ (spec.is_tick rules.judge && spec.is_keep rules.first_sight) }
{
    matches!(rules.judge, JudgeRule::Tick) && matches!(rules.first_sight, SightRule::Keep)
}

/// Whether pods are due by the times of their nodes' taints, and go without a limit.
fn evicts_by_own(rules: Rules) -> bool
    ensures { result ≡ (spec.is_added rules.evict_from && rules.evict_burst == 0) }
{
    matches!(rules.evict_from, EvictRule::Added) && rules.evict_burst == 0
}

fn outage_with(document: &Document, own: Reach, posts: Reach) -> Outage
    requires { document.now.settings.beat_millis ≤ 1000 }
    ensures { result ≡ spec.outage_with (doc_of document.now) own posts }
{
    let micros = u64::from(document.settings.beat_millis) * 1000;
    let both = Reach {
        far: posts.far.max(own.far),
        least: own.least,
        greatest: own.greatest,
    };
    Outage {
        calm: calm_with(document, both),
        kubelets: !document.kubelets.as_slice().is_empty(),
        passes_take_no_work: document.settings.rules.ready_millis == 0,
        probes_by_run: matches!(document.settings.rules.probe, ProbeRule::Run),
        judges_by_own: judges_by_own(document.settings.rules),
        starts_empty: matches!(document.settings.rules.bucket, BucketRule::Empty),
        evicts_by_own: evicts_by_own(document.settings.rules),
        posts_slow: micros * u64::from(posts.least),
        posts_fast: micros * u64::from(posts.greatest),
        timeout_millis: document.settings.call_timeout_millis,
        monitor_millis: document.settings.monitor_period_millis,
        grace_millis: document.settings.grace_period_millis,
        node_lease_seconds: document.settings.node_lease_duration_seconds,
        rate: document.settings.primary_rate,
        ahead: 0,
    }
}
