// The zones' states and rates.
ghost use Rattle.std.specs.Prelude.{◌≡◌, ◌≤◌, ◌<◌, ℕ, false, List, Some, None, length, OnOk, if◌then◌else◌};
ghost use Rattle.kube_base.specs.Bounds.{most_local};
ghost use Rattle.kube_objects.specs.Clocks.{local};
ghost use Rattle.kube_objects.specs.Document.{Doc};
ghost use Rattle.kube_objects.specs.Entry.{Entry, Identity, Place as Zone, Zone as ZoneEntry};
ghost use Rattle.kube_objects.specs.Modes.{mode, nodes};
ghost use Rattle.kube_objects.specs.Tick as model;
ghost use Rattle.kube_objects.specs.Tokens.{is_rated, rated};
ghost use Rattle.kube_objects.specs.declared.deed.Deed.{Deed};
ghost use Rattle.taint_zones.specs.Limits.{LimitStands, LimitsStand, new_bucket, with_rate};
ghost use Rattle.taint_zones.specs.Places.{entry_place};
ghost use Rattle.taint_zones.specs.Waiting.{since};
ghost use Rattle.taint_zones.specs.declared.place.Place.{Place};
ghost use Rattle.term_state.specs.MidTick.{IsTold};
ghost use Rattle.controller_core.specs.Zoned.{ArePassed};
ghost use Rattle.zone_counts.specs.Counted.{zone_counts};
ghost use Rattle.zone_counts.specs.Settings.{AreSettings};

use kube_base::{Local, NoMemory};
use kube_objects::{Act, BucketRule, TickSettings, ZoneState};
use rate_bucket::Bucket;
use std::alloc::Global;
use std::collections::BTreeMap;
use taint_zones::{Limit, Place, Zones};
use term_state::{Told, View};
use zone_counts::ZoneCount;
use zone_state::Policies;

// The bucket of a new zone.
fn new_bucket(rule: BucketRule, rate: u32, now: Local) -> Bucket
    requires { now.0 ≤ most_local }
    ensures { result ≡ new_bucket rule rate now.0 }
{
    match rule {
        BucketRule::Empty => Bucket::start(rate, now),
        BucketRule::Full => Bucket::filled(rate, now),
    }
}

// The bucket of a zone that gets a rate, which may be another one.
fn with_rate(rule: BucketRule, old: Bucket, rate: u32, now: Local) -> Bucket
    requires { now.0 ≤ most_local }
    ensures { result ≡ with_rate rule old rate now.0 }
{
    let mut bucket = old;
    match rule {
        BucketRule::Empty => bucket.swap(rate, now),
        BucketRule::Full => bucket.carry(rate, now),
    }
    bucket
}

/// The limit of a zone after a pass, by its limit before. The bucket of a new zone is empty or full by the rule; a new rate empties it, or leaves
/// the token there that is there.
fn limit_after(
    rule: BucketRule,
    old: Option<Limit>,
    state: ZoneState,
    rate: u32,
    now: Local,
) -> Limit
    requires { now.0 ≤ most_local }
    ensures { (doc : Doc) (k : ℕ) (q : Identity) (h : List Entry) (place : Zone) → LimitStands doc q h place old
        → rule ≡ doc.settings.rules.bucket → now.0 ≡ local doc q.process k
        → LimitStands doc q (model.zone_as k q place state rate h) place (Some result) }
{
    match old {
        None => Limit {
            state,
            rate,
            bucket: new_bucket(rule, rate, now),
        },
        Some(old) => Limit {
            state,
            rate,
            bucket: with_rate(rule, old.bucket, rate, now),
        },
    }
}

// Whether a zone has this state and rate already.
fn is_rated(old: &Option<Limit>, state: ZoneState, rate: u32) -> bool
    ensures { (doc : Doc) (q : Identity) (h : List Entry) (place : Zone) → LimitStands doc q h place old.now
        → result ≡ is_rated state rate (rated q place h) }
{
    match old {
        None => false,
        Some(old) => old.state == state && old.rate == rate,
    }
}

// Tells the state and rate of a zone, unless it has them already.
fn tell(
    rated: bool,
    place: Place,
    state: ZoneState,
    rate: u32,
    told: &mut Told,
) -> Result<(), NoMemory>
    ensures { (k : ℕ) (q : Identity) (before : List Deed) (h : List Entry) → IsTold q k before h told.old
        → OnOk result (IsTold q k before (if rated then h else model.add k q (ZoneEntry (entry_place place) state rate) h) told.new) }
{
    if rated {
        return Ok(());
    }
    told.add(Act::Zone(place.region, place.zone, state, rate))
}

/// The zones of a pass get their states and rates, and those without nodes are forgotten.
pub(crate) fn set_zones(
    alloc: Global,
    counts: &[ZoneCount],
    on: bool,
    zones: &mut Zones,
    settings: &TickSettings,
    policies: &Policies,
    view: &View,
    told: &mut Told,
) -> Result<(), NoMemory>
    requires ordered { settings.now.secondary_rate ≤ settings.now.primary_rate }
    requires reading { view.now.now.0 ≤ most_local }
    ensures stands { (doc : Doc) (k : ℕ) (q : Identity) (before : List Deed) (h : List Entry) → IsTold q k before h told.old
        → ArePassed doc q h zones.old → counts.now ≡ zone_counts (nodes q h) → length (nodes q h) < 4294967296 → on ≡ mode q h
        → AreSettings doc settings.now → view.entry.now.now.0 ≡ local doc q.process k
        → OnOk result (IsTold q k before (model.set_zones doc k q h) told.new × LimitsStand doc q (model.set_zones doc k q h) zones.new) }
    ensures queues { (zone : Place) (node : ℕ) → since zones.new.queues zone node ≡ since zones.old.queues zone node }
    ensures pushes { zones.new.pushes ≡ zones.old.pushes }
{
    let mut kept = BTreeMap::new(alloc);
    let mut rest = counts;
    while let Some((zone, others)) = rest.split_first() {
        let old = zones.limits.remove(&zone.place);
        let state = zone.state(settings.unhealthy_percent);
        let rate = zone.rate(on, settings, policies);
        tell(is_rated(&old, state, rate), zone.place, state, rate, told)?;
        let limit = limit_after(settings.bucket, old, state, rate, view.now);
        kept.insert(zone.place, limit)?;
        rest = others;
    }
    zones.limits = kept;
    Ok(())
}
