// The tables of a document: its versions, the types of its events, and the keys of its objects.
ghost use Rattle.std.specs.Prelude.{◌≡◌, ℕ, Bool, List};
ghost use Rattle.serde_json.specs.Find.{as_object};
ghost use Rattle.serde_json.specs.View.{view, members_view};
ghost use Rattle.manifest_json.specs.Faults.{Gives};
ghost use Rattle.script_reader.specs.Tables as spec;
ghost use Rattle.script_reader.specs.Walk as walk;

use crate::field::object_at;
use manifest_json::codes::{UNKNOWN_KEY, WRONG_TYPE};
use manifest_json::fault::fault;
use manifest_json::{Path, ReadFault};
use serde_json::{Map, Value};

/// The versions of a document.
#[derive(Clone, Copy, Debug, PartialEq, Eq)]
pub enum Version {
    One,
    Two,
    Three,
    Four,
}

/// The types of events.
#[derive(Clone, Copy, Debug, PartialEq, Eq)]
pub enum EventType {
    Rate,
    Delay,
    Loss,
    Crash,
    Start,
    Stop,
    Watch,
    Ready,
    Pause,
    /// The store stands still.
    Stall,
    Put,
    Remove,
}

/// The objects of a document.
#[derive(Clone, Copy, Debug)]
pub enum Table {
    /// Whether it may have sets of pods.
    Top(bool),
    Settings(Version),
    Controller(Version),
    Kubelet,
    PodSet,
    /// A member of a set's `on`.
    Share,
    Event(EventType),
}

/// The tables of some input's objects.
pub trait Keys: Copy {
    /// Whether an object of this table may have this key.
    ghost is_key: { Self → List ℕ → Bool };

    /// Whether an object of this table may have this key.
    fn has_key(self, key: &str) -> bool
        ensures { result ≡ is_key self key.now };
}

impl Keys for Table {
    ghost is_key = { spec.is_key_of };

    fn has_key(self, key: &str) -> bool {
        match self {
            Table::Top(sets) => is_top_key(sets, key),
            Table::Settings(version) => is_settings_key(version, key),
            Table::Controller(version) => is_controller_key(version, key),
            Table::Kubelet => is_kubelet_key(key),
            Table::PodSet => is_set_key(key),
            Table::Share => key == "node" || key == "pods",
            Table::Event(kind) => key == "beat" || key == "type" || is_type_key(kind, key),
        }
    }
}

/// The value is an object with no key that its table doesn't have.
#[tactic(auto, unfolding(crate::specs::Walk::object_in))]
pub(crate) fn object_in(table: Table, path: &Path, value: &Value) -> Result<(), ReadFault>
    ensures { Gives (λ _. view value.now) result (walk.object_in table path.now (view value.now)) }
{
    object_at(WRONG_TYPE, path, value)?;
    known_in(table, path, value)
}

/// The value has no key that its table doesn't have.
pub fn known_in<K: Keys>(table: K, path: &Path, value: &Value) -> Result<(), ReadFault>
    ensures { Gives (λ _. view value.now) result (spec.known_by (K.is_key table) path.now (view value.now)) }
{
    if knows_members(table, value) {
        Ok(())
    } else {
        Err(fault(UNKNOWN_KEY, path))
    }
}

fn knows_members<K: Keys>(table: K, value: &Value) -> bool
    ensures { result ≡ spec.knows_members (K.is_key table) (as_object (view value.now)) }
{
    match value.as_object() {
        Some(members) => all_known(table, members),
        None => true,
    }
}

fn all_known<K: Keys>(table: K, members: &Map<String, Value>) -> bool
    ensures { result ≡ spec.all_known (K.is_key table) (members_view members.now.entries) }
{
    for (key, _) in members {
        if !table.has_key(key.as_str()) {
            return false;
        }
    }
    true
}

/// Whether the version is 2 or a later one.
fn is_from_two(version: Version) -> bool
    ensures { result ≡ spec.is_from_two version }
{
    match version {
        Version::One => false,
        Version::Two => true,
        Version::Three => true,
        Version::Four => true,
    }
}

/// Whether the version is 3 or a later one.
pub(crate) fn is_from_three(version: Version) -> bool
    ensures { result ≡ spec.is_from_three version }
{
    match version {
        Version::One => false,
        Version::Two => false,
        Version::Three => true,
        Version::Four => true,
    }
}

pub fn is_four(version: Version) -> bool
    ensures { result ≡ spec.is_four version }
{
    match version {
        Version::One => false,
        Version::Two => false,
        Version::Three => false,
        Version::Four => true,
    }
}

fn is_top_key(sets: bool, key: &str) -> bool
    ensures { result ≡ spec.is_top_key sets key.now }
{
    key == "version"
        || key == "settings"
        || key == "controllers"
        || key == "kubelets"
        || key == "objects"
        || key == "events"
        || (sets && key == "podSets")
}

fn is_beats_key(key: &str) -> bool
    ensures { result ≡ spec.is_beats_key key.now }
{
    key == "beatMillis" || key == "endBeat" || key == "epoch"
}

fn is_timings_key(key: &str) -> bool
    ensures { result ≡ spec.is_timings_key key.now }
{
    key == "leaseDurationSeconds"
        || key == "renewDeadlineMillis"
        || key == "retryPeriodMillis"
        || key == "callTimeoutMillis"
}

fn is_periods_key(key: &str) -> bool
    ensures { result ≡ spec.is_periods_key key.now }
{
    key == "restartMillis"
        || key == "monitorPeriodMillis"
        || key == "gracePeriodMillis"
        || key == "startupGraceMillis"
        || key == "nodeLeaseDurationSeconds"
}

fn is_rates_key(key: &str) -> bool
    ensures { result ≡ spec.is_rates_key key.now }
{
    key == "primaryRate"
        || key == "secondaryRate"
        || key == "largeZone"
        || key == "unhealthyPercent"
}

fn is_judging_key(key: &str) -> bool
    ensures { result ≡ spec.is_judging_key key.now }
{
    key == "rules"
        || key == "retries"
        || key == "respect"
        || key == "firstSyncMillis"
        || key == "probe"
        || key == "judge"
        || key == "firstSight"
}

fn is_tainting_key(key: &str) -> bool
    ensures { result ≡ spec.is_tainting_key key.now }
{
    key == "queue"
        || key == "bucket"
        || key == "evictFrom"
        || key == "evictBurst"
        || key == "evictRate"
}

fn is_ending_key(key: &str) -> bool
    ensures { result ≡ spec.is_ending_key key.now }
{
    key == "release" || key == "inRelease" || key == "readyMillis" || key == "readyBurst"
}

fn is_rules_key(key: &str) -> bool
    ensures { result ≡ spec.is_rules_key key.now }
{
    is_judging_key(key) || is_tainting_key(key) || is_ending_key(key)
}

fn is_settings_key(version: Version, key: &str) -> bool
    ensures { result ≡ spec.is_settings_key version key.now }
{
    is_beats_key(key)
        || is_timings_key(key)
        || is_periods_key(key)
        || is_rates_key(key)
        || key == "fastRenew"
        || (is_from_two(version) && key == "ratePolicy")
        || (is_four(version) && is_rules_key(key))
}

fn is_clock_key(key: &str) -> bool
    ensures { result ≡ spec.is_clock_key key.now }
{
    key == "ratePpm" || key == "offsetMillis" || key == "up"
}

fn is_controller_key(version: Version, key: &str) -> bool
    ensures { result ≡ spec.is_controller_key version key.now }
{
    key == "name"
        || is_clock_key(key)
        || key == "watch"
        || (is_from_two(version) && is_timings_key(key))
        || (is_four(version) && key == "waits")
}

fn is_kubelet_key(key: &str) -> bool
    ensures { result ≡ spec.is_kubelet_key key.now }
{
    key == "node" || is_clock_key(key) || key == "ready"
}

fn is_set_key(key: &str) -> bool
    ensures { result ≡ spec.is_set_key key.now }
{
    key == "namespace" || key == "name" || key == "tolerations" || key == "on"
}

/// Whether an event of this type has this key, beside its beat and type.
fn is_type_key(kind: EventType, key: &str) -> bool
    ensures { result ≡ spec.is_type_key kind key.now }
{
    match kind {
        EventType::Rate => key == "process" || key == "ratePpm",
        EventType::Delay => key == "process" || key == "requestBeats" || key == "replyBeats",
        EventType::Loss => key == "process" || key == "requests" || key == "replies",
        EventType::Crash => key == "process",
        EventType::Start => key == "process",
        EventType::Stop => key == "process",
        EventType::Watch => key == "process" || key == "on",
        EventType::Ready => key == "process" || key == "status",
        EventType::Pause => key == "process" || key == "beats",
        EventType::Stall => key == "beats",
        EventType::Put => key == "object",
        EventType::Remove => key == "kind" || key == "namespace" || key == "name",
    }
}
