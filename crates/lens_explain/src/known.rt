// The keys of a document and what each may be. The source is docs/document.md.
ghost use Rattle.std.specs.Prelude.{◌≡◌, ℕ, false, List};
ghost use Rattle.std.specs.List.{list_any};
ghost use Rattle.std.specs.Str.{bytes_eq};
ghost use Rattle.script_reader.specs.Tables.{is_controller_key, is_key_of, is_settings_key, is_top_key};
ghost use Rattle.script_reader.specs.declared.table.Table.TheVariants.{Event};
ghost use Rattle.script_reader.specs.declared.table.Version.TheVariants.{One, Two, Three};

use script_reader::table::{EventType, Table, Version};

/// A key, and what may stand at it.
#[derive(Clone, Copy)]
struct Rule {
    key: &'static str,
    allowed: &'static str,
}

const TOP: [&str; 7] = [
    "version",
    "settings",
    "controllers",
    "kubelets",
    "objects",
    "events",
    "podSets",
];

/// How many of them versions 1 to 3 have.
const FIRST_OF_TOP: usize = 6;

const SETTINGS: [&str; 34] = [
    "beatMillis",
    "endBeat",
    "epoch",
    "leaseDurationSeconds",
    "renewDeadlineMillis",
    "retryPeriodMillis",
    "callTimeoutMillis",
    "restartMillis",
    "monitorPeriodMillis",
    "gracePeriodMillis",
    "startupGraceMillis",
    "nodeLeaseDurationSeconds",
    "primaryRate",
    "secondaryRate",
    "largeZone",
    "unhealthyPercent",
    "fastRenew",
    "ratePolicy",
    "rules",
    "retries",
    "respect",
    "firstSyncMillis",
    "probe",
    "judge",
    "firstSight",
    "queue",
    "bucket",
    "evictFrom",
    "evictBurst",
    "evictRate",
    "release",
    "inRelease",
    "readyMillis",
    "readyBurst",
];

/// How many of them versions 2 and 3 have.
const SECOND_SETTINGS: usize = 18;

/// How many of them version 1 has.
const FIRST_SETTINGS: usize = 17;

const CONTROLLER: [&str; 10] = [
    "name",
    "ratePpm",
    "offsetMillis",
    "up",
    "watch",
    "leaseDurationSeconds",
    "renewDeadlineMillis",
    "retryPeriodMillis",
    "callTimeoutMillis",
    "waits",
];

/// How many of them versions 2 and 3 have.
const SECOND_OF_CONTROLLER: usize = 9;

/// How many of them version 1 has.
const FIRST_OF_CONTROLLER: usize = 5;

const KUBELET: [&str; 5] = ["node", "ratePpm", "offsetMillis", "up", "ready"];

const POD_SET: [&str; 4] = ["namespace", "name", "tolerations", "on"];

const SHARE: [&str; 2] = ["node", "pods"];

const PROCESS: [&str; 3] = ["beat", "type", "process"];

const RATE: [&str; 4] = ["beat", "type", "process", "ratePpm"];

const DELAY: [&str; 5] = ["beat", "type", "process", "requestBeats", "replyBeats"];

const LOSS: [&str; 5] = ["beat", "type", "process", "requests", "replies"];

const WATCH: [&str; 4] = ["beat", "type", "process", "on"];

const READY: [&str; 4] = ["beat", "type", "process", "status"];

const PAUSE: [&str; 4] = ["beat", "type", "process", "beats"];

const STALL: [&str; 3] = ["beat", "type", "beats"];

const PUT: [&str; 3] = ["beat", "type", "object"];

const REMOVE: [&str; 5] = ["beat", "type", "kind", "namespace", "name"];

const RULES: [Rule; 36] = [
    Rule {
        key: "version",
        allowed: "the number 1, 2, 3 or 4",
    },
    Rule {
        key: "settings",
        allowed: "an object, with endBeat at least",
    },
    Rule {
        key: "controllers",
        allowed: "an array of 1 to 16 objects, each with a name",
    },
    Rule {
        key: "kubelets",
        allowed: "an array of at most 1000 objects, in version 4 15000, each with a node",
    },
    Rule {
        key: "objects",
        allowed: "a List as kubectl get -o json writes it",
    },
    Rule {
        key: "events",
        allowed: "an array of at most 100000 objects, in version 4 1000000, each with beat and type",
    },
    Rule {
        key: "beatMillis",
        allowed: "a whole number from 1 to 1000",
    },
    Rule {
        key: "endBeat",
        allowed: "a whole number of beats from 0 on, which times beatMillis is at most 604800000, seven days",
    },
    Rule {
        key: "epoch",
        allowed: "a time such as \"2024-01-01T00:00:00Z\", in the years 2000 to 2199",
    },
    Rule {
        key: "leaseDurationSeconds",
        allowed: "a whole number from 1 to 86400",
    },
    Rule {
        key: "renewDeadlineMillis",
        allowed: "a whole number from 1 to 86400000",
    },
    Rule {
        key: "retryPeriodMillis",
        allowed: "a whole number from 1 to 86400000",
    },
    Rule {
        key: "callTimeoutMillis",
        allowed: "a whole number from 1 to 600000",
    },
    Rule {
        key: "restartMillis",
        allowed: "a whole number from 1 to 86400000",
    },
    Rule {
        key: "monitorPeriodMillis",
        allowed: "a whole number from 1 to 604800000",
    },
    Rule {
        key: "gracePeriodMillis",
        allowed: "a whole number from 1 to 604800000",
    },
    Rule {
        key: "startupGraceMillis",
        allowed: "a whole number from 1 to 604800000",
    },
    Rule {
        key: "nodeLeaseDurationSeconds",
        allowed: "a whole number from 1 to 86400",
    },
    Rule {
        key: "primaryRate",
        allowed: "a whole number from 0 to 1000000",
    },
    Rule {
        key: "secondaryRate",
        allowed: "a whole number from 0 to 1000000",
    },
    Rule {
        key: "largeZone",
        allowed: "a whole number from 0 to 1000000",
    },
    Rule {
        key: "unhealthyPercent",
        allowed: "a whole number from 0 to 100",
    },
    Rule {
        key: "fastRenew",
        allowed: "true or false",
    },
    Rule {
        key: "ratePolicy",
        allowed: "\"standard\", \"gentle\" or \"halt\"",
    },
    Rule {
        key: "name",
        allowed: "a name of lower-case letters, digits, - and ., as \"cp-east-1\"",
    },
    Rule {
        key: "node",
        allowed: "a name of lower-case letters, digits, - and ., as \"worker-1\"",
    },
    Rule {
        key: "ratePpm",
        allowed: "a whole number from 500000 to 2000000",
    },
    Rule {
        key: "offsetMillis",
        allowed: "a whole number from -31536000000 to 31536000000",
    },
    Rule {
        key: "up",
        allowed: "true or false",
    },
    Rule {
        key: "watch",
        allowed: "true or false",
    },
    Rule {
        key: "ready",
        allowed: "\"True\" or \"False\", as a text",
    },
    Rule {
        key: "beat",
        allowed: "a whole number from 0 to 604800000",
    },
    Rule {
        key: "type",
        allowed: "one of crash, start, stop, rate, delay, loss, put, remove, watch, ready, from version 3 on pause, and from version 4 on stall",
    },
    Rule {
        key: "process",
        allowed: "a controller's name, or kubelet/NODE",
    },
    Rule {
        key: "requestBeats",
        allowed: "a whole number from 1 to 6000",
    },
    Rule {
        key: "replyBeats",
        allowed: "a whole number from 1 to 6000",
    },
];

const EVENT_RULES: [Rule; 7] = [
    Rule {
        key: "requests",
        allowed: "true or false",
    },
    Rule {
        key: "replies",
        allowed: "true or false",
    },
    Rule {
        key: "on",
        allowed: "true or false",
    },
    Rule {
        key: "beats",
        allowed: "a whole number from 1 to 604800000",
    },
    Rule {
        key: "status",
        allowed: "\"True\" or \"False\", as a text",
    },
    Rule {
        key: "object",
        allowed: "the manifest of a Node, a Pod or a Lease",
    },
    Rule {
        key: "kind",
        allowed: "\"Node\", \"Lease\" or \"Pod\"",
    },
];

const LATER_RULES: [Rule; 18] = [
    Rule {
        key: "rules",
        allowed: "\"own\", \"1.20\" or \"1.36\"",
    },
    Rule {
        key: "retries",
        allowed: "\"after\", \"grid\" or \"ticks\"",
    },
    Rule {
        key: "respect",
        allowed: "\"record\" or \"own\"",
    },
    Rule {
        key: "firstSyncMillis",
        allowed: "a whole number from 0 to 604800000",
    },
    Rule {
        key: "probe",
        allowed: "\"run\" or \"record\"",
    },
    Rule {
        key: "judge",
        allowed: "\"tick\" or \"pass\"",
    },
    Rule {
        key: "firstSight",
        allowed: "\"keep\" or \"strip\"",
    },
    Rule {
        key: "queue",
        allowed: "\"once\" or \"again\"",
    },
    Rule {
        key: "bucket",
        allowed: "\"empty\" or \"full\"",
    },
    Rule {
        key: "evictFrom",
        allowed: "\"added\" or \"seen\"",
    },
    Rule {
        key: "evictBurst",
        allowed: "a whole number from 0 to 30000",
    },
    Rule {
        key: "evictRate",
        allowed: "a whole number from 0 to 1000000000",
    },
    Rule {
        key: "release",
        allowed: "\"stop\", \"own\", \"checked\" or \"reread\"",
    },
    Rule {
        key: "inRelease",
        allowed: "\"still\" or \"acts\"",
    },
    Rule {
        key: "readyMillis",
        allowed: "a whole number from 0 to 60000",
    },
    Rule {
        key: "readyBurst",
        allowed: "a whole number from 0 to 30000",
    },
    Rule {
        key: "podSets",
        allowed: "an array of at most 100000 objects, each with a name and on",
    },
    Rule {
        key: "waits",
        allowed: "an array of 1 to 1000 whole numbers from 1000 to 2200",
    },
];

const SET_RULES: [Rule; 5] = [
    Rule {
        key: "namespace",
        allowed: "a name of lower-case letters, digits, - and ., as \"default\"",
    },
    Rule {
        key: "name",
        allowed: "a name of lower-case letters, digits, - and ., as \"web\", of at most 242 bytes",
    },
    Rule {
        key: "on",
        allowed: "an array of 1 to 15000 objects, each with node and pods",
    },
    Rule {
        key: "node",
        allowed: "a name of lower-case letters, digits, - and ., as \"worker-1\"",
    },
    Rule {
        key: "pods",
        allowed: "a whole number from 1 to 100000",
    },
];

/// What may stand at a key of the document itself.
pub(crate) fn allowed_at(key: &[u8]) -> Option<&'static str> {
    match find(&RULES, key) {
        Some(allowed) => Some(allowed),
        None => match find(&EVENT_RULES, key) {
            Some(allowed) => Some(allowed),
            None => find(&LATER_RULES, key),
        },
    }
}

/// What may stand at a key of a set of pods.
pub(crate) fn allowed_in_set(key: &[u8]) -> Option<&'static str> {
    find(&SET_RULES, key)
}

fn find(rules: &[Rule], key: &[u8]) -> Option<&'static str> {
    for rule in rules {
        if rule.key.as_bytes() == key {
            return Some(rule.allowed);
        }
    }
    None
}

/// Whether an object of a document has this key.
pub(crate) fn is_known(table: Table, key: &[u8]) -> bool
    ensures { result ≡ is_key_of table key.now }
{
    is_among(key, keys_in(table))
}

fn is_among(key: &[u8], keys: &[&str]) -> bool
    ensures { result ≡ list_any (λ known. bytes_eq key.now known.now) keys.now }
{
    keys.iter().any(|known| key == known.as_bytes())
}

/// The keys of an object of a document.
pub(crate) fn keys_in(table: Table) -> &'static [&'static str]
    ensures { (key : List ℕ) → list_any (λ known. bytes_eq key known.now) result.now ≡ is_key_of table key }
{
    match table {
        Table::Top(true) => &TOP,
        Table::Top(false) => top_without_sets(),
        Table::Settings(version) => settings_keys(version),
        Table::Controller(version) => controller_keys(version),
        Table::Kubelet => &KUBELET,
        Table::PodSet => &POD_SET,
        Table::Share => &SHARE,
        Table::Event(kind) => event_keys(kind),
    }
}

/// Those of versions 1 to 3.
fn top_without_sets() -> &'static [&'static str]
    ensures { (key : List ℕ) → list_any (λ known. bytes_eq key known.now) result.now ≡ is_top_key false key }
{
    let (first, _) = TOP.split_at(FIRST_OF_TOP);
    first
}

fn settings_keys(version: Version) -> &'static [&'static str]
    ensures { (key : List ℕ) → list_any (λ known. bytes_eq key known.now) result.now ≡ is_settings_key version key }
{
    match version {
        Version::One => first_settings(),
        Version::Two => second_settings(),
        Version::Three => second_settings(),
        Version::Four => &SETTINGS,
    }
}

/// Those of version 1.
fn first_settings() -> &'static [&'static str]
    ensures { (key : List ℕ) → list_any (λ known. bytes_eq key known.now) result.now ≡ is_settings_key One key }
{
    let (first, _) = SETTINGS.split_at(FIRST_SETTINGS);
    first
}

/// Those of versions 2 and 3.
fn second_settings() -> &'static [&'static str]
    ensures two { (key : List ℕ) → list_any (λ known. bytes_eq key known.now) result.now ≡ is_settings_key Two key }
    ensures three { (key : List ℕ) → list_any (λ known. bytes_eq key known.now) result.now ≡ is_settings_key Three key }
{
    let (first, _) = SETTINGS.split_at(SECOND_SETTINGS);
    first
}

fn controller_keys(version: Version) -> &'static [&'static str]
    ensures { (key : List ℕ) → list_any (λ known. bytes_eq key known.now) result.now ≡ is_controller_key version key }
{
    match version {
        Version::One => first_of_controller(),
        Version::Two => second_of_controller(),
        Version::Three => second_of_controller(),
        Version::Four => &CONTROLLER,
    }
}

/// Those of version 1.
fn first_of_controller() -> &'static [&'static str]
    ensures { (key : List ℕ) → list_any (λ known. bytes_eq key known.now) result.now ≡ is_controller_key One key }
{
    let (first, _) = CONTROLLER.split_at(FIRST_OF_CONTROLLER);
    first
}

/// Those of versions 2 and 3.
fn second_of_controller() -> &'static [&'static str]
    ensures two { (key : List ℕ) → list_any (λ known. bytes_eq key known.now) result.now ≡ is_controller_key Two key }
    ensures three { (key : List ℕ) → list_any (λ known. bytes_eq key known.now) result.now ≡ is_controller_key Three key }
{
    let (first, _) = CONTROLLER.split_at(SECOND_OF_CONTROLLER);
    first
}

fn event_keys(kind: EventType) -> &'static [&'static str]
    ensures { (key : List ℕ) → list_any (λ known. bytes_eq key known.now) result.now ≡ is_key_of (Event kind) key }
{
    match kind {
        EventType::Crash | EventType::Start | EventType::Stop => &PROCESS,
        EventType::Rate => &RATE,
        EventType::Delay => &DELAY,
        EventType::Loss => &LOSS,
        EventType::Watch => &WATCH,
        EventType::Ready => &READY,
        EventType::Pause => &PAUSE,
        EventType::Stall => &STALL,
        EventType::Put => &PUT,
        EventType::Remove => &REMOVE,
    }
}
