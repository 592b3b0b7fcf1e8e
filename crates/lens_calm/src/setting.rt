// The settings that words can give, and what each takes.
ghost use Rattle.std.specs.Prelude.{◌≡◌, ◌≤◌, IfSome};
ghost use Rattle.trace_lines.specs.Grammar.{number_onto};
ghost use Rattle.lens_calm.specs.Words as spec;

use lens_room::by_flags::{Flag, flag_by, is, millis_of, value_of, whole_seconds, within};

/// A setting that words can give.
#[derive(Clone, Copy)]
pub enum Setting {
    /// A flag of `margin`.
    Election(Flag),
    /// The longest wait of a candidate between two attempts.
    Wait,
    /// The greatest delay of a message, one way.
    Delay,
    /// And the least.
    LeastDelay,
    /// How long a node may be silent.
    Grace,
    /// How often nodes are looked at.
    Monitor,
    /// The duration of a node's Lease, in whole seconds.
    NodeLease,
    /// How many nodes of a zone are tainted in 1,000 s.
    Rate,
    /// How many nodes of a zone wait before another.
    Ahead,
    /// For how many seconds pods tolerate the taint.
    Toleration,
}

/// The setting of this name.
pub(crate) fn setting_by(name: &[u8]) -> Option<Setting>
    ensures { result ≡ spec.setting_by name.now }
{
    match flag_by(name) {
        Some(flag) => Some(Setting::Election(flag)),
        None => own_setting(name),
    }
}

fn own_setting(name: &[u8]) -> Option<Setting>
    ensures { result ≡ spec.own_setting name.now }
{
    if is(name, b"--wait") {
        Some(Setting::Wait)
    } else if is(name, b"--delay") {
        Some(Setting::Delay)
    } else if is(name, b"--least-delay") {
        Some(Setting::LeastDelay)
    } else {
        node_setting(name)
    }
}

fn node_setting(name: &[u8]) -> Option<Setting>
    ensures { result ≡ spec.node_setting name.now }
{
    if is(name, b"--grace") {
        Some(Setting::Grace)
    } else if is(name, b"--monitor") {
        Some(Setting::Monitor)
    } else if is(name, b"--node-lease") {
        Some(Setting::NodeLease)
    } else if is(name, b"--rate") {
        Some(Setting::Rate)
    } else if is(name, b"--ahead") {
        Some(Setting::Ahead)
    } else if is(name, b"--toleration") {
        Some(Setting::Toleration)
    } else {
        None
    }
}

/// The number that a setting's text gives: seconds of a Lease and of a toleration, counts, and else milliseconds.
pub(crate) fn number_of(setting: Setting, text: &[u8]) -> Option<u32>
    ensures number { result ≡ spec.number_of setting text.now }
    ensures fit { IfSome result (λ n. spec.IsFit setting n) }
{
    match setting {
        Setting::Election(flag) => value_of(flag, text),
        Setting::Wait | Setting::Grace | Setting::Monitor => within(86_400_000, millis_of(text)?),
        Setting::Delay | Setting::LeastDelay => within(600_000, millis_of(text)?),
        Setting::NodeLease => within(86_400, whole_seconds(millis_of(text)?)?),
        Setting::Rate | Setting::Ahead => count(text),
        Setting::Toleration => tolerated(text),
    }
}

/// The seconds of a duration that may be nothing.
fn tolerated(text: &[u8]) -> Option<u32>
    ensures { result ≡ spec.tolerated text.now }
{
    if text.len() == 0 {
        return None;
    }
    up_to(86_400, whole_seconds(millis_of(text)?)?)
}

fn up_to(most: u32, number: u64) -> Option<u32>
    ensures { result ≡ spec.up_to most number }
{
    if number <= u64::from(most) {
        Some(number as u32)
    } else {
        None
    }
}

/// The number of these digits, of at most a million.
fn count(text: &[u8]) -> Option<u32>
    ensures { result ≡ spec.count text.now }
{
    if text.len() == 0 {
        return None;
    }
    digits(text)
}

fn digits(text: &[u8]) -> Option<u32>
    ensures { result ≡ number_onto 1000000 0 text.now }
{
    let mut number: u32 = 0;
    for byte in text {
        if !byte.is_ascii_digit() {
            return None;
        }
        number = 10 * number + u32::from(*byte - b'0');
        if number > 1_000_000 {
            return None;
        }
    }
    Some(number)
}
