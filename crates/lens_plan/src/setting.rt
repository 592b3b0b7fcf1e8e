// The settings that words can give, and what each takes.
ghost use Rattle.std.specs.Prelude.{◌≡◌, ◌≤◌, IfSome};
ghost use Rattle.lens_plan.specs.Words as spec;
ghost use Rattle.lens_plan.specs.Wanted.{IsFit};

use crate::decimals::hundredths;
use lens_room::by_flags::{Flag, is, millis_of, value_of, within};
use trace_lines::cut;

/// A setting that words can give.
#[derive(Clone, Copy)]
pub enum Setting {
    /// How soon somebody else has to lead after a crash.
    Failover,
    /// How long a call waits for its reply.
    Timeout,
    /// How far a clock's rate may be off.
    Skew,
    /// How long a candidate waits at most between two attempts, in retry periods.
    WaitFactor,
    /// How long a leader may stand still.
    Stall,
    /// The greatest delay of a message, one way.
    Delay,
    /// The least retry period that is taken.
    LeastRetry,
    /// The length of a beat.
    Beat,
}

/// The setting of this name.
pub(crate) fn setting_by(name: &[u8]) -> Option<Setting>
    ensures { result ≡ spec.setting_by name.now }
{
    if is(name, b"--failover") {
        Some(Setting::Failover)
    } else if is(name, b"--timeout") {
        Some(Setting::Timeout)
    } else if is(name, b"--skew") {
        Some(Setting::Skew)
    } else if is(name, b"--wait-factor") {
        Some(Setting::WaitFactor)
    } else {
        other_setting(name)
    }
}

fn other_setting(name: &[u8]) -> Option<Setting>
    ensures { result ≡ spec.other_setting name.now }
{
    if is(name, b"--stall") {
        Some(Setting::Stall)
    } else if is(name, b"--delay") {
        Some(Setting::Delay)
    } else if is(name, b"--least-retry") {
        Some(Setting::LeastRetry)
    } else if is(name, b"--beat") {
        Some(Setting::Beat)
    } else {
        None
    }
}

/// The number that a setting's text gives: parts per million of a skew, hundredths of a factor, tenths of a second of a retry period, and else
/// milliseconds.
pub(crate) fn number_of(setting: Setting, text: &[u8]) -> Option<u32>
    ensures number { result ≡ spec.number_of setting text.now }
    ensures fit { IfSome result (λ n. IsFit setting n) }
{
    match setting {
        Setting::Failover => within(86_400_000, millis_of(text)?),
        Setting::Timeout | Setting::Delay => within(600_000, millis_of(text)?),
        Setting::Skew => skew(text),
        Setting::WaitFactor => factor(text),
        Setting::Stall => stall(text),
        Setting::LeastRetry => tenths(within(86_400_000, millis_of(text)?)?),
        Setting::Beat => within(1000, millis_of(text)?),
    }
}

/// Parts per million, or a percentage of at most 50.
fn skew(text: &[u8]) -> Option<u32>
    ensures is { result ≡ spec.skew text.now }
    ensures most { IfSome result (λ n. n ≤ 500000) }
{
    match cut(text, b'%') {
        None => value_of(Flag::Skew, text),
        Some((percent, behind)) => percentage(percent, behind),
    }
}

fn percentage(percent: &[u8], behind: &[u8]) -> Option<u32>
    ensures is { result ≡ spec.percentage percent.now behind.now }
    ensures most { IfSome result (λ n. n ≤ 500000) }
{
    if behind.len() != 0 {
        return None;
    }
    let percents = hundredths(percent)?;
    if percents <= 5000 {
        Some(100 * percents)
    } else {
        None
    }
}

/// The hundredths of a number from 1 to 10.
fn factor(text: &[u8]) -> Option<u32>
    ensures is { result ≡ spec.factor text.now }
    ensures range { IfSome result (λ n. (100 ≤ n) × (n ≤ 1000)) }
{
    let factor = hundredths(text)?;
    if 100 <= factor && factor <= 1000 {
        Some(factor)
    } else {
        None
    }
}

/// The milliseconds of a duration that may be nothing.
fn stall(text: &[u8]) -> Option<u32>
    ensures is { result ≡ spec.stall text.now }
    ensures most { IfSome result (λ n. n ≤ 86400000) }
{
    if text.len() == 0 {
        return None;
    }
    Some(millis_of(text)? as u32)
}

/// The tenths of a second of milliseconds that have none beside them.
fn tenths(millis: u32) -> Option<u32>
    requires least { 1 ≤ millis }
    requires most { millis ≤ 86400000 }
    ensures is { result ≡ spec.tenths millis }
    ensures range { IfSome result (λ n. (1 ≤ n) × (n ≤ 864000)) }
{
    if millis % 100 == 0 {
        Some(millis / 100)
    } else {
        None
    }
}
