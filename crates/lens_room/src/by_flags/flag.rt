// The flags, and what each takes.
ghost use Rattle.std.specs.Prelude.{◌≡◌, ◌≤◌, ◌<◌, ◌^◌, IfSome};
ghost use Rattle.trace_lines.specs.Grammar.{number_onto};
ghost use Rattle.lens_room.specs.Flags as spec;

use crate::by_flags::duration::millis_of;
use trace_lines::cut;

/// A setting that words can give.
#[derive(Clone, Copy)]
pub enum Flag {
    /// How long a lease is held, in whole seconds.
    Lease,
    /// How long a leader tries to renew.
    Renew,
    /// How long a controller waits between two attempts.
    Retry,
    /// How long a call waits for its reply.
    Timeout,
    /// How far a clock's rate may be off, in parts per million.
    Skew,
    /// The length of a beat.
    Beat,
}

/// The flag of this name, its own or kube-controller-manager's.
pub fn flag_by(name: &[u8]) -> Option<Flag>
    ensures { result ≡ spec.flag_by name.now }
{
    if is(name, b"--lease") || is(name, b"--leader-elect-lease-duration") {
        Some(Flag::Lease)
    } else if is(name, b"--renew") || is(name, b"--leader-elect-renew-deadline") {
        Some(Flag::Renew)
    } else if is(name, b"--retry") || is(name, b"--leader-elect-retry-period") {
        Some(Flag::Retry)
    } else {
        other_flag_by(name)
    }
}

fn other_flag_by(name: &[u8]) -> Option<Flag>
    ensures { result ≡ spec.other_flag_by name.now }
{
    if is(name, b"--timeout") {
        Some(Flag::Timeout)
    } else if is(name, b"--skew") {
        Some(Flag::Skew)
    } else if is(name, b"--beat") {
        Some(Flag::Beat)
    } else {
        None
    }
}

/// Whether a text is this word.
pub fn is(text: &[u8], word: &[u8]) -> bool
    ensures { result ≡ spec.is text.now word.now }
{
    text == word
}

/// The number that a flag's text gives: seconds of a lease, parts per million of a skew, and else milliseconds.
pub fn value_of(flag: Flag, text: &[u8]) -> Option<u32>
    ensures value { result ≡ spec.value_of flag text.now }
    ensures range { IfSome result (λ n. spec.IsInRange flag n) }
{
    match flag {
        Flag::Lease => within(86_400, whole_seconds(millis_of(text)?)?),
        Flag::Renew | Flag::Retry => within(86_400_000, millis_of(text)?),
        Flag::Timeout => within(600_000, millis_of(text)?),
        Flag::Skew => parts_per_million(text),
        Flag::Beat => within(1000, millis_of(text)?),
    }
}

/// A number of at least one and at most `most`.
pub fn within(most: u64, number: u64) -> Option<u32>
    requires { most < 2 ^ 32 }
    ensures value { result ≡ spec.within most number }
    ensures range { IfSome result (λ n. (1 ≤ n) × (n ≤ most)) }
{
    if 1 <= number && number <= most {
        Some(number as u32)
    } else {
        None
    }
}

/// The seconds of a duration in milliseconds that has none beside them.
pub fn whole_seconds(millis: u64) -> Option<u64>
    ensures { result ≡ spec.whole_seconds millis }
{
    if millis % 1000 == 0 {
        Some(millis / 1000)
    } else {
        None
    }
}

/// The number before `ppm`, of at most 500,000.
#[tactic(auto, unfolding(crate::specs::Flags::parts_per_million))]
fn parts_per_million(text: &[u8]) -> Option<u32>
    ensures value { result ≡ spec.parts_per_million text.now }
    ensures range { IfSome result (λ n. n ≤ 500000) }
{
    let (digits, behind) = cut(text, b'p')?;
    if is(behind, b"pm") && digits.len() != 0 {
        number(digits)
    } else {
        None
    }
}

/// The number of these digits, of at most 500,000.
fn number(digits: &[u8]) -> Option<u32>
    ensures value { result ≡ number_onto 500000 0 digits.now }
    ensures range { IfSome result (λ n. n ≤ 500000) }
{
    let mut number: u32 = 0;
    for byte in digits {
        if !byte.is_ascii_digit() {
            return None;
        }
        number = 10 * number + u32::from(*byte - b'0');
        if number > 500_000 {
            return None;
        }
    }
    Some(number)
}
