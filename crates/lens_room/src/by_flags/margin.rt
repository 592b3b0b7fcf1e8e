// The numbers of settings.
ghost use Rattle.std.specs.Prelude.{◌≡◌, ◌≤◌, ◌&&◌, nat_lt};
ghost use Rattle.lens_room.specs.FlagLaws as spec;
ghost use Rattle.lens_room.specs.Ranges.{AreInRange};
ghost use Rattle.lens_room.specs.Described.{controller, slow};

use crate::by_flags::flags::Flags;
use kube_objects::{Proc, ReadyStatus, ReleaseActing};
use lens_margin::{Margin, margin_at};
use script_reader::{Demand, late_calls};

/// The numbers of the slowest controller that these settings allow. Takes no memory.
pub fn flags_margin(flags: &Flags) -> Margin
    requires { AreInRange flags.now }
    ensures { result ≡ spec.flags_margin flags.now }
{
    let slowest = 1_000_000 - flags.skew_ppm;
    let fastest = 1_000_000 + flags.skew_ppm;
    let demand = Demand {
        acting_millis: acting(flags),
        stall: 0,
        beside: 0,
    };
    margin_at(
        are_still(flags.in_release),
        flags.lease_seconds,
        demand,
        flags.beat_millis,
        slowest,
        fastest,
    )
}

/// The slowest controller that these settings allow.
pub fn slowest_controller(flags: &Flags) -> Proc
    requires { AreInRange flags.now }
    ensures { result ≡ controller flags.now 0 (slow flags.now) }
{
    Proc {
        name: 0,
        rate_ppm: 1_000_000 - flags.skew_ppm,
        offset_millis: 0,
        up: true,
        watch: true,
        ready: ReadyStatus::True,
        lease_seconds: flags.lease_seconds,
        renew_millis: flags.renew_millis,
        retry_millis: flags.retry_millis,
        timeout_millis: flags.timeout(),
    }
}

/// Whether the lease premise holds for these settings. Takes no memory.
pub fn is_safe(flags: &Flags) -> bool
    requires { AreInRange flags.now }
    ensures { result ≡ spec.holds flags.now }
{
    let slowest = u64::from(1_000_000 - flags.skew_ppm);
    let fastest = u64::from(1_000_000 + flags.skew_ppm);
    is_enough(
        are_still(flags.in_release),
        acting(flags) * fastest,
        u64::from(flags.lease_seconds) * 1000 * slowest,
    )
}

/// Whether a lease outlasts the acting, and nobody acts until it has an answer.
fn is_enough(still: bool, acting: u64, lease: u64) -> bool
    ensures { result ≡ (still && nat_lt acting lease) }
{
    still && acting < lease
}

/// The greatest skew for which the lease premise holds, in parts per million, if it holds for any. Takes no memory.
pub fn greatest_skew(flags: &Flags) -> Option<u64>
    requires { AreInRange flags.now }
    ensures is { result ≡ spec.greatest_skew flags.now }
    ensures law { spec.IsGreatestSkew flags.now result }
{
    skew_where(
        are_still(flags.in_release),
        u64::from(flags.lease_seconds) * 1000,
        acting(flags),
    )
}

/// There is none if somebody acts until it has an answer.
fn skew_where(still: bool, lease: u64, acting: u64) -> Option<u64>
    requires lease { lease ≤ 86400000 }
    requires acting { acting ≤ 345600000 }
    ensures { result ≡ spec.skew_where still lease acting }
{
    if still {
        skew_within(lease, acting)
    } else {
        None
    }
}

/// By how much more than what is acted on a lease is, over both together.
fn skew_within(lease: u64, acting: u64) -> Option<u64>
    requires lease { lease ≤ 86400000 }
    requires acting { acting ≤ 345600000 }
    ensures { result ≡ spec.skew_within lease acting }
{
    if lease <= acting {
        return None;
    }
    Some(((lease - acting) * 1_000_000 - 1) / (lease + acting))
}

/// What a leader may act on after its last sent success, in milliseconds of exact clocks.
fn acting(flags: &Flags) -> u64
    requires { AreInRange flags.now }
    ensures is { result ≡ spec.acting flags.now }
    ensures most { result ≤ 345600000 }
{
    let timeout = u64::from(flags.timeout());
    let renew = u64::from(flags.renew_millis);
    let calls = u64::from(late_calls(flags.release, flags.in_release));
    timeout + u64::from(flags.retry_millis) + renew + (timeout * calls).min(renew)
}

/// Whether no leader acts until it has an answer, which may be lost.
fn are_still(acting: ReleaseActing) -> bool
    ensures { result ≡ spec.are_still acting }
{
    match acting {
        ReleaseActing::Still => true,
        ReleaseActing::Acts => false,
    }
}
