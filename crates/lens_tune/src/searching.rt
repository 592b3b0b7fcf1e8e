// The greatest plan that fits.
ghost use Rattle.std.specs.Prelude.{◌≡◌, ◌*◌, ◌≤◌};
ghost use Rattle.lens_tune.specs.Greatest.{IsGreatestPlan, IsLeastFailover};
ghost use Rattle.lens_tune.specs.Searches as spec;
ghost use Rattle.lens_tune.specs.Wishes.{IsWish};

use crate::first::{Question, first};
use crate::fitting::{bound, is_enough, is_outlasted, soon};
use crate::plan::Plan;
use crate::wish::Wish;

/// The longest lease that is looked at, in seconds, and the longest renew deadline, in tenths of one.
const LONGEST_LEASE: u32 = 86_400;

const LONGEST_RENEW: u32 = 864_000;

fn plan(lease: u32, retry: u32, renew: u32) -> Plan
    ensures { result ≡ spec.plan lease retry renew }
{
    Plan {
        lease_seconds: lease,
        renew_tenths: renew,
        retry_tenths: retry,
    }
}

fn least_renew(w: Wish, retry: u32) -> Option<u32>
    requires wish { IsWish w }
    requires retry { retry ≤ 864000 }
    ensures { spec.IsLeastRenew w retry result }
{
    if is_enough(w, plan(0, retry, LONGEST_RENEW)) {
        Some(first(w, Question::Enough(retry), LONGEST_RENEW))
    } else {
        None
    }
}

/// The least lease of a plan that holds with this retry period.
fn least_lease(w: Wish, retry: u32) -> Option<u32>
    requires wish { IsWish w }
    requires retry { retry ≤ 864000 }
    ensures { spec.IsLeastLease w retry result }
{
    let renew = least_renew(w, retry)?;
    if is_outlasted(w, plan(LONGEST_LEASE, retry, renew)) {
        Some(first(w, Question::Outlasting(retry, renew), LONGEST_LEASE))
    } else {
        None
    }
}

/// The milliseconds of a failover that are left for leases and waits.
fn room(w: Wish, failover: u128) -> u128
    requires wish { IsWish w }
    requires few { failover ≤ 100000000000000000000000000000000000000 }
    ensures { result ≡ spec.room w failover }
{
    let beat = u128::from(w.beat_millis);
    let far = u128::from(w.delay_millis.div_ceil(w.beat_millis));
    (failover + 2 * beat).saturating_sub(6 * far * beat)
}

/// The longest retry period beside a lease that such a failover has room for.
fn longest_retry(w: Wish, failover: u128, lease: u32) -> u32
    requires wish { IsWish w }
    requires few { failover ≤ 100000000000000000000000000000000000000 }
    ensures is { result ≡ spec.longest_retry w failover lease }
    ensures most { result ≤ 864000 }
{
    let left = room(w, failover).saturating_sub(u128::from(lease) * 1000);
    (left / u128::from(w.wait_percent)).min(864_000) as u32
}

/// The least failover, in milliseconds, for which some plan fits, if there is any. Takes no memory.
pub fn least_failover(w: Wish) -> Option<u128>
    requires { IsWish w }
    ensures { IsLeastFailover w result }
{
    let from = w.retry_tenths;
    let shortest = least_lease(w, from)?;
    let at_first = bound(w, plan(shortest, from, 0));
    let most = longest_retry(w, at_first, shortest) + 1;
    let mut least = at_first;
    for retry in from..most {
        if let Some(lease) = least_lease(w, retry) {
            least = bound(w, plan(lease, retry, 0)).min(least);
        }
    }
    Some(least)
}

/// The greatest renew deadline beside a lease and a retry period.
fn with_retry(w: Wish, lease: u32, retry: u32) -> Option<Plan>
    requires wish { IsWish w }
    requires lease { lease ≤ 86400 }
    requires retry { retry ≤ 864000 }
    ensures { spec.IsGreatestWith w lease retry result }
{
    if !soon(w, plan(lease, retry, 0)) {
        return None;
    }
    let too_long = first(w, Question::TooLong(lease, retry), 10 * lease);
    if too_long == 0 {
        return None;
    }
    let found = plan(lease, retry, too_long - 1);
    if is_enough(w, found) {
        Some(found)
    } else {
        None
    }
}

/// The greatest retry period beside a lease, with its greatest renew deadline.
fn with_lease(w: Wish, lease: u32) -> Option<Plan>
    requires wish { IsWish w }
    requires lease { lease ≤ 86400 }
    ensures { spec.IsGreatestOf w lease result }
{
    let mut retry = longest_retry(w, u128::from(w.failover_millis), lease) + 1;
    while w.retry_tenths < retry {
        retry -= 1;
        if let Some(found) = with_retry(w, lease, retry) {
            return Some(found);
        }
    }
    None
}

/// The greatest plan in whole steps that fits: the longest lease, with it the longest retry period, and with both the longest renew
/// deadline; none only if none fits. Takes no memory.
pub fn greatest_plan(w: Wish) -> Option<Plan>
    requires { IsWish w }
    ensures { IsGreatestPlan w result }
{
    let failover = u128::from(w.failover_millis);
    if least_failover(w)? > failover {
        return None;
    }
    let mut lease = (room(w, failover) / 1000).min(86_400) as u32 + 1;
    while 0 < lease {
        lease -= 1;
        if let Some(found) = with_lease(w, lease) {
            return Some(found);
        }
    }
    None
}
