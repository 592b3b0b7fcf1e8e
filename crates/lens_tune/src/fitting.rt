// Whether a plan fits.
ghost use Rattle.std.specs.Prelude.{◌≡◌, ◌*◌, ◌≤◌};
ghost use Rattle.lens_bounds.specs.Elections as calm;
ghost use Rattle.lens_tune.specs.Plans as spec;
ghost use Rattle.lens_tune.specs.Searches as part;
ghost use Rattle.lens_tune.specs.Searches.{IsSmall};
ghost use Rattle.lens_tune.specs.Wishes as wish;
ghost use Rattle.lens_tune.specs.Wishes.{IsWish};

use crate::plan::Plan;
use crate::wish::{Timeout, Wish};
use kube_objects::{Proc, ReadyStatus, RespectRule};
use lens_bounds::{Calm, Waits, crash_most};

/// How long a call waits for its reply, by the renew deadline, in milliseconds.
pub fn timeout_by(timeout: Timeout, renew: u32) -> u32
    ensures { result ≡ wish.timeout_by timeout renew }
{
    match timeout {
        Timeout::RenewDeadline => renew,
        Timeout::Half => (renew / 2).max(1000),
        Timeout::Fixed(millis) => millis,
    }
}

/// The longest wait of a candidate between two attempts, in milliseconds.
pub fn wait_by(w: Wish, p: Plan) -> u32
    requires wish { IsWish w }
    requires plan { IsSmall p }
    ensures { result ≡ wish.wait_of w p }
{
    p.retry_tenths * w.wait_percent
}

fn calm_of(w: Wish, p: Plan) -> Calm
    requires wish { IsWish w }
    requires plan { IsSmall p }
    ensures is { result ≡ wish.calm_of w p }
    ensures calm { calm.IsCalm result }
{
    let micros = u64::from(w.beat_millis) * 1000;
    Calm {
        beat_millis: w.beat_millis,
        near: 1,
        far: w.delay_millis.div_ceil(w.beat_millis),
        slow: micros * u64::from(1_000_000 - w.skew_ppm),
        fast: micros * u64::from(1_000_000 + w.skew_ppm),
        waits: Waits::UpTo(wait_by(w, p)),
        respect: RespectRule::Record,
        fast_renew: false,
        releases_by_stop: true,
    }
}

fn controller_of(w: Wish, p: Plan) -> Proc
    requires wish { IsWish w }
    requires plan { IsSmall p }
    ensures { result ≡ wish.controller_of w p }
{
    Proc {
        name: 0,
        rate_ppm: 1_000_000 - w.skew_ppm,
        offset_millis: 0,
        up: true,
        watch: true,
        ready: ReadyStatus::True,
        lease_seconds: p.lease_seconds,
        renew_millis: p.renew_tenths * 100,
        retry_millis: p.retry_tenths * 100,
        timeout_millis: timeout_by(w.timeout, p.renew_tenths * 100),
    }
}

/// So many milliseconds after a crash somebody else leads at the latest. Takes no memory.
pub fn bound(w: Wish, p: Plan) -> u128
    requires wish { IsWish w }
    requires plan { IsSmall p }
    ensures is { result ≡ spec.bound w p }
    ensures few { result ≤ 100000000000000000000000000000000000000 }
{
    let controller = controller_of(w, p);
    crash_most(calm_of(w, p), controller, controller) * u128::from(w.beat_millis)
}

pub(crate) fn soon(w: Wish, p: Plan) -> bool
    requires wish { IsWish w }
    requires plan { IsSmall p }
    ensures { result ≡ spec.soon w p }
{
    bound(w, p) <= u128::from(w.failover_millis)
}

/// The beats that a pause for a whole stall can add.
fn stalled(w: Wish) -> u128
    requires { IsWish w }
    ensures is { result ≡ part.pauses w }
    ensures few { result ≤ 4294967296 }
{
    let beats = w.stall_millis.div_ceil(w.beat_millis);
    if beats > 0 { u128::from(beats) + 1 } else { 0 }
}

fn safe(w: Wish, p: Plan) -> bool
    requires wish { IsWish w }
    requires plan { IsSmall p }
    ensures { result ≡ spec.safe w p }
{
    let slow = u128::from(1_000_000 - w.skew_ppm);
    let fast = u128::from(1_000_000 + w.skew_ppm);
    let still = stalled(w) * (u128::from(w.beat_millis) * 1000 * fast) * slow;
    let acting = u128::from(timeout_by(w.timeout, p.renew_tenths * 100))
        + u128::from(p.retry_tenths) * 100
        + u128::from(p.renew_tenths) * 100;
    still + acting * 1_000_000_000 * fast < u128::from(p.lease_seconds) * 1_000_000_000_000 * slow
}

#[tactic(auto, unfolding(kube_objects::specs::Document::of_millis, kube_objects::specs::Document::of_seconds))]
fn outlasts(c: Calm, p: Proc) -> bool
    requires { calm.IsCalm c }
    ensures { result ≡ calm.outlasts c p }
{
    let retry = (u128::from(p.retry_millis) * 1_000_000_000).div_ceil(u128::from(c.slow));
    let beats = (retry + 5 * u128::from(c.far)).saturating_sub(u128::from(c.near));
    beats * u128::from(c.fast) < u128::from(p.lease_seconds) * 1_000_000_000_000
}

#[tactic(auto, unfolding(kube_objects::specs::Document::of_millis))]
fn replies_count(c: Calm, p: Proc) -> bool
    ensures { result ≡ calm.replies_count c p }
{
    2 * u128::from(c.far) * u128::from(c.fast) <= u128::from(p.timeout_millis) * 1_000_000_000
}

#[tactic(auto, unfolding(kube_objects::specs::Document::of_millis))]
fn renews(c: Calm, p: Proc) -> bool
    ensures { result ≡ calm.renews c p }
{
    4 * u128::from(c.far) * u128::from(c.fast) <= u128::from(p.renew_millis) * 1_000_000_000
}

/// Whether the renew deadline is long enough for the retry period and for the delays.
pub(crate) fn is_enough(w: Wish, p: Plan) -> bool
    requires wish { IsWish w }
    requires plan { IsSmall p }
    ensures { result ≡ part.is_enough w p }
{
    let calm = calm_of(w, p);
    let controller = controller_of(w, p);
    6 * u64::from(controller.retry_millis) < 5 * u64::from(controller.renew_millis)
        && replies_count(calm, controller)
        && renews(calm, controller)
}

/// Whether the lease outlasts the renew deadline and all else that it has to.
pub(crate) fn is_outlasted(w: Wish, p: Plan) -> bool
    requires wish { IsWish w }
    requires plan { IsSmall p }
    ensures { result ≡ part.is_outlasted w p }
{
    let controller = controller_of(w, p);
    controller.renew_millis < p.lease_seconds * 1000
        && controller.timeout_millis <= 600_000
        && safe(w, p)
        && outlasts(calm_of(w, p), controller)
}
