// How an elector's attempts went, and when the one after a failure starts.
ghost use Rattle.std.specs.Prelude.{◌≡◌, ◌≤◌, ◌+◌, All, length};
ghost use Rattle.kube_base.specs.Bounds.{most_local};
ghost use Rattle.kube_objects.specs.Retries as retries;
ghost use Rattle.leader_elector.specs.Attempts as spec;
ghost use Rattle.leader_elector.specs.Attempts.{after_failure, attempts_of, candidate_waits, counts_from, leader_waits, none_yet};
ghost use Rattle.leader_elector.specs.Attempts.{waits_until, with_begin, with_success};

use crate::Timing;
use crate::reading::Reading;
use kube_base::Local;
use kube_objects::RetryRule;

/// What the wait after a failure depends on.
#[derive(Clone, Copy)]
pub(crate) struct Attempts {
    /// Which of its waits a candidate's next failure takes.
    pub(crate) place: usize,
    /// When the attempt began that is under way.
    pub(crate) began: Option<Reading>,
    /// If the last attempt failed, the reading from which a leader counts its retry periods.
    pub(crate) origin: Option<Reading>,
}

impl Attempts {
    /// None was made.
    pub(crate) fn new() -> Attempts
        ensures { attempts_of result ≡ none_yet }
    {
        Attempts {
            place: 0,
            began: None,
            origin: None,
        }
    }

    /// An attempt begins, or goes on.
    pub(crate) fn begin(&mut self, now: Local)
        requires { now.0 ≤ most_local }
        ensures { attempts_of self.new ≡ with_begin now.0 (attempts_of self.old) }
    {
        if self.began.is_none() {
            self.began = Some(Reading { at: now });
        }
    }

    /// The attempt has succeeded.
    pub(crate) fn succeed(&mut self)
        ensures { attempts_of self.new ≡ with_success (attempts_of self.old) }
    {
        self.began = None;
        self.origin = None;
    }

    /// The attempt has failed. The reading at which the next one starts.
    pub(crate) fn fail(&mut self, timing: Timing, led: bool, waits: &[u32], now: Local) -> Local
        requires now { now.0 ≤ most_local }
        requires waits { All (λ w. w ≤ 2200) waits.now }
        ensures kept { attempts_of self.new ≡ after_failure timing.retries waits.now led now.0 (attempts_of self.old) }
        ensures until { result.0 ≡ waits_until timing waits.now led now.0 (attempts_of self.old) }
    {
        let here = Reading { at: now };
        let until = self.waits_until(timing, led, waits, here);
        let origin = self.counts_from(timing.retries, here);
        if !led {
            self.place = next_place(self.place, waits.len());
        }
        self.began = None;
        self.origin = Some(origin);
        until
    }

    fn waits_until(&self, timing: Timing, led: bool, waits: &[u32], now: Reading) -> Local
        requires { All (λ w. w ≤ 2200) waits.now }
        ensures { result.0 ≡ waits_until timing waits.now led now.at.0 (attempts_of self.now) }
    {
        if led {
            return self.leader_waits(timing, now);
        }
        Local(now.at.0 + candidate_waits(timing, waits, self.place))
    }

    // A leader waits a retry period, or for a point that it counts.
    fn leader_waits(&self, timing: Timing, now: Reading) -> Local
        ensures { result.0 ≡ leader_waits timing.retries timing.retry now.at.0 (attempts_of self.now) }
    {
        let origin = self.counts_from(timing.retries, now);
        match timing.retries {
            RetryRule::After => Local(now.at.0 + timing.retry),
            RetryRule::Grid => next_point(origin, timing, now),
            RetryRule::Ticks => next_tick(origin, timing, self.began.unwrap_or(now), now),
        }
    }

    // The reading from which a leader counts: that of the first failure, or that at which the first attempt began.
    fn counts_from(&self, rule: RetryRule, now: Reading) -> Reading
        ensures { result.at.0 ≡ counts_from rule now.at.0 (attempts_of self.now) }
    {
        match self.origin {
            Some(origin) => origin,
            None => match rule {
                RetryRule::After | RetryRule::Grid => now,
                RetryRule::Ticks => self.began.unwrap_or(now),
            },
        }
    }
}

// How long a candidate waits that has failed at this place of its waits.
fn candidate_waits(timing: Timing, waits: &[u32], place: usize) -> u64
    requires { All (λ w. w ≤ 2200) waits.now }
    ensures value { result ≡ candidate_waits timing.retry waits.now place }
    ensures most { result ≤ 190080000000000000 }
{
    let wait = wait_at(waits, place);
    (u128::from(timing.retry) * u128::from(wait) / 1_000) as u64
}

// The wait at a place, a whole period where there is none.
fn wait_at(waits: &[u32], place: usize) -> u32
    requires { All (λ w. w ≤ 2200) waits.now }
    ensures value { result ≡ spec.wait_at waits.now place }
    ensures most { result ≤ 2200 }
{
    match waits.get(place) {
        Some(wait) => *wait,
        None => 1_000,
    }
}

// The waits come in turn.
fn next_place(place: usize, count: usize) -> usize
    ensures { result ≡ spec.next_place place count }
{
    if place < count && count - place > 1 {
        place + 1
    } else {
        0
    }
}

// The last point of a grid up to a reading, or its origin.
fn last_point(origin: Reading, timing: Timing, now: Reading) -> u64
    ensures value { result ≡ retries.last_point origin.at.0 timing.retry now.at.0 }
    ensures most { result ≤ most_local }
{
    origin.at.0 + now.at.0.saturating_sub(origin.at.0) / timing.retry * timing.retry
}

fn next_point(origin: Reading, timing: Timing, now: Reading) -> Local
    ensures { result.0 ≡ retries.next_point origin.at.0 timing.retry now.at.0 }
{
    Local(last_point(origin, timing, now) + timing.retry)
}

// At once where a point has come since the attempt began.
fn next_tick(origin: Reading, timing: Timing, began: Reading, now: Reading) -> Local
    ensures { result.0 ≡ retries.next_tick origin.at.0 timing.retry began.at.0 now.at.0 }
{
    if began.at.0 < last_point(origin, timing, now) {
        now.at
    } else {
        next_point(origin, timing, now)
    }
}
