// A bucket of many tokens that is full at first.
ghost use Rattle.std.specs.Prelude.{◌≡◌, ◌==◌, ◌*◌, ◌≤◌, ℕ, not, true, false, IfSome, IfNone};
ghost use Rattle.kube_base.specs.Bounds.{most_local};
ghost use Rattle.rate_bucket.specs.Allowing.{full, has_room, owed_at, taken};

use kube_base::Local;
use std::marker::Model;

/// How much a rate has to make up for one token: 1,000 s in units of 10^-12 s.
const TOKEN: u128 = 1_000_000_000_000_000;

/// A bucket of at most `burst` tokens, full at first; 0 is no limit. It takes no memory.
///
/// The rate is a whole number of tokens in 1,000 s. What is owed is what the rate has still to make up at a reading before the bucket is full.
/// Readings are those of the controller's own clock, at most `most_local`, and none is before an earlier one.
#[derive(Debug, Drop)]
pub struct Allowance {
    burst: u32,
    rate: u32,
    owed: u128,
    at: Local,
}

impl Model for Allowance {
    ghost use Rattle.std.specs.Prelude.{◌≤◌, ◌*◌};
    ghost use Rattle.kube_base.specs.Bounds.{most_local};
    ghost use Rattle.rate_bucket.specs.Allowing.{Allowed, allowed};

    ghost Value = { Allowed };

    ghost view = { λ a. allowed a.burst a.rate a.owed a.at.0 };

    ghost invariant = { λ a. (a.at.0 ≤ most_local) × (a.owed ≤ a.burst * 1000000000000000) };
}

impl Allowance {
    /// A full one.
    pub fn full(burst: u32, rate: u32) -> Allowance
        ensures { result ≡ full burst rate }
    {
        Allowance {
            burst,
            rate,
            owed: 0,
            at: Local(0),
        }
    }

    /// Whether there is a limit.
    pub fn is_limited(&self) -> bool
        ensures { result ≡ not (self.now.burst == 0) }
    {
        self.burst != 0
    }

    /// Whether a token is there; without a limit there always is one.
    pub fn is_there(&self, now: Local) -> bool
        requires { now.0 ≤ most_local }
        ensures { result ≡ has_room self.now now.0 }
    {
        self.burst == 0 || self.owed_at(now) + TOKEN <= self.most()
    }

    /// Takes a token that is there.
    pub fn take(&mut self, now: Local)
        requires now { now.0 ≤ most_local }
        requires there { has_room self.old now.0 ≡ true }
        ensures { self.new ≡ taken self.old now.0 }
    {
        if self.burst != 0 {
            self.owed = self.owed_at(now) + TOKEN;
            self.at = now;
        }
    }

    /// The least reading from which on a token is there, if none is taken before; none if there never is one.
    pub fn ready_at(&self) -> Option<Local>
        ensures there { IfSome result (λ at. (now : ℕ) → at.0 ≤ now → has_room self.now now ≡ true) }
        ensures least { IfSome result (λ at. (now : ℕ) → has_room self.now now ≡ true → at.0 ≤ now) }
        ensures none { IfNone result ((now : ℕ) → has_room self.now now ≡ false) }
    {
        if self.burst == 0 || self.owed + TOKEN <= self.most() {
            return Some(Local(0));
        }
        if self.rate == 0 {
            return None;
        }
        let rate = u128::from(self.rate);
        let wait = (self.owed + TOKEN - self.most() + (rate - 1)) / rate;
        Some(Local(self.at.0 + wait as u64))
    }

    // What is owed at a reading.
    fn owed_at(&self, now: Local) -> u128
        requires { now.0 ≤ most_local }
        ensures { result ≡ owed_at self.now now.0 }
    {
        let since = now.0.saturating_sub(self.at.0);
        self.owed
            .saturating_sub(u128::from(since) * u128::from(self.rate))
    }

    // What all tokens are worth.
    fn most(&self) -> u128
        ensures { result ≡ self.now.burst * 1000000000000000 }
    {
        u128::from(self.burst) * TOKEN
    }
}

#[cfg(test)]
mod tests {
    use super::*;

    const SECOND: u64 = 1_000_000_000_000;

    // Two at once, and one a second.
    #[test]
    fn two_at_once_and_one_a_second(rt: HostRuntime) {
        let mut allowance = Allowance::full(2, 1_000);
        assert_eq!(rt; allowance.ready_at(), Some(Local(0)));
        // the reading in tenths of a second, whether one is taken, and from when on the next one is there
        let table = [
            (4, true, 0),
            (4, true, 14),
            (4, false, 14),
            (13, false, 14),
            (14, true, 24),
            (44, true, 0),
            (44, true, 54),
        ];
        for (tenths, taken, ready) in table {
            let now = Local(tenths * SECOND / 10);
            assert_eq!(rt; allowance.is_there(now), taken);
            if allowance.is_there(now) {
                allowance.take(now);
            }
            assert_eq!(rt; allowance.ready_at(), Some(Local(ready * SECOND / 10)));
        }
    }

    #[test]
    fn without_a_rate_a_burst_is_all(rt: HostRuntime) {
        let mut allowance = Allowance::full(1, 0);
        if allowance.is_there(Local(5)) {
            allowance.take(Local(5));
        }
        assert_eq!(rt; allowance.is_there(Local(2_000_000_000_000_000_000)), false);
        assert_eq!(rt; allowance.ready_at(), None);
        let free = Allowance::full(0, 0);
        assert!(rt; !free.is_limited());
        assert!(rt; free.is_there(Local(5)));
    }
}
