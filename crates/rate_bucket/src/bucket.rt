// The bucket and its token.
ghost use Rattle.std.specs.Prelude.{◌≡◌, ℕ, ◌≤◌, true, IsNone, IfSome, ◌↔◌};
ghost use Rattle.kube_base.specs.Bounds.{most_local};
ghost use Rattle.rate_bucket.specs.Filling.{after_attempt, carried, empty_at, filled_at, has_token, swapped};

use kube_base::Local;
use std::marker::Model;

/// How much a rate has to make up for one token: 1,000 s in units of 10^-12 s.
const TOKEN: u128 = 1_000_000_000_000_000;

/// A bucket of at most one token. It takes no memory. One that starts empty is empty at each change of its rate too; one that starts full is full
/// at a change of its rate if its token is there by then.
///
/// Rates are whole numbers of tokens in 1,000 s. Readings are those of the controller's own clock, at most `most_local`.
#[derive(Debug, Drop)]
pub struct Bucket {
    rate: u32,
    base: Local,
    full: bool,
}

impl Model for Bucket {
    ghost use Rattle.std.specs.Prelude.{◌≤◌};
    ghost use Rattle.kube_base.specs.Bounds.{most_local};
    ghost use Rattle.rate_bucket.specs.Filling.{Filling, filling};

    ghost Value = { Filling };

    ghost view = { λ b. filling b.rate b.base.0 b.full };

    ghost invariant = { λ b. b.base.0 ≤ most_local };
}

impl Bucket {
    /// An empty bucket.
    pub fn start(rate: u32, now: Local) -> Bucket
        requires { now.0 ≤ most_local }
        ensures { result ≡ empty_at rate now.0 }
    {
        Bucket {
            rate,
            base: now,
            full: false,
        }
    }

    /// A full one: its token is there at once.
    pub fn filled(rate: u32, now: Local) -> Bucket
        requires { now.0 ≤ most_local }
        ensures { result ≡ filled_at rate now.0 }
    {
        Bucket {
            rate,
            base: now,
            full: true,
        }
    }

    /// Empties the bucket if the rate differs, and does nothing if it is equal.
    pub fn swap(&mut self, rate: u32, now: Local)
        requires { now.0 ≤ most_local }
        ensures { self.new ≡ swapped self.old rate now.0 }
    {
        if self.rate != rate {
            *self = Bucket::start(rate, now);
        }
    }

    /// If the rate differs the bucket is full, if its token is there, and else empty. Does nothing if the rate is equal.
    pub fn carry(&mut self, rate: u32, now: Local)
        requires { now.0 ≤ most_local }
        ensures { self.new ≡ carried self.old rate now.0 }
    {
        if self.rate == rate {
            return;
        }
        let full = self.is_there(now);
        *self = Bucket {
            rate,
            base: now,
            full,
        };
    }

    /// Whether the token is there. With rate 0 it never is.
    fn is_there(&self, now: Local) -> bool
        requires { now.0 ≤ most_local }
        ensures { result ≡ has_token self.now now.0 }
    {
        let since = now.0.saturating_sub(self.base.0);
        let grown = TOKEN <= u128::from(since) * u128::from(self.rate);
        self.rate != 0 && (self.full || grown)
    }

    /// Takes the token, if it is there. With rate 0 it never is.
    pub fn try_take(&mut self, now: Local) -> bool
        requires { now.0 ≤ most_local }
        ensures taken { result ≡ has_token self.old now.0 }
        ensures after { self.new ≡ after_attempt self.old now.0 result }
    {
        if !self.is_there(now) {
            return false;
        }
        self.base = now;
        self.full = false;
        true
    }

    /// The least reading at which the token is there; none with rate 0.
    pub fn ready_at(&self) -> Option<Local>
        ensures never { IsNone result ↔ (self.now.rate ≡ 0) }
        ensures there { IfSome result (λ at. has_token self.now at.0 ≡ true) }
        ensures least { IfSome result (λ at. (earlier : ℕ) → has_token self.now earlier ≡ true → at.0 ≤ earlier) }
    {
        if self.rate == 0 {
            return None;
        }
        if self.full {
            return Some(Local(0));
        }
        let rate = u64::from(self.rate);
        let wait = (1_000_000_000_000_000 + (rate - 1)) / rate;
        Some(Local(self.base.0 + wait))
    }
}

#[cfg(test)]
mod tests {
    use super::*;

    // The greatest reading that is handed in.
    const MOST_LOCAL: u64 = 2_000_000_000_000_000_000;

    // One token in 10 s, at readings in 10^-12 s.
    #[test]
    fn one_token_in_ten_seconds(rt: HostRuntime) {
        let mut bucket = Bucket::start(100, Local(0));
        assert_eq!(rt; bucket.ready_at(), Some(Local(10_000_000_000_000)));
        let attempts = [
            (9_999_999_999_999, false),
            (10_000_000_000_000, true),
            (10_000_000_000_000, false),
            (20_000_000_000_000, true),
        ];
        for (now, taken) in attempts {
            if now <= MOST_LOCAL {
                assert_eq!(rt; bucket.try_take(Local(now)), taken);
            }
        }
    }

    #[test]
    fn a_full_one_gives_a_token_at_once(rt: HostRuntime) {
        let mut bucket = Bucket::filled(100, Local(0));
        assert_eq!(rt; bucket.ready_at(), Some(Local(0)));
        bucket.carry(50, Local(5));
        assert_eq!(rt; bucket.try_take(Local(5)), true);
        assert_eq!(rt; bucket.try_take(Local(5)), false);
        bucket.carry(100, Local(10_000_000_000_000));
        assert_eq!(rt; bucket.ready_at(), Some(Local(20_000_000_000_000)));
        bucket.carry(0, Local(20_000_000_000_000));
        assert_eq!(rt; bucket.try_take(Local(MOST_LOCAL)), false);
        bucket.carry(100, Local(30_000_000_000_000));
        assert_eq!(rt; bucket.ready_at(), Some(Local(40_000_000_000_000)));
    }

    #[test]
    fn a_change_of_rate_empties(rt: HostRuntime) {
        let mut bucket = Bucket::start(100, Local(0));
        bucket.swap(100, Local(9_000_000_000_000));
        assert_eq!(rt; bucket.ready_at(), Some(Local(10_000_000_000_000)));
        bucket.swap(50, Local(10_000_000_000_000));
        assert_eq!(rt; bucket.try_take(Local(10_000_000_000_000)), false);
        assert_eq!(rt; bucket.ready_at(), Some(Local(30_000_000_000_000)));
        bucket.swap(0, Local(11_000_000_000_000));
        assert_eq!(rt; bucket.ready_at(), None);
        assert_eq!(rt; bucket.try_take(Local(MOST_LOCAL)), false);
        bucket.swap(1_000_000, Local(MOST_LOCAL));
        assert_eq!(rt; bucket.ready_at(), Some(Local(2_000_000_001_000_000_000)));
    }
}
