// A counter of steps.
ghost use Rattle.std.specs.Prelude.{◌≡◌, ◌^◌, ◌<◌};
ghost use Rattle.kube_base.specs.Steps.{counted};

use std::marker::Model;

/// How many steps were taken, which contracts see as their number.
///
/// A step is one call of `tick`. The counter holds the ledger that it was made with, a value of any type: code that
/// is generic over `L` has no such value, so it can make no counter in the place of the one that it is handed.
/// A caller that counts nothing makes its counter from `Blank::new(1)`, which takes no bytes.
#[derive(Drop)]
pub struct Steps<L> {
    ledger: L,
    count: u64,
}

impl<L> Model for Steps<L> {
    ghost use Rattle.std.specs.Prelude.{ℕ};

    ghost Value = { ℕ };

    ghost view = { λ s. s.count };
}

impl<L> Steps<L> {
    /// No step was taken yet.
    pub fn new(ledger: L) -> Steps<L>
        ensures { result ≡ 0 }
    {
        Steps { ledger, count: 0 }
    }

    /// Counts one step. At the greatest u64 the count stays.
    pub fn tick(&mut self)
        ensures { self.new ≡ counted self.old 1 }
    {
        if self.count < u64::MAX {
            self.count += 1;
        }
    }

    /// How many steps were counted.
    pub fn count(&self) -> u64
        ensures { result ≡ self.now }
    {
        self.count
    }
}

#[cfg(test)]
mod tests {
    use super::*;
    use std::sync::ledger::Blank;

    #[test]
    fn counts_ticks(rt: HostRuntime) {
        let mut steps = Steps::new(Blank::new(1));
        assert_eq!(rt; steps.count(), 0);
        steps.tick();
        steps.tick();
        assert_eq!(rt; steps.count(), 2);
    }
}
