// How many cases were run.

/// How many cases were run, and how many of them ended otherwise than they should.
#[derive(Clone, Copy, Debug, PartialEq, Eq)]
pub(crate) struct Tally {
    pub(crate) cases: u64,
    pub(crate) failed: u64,
}

impl Tally {
    pub(crate) fn new() -> Tally {
        Tally {
            cases: 0,
            failed: 0,
        }
    }

    /// One case.
    pub(crate) fn of(good: bool) -> Tally {
        let mut tally = Tally::new();
        tally.add(good);
        tally
    }

    pub(crate) fn add(&mut self, good: bool) {
        self.cases = self.cases.saturating_add(1);
        if !good {
            self.failed = self.failed.saturating_add(1);
        }
    }

    pub(crate) fn join(&mut self, other: Tally) {
        self.cases = self.cases.saturating_add(other.cases);
        self.failed = self.failed.saturating_add(other.failed);
    }
}
