// Messages in flight one way, by the beats at which they arrive.
ghost use Rattle.std.specs.Prelude.{◌≡◌, ◌==◌, ◌<◌, ◌∷◌, ◌++◌, [], ℕ, length, cond, OnOk, OnErr, IsSome, IfSome, Bool, true};
ghost use Rattle.wire_calls.specs.InFlight.{AllPass, pending, IsLive, IsLeast, first_of, has_any, rest_of};

use crate::queues::{Queues, begin_anew, take_first};
use kube_base::{Beat, NoMemory};
use std::alloc::Global;
use std::collections::VecDeque;

/// For each beat at which something arrives, what arrives, the oldest first. Nearly always that is one beat only: its queue
/// is the front, which is found without a search and keeps its memory.
#[derive(Drop)]
pub(crate) struct Flight<T> {
    /// The beat of the front, which has no queue among the others.
    beat: Beat,
    front: VecDeque<T>,
    others: Queues<T>,
}

impl<T: Copy + Drop> Flight<T> {
    pub(crate) fn new(alloc: Global) -> Flight<T>
        ensures nothing { (j : ℕ) → pending result j ≡ [] }
        ensures live { IsLive result }
    {
        Flight {
            beat: Beat(0),
            front: VecDeque::new(alloc),
            others: Queues::new(alloc),
        }
    }

    /// Adds a message behind the others of its beat.
    pub(crate) fn push(&mut self, beat: Beat, message: T) -> Result<(), NoMemory>
        ensures each { (test : T → Bool) → AllPass test (pending self.old) → test message ≡ true → AllPass test (pending self.new) }
        ensures ok { IsLive self.old → OnOk result ((j : ℕ)
            → pending self.new j ≡ cond (beat.0 == j) (pending self.old j ++ message ∷ []) (pending self.old j)) }
        ensures err { OnErr result ((j : ℕ) → pending self.new j ≡ pending self.old j) }
        ensures live { IsLive self.old → IsLive self.new }
    {
        self.claim_front(beat);
        if self.beat.0 == beat.0 {
            self.front.push_back(message)?;
            return Ok(());
        }
        self.others.push(beat, message)
    }

    /// An empty front becomes that of a beat, if the beat has no queue among the others.
    fn claim_front(&mut self, beat: Beat)
        ensures same { (j : ℕ) → pending self.new j ≡ pending self.old j }
        ensures live { IsLive self.old → IsLive self.new }
    {
        if self.front.is_empty() {
            begin_anew(&mut self.front);
            if !self.others.has(beat) {
                self.beat = beat;
            }
        }
    }

    /// Takes out the first message of a beat.
    pub(crate) fn take(&mut self, beat: Beat) -> Option<T>
        ensures each { (test : T → Bool) → AllPass test (pending self.old) → IfSome result (λ message. test message ≡ true) }
        ensures others { (test : T → Bool) → AllPass test (pending self.old) → AllPass test (pending self.new) }
        ensures fewer { IsSome result → length (pending self.new beat.0) < length (pending self.old beat.0) }
        ensures first { IsLive self.old → result ≡ first_of (pending self.old beat.0) }
        ensures rest { IsLive self.old → (j : ℕ) → pending self.new j
            ≡ cond (beat.0 == j) (rest_of (pending self.old j)) (pending self.old j) }
        ensures live { IsLive self.old → IsLive self.new }
    {
        if self.beat.0 == beat.0 {
            return take_first(&mut self.front);
        }
        self.others.take(beat)
    }

    /// Whether something arrives at a beat.
    pub(crate) fn has(&self, beat: Beat) -> bool
        ensures { IsLive self.now → result ≡ has_any (pending self.now beat.0) }
    {
        if self.beat.0 == beat.0 {
            return !self.front.is_empty();
        }
        self.others.has(beat)
    }

    /// The least beat at which something arrives.
    pub(crate) fn least(&self) -> Option<Beat>
        ensures { IsLive self.now → IsLeast (pending self.now) result }
    {
        let other = self.others.least();
        if self.front.is_empty() {
            return other;
        }
        match other {
            Some(other) => {
                if other.0 < self.beat.0 {
                    Some(other)
                } else {
                    Some(self.beat)
                }
            }
            None => Some(self.beat),
        }
    }
}
