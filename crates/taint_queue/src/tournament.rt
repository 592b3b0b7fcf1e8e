// A tournament tree.
ghost use Rattle.std.specs.Prelude.{◌≡◌, ℕ, ◌<◌, true, Some, IfSome, IfNone, OnOk, OnErr, length, vec_len, slice_get};
ghost use Rattle.taint_queue.specs.Tidy.{best, IsTidy, IsTidyBut};

use crate::waiting::Waiting;
use kube_base::NoMemory;
use std::alloc::Global;

/// Waiting nodes in slots, numbered from 0. The slots 2 * i + 1 and 2 * i + 2 stand below slot i, and each slot knows the
/// earliest node of itself and all below it, so the first one knows the earliest of all.
#[derive(Debug, Drop)]
pub(crate) struct Tournament {
    waiting: Vec<Waiting>,
    least: Vec<Waiting>,
    ghost as_long: { vec_len least ≡ vec_len waiting },
    ghost tidy: { IsTidy waiting.items least.items },
}

// The earliest of a slot's own node and of the earliest ones of the two slots below it.
fn best(waiting: &[Waiting], least: &[Waiting], slot: usize) -> Waiting
    requires as_long { length least.now ≡ length waiting.now }
    requires within { slot < length waiting.now }
    ensures { Some result ≡ best waiting.now least.now slot }
{
    let own = waiting[slot];
    if slot >= least.len() / 2 {
        return own;
    }
    let left = own.earlier(least[2 * slot + 1]);
    if slot >= (least.len() - 1) / 2 {
        return left;
    }
    left.earlier(least[2 * slot + 2])
}

// Computes the earliest of a slot and of all above it anew.
fn refresh(waiting: &[Waiting], least: &mut [Waiting], from: usize)
    requires as_long { length least.old ≡ length waiting.now }
    requires within { from < length waiting.now }
    requires tidy { IsTidyBut waiting.now least.old from }
    ensures { IsTidy waiting.now least.new }
{
    let mut slot = from;
    while slot > 0 {
        least[slot] = best(waiting, least, slot);
        slot = (slot - 1) / 2;
    }
    least[0] = best(waiting, least, 0);
}

impl Tournament {
    ghost use Rattle.std.specs.Prelude.{[], ◌∷◌, ◌++◌, slice_set, MatchOption, IsTrue};
    ghost use Rattle.taint_queue.specs.Order.{comes_first};
    ghost use Rattle.taint_queue.specs.Slots.{slots};
    ghost use Rattle.taint_queue.specs.declared.waiting.Waiting.{Waiting as Entry};

    /// No slot.
    pub(crate) fn new(alloc: Global) -> Tournament
        ensures { slots result ≡ [] }
    {
        Tournament {
            waiting: Vec::new(alloc),
            least: Vec::new(alloc),
        }
    }

    /// How many slots there are.
    pub(crate) fn len(&self) -> usize
        ensures { result ≡ length (slots self.now) }
    {
        self.waiting.len()
    }

    /// Adds a slot at the end.
    pub(crate) fn push(&mut self, entry: Waiting) -> Result<(), NoMemory>
        ensures ok { OnOk result (slots self.new ≡ slots self.old ++ entry ∷ []) }
        ensures err { OnErr result (slots self.new ≡ slots self.old) }
    {
        let slot = self.waiting.len();
        self.waiting.push(entry)?;
        if self.least.push(entry).is_err() {
            let _ = self.waiting.pop();
            return Err(NoMemory);
        }
        if slot > 0 {
            refresh(
                self.waiting.as_slice(),
                self.least.as_mut_slice(),
                (slot - 1) / 2,
            );
        }
        Ok(())
    }

    /// Takes the last slot out.
    pub(crate) fn pop(&mut self) -> Option<Waiting>
        ensures { MatchOption result (slots self.old ≡ []) (λ entry. slots self.old ≡ slots self.new ++ entry ∷ []) }
    {
        let entry = self.waiting.pop()?;
        let _ = self.least.pop();
        let slot = self.waiting.len();
        if slot > 0 {
            refresh(
                self.waiting.as_slice(),
                self.least.as_mut_slice(),
                (slot - 1) / 2,
            );
        }
        Some(entry)
    }

    /// Replaces the entry of a slot.
    pub(crate) fn put(&mut self, slot: usize, entry: Waiting)
        requires { slot < length (slots self.old) }
        ensures { slots self.new ≡ slice_set (slots self.old) slot entry }
    {
        self.waiting[slot] = entry;
        refresh(self.waiting.as_slice(), self.least.as_mut_slice(), slot);
    }

    /// The earliest of all.
    pub(crate) fn first(&self) -> Option<Waiting>
        ensures there { IfSome result (λ first. (slot : ℕ) × (slice_get (slots self.now) slot ≡ Some first)) }
        ensures first { IfSome result (λ first. (slot : ℕ) (entry : Entry)
            → slice_get (slots self.now) slot ≡ Some entry → comes_first first entry ≡ true) }
        ensures none { IfNone result (slots self.now ≡ []) }
    {
        self.least.first().copied()
    }
}
