// The ordered map: due pods by time, then key.
ghost use Rattle.std.specs.Prelude.{◌≡◌, ℕ, ◌+◌, ◌≤◌, false, not, ◌||◌, ◌&&◌, true, OnOk, OnErr, IfSome, IfNone, OnSome};

use kube_base::{NoMemory, Steps};
use kube_objects::Key;
use std::alloc::Global;
use std::collections::BTreeSet;

/// Due pods by time, then key. No code outside of this file reads the map.
#[derive(Debug, Drop)]
pub(crate) struct Timed {
    set: BTreeSet<(u128, Key)>,
}

impl Timed {
    ghost use Rattle.std.specs.Ordering.{is_gt};
    ghost use Rattle.kube_objects.specs.declared.key.Key.{Key};
    ghost use Rattle.kube_base.specs.Steps.{counted};
    ghost use Rattle.evict_queue.specs.Held.{has_entry};
    ghost use Rattle.evict_queue.specs.Order.{is_entry, timed_cmp};

    /// No pod.
    pub(crate) fn new(alloc: Global) -> Timed
        ensures { (due : ℕ) (key : Key) → has_entry result due key ≡ false }
    {
        Timed {
            set: BTreeSet::new(alloc),
        }
    }

    /// Adds a pod at a due time.
    pub(crate) fn insert(&mut self, due: u128, key: Key) -> Result<(), NoMemory>
        ensures ok { OnOk result ((d : ℕ) (k : Key) → has_entry self.new d k ≡ (is_entry due key d k || has_entry self.old d k)) }
        ensures err { OnErr result ((d : ℕ) (k : Key) → has_entry self.new d k ≡ has_entry self.old d k) }
    {
        self.set.insert((due, key))?;
        Ok(())
    }

    /// Takes a pod at a due time out, if it is there.
    pub(crate) fn remove(&mut self, due: u128, key: Key)
        ensures { (d : ℕ) (k : Key) → has_entry self.new d k ≡ (not (is_entry due key d k) && has_entry self.old d k) }
    {
        let _ = self.set.remove(&(due, key));
    }

    /// The first pod with its due time. It is the one call that shows an entry, and counts one step if it does.
    pub(crate) fn first<L>(&self, steps: &mut Steps<L>) -> Option<(u128, Key)>
        ensures there { IfSome result (λ p. has_entry self.now p.0 p.1 ≡ true) }
        ensures first { IfSome result (λ p. (d : ℕ) (k : Key) → has_entry self.now d k ≡ true → is_gt (timed_cmp p (d, k)) ≡ false) }
        ensures counted { OnSome result (steps.new ≡ counted steps.old 1) }
        ensures none { IfNone result ((d : ℕ) (k : Key) → has_entry self.now d k ≡ false) }
        ensures quiet { IfNone result (steps.new ≡ steps.old) }
    {
        let entry = self.set.first()?;
        steps.tick();
        Some(*entry)
    }

    /// The least due time.
    pub(crate) fn least(&self) -> Option<u128>
        ensures there { IfSome result (λ least. (k : Key) × (has_entry self.now least k ≡ true)) }
        ensures first { IfSome result (λ least. (d : ℕ) (k : Key) → has_entry self.now d k ≡ true → least ≤ d) }
        ensures none { IfNone result ((d : ℕ) (k : Key) → has_entry self.now d k ≡ false) }
    {
        match self.set.first() {
            Some(entry) => {
                let (due, _) = *entry;
                Some(due)
            }
            None => None,
        }
    }
}
