// The nodes and pods that wait for a phase of the tick.
ghost use Rattle.std.specs.Prelude.{◌≡◌, ◌≤◌, ◌<◌, ◌+◌, ◌||◌, ℕ, Bool};
ghost use Rattle.std.specs.Prelude.{true, false, List, Option, Some, None, OnOk, IfOk, IfSome, IfNone};
ghost use Rattle.std.specs.BTreeSet.{contains, btree_set_len};
ghost use Rattle.kube_objects.specs.Document.{Doc};
ghost use Rattle.kube_objects.specs.Entry.{Entry, Identity};
ghost use Rattle.kube_objects.specs.Keys.{key_cmp, key_eq};
ghost use Rattle.tick_laws.specs.Judged as judged;
ghost use Rattle.kube_objects.specs.declared.pod.Due.TheVariants.{Never, At};

use crate::Cluster;
use kube_base::{NoMemory, Steps, Wall};
use kube_objects::Key;
use std::collections::BTreeSet;
use std::ops::Bound;

impl Cluster {
    ghost use Rattle.kube_objects.specs.declared.key.Key.{Key};
    ghost use Rattle.term_state.specs.ClusterStands.{ClusterBut, ClusterStands, has_moved, is_unclean_in, no_node, no_pod};
    ghost use Rattle.term_state.specs.Queues.{IsFirstDue, IsNextAfter};
    ghost use Rattle.term_state.specs.Sights.{SettledBy};

    /// The first of the nodes to untaint or swap that comes after this one; none is before all.
    pub fn next_unclean(&self, after: Option<u32>) -> Option<u32>
        ensures kept { IsNextAfter (is_unclean_in self.now) after result }
        ensures dirty { (q : Identity) (h : List Entry) → ClusterStands q h self.now
            → IsNextAfter (λ n. judged.is_dirty q n h) after result }
    {
        match after {
            None => self.unclean.first().copied(),
            Some(name) => self
                .unclean
                .range((Bound::Excluded(name), Bound::Unbounded))
                .next()
                .copied(),
        }
    }

    /// Takes out the pods that are due by now. It counts a step for each, and one more.
    pub fn take_due<L>(
        &mut self,
        now: Wall,
        steps: &mut Steps<L>,
    ) -> Result<BTreeSet<Key>, NoMemory>
        ensures stands { (q : Identity) (h : List Entry) → ClusterStands q h self.old
            → IfOk result (λ todo. ClusterBut q h no_node (λ p. contains key_cmp todo p) self.new) }
        ensures settled { (doc : Doc) (q : Identity) (h : List Entry) → ClusterStands q h self.old
            → self.old.evict_from ≡ doc.settings.rules.evict_from → SettledBy doc.settings.rules.evict_from doc q h no_pod self.old
            → IfOk result (λ todo. SettledBy doc.settings.rules.evict_from doc q h (λ p. contains key_cmp todo p) self.new) }
        ensures due { (doc : Doc) (q : Identity) (h : List Entry) → ClusterStands q h self.old
            → self.old.evict_from ≡ doc.settings.rules.evict_from → SettledBy doc.settings.rules.evict_from doc q h no_pod self.old
            → IfOk result (λ todo. (p : Key) → contains key_cmp todo p ≡ judged.is_by_now now.0 (judged.term_due doc q p h)) }
        ensures moved { (n : ℕ) → has_moved self.new n ≡ has_moved self.old n }
        ensures from { self.new.evict_from ≡ self.old.evict_from }
        ensures counted { IfOk result (λ todo. steps.new ≤ steps.old + (btree_set_len todo + 1)) }
    {
        let mut todo = BTreeSet::new(self.alloc);
        while let Some(pod) = self.dues.next_due(u128::from(now.0), steps) {
            todo.insert(pod)?;
            // It is read, so that it is known to be a usize.
            let _ = todo.len();
        }
        Ok(todo)
    }

    /// Takes out the pod that is due first by now, and of equal ones that with the least key. It counts a step if any pod is due ever.
    pub fn next_due<L>(&mut self, now: Wall, steps: &mut Steps<L>) -> Option<Key>
        ensures stands { (q : Identity) (h : List Entry) (pods : Key → Bool) → ClusterBut q h no_node pods self.old
            → IfSome result (λ pod. ClusterBut q h no_node (λ p. pods p || key_eq pod p) self.new) }
        ensures settled { (doc : Doc) (q : Identity) (h : List Entry) (pods : Key → Bool)
            → SettledBy doc.settings.rules.evict_from doc q h pods self.old
            → IfSome result (λ pod. SettledBy doc.settings.rules.evict_from doc q h (λ p. pods p || key_eq pod p) self.new) }
        ensures first { (doc : Doc) (q : Identity) (h : List Entry) → ClusterStands q h self.old
            → self.old.evict_from ≡ doc.settings.rules.evict_from → SettledBy doc.settings.rules.evict_from doc q h no_pod self.old
            → IfSome result (IsFirstDue doc q h now.0) }
        ensures none { (doc : Doc) (q : Identity) (h : List Entry) → ClusterStands q h self.old
            → self.old.evict_from ≡ doc.settings.rules.evict_from → SettledBy doc.settings.rules.evict_from doc q h no_pod self.old
            → IfNone result ((key : Key) → judged.is_by_now now.0 (judged.term_due doc q key h) ≡ false) }
        ensures kept { (doc : Doc) (q : Identity) (h : List Entry) (pods : Key → Bool) → ClusterBut q h no_node pods self.old
            → SettledBy doc.settings.rules.evict_from doc q h pods self.old
            → IfNone result (ClusterBut q h no_node pods self.new × SettledBy doc.settings.rules.evict_from doc q h pods self.new) }
        ensures moved { (n : ℕ) → has_moved self.new n ≡ has_moved self.old n }
        ensures from { self.new.evict_from ≡ self.old.evict_from }
        ensures counted { steps.new ≤ steps.old + 1 }
    {
        self.dues.next_due(u128::from(now.0), steps)
    }

    /// The least due of the pods that aren't stale, in microseconds since 1970: of those whose node is seen, or of those that have a row; none
    /// exactly if none is due ever.
    pub fn least_due(&self) -> Option<u128>
        ensures there { (doc : Doc) (q : Identity) (h : List Entry) → ClusterStands q h self.now
            → self.now.evict_from ≡ doc.settings.rules.evict_from → SettledBy doc.settings.rules.evict_from doc q h no_pod self.now
            → IfSome result (λ at. (key : Key) × (judged.term_due doc q key h ≡ At at)) }
        ensures least { (doc : Doc) (q : Identity) (h : List Entry) → ClusterStands q h self.now
            → self.now.evict_from ≡ doc.settings.rules.evict_from → SettledBy doc.settings.rules.evict_from doc q h no_pod self.now
            → IfSome result (λ at. (key : Key) (other : ℕ) → judged.term_due doc q key h ≡ At other → at ≤ other) }
        ensures none { (doc : Doc) (q : Identity) (h : List Entry) → ClusterStands q h self.now
            → self.now.evict_from ≡ doc.settings.rules.evict_from → SettledBy doc.settings.rules.evict_from doc q h no_pod self.now
            → IfNone result ((key : Key) → judged.term_due doc q key h ≡ Never) }
    {
        self.dues.least()
    }
}
