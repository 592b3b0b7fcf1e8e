// The rows of ticks at which pods have to go, if their dues count from what is seen.
ghost use Rattle.std.specs.Prelude.{◌≡◌, ◌≤◌, ◌+◌, ◌||◌, ℕ, Bool, true, false, List, IfOk, OnOk};
ghost use Rattle.kube_objects.specs.Clocks.{wall as wall_in};
ghost use Rattle.kube_objects.specs.Document.{Doc};
ghost use Rattle.kube_objects.specs.Entry.{Entry, Identity};
ghost use Rattle.kube_objects.specs.Keys.{key_eq};
ghost use Rattle.kube_objects.specs.Seen.{is_synced};
ghost use Rattle.kube_objects.specs.Sightings as sightings;
ghost use Rattle.kube_objects.specs.declared.rules.EvictRule.TheVariants.{Seen};

use crate::Cluster;
use crate::last::{Last, bears_again};
use evict_queue::{Row, next_row};
use kube_base::{NoMemory, Steps, Wall};
use kube_objects::{Bears, Due, EvictRule, Key};

impl Cluster {
    ghost use Rattle.kube_objects.specs.declared.key.Key.{Key};
    ghost use Rattle.evict_queue.specs.Rows.{IsInReach};
    ghost use Rattle.term_state.specs.ClusterStands.{ClusterBut, ClusterStands, has_moved, no_pod};
    ghost use Rattle.term_state.specs.Lasts.{AreBorne, AreBounded};
    ghost use Rattle.term_state.specs.Sights.{IsRetained, IsSightKept, SetsRow, SettledBy, SightedBy, due_if_fresh, has_touched, is_by_sight, spent, touched_len};
    ghost use Rattle.watch_cache.specs.Stands.{stale_in};

    // Whether dues count from what is seen.
    pub(crate) fn keeps_rows(&self) -> bool
        ensures { result ≡ is_by_sight self.now.evict_from }
    {
        match self.evict_from {
            EvictRule::Added => false,
            EvictRule::Seen => true,
        }
    }

    // The tick may see otherwise how long the pod bears its node's taints.
    pub(crate) fn touch(&mut self, pod: Key) -> Result<(), NoMemory>
        ensures stands { (q : Identity) (h : List Entry) (nodes : ℕ → Bool) (pods : Key → Bool) → ClusterBut q h nodes pods self.old
            → OnOk result (ClusterBut q h nodes pods self.new) }
        ensures retained { IsRetained self.old self.new }
        ensures touched { OnOk result ((key : Key) → has_touched self.new key ≡ (key_eq pod key || has_touched self.old key)) }
        ensures moved { (n : ℕ) → has_moved self.new n ≡ has_moved self.old n }
        ensures counted { OnOk result (touched_len self.new ≤ touched_len self.old + 1) }
    {
        self.touched.insert(pod)?;
        Ok(())
    }

    /// The rows are as the tick's end leaves them, and so are the dues by them: each pod that was touched has its row, and is due by it. It counts a
    /// step for each. If dues count from the stored taints, nothing is touched.
    pub fn settle_rows<L>(&mut self, wall: Wall, steps: &mut Steps<L>) -> Result<(), NoMemory>
        ensures stands { (doc : Doc) (k : ℕ) (q : Identity) (h : List Entry) → ClusterStands q h self.old
            → self.old.evict_from ≡ doc.settings.rules.evict_from → SightedBy doc.settings.rules.evict_from doc k q h self.old
            → OnOk result (ClusterStands q h self.new) }
        ensures settled { (doc : Doc) (k : ℕ) (q : Identity) (h : List Entry) → ClusterStands q h self.old → is_synced q h ≡ true
            → self.old.evict_from ≡ doc.settings.rules.evict_from → SightedBy doc.settings.rules.evict_from doc k q h self.old
            → IsSightKept q k h → wall.0 ≡ wall_in doc q.process k
            → OnOk result (SettledBy doc.settings.rules.evict_from doc q h no_pod self.new) }
        ensures moved { (n : ℕ) → has_moved self.new n ≡ has_moved self.old n }
        ensures from { self.new.evict_from ≡ self.old.evict_from }
        ensures counted { OnOk result (spent self.new steps.new ≤ spent self.old steps.old) }
    {
        let mut last = None;
        while let Some(pod) = self.touched.pop_first() {
            let sight = self.sight(&pod, &mut last, steps)?;
            let row = next_row(self.rows.get(&pod), sight, wall);
            self.set_row(pod, row)?;
        }
        Ok(())
    }

    // How long the pod bears the taints of its node, as both are seen; none if its node isn't. Who isn't seen has none to bear. It goes by
    // what came of the pod looked at last, if it is as that.
    fn sight<L>(
        &self,
        pod: &Key,
        last: &mut Option<(Last, Bears)>,
        steps: &mut Steps<L>,
    ) -> Result<Option<Bears>, NoMemory>
        ensures seen { (q : Identity) (h : List Entry) (nodes : ℕ → Bool) (pods : Key → Bool) → ClusterBut q h nodes pods self.now
            → is_synced q h ≡ true → AreBorne q h last.old → IfOk result (λ sight. sight ≡ sightings.sight q pod.now h) }
        ensures last { (q : Identity) (h : List Entry) (nodes : ℕ → Bool) (pods : Key → Bool) → ClusterBut q h nodes pods self.now
            → is_synced q h ≡ true → AreBorne q h last.old → OnOk result (AreBorne q h last.new) }
        ensures reach { AreBounded last.old → IfOk result IsInReach }
        ensures bounded { AreBounded last.old → OnOk result (AreBounded last.new) }
        ensures counted { steps.new ≤ steps.old + 1 }
    {
        let Some((_, pod)) = self.pod(pod, steps) else {
            return Ok(Some(Bears::Untainted));
        };
        match self.node(pod.node) {
            None => Ok(None),
            Some((_, node)) => {
                let bears = bears_again(last, pod, node)?;
                Ok(Some(bears))
            }
        }
    }

    // The pod has this row, and is due by it.
    fn set_row(&mut self, pod: Key, row: Option<Row>) -> Result<(), NoMemory>
        ensures sets { OnOk result (SetsRow pod row self.old self.new) }
        ensures stands { (q : Identity) (h : List Entry) (nodes : ℕ → Bool) (pods : Key → Bool) → ClusterBut q h nodes pods self.old
            → self.old.evict_from ≡ Seen → OnOk result (ClusterBut q h nodes pods self.new) }
        ensures moved { (n : ℕ) → has_moved self.new n ≡ has_moved self.old n }
        ensures from { self.new.evict_from ≡ self.old.evict_from }
        ensures counted { touched_len self.new ≡ touched_len self.old }
    {
        self.rows.set(pod, row)?;
        let due = self.due_by(&pod, row);
        self.dues.set(pod, due)
    }

    // When the pod is due by a row; a stale one is due never.
    fn due_by(&self, pod: &Key, row: Option<Row>) -> Due
        ensures { result ≡ due_if_fresh (stale_in self.now.cache pod.now) row }
    {
        if self.cache.is_stale(pod) {
            return Due::Never;
        }
        match row {
            None => Due::Never,
            Some(row) => Due::At(row.due),
        }
    }
}
