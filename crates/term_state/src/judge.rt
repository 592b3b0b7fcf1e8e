// Judging what is seen of a node or a pod.
ghost use Rattle.std.specs.Prelude.{◌≡◌, ◌≤◌, ◌+◌, ◌*◌, ◌==◌, ◌&&◌, ◌||◌, not, ℕ, Bool, true, false, List, length, IfOk, OnOk, if◌then◌else◌};
ghost use Rattle.kube_objects.specs.Entry.{Entry, Identity};
ghost use Rattle.kube_objects.specs.Feeds.{is_among};
ghost use Rattle.kube_objects.specs.Keys.{key_eq};
ghost use Rattle.kube_objects.specs.Seen.{is_synced, seen_pod};
ghost use Rattle.kube_objects.specs.Tainting as tainting;
ghost use Rattle.kube_objects.specs.declared.rules.EvictRule.TheVariants.{Added};
ghost use Rattle.evict_queue.specs.Queue.{due_in};
ghost use Rattle.evict_queue.specs.Rows.{row_in};
ghost use Rattle.tick_laws.specs.Judged as judged;
ghost use Rattle.tick_laws.specs.Steps.{pods_on};
ghost use Rattle.watch_cache.specs.Kept.{is_on};

use crate::Cluster;
use crate::last::{Last, due_again};
use kube_base::{NoMemory, Steps};
use kube_objects::{Due, EvictRule, Key, KeyList, Kind, Node};
use node_taints::{Wants, has_condition, has_opposite, want_of};
use watch_cache::ListFault;

// Whether a node is untainted or swapped; `on` says whether the mode is.
fn is_cleaned(on: bool, node: &Node) -> bool
    ensures { result ≡ judged.cleans (tainting.wants on node.now) node.now }
{
    match want_of(on, node) {
        Wants::Nothing => has_condition(node),
        Wants::Wanted(wanted) => has_opposite(wanted, node),
        Wants::Whatever => false,
    }
}

impl Cluster {
    ghost use Rattle.kube_objects.specs.declared.key.Key.{Key};
    ghost use Rattle.term_state.specs.ClusterStands.{ClusterBut, but_node, but_pod, but_pods, has_moved};
    ghost use Rattle.term_state.specs.Lasts.{AreDue};
    ghost use Rattle.term_state.specs.Sights.{IsRetained, IsTouchedBy, has_touched, spent, touched_len};
    ghost use Rattle.watch_cache.specs.Told.{AreListed};

    // Whether a tick would untaint or swap the node.
    fn is_dirty(&self, name: u32) -> bool
        ensures { (q : Identity) (h : List Entry) (nodes : ℕ → Bool) (pods : Key → Bool) → ClusterBut q h nodes pods self.now
            → is_synced q h ≡ true → result ≡ judged.is_dirty q name h }
    {
        if self.cache.is_stale(&Key::node(name)) {
            return false;
        }
        match self.node(name) {
            None => false,
            Some((_, node)) => is_cleaned(self.mode, node),
        }
    }

    // When the pod is due, as it is seen; by what came of the one judged last, if it is as that.
    fn due<L>(
        &self,
        key: &Key,
        last: &mut Option<(Last, Due)>,
        steps: &mut Steps<L>,
    ) -> Result<Due, NoMemory>
        ensures due { (q : Identity) (h : List Entry) (nodes : ℕ → Bool) (pods : Key → Bool) → ClusterBut q h nodes pods self.now
            → is_synced q h ≡ true → AreDue q h last.old → IfOk result (λ due. due ≡ judged.seen_due q key.now h) }
        ensures last { (q : Identity) (h : List Entry) (nodes : ℕ → Bool) (pods : Key → Bool) → ClusterBut q h nodes pods self.now
            → is_synced q h ≡ true → AreDue q h last.old → OnOk result (AreDue q h last.new) }
        ensures counted { steps.new ≤ steps.old + 1 }
    {
        if key.kind != Kind::Pod || self.cache.is_stale(key) {
            return Ok(Due::Never);
        }
        let Some((_, pod)) = self.pod(key, steps) else {
            return Ok(Due::Never);
        };
        match self.node(pod.node) {
            None => Ok(Due::Never),
            Some((_, node)) => due_again(last, pod, node),
        }
    }

    /// The pod's due is this one.
    pub fn set_due(&mut self, key: Key, due: Due) -> Result<(), NoMemory>
        ensures stands { (q : Identity) (h : List Entry) (nodes : ℕ → Bool) (pods : Key → Bool) → ClusterBut q h nodes pods self.old
            → (self.old.evict_from ≡ Added → due ≡ judged.seen_due q key h) → OnOk result (ClusterBut q h nodes (but_pod key pods) self.new) }
        ensures moved { (n : ℕ) → has_moved self.new n ≡ has_moved self.old n }
        ensures from { self.new.evict_from ≡ self.old.evict_from }
        ensures rows { (p : Key) → row_in self.new.rows p ≡ row_in self.old.rows p }
        ensures dues { OnOk result ((p : Key) → due_in self.new.dues p ≡ (if key_eq key p then due else due_in self.old.dues p)) }
        ensures touched { (p : Key) → has_touched self.new p ≡ has_touched self.old p }
        ensures untouched { touched_len self.new ≡ touched_len self.old }
    {
        self.dues.set(key, due)
    }

    fn set_unclean(&mut self, name: u32, dirty: bool) -> Result<(), NoMemory>
        ensures stands { (q : Identity) (h : List Entry) (nodes : ℕ → Bool) (pods : Key → Bool) → ClusterBut q h nodes pods self.old
            → dirty ≡ judged.is_dirty q name h → OnOk result (ClusterBut q h (but_node name nodes) pods self.new) }
        ensures moved { (n : ℕ) → has_moved self.new n ≡ has_moved self.old n }
        ensures retained { IsRetained self.old self.new }
        ensures touched { (key : Key) → has_touched self.new key ≡ has_touched self.old key }
        ensures untouched { touched_len self.new ≡ touched_len self.old }
    {
        if dirty {
            self.unclean.insert(name)?;
        } else {
            self.unclean.remove(&name);
        }
        Ok(())
    }

    fn set_moved(&mut self, name: u32) -> Result<(), NoMemory>
        ensures stands { (q : Identity) (h : List Entry) (nodes : ℕ → Bool) (pods : Key → Bool) → ClusterBut q h nodes pods self.old
            → OnOk result (ClusterBut q h nodes pods self.new) }
        ensures moved { OnOk result ((n : ℕ) → has_moved self.new n ≡ ((name == n) || has_moved self.old n)) }
        ensures retained { IsRetained self.old self.new }
        ensures touched { (key : Key) → has_touched self.new key ≡ has_touched self.old key }
        ensures untouched { touched_len self.new ≡ touched_len self.old }
    {
        self.moved.insert(name)?;
        Ok(())
    }

    /// Whether the node is among those to untaint or swap is exact again. Pods aren't looked at.
    pub fn judge_node_alone(&mut self, name: u32) -> Result<(), NoMemory>
        ensures stands { (q : Identity) (h : List Entry) (nodes : ℕ → Bool) (pods : Key → Bool) → ClusterBut q h nodes pods self.old
            → is_synced q h ≡ true → OnOk result (ClusterBut q h (but_node name nodes) pods self.new) }
        ensures moved { OnOk result ((n : ℕ) → has_moved self.new n ≡ ((name == n) || has_moved self.old n)) }
        ensures retained { IsRetained self.old self.new }
        ensures touched { (key : Key) → has_touched self.new key ≡ has_touched self.old key }
        ensures untouched { touched_len self.new ≡ touched_len self.old }
    {
        let dirty = self.is_dirty(name);
        self.set_unclean(name, dirty)?;
        self.set_moved(name)
    }

    /// The pod's due is exact again; if dues count from what is seen, it will be once the tick's rows are settled.
    pub fn judge_pod<L>(&mut self, key: Key, steps: &mut Steps<L>) -> Result<(), NoMemory>
        ensures stands { (q : Identity) (h : List Entry) (nodes : ℕ → Bool) (pods : Key → Bool) → ClusterBut q h nodes pods self.old
            → is_synced q h ≡ true → OnOk result (ClusterBut q h nodes (but_pod key pods) self.new) }
        ensures moved { (n : ℕ) → has_moved self.new n ≡ has_moved self.old n }
        ensures retained { OnOk result (IsRetained self.old self.new) }
        ensures touched { OnOk result (IsTouchedBy (λ p. key_eq key p) self.old self.new) }
        ensures counted { OnOk result (spent self.new steps.new ≤ spent self.old steps.old + 1) }
    {
        self.judge_like(key, &mut None, steps)
    }

    // The same, by what came of the pod judged last, if this one is as that.
    fn judge_like<L>(
        &mut self,
        key: Key,
        last: &mut Option<(Last, Due)>,
        steps: &mut Steps<L>,
    ) -> Result<(), NoMemory>
        ensures stands { (q : Identity) (h : List Entry) (nodes : ℕ → Bool) (pods : Key → Bool) → ClusterBut q h nodes pods self.old
            → is_synced q h ≡ true → AreDue q h last.old → OnOk result (ClusterBut q h nodes (but_pod key pods) self.new) }
        ensures last { (q : Identity) (h : List Entry) (nodes : ℕ → Bool) (pods : Key → Bool) → ClusterBut q h nodes pods self.old
            → is_synced q h ≡ true → AreDue q h last.old → OnOk result (AreDue q h last.new) }
        ensures moved { (n : ℕ) → has_moved self.new n ≡ has_moved self.old n }
        ensures retained { OnOk result (IsRetained self.old self.new) }
        ensures touched { OnOk result (IsTouchedBy (λ p. key_eq key p) self.old self.new) }
        ensures counted { OnOk result (spent self.new steps.new ≤ spent self.old steps.old + 1) }
    {
        match self.evict_from {
            EvictRule::Added => {
                let due = self.due(&key, last, steps)?;
                self.set_due(key, due)
            }
            EvictRule::Seen => self.touch(key),
        }
    }

    /// The keys of the pods on a node, each once and in order. Each key counts a step.
    pub fn pods_of<L>(&self, name: u32, steps: &mut Steps<L>) -> Result<KeyList, NoMemory>
        ensures listed { (q : Identity) (h : List Entry) (nodes : ℕ → Bool) (pods : Key → Bool) → ClusterBut q h nodes pods self.now
            → is_synced q h ≡ true → IfOk result (AreListed (λ k. is_on name (seen_pod q k h))) }
        ensures counted { (q : Identity) (h : List Entry) (nodes : ℕ → Bool) (pods : Key → Bool) → ClusterBut q h nodes pods self.now
            → is_synced q h ≡ true → IfOk result (λ keys. steps.new ≤ steps.old + length keys) }
    {
        match self.cache.pods_of(name, steps) {
            Ok(keys) => Ok(keys),
            Err(ListFault::NoMemory) => Err(NoMemory),
            Err(ListFault::NotSynced) => Ok(KeyList::new(self.alloc)),
        }
    }

    // The dues of these pods are exact again.
    fn judge_pods<L>(&mut self, keys: &KeyList, steps: &mut Steps<L>) -> Result<(), NoMemory>
        ensures stands { (q : Identity) (h : List Entry) (nodes : ℕ → Bool) (pods : Key → Bool) → ClusterBut q h nodes pods self.old
            → is_synced q h ≡ true → OnOk result (ClusterBut q h nodes (but_pods keys.now pods) self.new) }
        ensures moved { (n : ℕ) → has_moved self.new n ≡ has_moved self.old n }
        ensures retained { OnOk result (IsRetained self.old self.new) }
        ensures touched { OnOk result (IsTouchedBy (λ p. is_among keys.now p) self.old self.new) }
        ensures counted { OnOk result (spent self.new steps.new ≤ spent self.old steps.old + length keys.now) }
    {
        let mut last = None;
        let mut rest = keys.as_slice();
        while let Some((key, others)) = rest.split_first() {
            self.judge_like(*key, &mut last, steps)?;
            rest = others;
        }
        Ok(())
    }

    /// What follows from the node is exact again: whether it is among those to untaint or swap, and the dues of the pods
    /// on it. It counts two steps for each of these pods, with those that settling their rows counts later.
    pub fn judge_node<L>(&mut self, name: u32, steps: &mut Steps<L>) -> Result<(), NoMemory>
        ensures stands { (q : Identity) (h : List Entry) (nodes : ℕ → Bool) (pods : Key → Bool) → ClusterBut q h nodes pods self.old
            → is_synced q h ≡ true
            → OnOk result (ClusterBut q h (but_node name nodes) (λ p. pods p && not (is_on name (seen_pod q p h))) self.new) }
        ensures moved { OnOk result ((n : ℕ) → has_moved self.new n ≡ ((name == n) || has_moved self.old n)) }
        ensures retained { OnOk result (IsRetained self.old self.new) }
        ensures touched { (q : Identity) (h : List Entry) (nodes : ℕ → Bool) (pods : Key → Bool) → ClusterBut q h nodes pods self.old
            → is_synced q h ≡ true → OnOk result (IsTouchedBy (λ p. is_on name (seen_pod q p h)) self.old self.new) }
        ensures counted { (q : Identity) (h : List Entry) (nodes : ℕ → Bool) (pods : Key → Bool) → ClusterBut q h nodes pods self.old
            → is_synced q h ≡ true → OnOk result (spent self.new steps.new ≤ spent self.old steps.old + 2 * pods_on q name h) }
    {
        self.judge_node_alone(name)?;
        let keys = self.pods_of(name, steps)?;
        self.judge_pods(&keys, steps)
    }
}
