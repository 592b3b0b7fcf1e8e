// What a sync takes over.
ghost use Rattle.std.specs.Prelude.{◌≡◌, ◌≤◌, ◌+◌, ◌⊎◌, ℕ, true, false, List, length, IfOk, OnOk};
ghost use Rattle.std.specs.BTreeSet.{contains};
ghost use Rattle.std.specs.Ordering.{nat_cmp};
ghost use Rattle.kube_objects.specs.Entry.{Entry, Identity, Sync};
ghost use Rattle.kube_objects.specs.Feeds.{is_among};
ghost use Rattle.kube_objects.specs.Seen as seen_words;
ghost use Rattle.kube_objects.specs.Stored.{node_key};
ghost use Rattle.kube_objects.specs.Tick.{add};
ghost use Rattle.kube_objects.specs.declared.rules.EvictRule.TheVariants.{Seen};
ghost use Rattle.object_store.specs.Stands.{StoreStands};
ghost use Rattle.tick_laws.specs.Since.{AreReached, keys_since};
ghost use Rattle.tick_laws.specs.ToJudge.{is_back, is_to_judge};

use crate::Cluster;
use kube_base::{NoMemory, Steps};
use kube_objects::Feed;
use object_store::Store;
use std::collections::BTreeSet;

impl Cluster {
    ghost use Rattle.kube_objects.specs.declared.key.Key.{Key};
    ghost use Rattle.watch_cache.specs.Stands.{position_in, synced_writes};
    ghost use Rattle.term_state.specs.ClusterStands.{ClusterBut, ClusterStands, has_moved};
    ghost use Rattle.term_state.specs.Sights.{IsAlike, IsRetained, has_touched, touched_len};
    ghost use Rattle.term_state.specs.Taking.{is_open};

    /// How many writes the store had had at the last sync; 0 before the first.
    pub fn position(&self) -> u64
        ensures { (q : Identity) (h : List Entry) → ClusterStands q h self.now → result ≡ synced_writes q h }
    {
        self.cache.position()
    }

    /// Whether there was a sync.
    pub fn is_synced(&self) -> bool
        ensures { (q : Identity) (h : List Entry) → ClusterStands q h self.now → result ≡ seen_words.is_synced q h }
    {
        self.cache.is_synced()
    }

    /// Takes over what was written since the last sync, and judges nothing. Each write counts a step. It returns the nodes
    /// whose pods are to be judged: those that were written and whose taints changed, if dues count from what is seen those too that weren't
    /// there, or all that were written if a key was stale.
    pub fn take_over<L>(
        &mut self,
        store: &Store,
        steps: &mut Steps<L>,
    ) -> Result<BTreeSet<u32>, NoMemory>
        ensures stands { (q : Identity) (k : ℕ) (h : List Entry) → ClusterStands q h self.old → StoreStands h store.now → AreReached q h
            → IfOk result (λ names. ClusterBut q (add k q Sync h) (λ n. is_among (keys_since q h) (node_key n))
            (is_open q (add k q Sync h) (keys_since q h) (contains nat_cmp names)) self.new) }
        ensures judged { (q : Identity) (k : ℕ) (h : List Entry) → ClusterStands q h self.old → StoreStands h store.now
            → IfOk result (λ names. (n : ℕ) → contains nat_cmp names n ≡ true
            → (is_among (keys_since q h) (node_key n) ≡ true)
            × ((is_to_judge q h (add k q Sync h) n ≡ true) ⊎ (is_back self.old.evict_from q h (add k q Sync h) n ≡ true))) }
        ensures untouched { (q : Identity) (k : ℕ) (h : List Entry) → ClusterStands q h self.old → StoreStands h store.now → AreReached q h
            → self.old.evict_from ≡ Seen → IfOk result (λ names. (key : Key)
            → is_open q (add k q Sync h) (keys_since q h) (contains nat_cmp names) key ≡ false → IsAlike q h (add k q Sync h) key) }
        ensures moved { (n : ℕ) → has_moved self.new n ≡ has_moved self.old n }
        ensures retained { IsRetained self.old self.new }
        ensures touched { (key : Key) → has_touched self.new key ≡ has_touched self.old key }
        ensures untouched_len { touched_len self.new ≡ touched_len self.old }
        ensures counted { (q : Identity) (h : List Entry) → ClusterStands q h self.old → StoreStands h store.now
            → OnOk result (steps.new ≤ steps.old + length (keys_since q h)) }
    {
        let position = self.cache.position();
        if position > store.changes() {
            return Ok(BTreeSet::new(self.alloc));
        }
        let since = store.since(position);
        let names = self
            .cache
            .nodes_to_judge(self.alloc, self.keeps_rows(), &since)?;
        self.cache.sync_since(&since, steps)?;
        Ok(names)
    }
}
