// What an own try changes, and the mode.
ghost use Rattle.std.specs.Prelude.{◌≡◌, ◌≤◌, ◌+◌, ◌*◌, ◌==◌, ◌||◌, ℕ, Bool, true, false, List, Some, None, OnOk, if◌then◌else◌};
ghost use Rattle.kube_objects.specs.Document.{Doc};
ghost use Rattle.kube_objects.specs.Entry.{Entry, Identity};
ghost use Rattle.kube_objects.specs.Keys.{key_eq};
ghost use Rattle.kube_objects.specs.Newest.{has};
ghost use Rattle.kube_objects.specs.Seen.{is_pod, is_synced, seen_node, seen_pod};
ghost use Rattle.kube_objects.specs.Stored as stored_words;
ghost use Rattle.kube_objects.specs.Tainting.{before_tick};
ghost use Rattle.kube_objects.specs.declared.pod.Due.TheVariants.{Never};
ghost use Rattle.evict_queue.specs.Queue.{due_in};
ghost use Rattle.evict_queue.specs.Rows.{row_in};
ghost use Rattle.tick_laws.specs.Changes.{IsChange, IsModeChange, gone, noted};
ghost use Rattle.tick_laws.specs.Steps.{pods_on};
ghost use Rattle.tick_laws.specs.ToJudge.{seen_taints};
ghost use Rattle.watch_cache.specs.Kept.{is_on};
ghost use Rattle.watch_cache.specs.TaintChanges.{taints_in};
ghost use Rattle.watch_cache.specs.Stands.{kept_in};

use crate::Cluster;
use kube_base::{NoMemory, Steps, Version};
use kube_objects::{Key, Node, Object};

impl Cluster {
    ghost use Rattle.kube_objects.specs.declared.key.Key.{Key};
    ghost use Rattle.term_state.specs.ClusterStands.{ClusterBut, ClusterStands, but_pod, has_moved, no_node, no_pod};
    ghost use Rattle.term_state.specs.MidTick.{IsMoved};
    ghost use Rattle.term_state.specs.Sights.{IsRetained, SightedBy, has_touched, spent, touched_len};

    /// The node is seen as it was written. It counts at most two steps for each pod on the node, with those that settling their rows counts later,
    /// and none if its taints are as they were.
    pub fn note_node<L>(
        &mut self,
        name: u32,
        version: Version,
        written: Node,
        steps: &mut Steps<L>,
    ) -> Result<(), NoMemory>
        ensures stands { (q : Identity) (h g : List Entry) → ClusterStands q h self.old → is_synced q h ≡ true
            → IsChange q h g (noted name version written) None → OnOk result (ClusterStands q g self.new) }
        ensures moved { (q : Identity) (k : ℕ) (h g : List Entry) → IsMoved q k h self.old → before_tick q k g ≡ before_tick q k h
            → IsChange q h g (noted name version written) None → OnOk result (IsMoved q k g self.new) }
        ensures sights { (doc : Doc) (q : Identity) (k : ℕ) (h g : List Entry) → ClusterStands q h self.old → is_synced q h ≡ true
            → IsChange q h g (noted name version written) None → before_tick q k g ≡ before_tick q k h → has (seen_node q name h) ≡ true
            → SightedBy self.old.evict_from doc k q h self.old → OnOk result (SightedBy self.old.evict_from doc k q g self.new) }
        ensures retained { OnOk result (IsRetained self.old self.new) }
        ensures counted { (q : Identity) (h g : List Entry) → ClusterStands q h self.old → is_synced q h ≡ true
            → IsChange q h g (noted name version written) None
            → OnOk result (spent self.new steps.new ≤ spent self.old steps.old + 2 * pods_on q name g) }
        ensures uncounted { (q : Identity) (h : List Entry) → ClusterStands q h self.old → seen_taints q name h ≡ written.taints
            → OnOk result (spent self.new steps.new ≡ spent self.old steps.old) }
    {
        let taints = written.taints.as_slice();
        let has_new_taints = self.cache.has_other_taints(&Key::node(name), taints);
        self.write_node(name, version, written)?;
        if has_new_taints {
            return self.judge_node(name, steps);
        }
        self.judge_node_alone(name)
    }

    // The cache has the node as it was written; nothing is judged.
    fn write_node(&mut self, name: u32, version: Version, written: Node) -> Result<(), NoMemory>
        ensures stands { (q : Identity) (h g : List Entry) → ClusterStands q h self.old
            → IsChange q h g (noted name version written) None
            → OnOk result (ClusterBut q g (λ n. name == n) (λ p. is_on name (seen_pod q p g)) self.new) }
        ensures alone { (q : Identity) (h g : List Entry) → ClusterStands q h self.old
            → IsChange q h g (noted name version written) None
            → taints_in (kept_in self.old.cache (stored_words.node_key name)) ≡ written.taints
            → OnOk result (ClusterBut q g (λ n. name == n) no_pod self.new) }
        ensures moved { (n : ℕ) → has_moved self.new n ≡ has_moved self.old n }
        ensures retained { IsRetained self.old self.new }
        ensures touched { (key : Key) → has_touched self.new key ≡ has_touched self.old key }
        ensures untouched { touched_len self.new ≡ touched_len self.old }
    {
        let object = Object::Node(written);
        self.cache
            .note_own(Key::node(name), Some((version, object)))
    }

    /// The node is stale until the next sync, and isn't among those to untaint or swap. Pods aren't looked at.
    pub fn refuse_node(&mut self, name: u32) -> Result<(), NoMemory>
        ensures stands { (q : Identity) (h g : List Entry) → ClusterStands q h self.old
            → IsChange q h g None (Some (stored_words.node_key name)) → OnOk result (ClusterStands q g self.new) }
        ensures moved { (q : Identity) (k : ℕ) (h g : List Entry) → IsMoved q k h self.old → before_tick q k g ≡ before_tick q k h
            → IsChange q h g None (Some (stored_words.node_key name)) → OnOk result (IsMoved q k g self.new) }
        ensures retained { IsRetained self.old self.new }
        ensures touched { (key : Key) → has_touched self.new key ≡ has_touched self.old key }
        ensures untouched { touched_len self.new ≡ touched_len self.old }
    {
        self.cache.set_stale(Key::node(name))?;
        self.unclean.remove(&name);
        Ok(())
    }

    /// The pod is no longer seen, and due never; its row ends.
    pub fn note_delete(&mut self, pod: Key) -> Result<(), NoMemory>
        ensures stands { (q : Identity) (h g : List Entry) (pods : Key → Bool) → ClusterBut q h no_node pods self.old
            → IsChange q h g (gone pod) None → is_pod pod.kind ≡ true → OnOk result (ClusterBut q g no_node (but_pod pod pods) self.new) }
        ensures moved { (n : ℕ) → has_moved self.new n ≡ has_moved self.old n }
        ensures from { self.new.evict_from ≡ self.old.evict_from }
        ensures rows { OnOk result ((p : Key) → row_in self.new.rows p ≡ (if key_eq pod p then None else row_in self.old.rows p)) }
        ensures dues { OnOk result ((p : Key) → due_in self.new.dues p ≡ (if key_eq pod p then Never else due_in self.old.dues p)) }
        ensures touched { (p : Key) → has_touched self.new p ≡ has_touched self.old p }
        ensures untouched { touched_len self.new ≡ touched_len self.old }
    {
        self.cache.note_own(pod, None)?;
        self.dues.cancel(&pod);
        self.rows.end(&pod);
        Ok(())
    }

    /// The pod is stale until the next sync, and due never until then. Its row goes on.
    pub fn refuse_pod(&mut self, pod: Key) -> Result<(), NoMemory>
        ensures stands { (q : Identity) (h g : List Entry) (pods : Key → Bool) → ClusterBut q h no_node pods self.old
            → IsChange q h g None (Some pod) → is_pod pod.kind ≡ true → OnOk result (ClusterBut q g no_node (but_pod pod pods) self.new) }
        ensures moved { (n : ℕ) → has_moved self.new n ≡ has_moved self.old n }
        ensures from { self.new.evict_from ≡ self.old.evict_from }
        ensures rows { (p : Key) → row_in self.new.rows p ≡ row_in self.old.rows p }
        ensures dues { OnOk result ((p : Key) → due_in self.new.dues p ≡ (if key_eq pod p then Never else due_in self.old.dues p)) }
        ensures touched { (p : Key) → has_touched self.new p ≡ has_touched self.old p }
        ensures untouched { touched_len self.new ≡ touched_len self.old }
    {
        self.cache.set_stale(pod)?;
        self.dues.cancel(&pod);
        Ok(())
    }

    /// The mode in which every zone is disrupted begins or ends. Each node is judged again.
    pub fn set_mode(&mut self, on: bool) -> Result<(), NoMemory>
        ensures stands { (q : Identity) (h g : List Entry) → ClusterStands q h self.old → is_synced q h ≡ true → IsModeChange q h g on
            → OnOk result (ClusterStands q g self.new) }
        ensures moved { (q : Identity) (k : ℕ) (h g : List Entry) → ClusterStands q h self.old → is_synced q h ≡ true
            → IsMoved q k h self.old → before_tick q k g ≡ before_tick q k h → IsModeChange q h g on
            → OnOk result (IsMoved q k g self.new) }
        ensures sights { (doc : Doc) (q : Identity) (k : ℕ) (h g : List Entry) → IsModeChange q h g on
            → before_tick q k g ≡ before_tick q k h → SightedBy self.old.evict_from doc k q h self.old
            → OnOk result (SightedBy self.old.evict_from doc k q g self.new) }
        ensures retained { OnOk result (IsRetained self.old self.new) }
        ensures untouched { OnOk result (touched_len self.new ≡ touched_len self.old) }
    {
        self.mode = on;
        self.judge_nodes()
    }

    // Each node that is seen is judged again. Pods aren't looked at.
    fn judge_nodes(&mut self) -> Result<(), NoMemory>
        ensures stands { (q : Identity) (h : List Entry) → ClusterBut q h (λ n. has (seen_node q n h)) no_pod self.old
            → is_synced q h ≡ true
            → OnOk result (ClusterStands q h self.new) }
        ensures moved { (q : Identity) (h : List Entry) → ClusterBut q h (λ n. has (seen_node q n h)) no_pod self.old → is_synced q h ≡ true
            → OnOk result ((n : ℕ) → has_moved self.new n ≡ (has (seen_node q n h) || has_moved self.old n)) }
        ensures retained { OnOk result (IsRetained self.old self.new) }
        ensures touched { OnOk result ((key : Key) → has_touched self.new key ≡ has_touched self.old key) }
        ensures untouched { OnOk result (touched_len self.new ≡ touched_len self.old) }
    {
        let names = self.nodes()?;
        let mut rest = names.as_slice();
        while let Some((name, others)) = rest.split_first() {
            self.judge_node_alone(*name)?;
            rest = others;
        }
        Ok(())
    }
}
