// The cluster as a term sees it.
ghost use Rattle.std.specs.Prelude.{◌≡◌, ◌≤◌, ◌+◌, ℕ, Bool, true, false, List, IfOk};
ghost use Rattle.kube_objects.specs.Answers.{as_kind, lease_in};
ghost use Rattle.kube_objects.specs.Document.{Doc};
ghost use Rattle.kube_objects.specs.Entry.{Entry, Identity};
ghost use Rattle.kube_objects.specs.Modes as modes;
ghost use Rattle.kube_objects.specs.Newest.{has};
ghost use Rattle.kube_objects.specs.Seen.{is_synced, seen, seen_node, seen_pod};
ghost use Rattle.kube_objects.specs.Seen as seen_words;
ghost use Rattle.kube_objects.specs.Stored as stored_words;
ghost use Rattle.std.specs.List.Sorted.{IsStrictlySortedBy};
ghost use Rattle.std.specs.Ordering.{nat_cmp};
ghost use Rattle.tick_laws.specs.Judged as judged;

use evict_queue::{EvictQueue, Rows};
use kube_base::{NoMemory, Steps, Version};
use kube_objects::{EvictRule, Key, Lease, Node, NumberList, Pod};
use std::alloc::Global;
use std::collections::BTreeSet;
use watch_cache::{Cache, ListFault, NotSynced};

/// The cluster as a term sees it, and what follows from that: the nodes to untaint or swap, and when pods are due.
///
/// `moved` has the nodes that may begin or end to wait for a taint since it was emptied last. If dues count from what is seen, `touched`
/// has the pods of which a tick may see otherwise how long they bear their nodes' taints, until their rows are settled. After `NoMemory` of a
/// call that changes it, a cluster may only be dropped.
#[derive(Drop)]
pub struct Cluster {
    pub(crate) alloc: Global,
    pub(crate) cache: Cache,
    pub(crate) mode: bool,
    pub(crate) unclean: BTreeSet<u32>,
    pub(crate) dues: EvictQueue,
    pub(crate) moved: BTreeSet<u32>,
    pub(crate) evict_from: EvictRule,
    pub(crate) rows: Rows,
    pub(crate) touched: BTreeSet<Key>,
}

impl Cluster {
    ghost use Rattle.kube_objects.specs.declared.key.Key.{Key};
    ghost use Rattle.watch_cache.specs.Stands.{ticks};
    ghost use Rattle.watch_cache.specs.Told.{AreNamed, found_pair};
    ghost use Rattle.term_state.specs.ClusterStands.{ClusterBut, ClusterStands, has_moved, no_pod};
    ghost use Rattle.term_state.specs.Sights.{SettledBy, touched_len};

    /// The cluster of a term that begins. It has had no sync. Takes no memory.
    pub fn new(alloc: Global, evict_from: EvictRule) -> Cluster
        ensures stands { (q : Identity) (h : List Entry) → ticks q h ≡ 0 → ClusterStands q h result }
        ensures sights { (doc : Doc) (q : Identity) (h : List Entry) → ticks q h ≡ 0 → SettledBy evict_from doc q h no_pod result }
        ensures moved { (n : ℕ) → has_moved result n ≡ false }
        ensures from { result.evict_from ≡ evict_from }
        ensures none { touched_len result ≡ 0 }
    {
        Cluster {
            alloc,
            cache: Cache::new(alloc),
            mode: false,
            unclean: BTreeSet::new(alloc),
            dues: EvictQueue::new(alloc),
            moved: BTreeSet::new(alloc),
            evict_from,
            rows: Rows::new(alloc),
            touched: BTreeSet::new(alloc),
        }
    }

    /// Whether the mode in which every zone is disrupted is on.
    pub fn mode(&self) -> bool
        ensures { (q : Identity) (h : List Entry) (nodes : ℕ → Bool) (pods : Key → Bool) → ClusterBut q h nodes pods self.now
            → result ≡ modes.mode q h }
    {
        self.mode
    }

    /// The node of that name, with its version.
    pub fn node(&self, name: u32) -> Option<(Version, &Node)>
        ensures { (q : Identity) (h : List Entry) (nodes : ℕ → Bool) (pods : Key → Bool) → ClusterBut q h nodes pods self.now
            → is_synced q h ≡ true → found_pair result ≡ seen_node q name h }
    {
        match self.cache.node(name) {
            Ok(found) => found,
            Err(NotSynced) => None,
        }
    }

    /// Whether the node of that name is stale: a try to untaint or swap it was refused since the last sync.
    pub fn is_stale(&self, name: u32) -> bool
        ensures { (q : Identity) (h : List Entry) (nodes : ℕ → Bool) (pods : Key → Bool) → ClusterBut q h nodes pods self.now
            → result ≡ seen_words.is_stale q (stored_words.node_key name) h }
    {
        self.cache.is_stale(&Key::node(name))
    }

    /// Whether the next tick untaints or swaps this node, if nothing changes before.
    pub fn is_unclean_at(&self, name: u32) -> bool
        ensures { (q : Identity) (h : List Entry) → ClusterStands q h self.now → result ≡ judged.is_dirty q name h }
    {
        self.unclean.contains(&name)
    }

    /// The Lease under a key, with its version.
    pub fn lease(&self, key: &Key) -> Option<(Version, &Lease)>
        ensures { (q : Identity) (h : List Entry) (nodes : ℕ → Bool) (pods : Key → Bool) → ClusterBut q h nodes pods self.now
            → is_synced q h ≡ true → found_pair result ≡ as_kind lease_in (seen q key.now h) }
    {
        match self.cache.lease(key) {
            Ok(found) => found,
            Err(NotSynced) => None,
        }
    }

    /// The pod under a key, with its version. It counts a step.
    pub fn pod<L>(&self, key: &Key, steps: &mut Steps<L>) -> Option<(Version, &Pod)>
        ensures seen { (q : Identity) (h : List Entry) (nodes : ℕ → Bool) (pods : Key → Bool) → ClusterBut q h nodes pods self.now
            → is_synced q h ≡ true → found_pair result ≡ seen_pod q key.now h }
        ensures counted { steps.new ≤ steps.old + 1 }
    {
        match self.cache.pod(key, steps) {
            Ok(found) => found,
            Err(NotSynced) => None,
        }
    }

    /// The names of the nodes, each once and in order.
    pub fn nodes(&self) -> Result<NumberList, NoMemory>
        ensures named { (q : Identity) (h : List Entry) (nodes : ℕ → Bool) (pods : Key → Bool) → ClusterBut q h nodes pods self.now
            → is_synced q h ≡ true → IfOk result (AreNamed (λ n. has (seen_node q n h))) }
        ensures ascend { IfOk result (IsStrictlySortedBy nat_cmp) }
    {
        match self.cache.nodes() {
            Ok(names) => Ok(names),
            Err(ListFault::NoMemory) => Err(NoMemory),
            Err(ListFault::NotSynced) => Ok(NumberList::new(self.alloc)),
        }
    }

    /// Whether the next tick has an untaint or a swap, if nothing changes before.
    pub fn is_unclean(&self) -> bool
        ensures none { (q : Identity) (h : List Entry) → ClusterStands q h self.now → result ≡ false → (n : ℕ)
            → judged.is_dirty q n h ≡ false }
        ensures some { (q : Identity) (h : List Entry) → ClusterStands q h self.now → result ≡ true
            → (n : ℕ) × (judged.is_dirty q n h ≡ true) }
    {
        match self.unclean.first() {
            None => false,
            Some(_) => true,
        }
    }
}
