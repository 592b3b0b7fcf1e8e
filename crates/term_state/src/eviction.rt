// What a tick has to know to evict a pod.
ghost use Rattle.std.specs.Prelude.{◌≡◌, ◌≤◌, ◌+◌, ℕ, Bool, true, false, List, IfSome, IfNone};
ghost use Rattle.kube_objects.specs.Document.{Doc};
ghost use Rattle.kube_objects.specs.Entry.{Entry, Identity};
ghost use Rattle.kube_objects.specs.Seen.{is_synced};
ghost use Rattle.kube_objects.specs.declared.rules.EvictRule.TheVariants.{Seen};
ghost use Rattle.tick_laws.specs.Judged as judged;

use crate::Cluster;
use kube_base::{Steps, Version, Wall};
use kube_objects::{Due, EvictRule, Key};
use taint_match::due;

/// A pod that is due: its version, its node with its version if the delete names it, and when the pod was due.
#[derive(Clone, Copy, Debug, PartialEq, Eq)]
pub struct Eviction {
    pub given: Version,
    pub node: Option<(u32, Version)>,
    pub due: Wall,
}

impl Cluster {
    ghost use Rattle.kube_objects.specs.declared.key.Key.{Key};
    ghost use Rattle.term_state.specs.ClusterStands.{ClusterBut};
    ghost use Rattle.term_state.specs.Evictions.{IsEviction, IsEvictionBy, IsRowEviction};
    ghost use Rattle.term_state.specs.Sights.{SettledBy};

    /// How the pod is evicted, if it is due by now as it is seen. It counts a step.
    pub fn eviction<L>(&self, key: &Key, now: Wall, steps: &mut Steps<L>) -> Option<Eviction>
        ensures some { (doc : Doc) (q : Identity) (h : List Entry) (nodes : ℕ → Bool) (pods : Key → Bool) → ClusterBut q h nodes pods self.now
            → self.now.evict_from ≡ doc.settings.rules.evict_from → SettledBy doc.settings.rules.evict_from doc q h pods self.now
            → is_synced q h ≡ true → IfSome result (IsEvictionBy doc.settings.rules.evict_from doc q h key.now) }
        ensures none { (doc : Doc) (q : Identity) (h : List Entry) (nodes : ℕ → Bool) (pods : Key → Bool) → ClusterBut q h nodes pods self.now
            → self.now.evict_from ≡ doc.settings.rules.evict_from → SettledBy doc.settings.rules.evict_from doc q h pods self.now
            → is_synced q h ≡ true → IfNone result (judged.is_by_now now.0 (judged.term_due doc q key.now h) ≡ false) }
        ensures counted { steps.new ≤ steps.old + 1 }
    {
        match self.evict_from {
            EvictRule::Added => self.eviction_on_node(key, now, steps),
            EvictRule::Seen => self.eviction_by_row(key, now, steps),
        }
    }

    // By the stored taints of its node.
    fn eviction_on_node<L>(&self, key: &Key, now: Wall, steps: &mut Steps<L>) -> Option<Eviction>
        ensures some { (q : Identity) (h : List Entry) (nodes : ℕ → Bool) (pods : Key → Bool) → ClusterBut q h nodes pods self.now
            → is_synced q h ≡ true → IfSome result (IsEviction q h key.now) }
        ensures none { (q : Identity) (h : List Entry) (nodes : ℕ → Bool) (pods : Key → Bool) → ClusterBut q h nodes pods self.now
            → is_synced q h ≡ true → IfNone result (judged.is_by_now now.0 (judged.seen_due q key.now h) ≡ false) }
        ensures counted { steps.new ≤ steps.old + 1 }
    {
        let (given, pod) = self.pod(key, steps)?;
        let (node_given, node) = self.node(pod.node)?;
        match due(pod, node) {
            Due::Never => None,
            Due::At(at) => {
                if u128::from(now.0) < at {
                    return None;
                }
                Some(Eviction {
                    given,
                    node: Some((pod.node, node_given)),
                    due: Wall(at as u64),
                })
            }
        }
    }

    // By its row.
    fn eviction_by_row<L>(&self, key: &Key, now: Wall, steps: &mut Steps<L>) -> Option<Eviction>
        ensures some { (doc : Doc) (q : Identity) (h : List Entry) (nodes : ℕ → Bool) (pods : Key → Bool) → ClusterBut q h nodes pods self.now
            → SettledBy Seen doc q h pods self.now → is_synced q h ≡ true → IfSome result (IsRowEviction doc q h key.now) }
        ensures none { (doc : Doc) (q : Identity) (h : List Entry) (nodes : ℕ → Bool) (pods : Key → Bool) → ClusterBut q h nodes pods self.now
            → SettledBy Seen doc q h pods self.now → is_synced q h ≡ true
            → IfNone result (judged.is_by_now now.0 (judged.due_by Seen doc q key.now h) ≡ false) }
        ensures counted { steps.new ≤ steps.old + 1 }
    {
        let (given, _) = self.pod(key, steps)?;
        let row = self.rows.get(key)?;
        if u128::from(now.0) < row.due {
            return None;
        }
        Some(Eviction {
            given,
            node: None,
            due: Wall(row.due as u64),
        })
    }
}
