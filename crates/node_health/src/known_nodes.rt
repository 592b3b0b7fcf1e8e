// The nodes of which something is kept.
ghost use Rattle.std.specs.Prelude.{◌≡◌, ◌==◌, ℕ, None, Some, IsOk, OnOk, OnErr, IsSome, option_map, if◌then◌else◌};
ghost use Rattle.kube_objects.specs.Stored as stored;
ghost use Rattle.node_health.specs.Named.{AreNamed};

use crate::known::Known;
use crate::listed::{forget_unlisted, list_anew, reset_listed};
use key_map::KeyMap;
use kube_base::{Local, NoMemory};
use kube_objects::Key;
use std::alloc::Global;

/// What is kept of nodes, by the numbers of their names. To look at one costs the same however many there are. The names are listed
/// beside, so that all can be gone through.
#[derive(Drop)]
pub(crate) struct KnownNodes {
    map: KeyMap<Known>,
    names: Vec<u32>,
    ghost named: { AreNamed names.items map },
}

impl KnownNodes {
    ghost use Rattle.node_health.specs.Kept.{at_reading, is_listed, known_at};

    /// No node is known. Takes no memory.
    pub(crate) fn new(alloc: Global) -> KnownNodes
        ensures { (node : ℕ) → known_at result node ≡ None }
    {
        KnownNodes {
            map: KeyMap::new(alloc),
            names: Vec::new(alloc),
        }
    }

    /// What is kept of a node; none exactly if it isn't known.
    pub(crate) fn get(&self, node: u32) -> Option<Known>
        ensures { result ≡ known_at self.now node }
    {
        match self.map.get(&Key::node(node)) {
            Some(known) => Some(*known),
            None => None,
        }
    }

    /// Keeps this of a node. If the node is known it takes no memory.
    pub(crate) fn keep(&mut self, node: u32, known: Known) -> Result<(), NoMemory>
        ensures kept { OnOk result ((other : ℕ) → known_at self.new other
            ≡ (if node == other then Some known else known_at self.old other)) }
        ensures err { OnErr result ((other : ℕ) → known_at self.new other ≡ known_at self.old other) }
        ensures room { IsSome (known_at self.old node) → IsOk result }
    {
        let key = Key::node(node);
        if self.map.insert(key, known)?.is_some() {
            return Ok(());
        }
        match self.names.push(node) {
            Ok(()) => Ok(()),
            Err(_) => {
                self.map.remove(&key);
                Err(NoMemory)
            }
        }
    }

    /// Forgets each known node that isn't in the list. Takes no memory. The list of the last call, followed by the nodes that became known since,
    /// is gone through once; else one that ascends is searched by halves for each known node, and any other is gone through for each.
    pub(crate) fn forget_others(&mut self, listed: &[u32])
        ensures { (node : ℕ) → known_at self.new node ≡ (if is_listed listed.now node then known_at self.old node else None) }
    {
        if self.names.as_slice() == listed {
            return;
        }
        let ascends = listed.is_sorted();
        forget_unlisted(&mut self.map, self.names.as_slice(), listed, ascends);
        list_anew(&mut self.names, listed, ascends);
    }

    /// Each known node is heard of at this reading. Takes no memory.
    pub(crate) fn reset_probes(&mut self, now: Local)
        ensures { (node : ℕ) → known_at self.new node ≡ option_map (at_reading now.0) (known_at self.old node) }
    {
        reset_listed(&mut self.map, self.names.as_slice(), now);
    }

    /// Each known node of these is heard of at this reading. Takes no memory.
    pub(crate) fn reset_these(&mut self, listed: &[u32], now: Local)
        ensures { (node : ℕ) → known_at self.new node
            ≡ (if is_listed listed.now node then option_map (at_reading now.0) (known_at self.old node) else known_at self.old node) }
    {
        reset_listed(&mut self.map, listed, now);
    }
}
