// Which nodes there are, and which pods are on each node.
ghost use Rattle.std.specs.Prelude.{◌≡◌, ℕ, ◌||◌, ◌&&◌, not, false, length, IfOk, OnOk, OnErr};
ghost use Rattle.std.specs.List.Sorted.{IsStrictlySortedBy};
ghost use Rattle.std.specs.Ordering.{nat_cmp};

use crate::listing::Listing;
use kube_base::{ListOf, NoMemory, Steps};
use kube_objects::{Key, KeyList, NumberList};
use std::alloc::Global;
use std::collections::BTreeSet;

/// The names of the nodes, and the keys of the pods by the names of their nodes. It is kept as objects come and go, so a
/// list of pods costs what it lists.
#[derive(Debug, Drop)]
pub(crate) struct Index {
    alloc: Global,
    nodes: BTreeSet<u32>,
    pods: BTreeSet<(u32, Key)>,
}

impl Index {
    ghost use Rattle.kube_base.specs.Steps.{counted};
    ghost use Rattle.kube_objects.specs.Feeds.{is_among};
    ghost use Rattle.kube_objects.specs.Keys.{key_cmp};
    ghost use Rattle.kube_objects.specs.declared.key.Key.{Key};
    ghost use Rattle.watch_cache.specs.Listed.{has_node, has_pod, lists_node, lists_pod, is_named};

    /// Lists nothing.
    pub(crate) fn new(alloc: Global) -> Index
        ensures nodes { (n : ℕ) → has_node result n ≡ false }
        ensures pods { (n : ℕ) (k : Key) → has_pod result n k ≡ false }
    {
        Index {
            alloc,
            nodes: BTreeSet::new(alloc),
            pods: BTreeSet::new(alloc),
        }
    }

    /// Lists an object.
    pub(crate) fn enter(&mut self, listing: Listing) -> Result<(), NoMemory>
        ensures nodes { OnOk result ((n : ℕ) → has_node self.new n ≡ (lists_node listing n || has_node self.old n)) }
        ensures pods { OnOk result ((n : ℕ) (k : Key) → has_pod self.new n k ≡ (lists_pod listing n k || has_pod self.old n k)) }
        ensures same_nodes { OnErr result ((n : ℕ) → has_node self.new n ≡ has_node self.old n) }
        ensures same_pods { OnErr result ((n : ℕ) (k : Key) → has_pod self.new n k ≡ has_pod self.old n k) }
    {
        match listing {
            Listing::Nowhere => Ok(()),
            Listing::Node(name) => {
                self.nodes.insert(name)?;
                Ok(())
            }
            Listing::Pod(node, key) => {
                self.pods.insert((node, key))?;
                Ok(())
            }
        }
    }

    /// Lists an object no longer.
    pub(crate) fn leave(&mut self, listing: Listing)
        ensures nodes { (n : ℕ) → has_node self.new n ≡ (not (lists_node listing n) && has_node self.old n) }
        ensures pods { (n : ℕ) (k : Key) → has_pod self.new n k ≡ (not (lists_pod listing n k) && has_pod self.old n k) }
    {
        match listing {
            Listing::Nowhere => {}
            Listing::Node(name) => {
                let _ = self.nodes.remove(&name);
            }
            Listing::Pod(node, key) => {
                let _ = self.pods.remove(&(node, key));
            }
        }
    }

    /// The names of the nodes in order.
    pub(crate) fn nodes(&self) -> Result<NumberList, NoMemory>
        ensures ascend { IfOk result (λ names. IsStrictlySortedBy nat_cmp names) }
        ensures named { IfOk result (λ names. (n : ℕ) → is_named names n ≡ has_node self.now n) }
    {
        let mut names = ListOf::new(self.alloc);
        for name in self.nodes.iter() {
            names.push(*name)?;
        }
        Ok(names)
    }

    /// The keys of the pods on a node, in order. Each one counts a step.
    pub(crate) fn pods_of<L>(&self, node: u32, steps: &mut Steps<L>) -> Result<KeyList, NoMemory>
        ensures ascend { IfOk result (λ keys. IsStrictlySortedBy key_cmp keys) }
        ensures listed { IfOk result (λ keys. (k : Key) → is_among keys k ≡ has_pod self.now node k) }
        ensures counted { IfOk result (λ keys. steps.new ≡ counted steps.old (length keys)) }
    {
        // It is read, so that it is known to be a u64.
        let _ = steps.count();
        let mut keys = ListOf::new(self.alloc);
        for pod in self.pods.range((node, Key::node(0))..) {
            let (on, key) = *pod;
            if on != node {
                return Ok(keys);
            }
            steps.tick();
            keys.push(key)?;
        }
        Ok(keys)
    }
}
