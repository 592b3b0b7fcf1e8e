// The queue of waiting nodes.
ghost use Rattle.std.specs.Prelude.{◌≡◌, ℕ, ◌<◌, ◌==◌, None, Some, IsSome, length, slice_set, if◌then◌else◌};
ghost use Rattle.taint_queue.specs.Placed.{HasItsNode, IsKept, place};
ghost use Rattle.taint_queue.specs.Slots.{slots};

use crate::tournament::Tournament;
use crate::waiting::Waiting;
use kube_base::{Beat, NoMemory};
use std::alloc::Global;
use std::collections::BTreeMap;

/// Nodes, by the numbers of their names, each with the beat since which it waits. The head is the node with the least
/// beat, and of equal ones the least number.
///
/// Each call costs the logarithm of the nodes that wait. A tournament tree holds the nodes in slots, and an ordered map
/// holds the slot of each. A new beat is written into the node's own slot, so that `to_back` takes no memory.
#[derive(Debug, Drop)]
pub struct Queue {
    places: BTreeMap<u32, usize>,
    tree: Tournament,
    ghost has_its_node: { HasItsNode (place places) (slots tree) },
    ghost is_kept: { IsKept (place places) (slots tree) },
}

// Moves a node into a slot.
fn fill(places: &mut BTreeMap<u32, usize>, tree: &mut Tournament, slot: usize, last: Waiting)
    requires known { IsSome (place places.old last.node) }
    requires within { slot < length (slots tree.old) }
    ensures moved { (q : ℕ) → place places.new q ≡ (if last.node == q then Some slot else place places.old q) }
    ensures filled { slots tree.new ≡ slice_set (slots tree.old) slot last }
{
    let Ok(_) = places.insert(last.node, slot) else {
        unreachable!()
    };
    tree.put(slot, last);
}

impl Queue {
    ghost use Rattle.std.specs.Prelude.{true, IfSome, IfNone, OnOk, OnErr, unwrap_or};
    ghost use Rattle.std.specs.Option.{option_map};
    ghost use Rattle.kube_base.specs.declared.numbers.Beat.{Beat as Since};
    ghost use Rattle.taint_queue.specs.Order.{precedes};
    ghost use Rattle.taint_queue.specs.Queue.{waits_since};

    /// Nobody waits. Takes no memory.
    pub fn new(alloc: Global) -> Queue
        ensures { (node : ℕ) → waits_since result node ≡ None }
    {
        Queue {
            places: BTreeMap::new(alloc),
            tree: Tournament::new(alloc),
        }
    }

    /// The node waits since this beat. One that waits already keeps its beat.
    pub fn want(&mut self, node: u32, at: Beat) -> Result<(), NoMemory>
        ensures ok { OnOk result ((other : ℕ) → waits_since self.new other
            ≡ (if node == other then Some (unwrap_or (waits_since self.old node) at) else waits_since self.old other)) }
        ensures err { OnErr result ((other : ℕ) → waits_since self.new other ≡ waits_since self.old other) }
    {
        if self.places.contains_key(&node) {
            return Ok(());
        }
        let slot = self.tree.len();
        self.places.insert(node, slot)?;
        if self.tree.push(Waiting { at, node }).is_err() {
            let _ = self.places.remove(&node);
            return Err(NoMemory);
        }
        Ok(())
    }

    /// The node waits no longer. Takes no memory.
    pub fn leave(&mut self, node: u32)
        ensures { (other : ℕ) → waits_since self.new other ≡ (if node == other then None else waits_since self.old other) }
    {
        let Some(slot) = self.places.remove(&node) else {
            return;
        };
        let Some(last) = self.tree.pop() else {
            unreachable!()
        };
        if last.node != node {
            fill(&mut self.places, &mut self.tree, slot, last);
        }
    }

    /// The node that waits since the least beat, and of equal ones the least; none exactly if nobody waits. Takes no
    /// memory.
    pub fn head(&self) -> Option<u32>
        ensures first { IfSome result (λ node. (at : Since) × (waits_since self.now node ≡ Some at)
            × ((other : ℕ) (since : Since) → waits_since self.now other ≡ Some since → precedes at.0 node since.0 other ≡ true)) }
        ensures none { IfNone result ((node : ℕ) → waits_since self.now node ≡ None) }
    {
        match self.tree.first() {
            Some(first) => Some(first.node),
            None => None,
        }
    }

    /// A node that waits does so since this beat from now on. Takes no memory.
    pub fn to_back(&mut self, node: u32, at: Beat)
        ensures { (other : ℕ) → waits_since self.new other
            ≡ (if node == other then option_map (λ _. at) (waits_since self.old node) else waits_since self.old other) }
    {
        if let Some(slot) = self.places.get(&node) {
            self.tree.put(*slot, Waiting { at, node });
        }
    }
}

#[cfg(test)]
mod tests {
    use super::*;
    use std::test::Fail;

    #[test]
    fn the_least_beat_and_then_the_least_node_is_the_head(rt: HostRuntime) -> Result<(), Fail> {
        let mut queue = Queue::new(rt.alloc());
        assert_eq!(rt; queue.head(), None);
        queue.want(10, Beat(5))?;
        queue.want(11, Beat(5))?;
        assert_eq!(rt; queue.head(), Some(10));
        queue.to_back(10, Beat(7));
        assert_eq!(rt; queue.head(), Some(11));
        queue.want(10, Beat(9))?;
        queue.leave(11);
        assert_eq!(rt; queue.head(), Some(10));
        queue.want(3, Beat(7))?;
        assert_eq!(rt; queue.head(), Some(3));
        queue.leave(3);
        queue.leave(10);
        queue.leave(10);
        assert_eq!(rt; queue.head(), None);
        Ok(())
    }

    #[test]
    fn many_nodes_wait_in_order(rt: HostRuntime) -> Result<(), Fail> {
        let mut queue = Queue::new(rt.alloc());
        for i in 0..20u32 {
            queue.want(i, Beat((i * 7) % 20))?;
        }
        let heads = [
            0, 3, 6, 9, 12, 15, 18, 1, 4, 7, 10, 13, 16, 19, 2, 5, 8, 11, 14, 17,
        ];
        for head in heads {
            assert_eq!(rt; queue.head(), Some(head));
            queue.leave(head);
        }
        assert_eq!(rt; queue.head(), None);
        Ok(())
    }
}
