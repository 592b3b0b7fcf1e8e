// The queue of a zone's pushes.
ghost use Rattle.std.specs.Prelude.{◌≡◌, ◌≤◌, ◌==◌, ◌&&◌, ◌||◌, ℕ, not, true, false, List, [], ◌∷◌, ◌++◌, Some, IfSome, IfNone, OnOk, MatchOption, if◌then◌else◌};
ghost use Rattle.std.specs.BTreeMap.{get, IsOrdered};
ghost use Rattle.std.specs.Ordering.{nat_cmp};
ghost use Rattle.std.proofs.Props.{props};
ghost use Rattle.kube_objects.specs.Judgement as model;
ghost use Rattle.taint_queue.specs.PushNumbers.{AreBelow, ArePlaced};

use kube_base::NoMemory;
use std::alloc::Global;
use std::collections::{BTreeMap, BTreeSet};

/// The pushes of a zone, the first one first, each of a node by the number of its name; and the nodes that count as pushed. A node may
/// stand in it many times, and may count as pushed without a push that stands.
///
/// Each call costs the logarithm of the pushes. A push that stands takes its number in an ordered map, and the number under its node in an ordered
/// set: 28 bytes, and about 70 with what the trees have beside.
#[derive(Debug, Drop)]
pub struct Pushes {
    next: u64,
    order: BTreeMap<u64, u32>,
    places: BTreeSet<(u32, u64)>,
    counted: BTreeSet<u32>,
    ghost below: { AreBelow next order },
    ghost placed: { ArePlaced order places },
    ghost ascends: { IsOrdered nat_cmp order } by { Prim.hlevel props },
}

impl Pushes {
    ghost use Rattle.taint_queue.specs.Pushed.{counts_in, names};

    /// No push, and no node counts as pushed. Takes no memory.
    pub fn new(alloc: Global) -> Pushes
        ensures names { names result ≡ [] }
        ensures counts { (node : ℕ) → counts_in result node ≡ false }
    {
        Pushes {
            next: 0,
            order: BTreeMap::new(alloc),
            places: BTreeSet::new(alloc),
            counted: BTreeSet::new(alloc),
        }
    }

    /// Whether a node counts as pushed.
    pub fn counts(&self, node: u32) -> bool
        ensures { result ≡ counts_in self.now node }
    {
        self.counted.contains(&node)
    }

    // The first push of a node.
    fn first_of(&self, node: u32) -> Option<u64>
        ensures there { IfSome result (λ place. (get nat_cmp self.now.order place ≡ Some node)
            × ((other : ℕ) → get nat_cmp self.now.order other ≡ Some node → place ≤ other)) }
        ensures none { IfNone result ((place : ℕ) → ¬ (get nat_cmp self.now.order place ≡ Some node)) }
    {
        match self.places.range((node, 0)..).next() {
            None => None,
            Some((other, place)) => {
                if *other == node {
                    return Some(*place);
                }
                None
            }
        }
    }

    /// Whether a push of a node stands.
    pub fn holds(&self, node: u32) -> bool
        ensures { result ≡ model.holds_name node (names self.now) }
    {
        self.first_of(node).is_some()
    }

    // A push of a node at the end.
    fn push(&mut self, node: u32) -> Result<(), NoMemory>
        ensures names { OnOk result (names self.new ≡ names self.old ++ node ∷ []) }
        ensures counts { (other : ℕ) → counts_in self.new other ≡ counts_in self.old other }
    {
        let place = self.next;
        let Some(next) = place.checked_add(1) else {
            return Err(NoMemory);
        };
        self.places.insert((node, place))?;
        if self.order.insert(place, node).is_err() {
            self.places.remove(&(node, place));
            return Err(NoMemory);
        }
        self.next = next;
        Ok(())
    }

    /// A node is to stand here, and counts as pushed from now on: it is pushed if that is asked for or it doesn't count yet, and, unless a
    /// queue holds a node many times, if no push of it stands.
    pub fn want(&mut self, node: u32, anew: bool, again: bool) -> Result<(), NoMemory>
        ensures names { OnOk result (names self.new
            ≡ (if (anew || not (counts_in self.old node)) && (again || not (model.holds_name node (names self.old)))
            then names self.old ++ node ∷ [] else names self.old)) }
        ensures counts { OnOk result ((other : ℕ) → counts_in self.new other ≡ ((node == other) || counts_in self.old other)) }
    {
        if (anew || !self.counts(node)) && (again || !self.holds(node)) {
            self.push(node)?;
        }
        self.counted.insert(node)?;
        Ok(())
    }

    /// A node that counts as pushed does so no longer, and its first push goes. Takes no memory.
    pub fn clear(&mut self, node: u32)
        ensures names { names self.new ≡ model.clear true (counts_in self.old node) node (names self.old) }
        ensures counts { (other : ℕ) → counts_in self.new other ≡ (if node == other then false else counts_in self.old other) }
    {
        if !self.counted.remove(&node) {
            return;
        }
        if let Some(place) = self.first_of(node) {
            self.order.remove(&place);
            self.places.remove(&(node, place));
        }
    }

    /// The node of the first push. Takes no memory.
    pub fn head(&self) -> Option<u32>
        ensures { MatchOption result (names self.now ≡ []) (λ node. names self.now ≡ node ∷ model.taken true (names self.now)) }
    {
        match self.order.first_key_value() {
            None => None,
            Some((_, node)) => Some(*node),
        }
    }

    // The first push goes.
    fn take_first(&mut self)
        ensures names { names self.new ≡ model.taken true (names self.old) }
        ensures counts { (other : ℕ) → counts_in self.new other ≡ counts_in self.old other }
    {
        if let Some((place, node)) = self.order.pop_first() {
            self.places.remove(&(node, place));
        }
    }

    /// The first push had its turn: it goes if its node counts as pushed, and else it stays where it is. Takes no memory.
    pub fn take_head(&mut self)
        ensures some { (node : ℕ) (rest : List ℕ) → names self.old ≡ node ∷ rest
            → names self.new ≡ model.taken (counts_in self.old node) (names self.old) }
        ensures none { names self.old ≡ [] → names self.new ≡ [] }
        ensures counts { (other : ℕ) → counts_in self.new other ≡ counts_in self.old other }
    {
        let Some(node) = self.head() else {
            return;
        };
        if self.counts(node) {
            self.take_first();
        }
    }

    /// The first push is the last one from now on.
    pub fn head_to_back(&mut self) -> Result<(), NoMemory>
        ensures names { OnOk result (names self.new ≡ model.to_back (names self.old)) }
        ensures counts { (other : ℕ) → counts_in self.new other ≡ counts_in self.old other }
    {
        let Some(node) = self.head() else {
            return Ok(());
        };
        self.take_first();
        self.push(node)
    }
}

#[cfg(test)]
mod tests {
    use super::*;
    use std::test::Fail;

    // A push is left behind by a clearing, and stays at the head while its node doesn't count.
    #[test]
    fn a_push_that_is_left_behind_stays(rt: HostRuntime) -> Result<(), Fail> {
        let mut pushes = Pushes::new(rt.alloc());
        pushes.want(2, true, true)?;
        pushes.want(2, true, true)?;
        pushes.clear(2);
        pushes.want(3, true, true)?;
        assert_eq!(rt; pushes.head(), Some(2));
        pushes.take_head();
        assert_eq!(rt; pushes.head(), Some(2));
        pushes.want(2, false, true)?;
        pushes.take_head();
        assert_eq!(rt; pushes.head(), Some(3));
        pushes.head_to_back()?;
        assert_eq!(rt; pushes.head(), Some(2));
        pushes.clear(2);
        assert_eq!(rt; pushes.head(), Some(3));
        Ok(())
    }

    #[test]
    fn one_push_of_a_node_where_it_is_held_once(rt: HostRuntime) -> Result<(), Fail> {
        let mut pushes = Pushes::new(rt.alloc());
        pushes.want(2, true, false)?;
        pushes.want(2, true, false)?;
        pushes.take_head();
        assert_eq!(rt; pushes.head(), None);
        assert!(rt; pushes.counts(2));
        Ok(())
    }
}
