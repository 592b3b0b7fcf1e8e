// The pushes of zones, if nodes are judged at passes alone.
ghost use Rattle.std.specs.Prelude.{◌≡◌, ◌==◌, ◌&&◌, ◌||◌, ℕ, not, true, false, List, [], ◌∷◌, ◌++◌, Some, None, MatchOption, OnOk, if◌then◌else◌};
ghost use Rattle.std.specs.BTreeMap.{get};
ghost use Rattle.kube_objects.specs.Newest.{has};
ghost use Rattle.kube_objects.specs.Judgement as model;
ghost use Rattle.taint_zones.specs.Places.{zone_cmp, zone_eq};
ghost use Rattle.taint_zones.specs.Pushing.{IsNextPushed, counted_at, pushed_at};

use crate::next_place::next_place;
use crate::{Limit, Place};
use kube_base::NoMemory;
use std::alloc::Global;
use std::collections::BTreeMap;
use taint_queue::Pushes;

/// The queues of zones that hold pushes of nodes. Each call costs the logarithm of the zones and of the pushes.
#[derive(Debug, Drop)]
pub struct ZonePushes {
    alloc: Global,
    zones: BTreeMap<Place, Pushes>,
}

impl ZonePushes {
    /// No zone has a push. Takes no memory.
    pub fn new(alloc: Global) -> ZonePushes
        ensures names { (zone : Place) → pushed_at result zone ≡ [] }
        ensures counts { (zone : Place) (node : ℕ) → counted_at result zone node ≡ false }
    {
        ZonePushes {
            alloc,
            zones: BTreeMap::new(alloc),
        }
    }

    /// A node is to stand in the queue of a zone, and counts as pushed there from now on: it is pushed if that is asked for or it doesn't
    /// count yet, and, unless a queue holds a node many times, if no push of it stands.
    pub fn want(&mut self, place: Place, node: u32, anew: bool, again: bool) -> Result<(), NoMemory>
        ensures names { OnOk result ((zone : Place) → pushed_at self.new zone
            ≡ (if zone_eq place zone && ((anew || not (counted_at self.old zone node)) && (again || not (model.holds_name node (pushed_at self.old zone))))
            then pushed_at self.old zone ++ node ∷ [] else pushed_at self.old zone)) }
        ensures counts { OnOk result ((zone : Place) (other : ℕ)
            → counted_at self.new zone other ≡ (zone_eq place zone && (node == other) || counted_at self.old zone other)) }
    {
        match self.zones.get_mut(&place) {
            Some(pushes) => pushes.want(node, anew, again),
            None => self.begin(place, node, anew, again),
        }
    }

    // The zone has a queue, with this node alone.
    fn begin(&mut self, place: Place, node: u32, anew: bool, again: bool) -> Result<(), NoMemory>
        requires { get zone_cmp self.old.zones place ≡ None }
        ensures names { OnOk result ((zone : Place) → pushed_at self.new zone ≡ (if zone_eq place zone then node ∷ [] else pushed_at self.old zone)) }
        ensures counts { OnOk result ((zone : Place) (other : ℕ)
            → counted_at self.new zone other ≡ (zone_eq place zone && (node == other) || counted_at self.old zone other)) }
    {
        let mut pushes = Pushes::new(self.alloc);
        pushes.want(node, anew, again)?;
        self.zones.insert(place, pushes)?;
        Ok(())
    }

    /// A node that counts as pushed in a zone does so no longer, and its first push there goes. Takes no memory.
    pub fn clear(&mut self, place: Place, node: u32)
        ensures names { (zone : Place) → pushed_at self.new zone
            ≡ (if zone_eq place zone then model.clear true (counted_at self.old zone node) node (pushed_at self.old zone)
            else pushed_at self.old zone) }
        ensures counts { (zone : Place) (other : ℕ)
            → counted_at self.new zone other ≡ (not (zone_eq place zone && (node == other)) && counted_at self.old zone other) }
    {
        if let Some(pushes) = self.zones.get_mut(&place) {
            pushes.clear(node);
        }
    }

    /// The node of the first push of a zone. Takes no memory.
    pub fn head(&self, place: Place) -> Option<u32>
        ensures { MatchOption result (pushed_at self.now place ≡ [])
            (λ node. pushed_at self.now place ≡ node ∷ model.taken true (pushed_at self.now place)) }
    {
        match self.zones.get(&place) {
            None => None,
            Some(pushes) => pushes.head(),
        }
    }

    /// The first push of a zone had its turn: it goes if its node counts as pushed there. Takes no memory.
    pub fn take_head(&mut self, place: Place)
        ensures some { (zone : Place) (node : ℕ) (rest : List ℕ) → pushed_at self.old zone ≡ node ∷ rest
            → pushed_at self.new zone ≡ (if zone_eq place zone then model.taken (counted_at self.old zone node) (pushed_at self.old zone)
            else pushed_at self.old zone) }
        ensures none { (zone : Place) → pushed_at self.old zone ≡ [] → pushed_at self.new zone ≡ [] }
        ensures counts { (zone : Place) (other : ℕ) → counted_at self.new zone other ≡ counted_at self.old zone other }
    {
        if let Some(pushes) = self.zones.get_mut(&place) {
            pushes.take_head();
        }
    }

    /// The first push of a zone is its last one from now on.
    pub fn head_to_back(&mut self, place: Place) -> Result<(), NoMemory>
        ensures names { OnOk result ((zone : Place) → pushed_at self.new zone
            ≡ (if zone_eq place zone then model.to_back (pushed_at self.old zone) else pushed_at self.old zone)) }
        ensures counts { OnOk result ((zone : Place) (other : ℕ) → counted_at self.new zone other ≡ counted_at self.old zone other) }
    {
        match self.zones.get_mut(&place) {
            None => Ok(()),
            Some(pushes) => pushes.head_to_back(),
        }
    }

    /// Forgets the queues of all zones but those of these limits. Takes no memory.
    pub fn forget_others(&mut self, limits: &BTreeMap<Place, Limit>)
        ensures names { (zone : Place) → pushed_at self.new zone
            ≡ (if has (get zone_cmp limits.now zone) then pushed_at self.old zone else []) }
        ensures counts { (zone : Place) (node : ℕ)
            → counted_at self.new zone node ≡ (has (get zone_cmp limits.now zone) && counted_at self.old zone node) }
    {
        self.zones.retain(|place, _| limits.contains_key(place));
    }

    /// The next zone after this one, or the first, that has a queue.
    pub fn next_zone(&self, after: Option<Place>) -> Option<Place>
        ensures { IsNextPushed self.now after result }
    {
        next_place(&self.zones, after)
    }
}
