// Limiters and queues of zones.
ghost use Rattle.std.specs.Prelude.{◌≡◌, ◌≤◌, ℕ, true, false, List, [], None};
ghost use Rattle.kube_base.specs.Bounds.{most_local};
ghost use Rattle.kube_objects.specs.Clocks.{local};
ghost use Rattle.kube_objects.specs.Document.{Doc};
ghost use Rattle.kube_objects.specs.Entry.{Entry, Identity};
ghost use Rattle.kube_objects.specs.Entry as entry_words;
ghost use Rattle.kube_objects.specs.Tokens as tokens;

use crate::{Limit, Place, Queues, ZonePushes};
use kube_base::Local;
use std::alloc::Global;
use std::collections::BTreeMap;

/// The zones of a term: the limit of each zone that its last pass found, and the nodes that wait; or their pushes, if nodes are judged at
/// passes alone.
///
/// A zone's queue is kept apart from its limit, since nodes may wait in a zone that no pass has found yet.
#[derive(Debug, Drop)]
pub struct Zones {
    pub limits: BTreeMap<Place, Limit>,
    pub queues: Queues,
    pub pushes: ZonePushes,
}

impl Zones {
    ghost use Rattle.taint_zones.specs.Limits.{LimitsStand, limit_at, taken_at};
    ghost use Rattle.taint_zones.specs.Places.{entry_place, zone_eq};
    ghost use Rattle.taint_zones.specs.Pushing.{counted_at, pushed_at};
    ghost use Rattle.taint_zones.specs.Waiting.{since};

    /// No zone, and nobody waits. Takes no memory.
    pub fn new(alloc: Global) -> Zones
        ensures limits { (zone : entry_words.Place) → limit_at result zone ≡ None }
        ensures queues { (zone : Place) (node : ℕ) → since result.queues zone node ≡ None }
        ensures pushes { (zone : Place) → pushed_at result.pushes zone ≡ [] }
        ensures counts { (zone : Place) (node : ℕ) → counted_at result.pushes zone node ≡ false }
    {
        Zones {
            limits: BTreeMap::new(alloc),
            queues: Queues::new(alloc),
            pushes: ZonePushes::new(alloc),
        }
    }

    /// Takes the token of a zone, if it is there.
    pub fn try_take(&mut self, place: Place, now: Local) -> bool
        requires { now.0 ≤ most_local }
        ensures there { (doc : Doc) (q : Identity) (k : ℕ) (h : List Entry) → LimitsStand doc q h self.old
            → now.0 ≡ local doc q.process k → result ≡ tokens.has_token doc q k (entry_place place) h }
        ensures kept { result ≡ false → (zone : entry_words.Place) → limit_at self.new zone ≡ limit_at self.old zone }
        ensures taken { result ≡ true → (zone : entry_words.Place)
            → limit_at self.new zone ≡ taken_at place now.0 zone (limit_at self.old zone) }
        ensures queues { (zone : Place) (node : ℕ) → since self.new.queues zone node ≡ since self.old.queues zone node }
        ensures pushes { self.new.pushes ≡ self.old.pushes }
    {
        match self.limits.get_mut(&place) {
            None => false,
            Some(limit) => limit.bucket.try_take(now),
        }
    }
}
