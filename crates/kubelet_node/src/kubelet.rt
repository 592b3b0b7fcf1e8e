// A kubelet: the call of its round that waits, and when the next round may begin.
ghost use Rattle.std.specs.Prelude.{◌≡◌, ◌≤◌, ◌<◌, ◌+◌, ◌^◌, ℕ, true, false, List, ◌∷◌, Some, None, IfSome};
ghost use Rattle.kube_base.specs.Bounds.{most_local};
ghost use Rattle.kube_objects.specs.Clocks.{local, wall as wall_at};
ghost use Rattle.kube_objects.specs.Document.{Doc, call_timeout};
ghost use Rattle.kube_objects.specs.Entry.{Call, Delivers, Entry, Identity, Plain, Starts, entry};
ghost use Rattle.kube_objects.specs.InForce.{posted_status};
ghost use Rattle.kube_objects.specs.Kinds.{keeps_kind};
ghost use Rattle.kube_objects.specs.Kubelet.{is_post, next_request, node_of, round, round_timer};
ghost use Rattle.kube_objects.specs.Process.{alive, begun, call_in, counted};
ghost use Rattle.kube_objects.specs.Stored.{node_lease};
ghost use Rattle.kube_objects.specs.Wire.{send};
ghost use Rattle.kube_objects.specs.Turns.{expired, with_reply};
ghost use Rattle.kubelet_node.specs.Moves.{Asked, Expired, IsLeast, Moved, followed, turned, wake_from};
ghost use Rattle.kubelet_node.specs.Plain.{BeginsCall, IsSame, TakesReply, after_expiry, after_round, asked_of, counts_in};
ghost use Rattle.kubelet_node.specs.Plain.{found_at, has_lost_post, heartbeat_at, is_post_wait, state_of, next_at};
ghost use Rattle.kubelet_node.specs.Plain.{numbered, round_in, wake_in};
ghost use Rattle.kube_objects.specs.declared.call.Request.{Request as Sought};
ghost use Rattle.kubelet_node.specs.Requests.{awaited_in, finds_lease, gets_lease};
ghost use Rattle.kubelet_node.specs.Stands.{CallStands, KubeletStands, Wait, waiting_of};

use crate::timing::Timing;
use crate::waiting::{Awaited, Waiting};
use kube_base::{KUBE_NODE_LEASE, Local, Wall};
use kube_objects::{Ask, CallSlot, Holder, Key, Kind, Lease, ReadyStatus, Reply, Request};

/// A kubelet that is up, in one incarnation. No call takes memory.
#[derive(Drop)]
pub struct Kubelet {
    pub(crate) node: u32,
    pub(crate) incarnation: u32,
    pub(crate) timing: Timing,
    pub(crate) slot: CallSlot,
    pub(crate) waiting: Option<Waiting>,
    pub(crate) timer: Local,
}

impl Kubelet {
    /// A kubelet of the node with this name that has sent nothing. Its first round begins at its next turn. `lease_seconds` is the
    /// duration of the node's Lease; the timeout of a call is in units of 10^-12 s.
    pub fn start(
        node: u32,
        incarnation: u32,
        lease_seconds: u32,
        timeout: u64,
        now: Local,
    ) -> Kubelet
        requires lease { lease_seconds ≤ 86400 }
        requires timeout { timeout ≤ 600000000000000 }
        ensures node { (result.node ≡ node) × (result.incarnation ≡ incarnation) }
        ensures timing { (result.timing.lease_seconds ≡ lease_seconds) × (result.timing.timeout ≡ timeout) }
        ensures kept { state_of result ≡ record { calls = 0; held = None; wait = None; timer = now.0 } }
        ensures stands { (doc : Doc) (q : Identity) (h : List Entry) (k step : ℕ) → node ≡ node_of doc q.process
            → incarnation ≡ q.incarnation → lease_seconds ≡ doc.settings.node_lease_duration_seconds
            → timeout ≡ call_timeout doc q.process → now.0 ≡ local doc q.process k → begun q h ≡ 0
            → KubeletStands doc q (entry k step q Starts ∷ h) result }
    {
        Kubelet {
            node,
            incarnation,
            timing: Timing {
                lease_seconds,
                timeout,
            },
            slot: CallSlot::new(),
            waiting: None,
            timer: now,
        }
    }

    /// A turn. A call without a reply within its timeout is forgotten; if it was a post, the Get of the Lease is sent. Otherwise a
    /// round begins, with a post of this status, if none runs and it is time. None if nothing is sent.
    pub fn on_timer(&mut self, now: Local, wall: Wall, status: ReadyStatus) -> Option<Ask>
        requires now { now.0 ≤ most_local }
        ensures same { IsSame self.old self.new }
        ensures asks { asked_of result ≡ numbered (after_expiry self.old now.0)
            (round_in self.old now.0 wall.0 status (has_lost_post self.old now.0) (after_expiry self.old now.0)) }
        ensures kept { state_of self.new ≡ after_round self.old now.0 wall.0 status (has_lost_post self.old now.0)
            (after_expiry self.old now.0) }
        ensures turns { (doc : Doc) (q : Identity) (h : List Entry) (k : ℕ)
            → KubeletStands doc q h self.old → now.0 ≡ local doc q.process k → wall.0 ≡ wall_at doc q.process k
            → status ≡ posted_status doc q.process h → begun q h + 1 < 2 ^ 64
            → Moved doc k 4 q (expired doc k q h) (turned doc k q h) (λ x. KubeletStands doc q x self.new) result }
    {
        let lost = self.expire(now);
        self.round(lost, now, wall, status)
    }

    /// A reply, and what follows it. Only one to the call that waits, with its number and within its timeout, counts. A post is
    /// followed by the Get of the Lease, whatever the reply; the Get by a Create if the Lease is absent and by an Update of the
    /// version found. None if nothing is sent.
    pub fn on_reply(&mut self, number: u64, reply: Reply, now: Local, wall: Wall) -> Option<Ask>
        requires now { now.0 ≤ most_local }
        ensures stays { counts_in self.old number now.0 ≡ false → (result ≡ None) × (self.new ≡ self.old) }
        ensures takes { (w : Wait) → counts_in self.old number now.0 ≡ true → waiting_of self.old.waiting ≡ Some w
            → TakesReply self.old now.0 wall.0 w reply self.new result }
        ensures uncounted { (doc : Doc) (q : Identity) (h : List Entry) (k : ℕ)
            → KubeletStands doc q h self.old → now.0 ≡ local doc q.process k
            → alive q.process h ≡ Some q.incarnation
            → counted doc q k number h ≡ None → (call : Call)
            → (result ≡ None) × KubeletStands doc q (entry k 3 q (Delivers call reply false) ∷ h) self.new }
        ensures counts { (doc : Doc) (q : Identity) (h : List Entry) (k : ℕ) (call : Call)
            → KubeletStands doc q h self.old → now.0 ≡ local doc q.process k → wall.0 ≡ wall_at doc q.process k
            → begun q h + 1 < 2 ^ 64 → counted doc q k number h ≡ Some call
            → Moved doc k 3 q (with_reply k q call reply h) (followed doc k q call reply h)
            (λ x. KubeletStands doc q x self.new) result }
    {
        if !self.slot.accepts(number, now, self.timing.timeout) {
            return None;
        }
        let Some(waiting) = self.waiting else {
            return None;
        };
        self.slot.finish();
        self.waiting = None;
        let Some(request) = self.next(waiting.awaited, &reply, wall) else {
            return None;
        };
        Some(self.ask(request, now))
    }

    /// The least reading at which `on_timer` does anything: that at which the call that waits has expired, or else the timer.
    pub fn wake(&self) -> Local
        ensures kept { result.0 ≡ wake_in (state_of self.now) }
        ensures reading { (doc : Doc) (q : Identity) (h : List Entry) → KubeletStands doc q h self.now
            → result.0 ≡ wake_from doc q (round_timer doc q h) (call_in q h) }
        ensures least { (doc : Doc) (q : Identity) (h : List Entry) (k : ℕ) → KubeletStands doc q h self.now
            → IsLeast result.0 (local doc q.process k) h (turned doc k q h) }
    {
        match self.waiting {
            Some(waiting) => waiting.late,
            None => self.timer,
        }
    }

    /// The incarnation, which a message of this kubelet carries.
    pub fn incarnation(&self) -> u32
        ensures kept { result ≡ self.now.incarnation }
        ensures stands { (doc : Doc) (q : Identity) (h : List Entry) → KubeletStands doc q h self.now → result ≡ q.incarnation }
    {
        self.incarnation
    }

    // ---- turns

    /// Forgets a call that has expired. Whether it was a post.
    fn expire(&mut self, now: Local) -> bool
        requires now { now.0 ≤ most_local }
        ensures same { IsSame self.old self.new }
        ensures lost { result ≡ has_lost_post self.old now.0 }
        ensures kept { state_of self.new ≡ after_expiry self.old now.0 }
        ensures history { (doc : Doc) (q : Identity) (h : List Entry) (k : ℕ)
            → KubeletStands doc q h self.old → now.0 ≡ local doc q.process k
            → Expired doc k q (expired doc k q h) self.new result }
    {
        if !self.slot.expired(now, self.timing.timeout) {
            return false;
        }
        let posted = is_post(&self.waiting);
        self.slot.finish();
        self.waiting = None;
        posted
    }

    /// After a post that expired, the Get; else a round begins if none runs and it is time.
    fn round(&mut self, lost: bool, now: Local, wall: Wall, status: ReadyStatus) -> Option<Ask>
        requires now { now.0 ≤ most_local }
        ensures same { IsSame self.old self.new }
        ensures asks { asked_of result ≡ numbered (state_of self.old) (round_in self.old now.0 wall.0 status lost (state_of self.old)) }
        ensures kept { state_of self.new ≡ after_round self.old now.0 wall.0 status lost (state_of self.old) }
        ensures history { (doc : Doc) (q : Identity) (h : List Entry) (k : ℕ)
            → Expired doc k q h self.old lost → now.0 ≡ local doc q.process k → wall.0 ≡ wall_at doc q.process k
            → status ≡ posted_status doc q.process h → begun q h + 1 < 2 ^ 64
            → Moved doc k 4 q h (round doc k q h) (λ x. KubeletStands doc q x self.new) result }
    {
        if lost {
            return Some(self.ask(Request::Get(self.lease_key()), now));
        }
        if !self.slot.is_idle() || now.0 < self.timer.0 {
            return None;
        }
        self.timer = Local(now.0 + self.timing.period());
        Some(self.ask(Request::PostStatus(self.node, status, wall), now))
    }

    /// Begins a call.
    fn ask(&mut self, request: Request, now: Local) -> Ask
        requires kind { keeps_kind request ≡ true }
        requires lease { gets_lease request ≡ true }
        requires now { now.0 ≤ most_local }
        ensures changed { self.new ≡ record self.old { slot = self.new.slot; waiting = self.new.waiting } }
        ensures asks { BeginsCall self.old now.0 request self.new result }
        ensures history { (doc : Doc) (q : Identity) (h next : List Entry) (k step : ℕ)
            → CallStands doc q h self.old → now.0 ≡ local doc q.process k
            → begun q h + 1 < 2 ^ 64 → next ≡ send doc k step q Plain request h
            → Asked doc k step q h next (λ x. CallStands doc q x self.new) result }
    {
        let number = self.slot.begin(now);
        self.waiting = Some(Waiting {
            awaited: Awaited::of(&request),
            late: Local(now.0 + self.timing.timeout + 1),
        });
        Ask { number, request }
    }

    // ---- requests

    /// What a reply that counts is followed by.
    fn next(&self, awaited: Awaited, reply: &Reply, wall: Wall) -> Option<Request>
        requires lease { finds_lease awaited ≡ true }
        ensures kind { IfSome result (λ request. (keeps_kind request ≡ true) × (gets_lease request ≡ true) × (is_post request ≡ false)) }
        ensures moment { result ≡ next_at self.now wall.0 awaited reply.now }
        ensures history { (doc : Doc) (q : Identity) (k : ℕ) (request : Sought) → self.now.node ≡ node_of doc q.process
            → self.now.timing.lease_seconds ≡ doc.settings.node_lease_duration_seconds → wall.0 ≡ wall_at doc q.process k
            → awaited ≡ awaited_in request → result ≡ next_request doc q k request reply.now }
    {
        match awaited {
            Awaited::Post => Some(Request::Get(self.lease_key())),
            Awaited::Get(key) => self.write(key, reply, wall),
            Awaited::Write => None,
        }
    }

    /// The write that a reply to the Get is followed by.
    fn write(&self, key: Key, reply: &Reply, wall: Wall) -> Option<Request>
        ensures moment { result ≡ found_at self.now wall.0 key reply.now }
    {
        match *reply {
            Reply::Absent => Some(Request::Create(key, self.new_lease(wall))),
            Reply::Found(version, lease) => {
                Some(Request::Update(key, version, self.renewal(&lease, wall)))
            }
            _ => None,
        }
    }

    fn lease_key(&self) -> Key
        ensures { result ≡ node_lease self.now.node }
    {
        Key {
            kind: Kind::Lease,
            space: KUBE_NODE_LEASE,
            name: self.node,
        }
    }

    fn new_lease(&self, wall: Wall) -> Lease
        ensures { result ≡ heartbeat_at self.now wall.0 None }
    {
        Lease {
            holder: Holder::Foreign(self.node),
            duration: Some(self.timing.lease_seconds),
            acquired: None,
            renewed: Some(wall),
            transitions: None,
        }
    }

    /// What a found Lease has besides stays.
    fn renewal(&self, lease: &Lease, wall: Wall) -> Lease
        ensures { result ≡ heartbeat_at self.now wall.0 (Some lease.now) }
    {
        Lease {
            acquired: lease.acquired,
            transitions: lease.transitions,
            ..self.new_lease(wall)
        }
    }
}

/// Whether a post waits.
fn is_post(waiting: &Option<Waiting>) -> bool
    ensures { result ≡ is_post_wait (waiting_of waiting.now) }
{
    match *waiting {
        Some(waiting) => match waiting.awaited {
            Awaited::Post => true,
            _ => false,
        },
        None => false,
    }
}
