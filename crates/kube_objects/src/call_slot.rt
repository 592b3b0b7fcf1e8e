// The call of one incarnation that waits for its reply.
ghost use Rattle.std.specs.Prelude.{◌≡◌, ℕ, ◌+◌, ◌^◌, ◌<◌, true, not, List, ◌∷◌, Option, Some, None};
ghost use Rattle.kube_objects.specs.CallSlots.{CallSlotStands, is_late_call, waits};
ghost use Rattle.kube_objects.specs.CallSlots.{calls_of, held_call, is_awaited, is_overdue, next_number};
ghost use Rattle.kube_objects.specs.Clocks.{local};
ghost use Rattle.kube_objects.specs.Document.{Doc, call_timeout};
ghost use Rattle.kube_objects.specs.Entry.{Entry, Identity, Call, CallKind, Release, Sends, Delivers, Expires, entry};
ghost use Rattle.kube_objects.specs.Newest.{has};
ghost use Rattle.kube_objects.specs.Process.{begun, call_in, answered_call};
ghost use Rattle.kube_objects.specs.Wire.{next_call};
ghost use Rattle.kube_objects.specs.declared.call.Reply.{Reply};
ghost use Rattle.kube_objects.specs.declared.call.Request.{Request};

use kube_base::Local;

/// A call by its number and the reading at which it was sent.
#[derive(Clone, Copy, Debug, PartialEq, Eq)]
pub(crate) struct Waiting {
    number: u64,
    sent: Local,
}

/// At most one call of one incarnation, and how many calls it has begun. No method takes memory.
#[derive(Clone, Copy, Debug, PartialEq, Eq)]
pub struct CallSlot {
    begun: u64,
    waiting: Option<Waiting>,
}

impl CallSlot {
    /// No call was begun and none is held.
    pub fn new() -> CallSlot
        ensures count { calls_of result ≡ 0 }
        ensures held { held_call result ≡ None }
        ensures stands { (doc : Doc) (q : Identity) (h : List Entry) → begun q h ≡ 0 → CallSlotStands doc q h result }
    {
        CallSlot {
            begun: 0,
            waiting: None,
        }
    }

    /// Whether no call is held.
    pub fn is_idle(&self) -> bool
        ensures held { result ≡ not (has (held_call self.now)) }
        ensures call { (doc : Doc) (q : Identity) (h : List Entry) → CallSlotStands doc q h self.now
            → result ≡ not (has (call_in q h)) }
    {
        self.waiting.is_none()
    }

    /// Begins a call that waits for its reply, in the place of one that is held. Answers its number, which is the next one.
    pub fn begin(&mut self, now: Local) -> u64
        ensures next { result ≡ next_number (calls_of self.old) }
        ensures count { calls_of self.new ≡ result }
        ensures held { held_call self.new ≡ Some (result, now.0) }
        ensures number { (doc : Doc) (q : Identity) (h : List Entry) → CallSlotStands doc q h self.old → begun q h + 1 < 2 ^ 64
            → result ≡ begun q h + 1 }
        ensures stands { (doc : Doc) (q : Identity) (h : List Entry) (k step : ℕ) (kind : CallKind) (request : Request)
            (arrives : Option ℕ) → CallSlotStands doc q h self.old → begun q h + 1 < 2 ^ 64
            → now.0 ≡ local doc q.process k → waits kind ≡ true
            → CallSlotStands doc q (entry k step q (Sends (next_call q k kind request h) arrives) ∷ h) self.new }
    {
        self.begun = self.begun.saturating_add(1);
        self.waiting = Some(Waiting {
            number: self.begun,
            sent: now,
        });
        self.begun
    }

    /// Begins a call whose reply nobody waits for, as the update that gives up the lead. Answers its number; none is held after it.
    pub fn begin_unheld(&mut self) -> u64
        ensures next { result ≡ next_number (calls_of self.old) }
        ensures count { calls_of self.new ≡ result }
        ensures held { held_call self.new ≡ None }
        ensures number { (doc : Doc) (q : Identity) (h : List Entry) → CallSlotStands doc q h self.old → begun q h + 1 < 2 ^ 64
            → result ≡ begun q h + 1 }
        ensures stands { (doc : Doc) (q : Identity) (h : List Entry) (k step : ℕ) (request : Request) (arrives : Option ℕ)
            → CallSlotStands doc q h self.old → begun q h + 1 < 2 ^ 64
            → CallSlotStands doc q (entry k step q (Sends (next_call q k Release request h) arrives) ∷ h) self.new }
    {
        self.begun = self.begun.saturating_add(1);
        self.waiting = None;
        self.begun
    }

    /// Whether a reply with this number counts: the call that is held has it, and its timeout isn't over. The timeout is in 10^-12 s.
    pub fn accepts(&self, number: u64, now: Local, timeout: u64) -> bool
        ensures held { result ≡ is_awaited number now.0 timeout (held_call self.now) }
        ensures call { (doc : Doc) (q : Identity) (h : List Entry) (k : ℕ) → CallSlotStands doc q h self.now
            → now.0 ≡ local doc q.process k → timeout ≡ call_timeout doc q.process
            → result ≡ has (answered_call doc q k number (call_in q h)) }
    {
        match self.waiting {
            None => false,
            Some(waiting) => {
                waiting.number == number && now.0.saturating_sub(waiting.sent.0) <= timeout
            }
        }
    }

    /// Whether a call is held whose timeout is over. The timeout is in 10^-12 s.
    pub fn expired(&self, now: Local, timeout: u64) -> bool
        ensures held { result ≡ is_overdue now.0 timeout (held_call self.now) }
        ensures call { (doc : Doc) (q : Identity) (h : List Entry) (k : ℕ) → CallSlotStands doc q h self.now
            → now.0 ≡ local doc q.process k → timeout ≡ call_timeout doc q.process
            → result ≡ is_late_call doc q k (call_in q h) }
    {
        match self.waiting {
            None => false,
            Some(waiting) => now.0.saturating_sub(waiting.sent.0) > timeout,
        }
    }

    /// The call has its reply, or has expired: none is held.
    pub fn finish(&mut self)
        ensures count { calls_of self.new ≡ calls_of self.old }
        ensures held { held_call self.new ≡ None }
        ensures delivered { (doc : Doc) (q : Identity) (h : List Entry) (k step : ℕ) (call : Call) (reply : Reply)
            → CallSlotStands doc q h self.old → CallSlotStands doc q (entry k step q (Delivers call reply true) ∷ h) self.new }
        ensures expired { (doc : Doc) (q : Identity) (h : List Entry) (k step : ℕ) (call : Call)
            → CallSlotStands doc q h self.old → CallSlotStands doc q (entry k step q (Expires call) ∷ h) self.new }
    {
        self.waiting = None;
    }
}
