// A leader that gives up its Lease at the end of its term: by an emptying of what it had last, or of what a look finds.
ghost use Rattle.std.specs.Prelude.{◌≡◌, ◌&&◌, ◌≤◌, ◌<◌, ◌+◌, ◌^◌, ℕ, not, nat_lt, is_some, true, false, List, ◌∷◌, Option, Some, None, IfSome};
ghost use Rattle.kube_base.specs.Bounds.{most_local};
ghost use Rattle.kube_objects.specs.CallSlots.{calls_of, held_call, next_number};
ghost use Rattle.kube_objects.specs.Clocks.{local, wall as wall_at};
ghost use Rattle.kube_objects.specs.Document.{Doc};
ghost use Rattle.kube_objects.specs.Elector.{acts_on, leads_on, release_from};
ghost use Rattle.kube_objects.specs.Entry.{Call, Delivers, Entry, Identity, ReleaseStops, entry};
ghost use Rattle.kube_objects.specs.Kinds.{keeps_kind};
ghost use Rattle.kube_objects.specs.Process.{alive, begun, call_in, counted};
ghost use Rattle.kube_objects.specs.Releases.{after_look, may_empty, react_in_release, shows_own};
ghost use Rattle.kube_objects.specs.Turns.{expired, with_reply};
ghost use Rattle.leader_elector.specs.Moves.{BeginsRelease, IsLeast, ReleasingReplies, ReleasingStays, ReleasingTurns};
ghost use Rattle.leader_elector.specs.Plain.{identity_of};
ghost use Rattle.leader_elector.specs.Releases.{acts_until, first_request, is_over_at, is_look, release_wake};
ghost use Rattle.leader_elector.specs.Stands.{ElectorStands, ReleasingStands, acting_identity, ended_identity, releasing_identity, shown_of};

use crate::elector::{Elector, vacant_lease};
use crate::{Acting, Ended, ReleaseEnd};
use kube_base::{Local, Wall};
use kube_objects::{Ask, Key, Lease, ReleaseActing, ReleaseRule, Reply, Request};

/// A process that releases its Lease, and waits for the reply to its look or to its emptying.
#[derive(Drop)]
pub struct Releasing {
    pub(crate) elector: Elector,
    /// The reading from which on the release is over.
    pub(crate) until: Local,
    /// The least reading at which its call has expired.
    pub(crate) late: Local,
    /// Whether the call is its look.
    pub(crate) looks: bool,
    /// Whether the record last shown was its own when the release began.
    pub(crate) mine: bool,
    /// Whether it began at the deadline, and no stop came since.
    pub(crate) ending: bool,
}

/// What a process does that releases its Lease: nothing, a request, or the release is over.
#[derive(Drop)]
pub enum ReleasingNext {
    Stay(Releasing),
    Ask(Releasing, Ask),
    Over(ReleaseEnd),
}

impl Releasing {
    /// Begins to release what a leader had last; None if there is nothing to be asked, so that it is over as it begins.
    pub(crate) fn begin(
        mut elector: Elector,
        ending: bool,
        now: Local,
        wall: Wall,
    ) -> Option<(Releasing, Ask)>
        requires now { now.0 ≤ most_local }
        ensures asks { is_some result ≡ is_some (first_request elector wall.0) }
        ensures identity { IfSome result (λ x. releasing_identity x.0 ≡ identity_of elector) }
        ensures begins { (doc : Doc) (q : Identity) (h : List Entry) (k step : ℕ) → ElectorStands doc q h elector
            → now.0 ≡ local doc q.process k → wall.0 ≡ wall_at doc q.process k → begun q h + 1 < 2 ^ 64
            → BeginsRelease doc k step q ending h result }
    {
        let request = first_request(&elector, wall)?;
        let mine = is_mine(&elector);
        let until = Local(now.0 + elector.timing.renew);
        let late = Local(now.0 + elector.timing.timeout + 1);
        let number = elector.slot.begin(now);
        let releasing = Releasing {
            elector,
            until,
            late,
            looks: is_look(&request),
            mine,
            ending,
        };
        Some((releasing, Ask { number, request }))
    }

    /// A turn: the release is over if its call has expired, or if a renew deadline is over since it began.
    pub fn on_timer(self, now: Local) -> ReleasingNext
        requires now { now.0 ≤ most_local }
        ensures turns { (doc : Doc) (q : Identity) (h : List Entry) (k : ℕ) → ReleasingStands doc q h self
            → alive q.process h ≡ Some q.incarnation → now.0 ≡ local doc q.process k
            → ReleasingTurns doc k q h (expired doc k q h) result }
    {
        if now.0 < self.wake().0 {
            return ReleasingNext::Stay(self);
        }
        ReleasingNext::Over(self.over())
    }

    /// A reply. Only one to the call that waits, with its number, within its timeout and within a renew deadline, counts. A look's is
    /// followed by the emptying if that may be; every other one ends the release. Nothing is shown by it.
    pub fn on_reply(mut self, number: u64, reply: Reply, now: Local, wall: Wall) -> ReleasingNext
        requires now { now.0 ≤ most_local }
        ensures uncounted { (doc : Doc) (q : Identity) (h : List Entry) (k : ℕ)
            → ReleasingStands doc q h self → now.0 ≡ local doc q.process k
            → alive q.process h ≡ Some q.incarnation
            → counted doc q k number h ≡ None → (call : Call)
            → ReleasingStays doc q (entry k 3 q (Delivers call reply false) ∷ h) result }
        ensures counts { (doc : Doc) (q : Identity) (h : List Entry) (k : ℕ) (call : Call)
            → ReleasingStands doc q h self → now.0 ≡ local doc q.process k
            → wall.0 ≡ wall_at doc q.process k → begun q h + 1 < 2 ^ 64
            → alive q.process h ≡ Some q.incarnation
            → counted doc q k number h ≡ Some call
            → ReleasingReplies doc k q (with_reply k q call reply h) (react_in_release doc k q call.kind reply (with_reply k q call reply h)) result }
    {
        if !self.accepts(number, now) {
            return ReleasingNext::Stay(self);
        }
        match self.emptying_after(&reply, wall) {
            None => ReleasingNext::Over(self.over()),
            Some(request) => {
                let ask = self.empty(request, now);
                ReleasingNext::Ask(self, ask)
            }
        }
    }

    /// It is stopped: the release goes on, but its leader acts no more, and its process doesn't start again.
    pub fn stop(mut self) -> Releasing
        ensures identity { releasing_identity result ≡ releasing_identity self }
        ensures stands { (doc : Doc) (q : Identity) (h : List Entry) (k step : ℕ) → ReleasingStands doc q h self
            → ReleasingStands doc q (entry k step q ReleaseStops ∷ h) result }
    {
        self.ending = false;
        self
    }

    /// The leadership that it has until the release is over, if it acts.
    pub fn acting(&self) -> Option<Acting<'_>>
        ensures acts { (doc : Doc) (q : Identity) (h : List Entry) (k : ℕ) → ReleasingStands doc q h self.now
            → alive q.process h ≡ Some q.incarnation
            → is_some result ≡ leads_on doc.settings.rules.release doc q k h }
        ensures identity { IfSome result (λ a. acting_identity a ≡ releasing_identity self.now) }
    {
        if self.acts() {
            Some(Acting {
                elector: &self.elector,
            })
        } else {
            None
        }
    }

    /// Whether its leader acts until it is over.
    pub fn acts(&self) -> bool
        ensures plain { result ≡ acts_until self.now }
        ensures history { (doc : Doc) (q : Identity) (h : List Entry) → ReleasingStands doc q h self.now
            → alive q.process h ≡ Some q.incarnation
            → result ≡ acts_on doc q h }
    {
        match self.elector.timing.in_release {
            ReleaseActing::Still => false,
            ReleaseActing::Acts => self.ending,
        }
    }

    /// The least reading at which `on_timer` ends it.
    pub fn wake(&self) -> Local
        ensures kept { result.0 ≡ release_wake self.now }
        ensures least { (doc : Doc) (q : Identity) (h : List Entry) (k : ℕ) → ReleasingStands doc q h self.now
            → IsLeast result.0 (local doc q.process k) h (expired doc k q h) }
    {
        if self.until.0 < self.late.0 {
            self.until
        } else {
            self.late
        }
    }

    // Whether a reply with this number counts.
    fn accepts(&self, number: u64, now: Local) -> bool
        ensures { (doc : Doc) (q : Identity) (h : List Entry) (k : ℕ) → ReleasingStands doc q h self.now
            → now.0 ≡ local doc q.process k → alive q.process h ≡ Some q.incarnation
            → result ≡ is_some (counted doc q k number h) }
    {
        let timeout = self.elector.timing.timeout;
        now.0 < self.until.0 && self.elector.slot.accepts(number, now, timeout)
    }

    // What a counted reply is followed by.
    fn emptying_after(&self, reply: &Reply, wall: Wall) -> Option<Request>
        ensures look { self.now.looks ≡ true
            → result ≡ after_look self.now.elector.timing.release (releasing_identity self.now) wall.0 self.now.mine reply.now }
        ensures emptying { self.now.looks ≡ false → result ≡ None }
        ensures kind { IfSome result (λ request. keeps_kind request ≡ true) }
    {
        if !self.looks || !self.mine {
            return None;
        }
        let Reply::Found(version, lease) = *reply else {
            return None;
        };
        if !self.may_empty(&lease) {
            return None;
        }
        let vacant = vacant_lease(&lease, wall);
        Some(Request::Update(Key::ELECTION, version, vacant))
    }

    // Whether the holder that was found is right.
    fn may_empty(&self, lease: &Lease) -> bool
        ensures { result ≡ may_empty self.now.elector.timing.release (releasing_identity self.now) lease.now }
    {
        match self.elector.timing.release {
            ReleaseRule::Checked => self.elector.holds(lease),
            ReleaseRule::Stop | ReleaseRule::Own | ReleaseRule::Reread => true,
        }
    }

    // The call that empties the Lease.
    fn empty(&mut self, request: Request, now: Local) -> Ask
        requires kind { keeps_kind request ≡ true }
        requires now { now.0 ≤ most_local }
        ensures request { result.request ≡ request }
        ensures number { result.number ≡ next_number (calls_of self.old.elector.slot) }
        ensures held { held_call self.new.elector.slot ≡ Some (result.number, now.0) }
        ensures late { self.new.late.0 ≡ now.0 + self.old.elector.timing.timeout + 1 }
        ensures looks { self.new.looks ≡ false }
        ensures kept { (self.new.until ≡ self.old.until) × (self.new.mine ≡ self.old.mine) × (self.new.ending ≡ self.old.ending) }
        ensures same { (self.new.elector.me ≡ self.old.elector.me) × (self.new.elector.incarnation ≡ self.old.elector.incarnation)
            × (self.new.elector.timing ≡ self.old.elector.timing) }
        ensures calls { calls_of self.new.elector.slot ≡ result.number }
    {
        let number = self.elector.slot.begin(now);
        self.late = Local(now.0 + self.elector.timing.timeout + 1);
        self.looks = false;
        Ask { number, request }
    }

    fn over(&self) -> ReleaseEnd
        ensures over { is_over_at self.now result ≡ true }
        ensures identity { ended_identity result.ended ≡ releasing_identity self.now }
    {
        ReleaseEnd {
            ended: Ended {
                me: self.elector.me,
                incarnation: self.elector.incarnation,
            },
            acted: self.acts(),
            restarts: self.ending,
        }
    }
}

/// The update that empties what was last shown, if it is one's own.
pub(crate) fn vacating(elector: &Elector, wall: Wall) -> Option<Request>
    ensures { result ≡ release_from (identity_of elector.now) wall.0 (shown_of elector.now.seen) }
{
    match elector.seen {
        Some(seen) if elector.holds(&seen.lease) => {
            let vacant = vacant_lease(&seen.lease, wall);
            Some(Request::Update(Key::ELECTION, seen.version, vacant))
        }
        _ => None,
    }
}

// What a release begins with.
fn first_request(elector: &Elector, wall: Wall) -> Option<Request>
    ensures { result ≡ first_request elector.now wall.0 }
{
    match elector.timing.release {
        ReleaseRule::Stop => None,
        ReleaseRule::Own => vacating(elector, wall),
        ReleaseRule::Checked | ReleaseRule::Reread => Some(Request::Get(Key::ELECTION)),
    }
}

// Whether the record last shown is one's own.
fn is_mine(elector: &Elector) -> bool
    ensures { result ≡ shows_own (identity_of elector.now) (shown_of elector.now.seen) }
{
    match elector.seen {
        Some(seen) => elector.holds(&seen.lease),
        None => false,
    }
}

fn is_look(request: &Request) -> bool
    ensures { result ≡ is_look request.now }
{
    match *request {
        Request::Get(_) => true,
        _ => false,
    }
}
