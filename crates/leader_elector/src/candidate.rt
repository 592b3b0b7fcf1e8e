// A candidate asks for the election Lease until it leads.
ghost use Rattle.std.specs.Prelude.{◌≡◌, ◌≤◌, ◌<◌, ◌+◌, ◌^◌, ℕ, true, false, List, ◌∷◌, Some, None, All};
ghost use Rattle.kube_base.specs.Bounds.{most_local};
ghost use Rattle.kube_objects.specs.Clocks.{local, wall as wall_at};
ghost use Rattle.kube_objects.specs.Document.{Doc};
ghost use Rattle.kube_objects.specs.Elector.{timer};
ghost use Rattle.kube_objects.specs.Entry.{Call, Delivers, Entry, Identity, Starts, entry};
ghost use Rattle.kube_objects.specs.Process.{alive, begun, call_in, counted};
ghost use Rattle.kube_objects.specs.Turns.{expired, with_reply};
ghost use Rattle.leader_elector.specs.declared.candidate.Heard.TheVariants as heard;
ghost use Rattle.leader_elector.specs.Moves.{CandidateHears, CandidateReplies, CandidateStays, CandidateTurns, IsLeast, after_turn};
ghost use Rattle.leader_elector.specs.Moves.{becomes_leader, candidate_turn, reacted, wake_from};
ghost use Rattle.leader_elector.specs.Stands.{AreWaitsOf, CandidateStands, IsNew, IsTimingOf};
ghost use Rattle.leader_elector.specs.Calls.{CandidateFollows, CandidateTakesReply, CandidateTakesTurn, TakesTurn, counts_in};
ghost use Rattle.leader_elector.specs.Plain.{identity_of, started_at, state_of, moment_of, wake_in};
ghost use Rattle.leader_elector.specs.Stands.{Wait, waiting_of};
ghost use Rattle.leader_elector.specs.declared.candidate.CandidateNext.TheVariants as next;

use crate::elector::Elector;
use crate::follow::Follow;
use crate::{Leading, Timing, Won};
use kube_base::{Local, ProcId, Wall};
use kube_objects::{Ask, Reply};
use std::mem;

/// A process that is up and doesn't lead.
#[derive(Drop)]
pub struct Candidate {
    pub(crate) elector: Elector,
}

/// What a candidate does: nothing, a request, or it leads.
#[derive(Drop)]
pub enum CandidateNext {
    Stay(Candidate),
    Ask(Candidate, Ask),
    Lead(Leading),
}

/// What a reply makes a candidate do: nothing, a request, or it has won the lead.
#[derive(Drop)]
pub enum Heard {
    Stays,
    Asks(Ask),
    Wins(Won),
}

impl Candidate {
    /// A candidate that has sent nothing. Its first attempt starts at its next turn.
    pub fn start(me: ProcId, incarnation: u32, timing: Timing, now: Local) -> Candidate
        ensures me { (result.elector.me ≡ me) × (result.elector.incarnation ≡ incarnation) × (result.elector.timing ≡ timing) }
        ensures kept { state_of result.elector ≡ started_at now.0 }
        ensures stands { (doc : Doc) (q : Identity) (h : List Entry) (k step : ℕ) → me.0 ≡ q.process
            → incarnation ≡ q.incarnation → IsTimingOf doc q.process timing
            → now.0 ≡ local doc q.process k → IsNew doc q h
            → CandidateStands doc q (entry k step q Starts ∷ h) result }
    {
        Candidate {
            elector: Elector::start(me, incarnation, timing, now),
        }
    }

    /// A turn: a call that has expired is forgotten, then an attempt starts if it is time. It never leads. After each failed attempt
    /// it waits by the next of its waits, in thousandths of its retry period.
    pub fn on_timer(mut self, waits: &[u32], now: Local, wall: Wall) -> CandidateNext
        requires now { now.0 ≤ most_local }
        requires waits { All (λ w. w ≤ 2200) waits.now }
        ensures never_leads { becomes_leader result ≡ false }
        ensures takes { CandidateTakesTurn self.elector waits.now now.0 wall.0 result }
        ensures turns { (doc : Doc) (q : Identity) (h : List Entry) (k : ℕ)
            → CandidateStands doc q h self → AreWaitsOf doc q.process waits.now → now.0 ≡ local doc q.process k
            → wall.0 ≡ wall_at doc q.process k → begun q h + 1 < 2 ^ 64
            → CandidateTurns doc k q (expired doc k q h) result }
    {
        match self.turn(waits, now, wall) {
            Some(ask) => CandidateNext::Ask(self, ask),
            None => CandidateNext::Stay(self),
        }
    }

    /// As `on_timer`, in place: what it asks, if anything.
    pub fn turn(&mut self, waits: &[u32], now: Local, wall: Wall) -> Option<Ask>
        requires now { now.0 ≤ most_local }
        requires waits { All (λ w. w ≤ 2200) waits.now }
        ensures takes { TakesTurn waits.now false self.old.elector now.0 wall.0 self.new.elector result }
        ensures turns { (doc : Doc) (q : Identity) (h : List Entry) (k : ℕ)
            → CandidateStands doc q h self.old → AreWaitsOf doc q.process waits.now → now.0 ≡ local doc q.process k
            → wall.0 ≡ wall_at doc q.process k → begun q h + 1 < 2 ^ 64
            → CandidateTurns doc k q (expired doc k q h) (after_turn self.new result) }
    {
        let expired = self.elector.expire(false, waits, now);
        self.elector.attempt(expired, false, now, wall)
    }

    /// A reply. Only one to the call that waits, with its number and within its timeout, counts. The waits are those of `on_timer`.
    pub fn on_reply(
        mut self,
        waits: &[u32],
        number: u64,
        reply: Reply,
        now: Local,
        wall: Wall,
    ) -> CandidateNext
        requires now { now.0 ≤ most_local }
        requires waits { All (λ w. w ≤ 2200) waits.now }
        ensures stays { counts_in self.elector number now.0 ≡ false → result ≡ next.Stay self }
        ensures follows { (w : Wait) → counts_in self.elector number now.0 ≡ true → waiting_of self.elector.waiting ≡ Some w
            → CandidateFollows self.elector waits.now (moment_of self.elector now.0 wall.0) w reply result }
        ensures uncounted { (doc : Doc) (q : Identity) (h : List Entry) (k : ℕ)
            → CandidateStands doc q h self → now.0 ≡ local doc q.process k
            → alive q.process h ≡ Some q.incarnation
            → counted doc q k number h ≡ None → (call : Call)
            → CandidateStays doc q (entry k 3 q (Delivers call reply false) ∷ h) result }
        ensures counts { (doc : Doc) (q : Identity) (h : List Entry) (k : ℕ) (call : Call)
            → CandidateStands doc q h self → AreWaitsOf doc q.process waits.now → now.0 ≡ local doc q.process k
            → wall.0 ≡ wall_at doc q.process k → begun q h + 1 < 2 ^ 64
            → counted doc q k number h ≡ Some call
            → CandidateReplies doc k q (with_reply k q call reply h) (reacted doc k q call reply h) result }
    {
        match self.hear(waits, number, &reply, now, wall) {
            Heard::Stays => CandidateNext::Stay(self),
            Heard::Asks(ask) => CandidateNext::Ask(self, ask),
            Heard::Wins(won) => CandidateNext::Lead(won.lead()),
        }
    }

    /// As `on_reply`, in place. If it wins, what it kept goes into the answer, and this is one that has just started.
    pub fn hear(
        &mut self,
        waits: &[u32],
        number: u64,
        reply: &Reply,
        now: Local,
        wall: Wall,
    ) -> Heard
        requires now { now.0 ≤ most_local }
        requires waits { All (λ w. w ≤ 2200) waits.now }
        ensures stays { counts_in self.old.elector number now.0 ≡ false → (result ≡ heard.Stays) × (self.new ≡ self.old) }
        ensures takes { (w : Wait) → counts_in self.old.elector number now.0 ≡ true → waiting_of self.old.elector.waiting ≡ Some w
            → CandidateTakesReply self.old.elector waits.now (moment_of self.old.elector now.0 wall.0) w reply.now self.new.elector result }
        ensures uncounted { (doc : Doc) (q : Identity) (h : List Entry) (k : ℕ)
            → CandidateStands doc q h self.old → now.0 ≡ local doc q.process k
            → alive q.process h ≡ Some q.incarnation
            → counted doc q k number h ≡ None → (call : Call)
            → (result ≡ heard.Stays) × CandidateStands doc q (entry k 3 q (Delivers call reply.now false) ∷ h) self.new }
        ensures counts { (doc : Doc) (q : Identity) (h : List Entry) (k : ℕ) (call : Call)
            → CandidateStands doc q h self.old → AreWaitsOf doc q.process waits.now → now.0 ≡ local doc q.process k
            → wall.0 ≡ wall_at doc q.process k → begun q h + 1 < 2 ^ 64
            → counted doc q k number h ≡ Some call
            → CandidateHears doc k q (with_reply k q call reply.now h) (reacted doc k q call reply.now h) self.new result }
    {
        let Some(follow) = self.elector.receive(false, waits, number, reply, now, wall) else {
            return Heard::Stays;
        };
        match follow {
            Follow::Fails => Heard::Stays,
            Follow::Asks(request) => Heard::Asks(self.elector.ask(request, false, now)),
            Follow::Succeeds(_) => Heard::Wins(self.win(now)),
        }
    }

    // Hands out what it kept.
    fn win(&mut self, now: Local) -> Won
        requires now { now.0 ≤ most_local }
        ensures { (result.elector ≡ self.old.elector) × (result.now ≡ now) }
    {
        let elector = &self.elector;
        let fresh = Elector::start(elector.me, elector.incarnation, elector.timing, now);
        Won {
            elector: mem::replace(&mut self.elector, fresh),
            now,
        }
    }

    /// The least reading at which `on_timer` does anything: that at which the call that waits has expired, or else the timer.
    pub fn wake(&self) -> Local
        ensures kept { result.0 ≡ wake_in (state_of self.now.elector) }
        ensures reading { (doc : Doc) (q : Identity) (h : List Entry)
            → CandidateStands doc q h self.now
            → result.0 ≡ wake_from doc q (timer doc q h) (call_in q h) }
        ensures least { (doc : Doc) (q : Identity) (h : List Entry) (k : ℕ)
            → CandidateStands doc q h self.now
            → IsLeast result.0 (local doc q.process k) h (candidate_turn doc k q h) }
    {
        self.elector.wake()
    }
}
