// A controller of the world: its clock, its part in the election, and its term.
ghost use Rattle.std.specs.Prelude.{◌≡◌, ◌+◌, ◌<◌, ◌≤◌, ◌^◌, ℕ, true, false, List, [], Option, Some, None, IfOk, IfSome, is_some};
ghost use Rattle.kube_base.specs.Bounds.{most_local};
ghost use Rattle.kube_base.specs.declared.numbers.Local.{Local};
ghost use Rattle.kube_base.specs.declared.numbers.ProcId.{ProcId};
ghost use Rattle.kube_objects.specs.declared.script.What.TheVariants as what;
ghost use Rattle.kube_objects.specs.Clocks.{local, wall as wall_in};
ghost use Rattle.kube_objects.specs.Document.{Doc, is_controller, restart_delay, waits_of};
ghost use Rattle.kube_objects.specs.Entry.{Entry};
ghost use Rattle.kube_objects.specs.Identities.{identity};
ghost use Rattle.kube_objects.specs.Newest.{when};
ghost use Rattle.kube_objects.specs.Pauses.{is_paused};
ghost use Rattle.kube_objects.specs.Process.{alive, starts};
ghost use Rattle.kube_objects.specs.Wire.{Back};
ghost use Rattle.history.specs.Sound.{AreApart};
ghost use Rattle.history.specs.Steps.{happens, start, restart};
ghost use Rattle.agenda_laws.specs.Times.{elector_reading};
ghost use Rattle.leader_elector.specs.declared.leading.Leading.{Leading};
ghost use Rattle.leader_elector.specs.declared.releasing.Releasing.{Releasing};
ghost use Rattle.leader_elector.specs.Stands.{acting_identity};
ghost use Rattle.script_reader.specs.Lawful.{AreLawful, AreWaits, IsLawful};
ghost use Rattle.world_process.specs.declared.controller.Role.TheVariants as role;
ghost use Rattle.world_process.specs.Beats.{IsBeatOf, reading_of};
ghost use Rattle.world_process.specs.Clocked.{AreEventsFrom, ClockStands, IsMadeOf};
ghost use Rattle.world_process.specs.Controllers.{ControllerStands, RoleStands, SameController, is_up_as, waiting_of};
ghost use Rattle.world_process.specs.Controllers.{Crashed, Begun, StoppedAs, Restarted, Timed, Turned, Replied};
ghost use Rattle.world_process.specs.Plain.{IsPlain, IsFew};
ghost use Rattle.world_process.specs.Processes.{leads_as};
ghost use Rattle.world_process.specs.declared.controller.Controller.{Controller};

use crate::clocks::times_for;
use crate::moves::{
    Received, Stopped, Turn, asks, begins_release, ends, ends_with, leads, stays, stop_with,
    turn_with,
};
use crate::settings::tick_settings;
use crate::waits::Waits;
use crate::waking::Waking;
use controller_core::{Term, picoseconds};
use kube_base::{Beat, Local, NoMemory, ProcId, Wall};
use kube_objects::{Event, NumberList, Proc, Reply, Settings};
use leader_elector::{
    Acting, Candidate, Heard, Leading, LeadingNext, ReleaseEnd, Released, Releasing, ReleasingNext,
    Timing,
};
use pause_times::Pauses;
use skew_clock::Clock;
use std::alloc::Global;
use std::mem;

/// What a controller is. If it is down it may have a reading at which it starts again; it is up until the release of its Lease is over.
#[derive(Drop)]
pub enum Role {
    Down(Option<Local>),
    Candidate(Candidate),
    Leading(Leading),
    Releasing(Releasing),
}

impl Role {
    /// The leadership at a beat, in a term that isn't over or in a release that acts; None if there is none.
    pub fn acting(&self, clock: &Clock, beat: Beat) -> Option<Acting<'_>>
        requires { beat.0 ≤ clock.now.end }
        ensures leads { (doc : Doc) (k p i : ℕ) (h : List Entry) → RoleStands doc p i h self.now → ClockStands doc p clock.now
            → beat.0 ≡ k → is_some result ≡ leads_as doc k p true h }
        ensures identity { (doc : Doc) (p i : ℕ) (h : List Entry) → RoleStands doc p i h self.now
            → IfSome result (λ a. acting_identity a ≡ identity p i) }
        ensures up { (doc : Doc) (p i : ℕ) (h : List Entry) → RoleStands doc p i h self.now
            → IfSome result (λ a. alive p h ≡ Some i) }
    {
        match self {
            Role::Down(_) => None,
            Role::Candidate(_) => None,
            Role::Leading(leading) => leading.acting(clock.local(beat)),
            Role::Releasing(releasing) => releasing.acting(),
        }
    }
}

/// A controller with its clock. The incarnation counts its starts, and the term is that of the incarnation that is up.
#[derive(Drop)]
pub struct Controller {
    pub me: ProcId,
    pub incarnation: u32,
    pub timing: Timing,
    pub waits: Waits,
    pub clock: Clock,
    pub pauses: Pauses,
    pub up_first: bool,
    pub role: Role,
    pub term: Box<Term>,
    pub waking: Waking,
}

impl Controller {
    /// A controller that has never been up. Its clock has the rates of all its events.
    pub fn new(
        alloc: Global,
        me: ProcId,
        settings: &Settings,
        process: &Proc,
        waits: &NumberList,
        events: &[Event],
    ) -> Result<Controller, NoMemory>
        requires settings { AreLawful settings.now }
        requires process { IsLawful process.now }
        requires waits { AreWaits waits.now }
        requires events { AreEventsFrom settings.now.end_beat.0 0 events.now }
        requires apart { AreApart events.now }
        ensures end { IfOk result (λ c. c.clock.end ≡ settings.now.end_beat.0) }
        ensures timed { IfOk result (λ c. IsBeatOf c.clock c.waking.until c.waking.below) }
        ensures stands { (doc : Doc) (p : ℕ) → IsMadeOf doc p me.0 settings.now process.now events.now → is_controller doc p ≡ true
            → waits.now ≡ waits_of doc p → IfOk result (ControllerStands doc p []) }
    {
        let timing = Timing {
            lease_seconds: process.lease_seconds,
            renew: picoseconds(process.renew_millis),
            retry: picoseconds(process.retry_millis),
            timeout: picoseconds(process.timeout_millis),
            fast: settings.fast_renew,
            retries: settings.rules.retries,
            respect: settings.rules.respect,
            release: settings.rules.release,
            in_release: settings.rules.in_release,
        };
        let waits = Waits {
            each: waits.copy()?,
        };
        let (clock, pauses) = times_for(alloc, me, settings, process, events)?;
        let term = Term::new(alloc, &tick_settings(settings));
        Ok(Controller {
            me,
            incarnation: 0,
            timing,
            waits,
            clock,
            pauses,
            up_first: process.up,
            role: Role::Down(None),
            term: Box::new(alloc, term)?,
            waking: Waking::new(),
        })
    }

    /// Starts in the next incarnation, whose term has seen nothing.
    pub fn start(&mut self, beat: Beat)
        requires { beat.0 ≤ self.old.clock.end }
        ensures same { SameController self.old self.new }
        ensures stands { (doc : Doc) (n k step p : ℕ) (h : List Entry) → ControllerStands doc p h self.old → beat.0 ≡ k → IsPlain n h
            → starts p h + 1 < 2 ^ 32
            → ControllerStands doc p (start k step p h) self.new }
    {
        let incarnation = self.incarnation.saturating_add(1);
        let now = self.clock.local(beat);
        self.incarnation = incarnation;
        self.role = Role::Candidate(Candidate::start(self.me, incarnation, self.timing, now));
        self.term.renew();
    }

    /// Goes down if it is up, and its call is forgotten, with what its term had seen; a restart that waits is cancelled. Tells
    /// whether it was up.
    pub fn crash(&mut self) -> bool
        ensures same { SameController self.old self.new }
        ensures incarnation { self.new.incarnation ≡ self.old.incarnation }
        ensures stands { (doc : Doc) (k : ℕ) (id : ProcId) (h : List Entry) → ControllerStands doc id.0 h self.old
            → Crashed doc k id h self.new result }
    {
        let up = self.is_up();
        self.role = Role::Down(None);
        self.forget_term();
        up
    }

    /// Starts if it is down; a restart that waits is cancelled. Tells whether it was down.
    pub fn start_if_down(&mut self, beat: Beat) -> bool
        requires { beat.0 ≤ self.old.clock.end }
        ensures same { SameController self.old self.new }
        ensures stands { (doc : Doc) (n k : ℕ) (id : ProcId) (h : List Entry) → ControllerStands doc id.0 h self.old → beat.0 ≡ k
            → IsPlain n h → IsFew (happens doc k (what.Start id) h)
            → Begun doc k id h self.new result }
    {
        if self.is_up() {
            return false;
        }
        self.role = Role::Down(None);
        self.start(beat);
        true
    }

    /// Goes down in order if it is up, without a restart: a leader by a release, which goes on if it runs. A restart that waits is
    /// cancelled. If it is paused it stays as it is.
    pub fn stop(&mut self, beat: Beat) -> Stopped
        requires { beat.0 ≤ self.old.clock.end }
        ensures same { SameController self.old self.new }
        ensures incarnation { self.new.incarnation ≡ self.old.incarnation }
        ensures stands { (doc : Doc) (k : ℕ) (id : ProcId) (h : List Entry) → ControllerStands doc id.0 h self.old → beat.0 ≡ k
            → IsFew h → StoppedAs doc k id h self.new result }
    {
        if self.pauses.is_paused(beat) {
            return stop_with(false, None);
        }
        match mem::replace(&mut self.role, Role::Down(None)) {
            Role::Down(_) => stop_with(false, None),
            Role::Candidate(_) => stop_with(true, None),
            Role::Leading(leading) => self.give_up(leading, beat),
            Role::Releasing(releasing) => {
                self.role = Role::Releasing(releasing.stop());
                stop_with(true, None)
            }
        }
    }

    // A leader that is stopped gives up its Lease.
    fn give_up(&mut self, leading: Leading, beat: Beat) -> Stopped
        requires { beat.0 ≤ self.old.clock.end }
        ensures same { SameController self.old self.new }
        ensures incarnation { self.new.incarnation ≡ self.old.incarnation }
        ensures stands { (doc : Doc) (k : ℕ) (id : ProcId) (h : List Entry)
            → ControllerStands doc id.0 h (record self.old { role = role.Leading leading }) → beat.0 ≡ k
            → is_paused doc id.0 k ≡ false → IsFew h → StoppedAs doc k id h self.new result }
    {
        let now = self.clock.local(beat);
        let wall = self.clock.wall_at(now);
        match leading.release(now, wall) {
            Released::AtOnce(_, ask) => {
                self.role = Role::Down(None);
                self.forget_term();
                stop_with(true, ask)
            }
            Released::Begins(releasing, ask) => {
                self.role = Role::Releasing(releasing);
                stop_with(true, Some(ask))
            }
        }
    }

    /// Whether it is up.
    pub fn is_up(&self) -> bool
        ensures { result ≡ is_up_as self.now.role }
    {
        match &self.role {
            Role::Down(_) => false,
            Role::Candidate(_) | Role::Leading(_) | Role::Releasing(_) => true,
        }
    }

    /// Its turn: it may start again, end, or send a request. The delay of a restart is in units of 10^-12 s.
    pub fn turn(&mut self, beat: Beat, delay: u64) -> Turn
        requires within { beat.0 ≤ self.old.clock.end }
        requires delay { delay ≤ 86400000000000000 }
        ensures same { SameController self.old self.new }
        ensures stands { (doc : Doc) (n k p : ℕ) (h : List Entry) → ControllerStands doc p h self.old → beat.0 ≡ k
            → delay ≡ restart_delay doc → IsPlain n h → IsFew (restart doc k p h)
            → Turned doc k p h self.new result }
    {
        let started = self.restart(beat);
        let now = self.clock.local(beat);
        let mut turn = self.on_timer(now, delay);
        turn.started = started;
        turn
    }

    /// The least reading at which its turn, a tick aside, adds an entry to the history. None if there is none.
    pub fn wake(&self) -> Option<Local>
        ensures { (doc : Doc) (p : ℕ) (h : List Entry) → ControllerStands doc p h self.now → reading_of result ≡ elector_reading doc p h }
    {
        match &self.role {
            Role::Down(at) => *at,
            Role::Candidate(candidate) => Some(candidate.wake()),
            Role::Leading(leading) => Some(leading.wake()),
            Role::Releasing(releasing) => Some(releasing.wake()),
        }
    }

    /// The leadership that it has at a beat, in a term that isn't over or in a release that acts; None if it has none.
    pub fn leadership(&self, beat: Beat) -> Option<Acting<'_>>
        requires { beat.0 ≤ self.now.clock.end }
        ensures leads { (doc : Doc) (k p : ℕ) (h : List Entry) → ControllerStands doc p h self.now → beat.0 ≡ k
            → is_some result ≡ leads_as doc k p true h }
        ensures identity { (doc : Doc) (p : ℕ) (h : List Entry) → ControllerStands doc p h self.now
            → IfSome result (λ a. acting_identity a ≡ identity p self.now.incarnation) }
        ensures up { (doc : Doc) (p : ℕ) (h : List Entry) → ControllerStands doc p h self.now
            → IfSome result (λ a. alive p h ≡ Some self.now.incarnation) }
    {
        self.role.acting(&self.clock, beat)
    }

    /// Starts again, if it is down and its clock has reached its restart.
    fn restart(&mut self, beat: Beat) -> bool
        requires { beat.0 ≤ self.old.clock.end }
        ensures same { SameController self.old self.new }
        ensures stands { (doc : Doc) (n k p : ℕ) (h : List Entry) → ControllerStands doc p h self.old → beat.0 ≡ k → IsPlain n h
            → IsFew (restart doc k p h)
            → Restarted doc k p h self.new result }
    {
        let Some(at) = restart_of(&self.role) else {
            return false;
        };
        if self.clock.local(beat).0 < at.0 {
            return false;
        }
        self.start(beat);
        true
    }

    // The rest of its turn, after the restart.
    fn on_timer(&mut self, now: Local, delay: u64) -> Turn
        requires now { now.0 ≤ most_local }
        requires delay { delay ≤ 86400000000000000 }
        ensures same { SameController self.old self.new }
        ensures incarnation { self.new.incarnation ≡ self.old.incarnation }
        ensures stands { (doc : Doc) (k p : ℕ) (h : List Entry) → ControllerStands doc p h self.old → now.0 ≡ local doc p k
            → delay ≡ restart_delay doc → IsFew h
            → Timed doc k p h self.new result.ended result.ask }
    {
        let wall = self.clock.wall_at(now);
        match &mut self.role {
            Role::Down(_) => turn_with(None),
            Role::Candidate(candidate) => turn_with(candidate.turn(
                self.waits.as_slice(),
                now,
                wall,
            )),
            Role::Leading(_) => self.lead_on(now, wall, delay),
            Role::Releasing(_) => self.release_on(now, delay),
        }
    }

    // The same for a leader.
    fn lead_on(&mut self, now: Local, wall: Wall, delay: u64) -> Turn
        requires now { now.0 ≤ most_local }
        requires delay { delay ≤ 86400000000000000 }
        ensures same { SameController self.old self.new }
        ensures incarnation { self.new.incarnation ≡ self.old.incarnation }
        ensures stands { (doc : Doc) (k p : ℕ) (h : List Entry) (l : Leading) → ControllerStands doc p h self.old
            → self.old.role ≡ role.Leading l → now.0 ≡ local doc p k → wall.0 ≡ wall_in doc p k → delay ≡ restart_delay doc → IsFew h
            → Timed doc k p h self.new result.ended result.ask }
    {
        let Role::Leading(leading) = mem::replace(&mut self.role, Role::Down(None)) else {
            return turn_with(None);
        };
        match leading.on_timer(now, wall) {
            LeadingNext::Stay(leading) => {
                self.role = Role::Leading(leading);
                turn_with(None)
            }
            LeadingNext::Ask(leading, ask) => {
                self.role = Role::Leading(leading);
                turn_with(Some(ask))
            }
            LeadingNext::End(_) => {
                self.role = Role::Down(Some(Local(now.0 + delay)));
                self.forget_term();
                ends_with(true)
            }
            LeadingNext::Release(releasing, ask) => {
                let ended = !releasing.acts();
                self.role = Role::Releasing(releasing);
                begins_release(ended, ask)
            }
        }
    }

    // The same where it releases its Lease.
    fn release_on(&mut self, now: Local, delay: u64) -> Turn
        requires now { now.0 ≤ most_local }
        requires delay { delay ≤ 86400000000000000 }
        ensures same { SameController self.old self.new }
        ensures incarnation { self.new.incarnation ≡ self.old.incarnation }
        ensures stands { (doc : Doc) (k p : ℕ) (h : List Entry) (r : Releasing) → ControllerStands doc p h self.old
            → self.old.role ≡ role.Releasing r → now.0 ≡ local doc p k → delay ≡ restart_delay doc → IsFew h
            → Timed doc k p h self.new result.ended result.ask }
    {
        let Role::Releasing(releasing) = mem::replace(&mut self.role, Role::Down(None)) else {
            return turn_with(None);
        };
        match releasing.on_timer(now) {
            ReleasingNext::Stay(releasing) => {
                self.role = Role::Releasing(releasing);
                turn_with(None)
            }
            ReleasingNext::Ask(releasing, ask) => {
                self.role = Role::Releasing(releasing);
                turn_with(Some(ask))
            }
            ReleasingNext::Over(end) => {
                self.role = Role::Down(restart_after(&end, now, delay));
                self.forget_term();
                ends_with(end.acted)
            }
        }
    }

    /// A reply that comes to an incarnation of the controller.
    pub fn receive(
        &mut self,
        incarnation: u32,
        number: u64,
        reply: &Reply,
        beat: Beat,
        delay: u64,
    ) -> Received
        requires within { beat.0 ≤ self.old.clock.end }
        requires delay { delay ≤ 86400000000000000 }
        ensures same { SameController self.old self.new }
        ensures incarnation { self.new.incarnation ≡ self.old.incarnation }
        ensures stands { (doc : Doc) (k p : ℕ) (b : Back) (h : List Entry) → ControllerStands doc p h self.old → beat.0 ≡ k
            → b.who ≡ identity p incarnation → b.call.number ≡ number → b.reply ≡ reply.now
            → delay ≡ restart_delay doc → IsFew h → Replied doc k p b h self.new result }
    {
        if incarnation != self.incarnation {
            return stays();
        }
        let now = self.clock.local(beat);
        let wall = self.clock.wall_at(now);
        match &mut self.role {
            Role::Down(_) => stays(),
            Role::Candidate(candidate) => {
                let waits = self.waits.as_slice();
                match candidate.hear(waits, number, reply, now, wall) {
                    Heard::Stays => stays(),
                    Heard::Asks(ask) => asks(ask),
                    Heard::Wins(won) => {
                        self.role = Role::Leading(won.lead());
                        self.term.lead(now);
                        leads(reply)
                    }
                }
            }
            Role::Leading(_) => self.hear(number, *reply, now, wall),
            Role::Releasing(_) => self.hear_in_release(number, *reply, now, wall, delay),
        }
    }

    // A reply that comes to a leader.
    fn hear(&mut self, number: u64, reply: Reply, now: Local, wall: Wall) -> Received
        requires { now.0 ≤ most_local }
        ensures same { SameController self.old self.new }
        ensures incarnation { self.new.incarnation ≡ self.old.incarnation }
        ensures stands { (doc : Doc) (k p : ℕ) (b : Back) (h : List Entry) (l : Leading) → ControllerStands doc p h self.old
            → self.old.role ≡ role.Leading l → now.0 ≡ local doc p k → wall.0 ≡ wall_in doc p k → b.who ≡ identity p self.old.incarnation
            → b.call.number ≡ number → b.reply ≡ reply → IsFew h → Replied doc k p b h self.new result }
    {
        let Role::Leading(leading) = mem::replace(&mut self.role, Role::Down(None)) else {
            return stays();
        };
        let due = Local(now.0 + self.timing.retry);
        let next = self.pauses.can_at(&self.clock, due);
        match leading.on_reply(number, reply, now, next, wall) {
            LeadingNext::Stay(leading) => {
                self.role = Role::Leading(leading);
                stays()
            }
            LeadingNext::Ask(leading, ask) => {
                self.role = Role::Leading(leading);
                asks(ask)
            }
            LeadingNext::End(_) => stays(),
            LeadingNext::Release(..) => stays(),
        }
    }

    // A reply that comes in its release.
    fn hear_in_release(
        &mut self,
        number: u64,
        reply: Reply,
        now: Local,
        wall: Wall,
        delay: u64,
    ) -> Received
        requires now { now.0 ≤ most_local }
        requires delay { delay ≤ 86400000000000000 }
        ensures same { SameController self.old self.new }
        ensures incarnation { self.new.incarnation ≡ self.old.incarnation }
        ensures stands { (doc : Doc) (k p : ℕ) (b : Back) (h : List Entry) (r : Releasing) → ControllerStands doc p h self.old
            → self.old.role ≡ role.Releasing r → now.0 ≡ local doc p k → wall.0 ≡ wall_in doc p k → b.who ≡ identity p self.old.incarnation
            → b.call.number ≡ number → b.reply ≡ reply → delay ≡ restart_delay doc → IsFew h → Replied doc k p b h self.new result }
    {
        let Role::Releasing(releasing) = mem::replace(&mut self.role, Role::Down(None)) else {
            return stays();
        };
        match releasing.on_reply(number, reply, now, wall) {
            ReleasingNext::Stay(releasing) => {
                self.role = Role::Releasing(releasing);
                stays()
            }
            ReleasingNext::Ask(releasing, ask) => {
                self.role = Role::Releasing(releasing);
                asks(ask)
            }
            ReleasingNext::Over(end) => {
                self.role = Role::Down(restart_after(&end, now, delay));
                self.forget_term();
                ends(end.acted)
            }
        }
    }
}

// The reading at which a process that is down starts again.
fn restart_of(role: &Role) -> Option<Local>
    ensures { result ≡ waiting_of role.now }
{
    match role {
        Role::Down(at) => *at,
        _ => None,
    }
}

// The reading at which a process starts again whose release is over: where that began at its deadline and no stop came.
fn restart_after(end: &ReleaseEnd, now: Local, delay: u64) -> Option<Local>
    requires now { now.0 ≤ most_local }
    requires delay { delay ≤ 86400000000000000 }
    ensures { result ≡ when end.now.restarts (record { 0 = now.0 + delay }) }
{
    let at = Local(now.0 + delay);
    if end.restarts { Some(at) } else { None }
}
