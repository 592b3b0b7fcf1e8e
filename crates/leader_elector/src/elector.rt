// What a candidate and a leader have in common: the call that waits, the record last shown, the timer.
ghost use Rattle.std.specs.Prelude.{◌≡◌, ◌&&◌, ◌≤◌, ◌<◌, ◌+◌, ◌^◌, ℕ, nat_lt, false, true, List, ◌∷◌, Option, Some, None, All, IfSome};
ghost use Rattle.kube_base.specs.Bounds.{most_local};
ghost use Rattle.kube_objects.specs.Clocks.{local, wall as wall_at};
ghost use Rattle.kube_objects.specs.Document.{Doc, of_seconds};
ghost use Rattle.kube_objects.specs.CallSlots.{held_call, is_awaited};
ghost use Rattle.kube_objects.specs.Elector.{attempt, attempt_from, created, follow, follow_get, follow_on, given_up, is_blocked, is_valid, leads};
ghost use Rattle.kube_objects.specs.Elector.{moment, newly, observed_at, one_more, renewed, respected, shown, taken, timer, updated};
ghost use Rattle.kube_objects.specs.Entry.{Call, Entry, Identity, Starts, entry};
ghost use Rattle.kube_objects.specs.Identities.{holder_of, is_other, is_own};
ghost use Rattle.kube_objects.specs.Kinds.{keeps_kind};
ghost use Rattle.kube_objects.specs.Newest.{or_else, or_zero};
ghost use Rattle.kube_objects.specs.Process.{alive, begun, call_in, counted};
ghost use Rattle.kube_objects.specs.Turns.{is_fast_call, just_expired, try, expired, with_reply};
ghost use Rattle.kube_objects.specs.Wire.{send};
ghost use Rattle.leader_elector.specs.Attempts.{attempts_of};
ghost use Rattle.leader_elector.specs.Moves.{Asked, Received, Tried, last_of, wake_from};
ghost use Rattle.leader_elector.specs.Stands.{AreWaitsIf, ElectorStands, IsNew, IsSettled, IsTimingOf, follow_of, is_fast_wait, kind_of, observed_of};
ghost use Rattle.leader_elector.specs.Stands.{shown_of, waiting_of};
ghost use Rattle.leader_elector.specs.Plain.{IsSame, after_expiry, after_reply, asked_of, attempt_in, follow_in, follow_keeps_kind};
ghost use Rattle.leader_elector.specs.Plain.{has_lost_update, identity_of, started_at, state_of, moment_of, numbered, turn_in, wake_in, with_call};
ghost use Rattle.leader_elector.specs.Plain.{BeginsCall, Receives, attempts_after, begun_in, timer_after};
ghost use Rattle.leader_elector.specs.Stands.{Wait};

use crate::Timing;
use crate::attempts::Attempts;
use crate::follow::{Follow, follow_write, record_of};
use crate::seen::Seen;
use crate::waiting::Waiting;
use kube_base::{Local, ProcId, Version, Wall};
use kube_objects::{Ask, CallSlot, Holder, Key, Lease, Reply, Request, RespectRule};

const MOST_TRANSITIONS: u32 = 2147483647;

#[derive(Drop)]
pub(crate) struct Elector {
    pub(crate) me: ProcId,
    pub(crate) incarnation: u32,
    pub(crate) timing: Timing,
    pub(crate) slot: CallSlot,
    pub(crate) waiting: Option<Waiting>,
    pub(crate) seen: Option<Seen>,
    pub(crate) timer: Local,
    pub(crate) attempts: Attempts,
}

impl Elector {
    pub(crate) fn start(me: ProcId, incarnation: u32, timing: Timing, now: Local) -> Elector
        ensures me { (result.me ≡ me) × (result.incarnation ≡ incarnation) × (result.timing ≡ timing) }
        ensures kept { state_of result ≡ started_at now.0 }
        ensures history { (doc : Doc) (q : Identity) (h : List Entry) (k step : ℕ) → me.0 ≡ q.process
            → incarnation ≡ q.incarnation → IsTimingOf doc q.process timing
            → now.0 ≡ local doc q.process k → IsNew doc q h
            → ElectorStands doc q (entry k step q Starts ∷ h) result }
    {
        Elector {
            me,
            incarnation,
            timing,
            slot: CallSlot::new(),
            waiting: None,
            seen: None,
            timer: now,
            attempts: Attempts::new(),
        }
    }

    // ---- turns

    /// Forgets a call that has expired. Whether it was an update without a Get. led says whether the process leads; the waits are those
    /// of a candidate.
    pub(crate) fn expire(&mut self, led: bool, waits: &[u32], now: Local) -> bool
        requires now { now.0 ≤ most_local }
        requires waits { All (λ w. w ≤ 2200) waits.now }
        ensures same { IsSame self.old self.new }
        ensures lost { result ≡ has_lost_update self.old.timing now.0 (state_of self.old) }
        ensures kept { state_of self.new ≡ after_expiry self.old.timing waits.now led now.0 (state_of self.old) }
        ensures stands { (doc : Doc) (q : Identity) (h : List Entry) (k : ℕ)
            → ElectorStands doc q h self.old → leads q h ≡ led → AreWaitsIf led doc q.process waits.now
            → now.0 ≡ local doc q.process k
            → ElectorStands doc q (expired doc k q h) self.new }
        ensures fast { (doc : Doc) (q : Identity) (h : List Entry) (k : ℕ)
            → ElectorStands doc q h self.old → IsSettled q h → now.0 ≡ local doc q.process k
            → result ≡ is_fast_call (just_expired q k (expired doc k q h)) }
        ensures settled { (doc : Doc) (q : Identity) (h : List Entry) (k : ℕ)
            → ElectorStands doc q h self.old → IsSettled q h → now.0 ≡ local doc q.process k
            → result ≡ false → IsSettled q (expired doc k q h) }
    {
        if !self.slot.expired(now, self.timing.timeout) {
            return false;
        }
        let fast = is_fast(&self.waiting);
        self.slot.finish();
        self.waiting = None;
        if !fast {
            self.timer = self.attempts.fail(self.timing, led, waits, now);
        }
        fast
    }

    /// After an update without a Get that expired, the Get; else an attempt if it is time.
    pub(crate) fn attempt(
        &mut self,
        expired: bool,
        led: bool,
        now: Local,
        wall: Wall,
    ) -> Option<Ask>
        requires now { now.0 ≤ most_local }
        ensures same { IsSame self.old self.new }
        ensures asks { asked_of result ≡ numbered (state_of self.old)
            (turn_in self.old (moment_of self.old now.0 wall.0) expired led (state_of self.old)) }
        ensures kept { state_of self.new ≡ with_call self.old.timing now.0 (state_of self.old)
            (turn_in self.old (moment_of self.old now.0 wall.0) expired led (state_of self.old)) }
        ensures history { (doc : Doc) (q : Identity) (h : List Entry) (k : ℕ)
            → ElectorStands doc q h self.old → leads q h ≡ led
            → expired ≡ is_fast_call (just_expired q k h)
            → now.0 ≡ local doc q.process k → wall.0 ≡ wall_at doc q.process k
            → begun q h + 1 < 2 ^ 64
            → Tried doc k q h (try doc k q h) self.new expired result }
    {
        if expired {
            return Some(self.ask(Request::Get(Key::ELECTION), false, now));
        }
        if !self.slot.is_idle() || now.0 < self.timer.0 {
            return None;
        }
        Some(self.begin(led, now, wall))
    }

    /// Begins an attempt: a leader may renew without a Get.
    fn begin(&mut self, led: bool, now: Local, wall: Wall) -> Ask
        requires now { now.0 ≤ most_local }
        ensures same { IsSame self.old self.new }
        ensures asks { BeginsCall self.old now.0 (begun_in self.old (moment_of self.old now.0 wall.0) led
            (state_of self.old)) self.new result }
        ensures history { (doc : Doc) (q : Identity) (h : List Entry) (k : ℕ)
            → ElectorStands doc q h self.old → leads q h ≡ led
            → now.0 ≡ local doc q.process k → wall.0 ≡ wall_at doc q.process k
            → begun q h + 1 < 2 ^ 64
            → Asked doc k 4 q h (send doc k 4 q (attempt doc q k h).0 (attempt doc q k h).1 h) (λ x. ElectorStands doc q x self.new) result }
    {
        if self.timing.fast && led {
            return self.renew(now, wall);
        }
        self.ask(Request::Get(Key::ELECTION), false, now)
    }

    /// An update without a Get if the record last shown is one's own and valid.
    fn renew(&mut self, now: Local, wall: Wall) -> Ask
        requires now { now.0 ≤ most_local }
        ensures same { IsSame self.old self.new }
        ensures asks { BeginsCall self.old now.0 (attempt_from (identity_of self.old) (moment_of self.old now.0 wall.0)
            (state_of self.old).observed (state_of self.old).shown) self.new result }
        ensures history { (doc : Doc) (q : Identity) (h : List Entry) (k : ℕ)
            → ElectorStands doc q h self.old
            → now.0 ≡ local doc q.process k → wall.0 ≡ wall_at doc q.process k
            → begun q h + 1 < 2 ^ 64
            → Asked doc k 4 q h (send doc k 4 q (attempt_from q (moment doc q k) (observed_at doc q h) (shown q h)).0
            (attempt_from q (moment doc q k) (observed_at doc q h) (shown q h)).1 h) (λ x. ElectorStands doc q x self.new) result }
    {
        let Some(seen) = self.seen else {
            return self.ask(Request::Get(Key::ELECTION), false, now);
        };
        if !self.is_renewable(&seen, now) {
            return self.ask(Request::Get(Key::ELECTION), false, now);
        }
        let lease = self.renewal(&seen.lease, wall);
        self.ask(
            Request::Update(Key::ELECTION, seen.version, lease),
            true,
            now,
        )
    }

    /// Begins a call.
    pub(crate) fn ask(&mut self, request: Request, fast: bool, now: Local) -> Ask
        requires kind { keeps_kind request ≡ true }
        requires now { now.0 ≤ most_local }
        ensures same { IsSame self.old self.new }
        ensures asks { BeginsCall self.old now.0 (kind_of fast, request) self.new result }
        ensures history { (doc : Doc) (q : Identity) (h next : List Entry) (k step : ℕ)
            → ElectorStands doc q h self.old → now.0 ≡ local doc q.process k
            → begun q h + 1 < 2 ^ 64 → next ≡ send doc k step q (kind_of fast) request h
            → Asked doc k step q h next (λ x. ElectorStands doc q x self.new) result }
    {
        let number = self.slot.begin(now);
        self.attempts.begin(now);
        self.waiting = Some(Waiting {
            request,
            fast,
            late: Local(now.0 + self.timing.timeout + 1),
        });
        Ask { number, request }
    }

    // ---- replies

    /// What a reply is followed by; None if it doesn't count. led says whether the process leads; the waits are those of a candidate.
    pub(crate) fn receive(
        &mut self,
        led: bool,
        waits: &[u32],
        number: u64,
        reply: &Reply,
        now: Local,
        wall: Wall,
    ) -> Option<Follow>
        requires now { now.0 ≤ most_local }
        requires waits { All (λ w. w ≤ 2200) waits.now }
        ensures kind { IfSome result (λ follow. follow_keeps_kind (follow_of follow) ≡ true) }
        ensures unheld { is_awaited number now.0 self.old.timing.timeout (held_call self.old.slot) ≡ false
            → (result ≡ None) × (self.new ≡ self.old) }
        ensures held { (w : Wait) → is_awaited number now.0 self.old.timing.timeout (held_call self.old.slot) ≡ true
            → waiting_of self.old.waiting ≡ Some w
            → Receives self.old (moment_of self.old now.0 wall.0) waits.now led w reply.now self.new result }
        ensures uncounted { (doc : Doc) (q : Identity) (h : List Entry) (k : ℕ)
            → ElectorStands doc q h self.old → now.0 ≡ local doc q.process k
            → alive q.process h ≡ Some q.incarnation
            → counted doc q k number h ≡ None → (result ≡ None) × ElectorStands doc q h self.new }
        ensures counts { (doc : Doc) (q : Identity) (h : List Entry) (k : ℕ) (call : Call)
            → ElectorStands doc q h self.old → leads q h ≡ led → AreWaitsIf led doc q.process waits.now
            → now.0 ≡ local doc q.process k → wall.0 ≡ wall_at doc q.process k
            → counted doc q k number h ≡ Some call
            → Received doc k q call reply.now h self.new result }
    {
        if !self.slot.accepts(number, now, self.timing.timeout) {
            return None;
        }
        let Some(waiting) = self.waiting else {
            return None;
        };
        self.slot.finish();
        self.waiting = None;
        self.note(record_of(&waiting.request, reply), now);
        let follow = self.follow(&waiting, reply, now, wall);
        self.set_timer(&follow, led, waits, now);
        Some(follow)
    }

    /// Takes note of the version and record that are shown.
    fn note(&mut self, told: Option<(Version, Lease)>, now: Local)
        ensures changed { self.new ≡ record self.old { seen = self.new.seen } }
        ensures shown { shown_of self.new.seen ≡ last_of told (shown_of self.old.seen) }
        ensures observed { observed_of self.new.seen ≡ or_else (observed_of self.old.seen) (newly told (shown_of self.old.seen) now.0) }
    {
        let Some((version, lease)) = told else {
            return;
        };
        let at = self.first_sight(version, now);
        self.seen = Some(Seen { version, lease, at });
    }

    /// The reading at which this version was first seen.
    fn first_sight(&self, version: Version, now: Local) -> Local
        ensures { (lease : Lease)
            → result.0 ≡ or_else (observed_of self.now.seen) (newly (Some (version, lease)) (shown_of self.now.seen) now.0) }
    {
        match self.seen {
            Some(seen) => {
                if seen.version == version {
                    return seen.at;
                }
                now
            }
            None => now,
        }
    }

    /// The next attempt starts after the wait of a failure, and a retry period after a leader's success.
    fn set_timer(&mut self, follow: &Follow, led: bool, waits: &[u32], now: Local)
        requires now { now.0 ≤ most_local }
        requires waits { All (λ w. w ≤ 2200) waits.now }
        ensures changed { self.new ≡ record self.old { timer = self.new.timer; attempts = self.new.attempts } }
        ensures timer { self.new.timer.0 ≡ timer_after self.old.timing waits.now led now.0 (follow_of follow.now)
            (attempts_of self.old.attempts) self.old.timer.0 }
        ensures attempts { attempts_of self.new.attempts ≡ attempts_after self.old.timing waits.now led now.0 (follow_of follow.now)
            (attempts_of self.old.attempts) }
    {
        match *follow {
            Follow::Fails => {
                self.timer = self.attempts.fail(self.timing, led, waits, now);
            }
            Follow::Asks(_) => {}
            Follow::Succeeds(_) => {
                self.attempts.succeed();
                if led {
                    self.timer = Local(now.0 + self.timing.retry);
                }
            }
        }
    }

    fn follow(&self, waiting: &Waiting, reply: &Reply, now: Local, wall: Wall) -> Follow
        ensures kind { follow_keeps_kind (follow_of result) ≡ true }
        ensures moment { follow_of result ≡ follow (identity_of self.now) (moment_of self.now now.0 wall.0)
            (observed_of self.now.seen) (kind_of waiting.now.fast) waiting.now.request reply.now }
        ensures history { (doc : Doc) (q : Identity) (h : List Entry) (k : ℕ) → self.now.me.0 ≡ q.process
            → self.now.incarnation ≡ q.incarnation → IsTimingOf doc q.process self.now.timing
            → now.0 ≡ local doc q.process k → wall.0 ≡ wall_at doc q.process k
            → observed_of self.now.seen ≡ observed_at doc q h
            → follow_of result ≡ follow_on doc q k (kind_of waiting.now.fast) waiting.now.request reply.now h }
    {
        match waiting.request {
            Request::Get(_) => self.follow_get(reply, now, wall),
            Request::Create(..) => follow_write(waiting.fast, reply),
            Request::Update(..) => follow_write(waiting.fast, reply),
            Request::PostStatus(..) => Follow::Fails,
        }
    }

    fn follow_get(&self, reply: &Reply, now: Local, wall: Wall) -> Follow
        ensures kind { follow_keeps_kind (follow_of result) ≡ true }
        ensures moment { follow_of result ≡ follow_get (identity_of self.now) (moment_of self.now now.0 wall.0)
            (observed_of self.now.seen) reply.now }
        ensures history { (doc : Doc) (q : Identity) (k : ℕ) → self.now.me.0 ≡ q.process
            → self.now.incarnation ≡ q.incarnation → IsTimingOf doc q.process self.now.timing
            → now.0 ≡ local doc q.process k → wall.0 ≡ wall_at doc q.process k
            → follow_of result ≡ follow_get q (moment doc q k) (observed_of self.now.seen) reply.now }
    {
        match *reply {
            Reply::Absent => Follow::Asks(Request::Create(Key::ELECTION, self.new_lease(wall))),
            Reply::Found(version, lease) => {
                if self.is_blocked(&lease, now) {
                    return Follow::Fails;
                }
                Follow::Asks(Request::Update(Key::ELECTION, version, self.update_of(&lease, wall)))
            }
            _ => Follow::Fails,
        }
    }

    /// The least reading at which a turn does anything, a leader's deadline aside.
    pub(crate) fn wake(&self) -> Local
        ensures kept { result.0 ≡ wake_in (state_of self.now) }
        ensures history { (doc : Doc) (q : Identity) (h : List Entry) → ElectorStands doc q h self.now
            → result.0 ≡ wake_from doc q (timer doc q h) (call_in q h) }
    {
        match self.waiting {
            Some(waiting) => waiting.late,
            None => self.timer,
        }
    }

    // ---- records

    pub(crate) fn holds(&self, lease: &Lease) -> bool
        ensures { (q : Identity) → self.now.me.0 ≡ q.process → self.now.incarnation ≡ q.incarnation
            → result ≡ is_own q lease.now.holder }
    {
        match lease.holder {
            Holder::Proc(id, incarnation) => id == self.me && incarnation == self.incarnation,
            Holder::Nobody | Holder::Foreign(_) => false,
        }
    }

    /// Whether the record last shown is one's own and still valid.
    fn is_renewable(&self, seen: &Seen, now: Local) -> bool
        ensures { (q : Identity) → self.now.me.0 ≡ q.process → self.now.incarnation ≡ q.incarnation
            → result ≡ (is_own q seen.now.lease.holder && is_valid now.0 seen.now.at.0 seen.now.lease) }
    {
        self.holds(&seen.lease) && is_valid(now, seen.at, &seen.lease)
    }

    /// Whether somebody else holds the record.
    fn is_rival(&self, lease: &Lease) -> bool
        ensures { (q : Identity) → self.now.me.0 ≡ q.process → self.now.incarnation ≡ q.incarnation
            → result ≡ is_other q lease.now.holder }
    {
        match lease.holder {
            Holder::Nobody => false,
            Holder::Proc(id, incarnation) => !(id == self.me && incarnation == self.incarnation),
            Holder::Foreign(_) => true,
        }
    }

    /// Whether another's record is still valid, by the duration that is respected.
    fn is_blocked(&self, lease: &Lease, now: Local) -> bool
        ensures { (q : Identity) → self.now.me.0 ≡ q.process → self.now.incarnation ≡ q.incarnation
            → result ≡ is_blocked q now.0 (observed_of self.now.seen)
            (respected self.now.timing.respect self.now.timing.lease_seconds lease.now) }
    {
        self.is_rival(lease) && is_valid_for(self.respected(lease), now, self.observed_time())
    }

    /// The seconds that are respected: those of the record, or the elector's own.
    fn respected(&self, lease: &Lease) -> u32
        ensures { result ≡ or_zero (respected self.now.timing.respect self.now.timing.lease_seconds lease.now).duration }
    {
        match self.timing.respect {
            RespectRule::Record => lease.duration.unwrap_or(0),
            RespectRule::Own => self.timing.lease_seconds,
        }
    }

    /// The reading at which the version last shown was first seen, 0 before.
    fn observed_time(&self) -> Local
        ensures { result.0 ≡ observed_of self.now.seen }
    {
        match self.seen {
            Some(seen) => seen.at,
            None => Local(0),
        }
    }

    fn holder(&self) -> Holder
        ensures { (q : Identity) → self.now.me.0 ≡ q.process → self.now.incarnation ≡ q.incarnation
            → result ≡ holder_of q }
    {
        Holder::Proc(self.me, self.incarnation)
    }

    fn new_lease(&self, wall: Wall) -> Lease
        ensures moment { (now : ℕ) → result ≡ created (identity_of self.now) (moment_of self.now now wall.0) }
        ensures history { (doc : Doc) (q : Identity) (k : ℕ) → self.now.me.0 ≡ q.process
            → self.now.incarnation ≡ q.incarnation → IsTimingOf doc q.process self.now.timing
            → wall.0 ≡ wall_at doc q.process k
            → result ≡ created q (moment doc q k) }
    {
        Lease {
            holder: self.holder(),
            duration: Some(self.timing.lease_seconds),
            acquired: Some(wall),
            renewed: Some(wall),
            transitions: Some(0),
        }
    }

    fn renewal(&self, lease: &Lease, wall: Wall) -> Lease
        ensures moment { (now : ℕ) → result ≡ renewed (identity_of self.now) (moment_of self.now now wall.0) lease.now }
        ensures history { (doc : Doc) (q : Identity) (k : ℕ) → self.now.me.0 ≡ q.process
            → self.now.incarnation ≡ q.incarnation → IsTimingOf doc q.process self.now.timing
            → wall.0 ≡ wall_at doc q.process k
            → result ≡ renewed q (moment doc q k) lease.now }
    {
        Lease {
            acquired: lease.acquired,
            transitions: lease.transitions,
            ..self.new_lease(wall)
        }
    }

    fn takeover(&self, lease: &Lease, wall: Wall) -> Lease
        ensures moment { (now : ℕ) → result ≡ taken (identity_of self.now) (moment_of self.now now wall.0) lease.now }
        ensures history { (doc : Doc) (q : Identity) (k : ℕ) → self.now.me.0 ≡ q.process
            → self.now.incarnation ≡ q.incarnation → IsTimingOf doc q.process self.now.timing
            → wall.0 ≡ wall_at doc q.process k
            → result ≡ taken q (moment doc q k) lease.now }
    {
        Lease {
            transitions: Some(one_more(lease.transitions)),
            ..self.new_lease(wall)
        }
    }

    fn update_of(&self, lease: &Lease, wall: Wall) -> Lease
        ensures moment { (now : ℕ) → result ≡ updated (identity_of self.now) (moment_of self.now now wall.0) lease.now }
        ensures history { (doc : Doc) (q : Identity) (k : ℕ) → self.now.me.0 ≡ q.process
            → self.now.incarnation ≡ q.incarnation → IsTimingOf doc q.process self.now.timing
            → wall.0 ≡ wall_at doc q.process k
            → result ≡ updated q (moment doc q k) lease.now }
    {
        if self.holds(lease) {
            return self.renewal(lease, wall);
        }
        self.takeover(lease, wall)
    }
}

/// Whether an update without a Get waits.
fn is_fast(waiting: &Option<Waiting>) -> bool
    ensures { result ≡ is_fast_wait (waiting_of waiting.now) }
{
    match *waiting {
        Some(waiting) => waiting.fast,
        None => false,
    }
}

/// The record that gives up the lead.
pub(crate) fn vacant_lease(lease: &Lease, wall: Wall) -> Lease
    ensures moment { result ≡ given_up wall.0 lease.now }
    ensures history { (doc : Doc) (q : Identity) (k : ℕ) → wall.0 ≡ wall_at doc q.process k
        → result ≡ given_up (wall_at doc q.process k) lease.now }
{
    Lease {
        holder: Holder::Nobody,
        duration: Some(1),
        acquired: Some(wall),
        renewed: Some(wall),
        ..*lease
    }
}

/// Whether a record's duration isn't over since it was first seen.
fn is_valid(now: Local, seen: Local, lease: &Lease) -> bool
    ensures { result ≡ is_valid now.0 seen.0 lease.now }
{
    is_valid_for(lease.duration.unwrap_or(0), now, seen)
}

/// Whether so many seconds aren't over since a reading.
#[tactic(auto, unfolding(kube_objects::specs::Document::of_seconds))]
fn is_valid_for(seconds: u32, now: Local, seen: Local) -> bool
    ensures { result ≡ nat_lt now.0 (seen.0 + of_seconds seconds) }
{
    (now.0 as u128) < seen.0 as u128 + seconds as u128 * 1_000_000_000_000
}

/// Transitions rise by one and stay at their greatest number.
fn one_more(transitions: Option<u32>) -> u32
    ensures { result ≡ one_more transitions }
{
    let before = transitions.unwrap_or(0);
    if before < MOST_TRANSITIONS {
        before + 1
    } else {
        MOST_TRANSITIONS
    }
}
