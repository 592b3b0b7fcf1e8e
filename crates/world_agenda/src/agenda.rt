// The next beat of a world at which something happens.
ghost use Rattle.std.specs.Prelude.{◌≡◌, ◌+◌, ◌<◌, ◌≤◌, not, ℕ, List, Option, Some, false, max, min};
ghost use Rattle.kube_objects.specs.Document.{Doc, end_beat, processes};
ghost use Rattle.kube_objects.specs.Entry.{Entry};
ghost use Rattle.kube_objects.specs.Pauses.{resume as resume_of};
ghost use Rattle.kube_objects.specs.Stalls.{awake as awake_of};
ghost use Rattle.history.specs.History.{history};
ghost use Rattle.agenda_laws.specs.Ahead.{IsNextBeat, IsNextBelow};
ghost use Rattle.agenda_laws.specs.Times.{is_early, sooner as soonest};
ghost use Rattle.agenda_laws.specs.Waking.{wakes_of};
ghost use Rattle.script_reader.specs.Lawful.{AreLawfulFrom};
ghost use Rattle.world_core.specs.Waits.{WakesStand, beat_of, starts_now};
ghost use Rattle.world_core.specs.Worlds.{IsReady, WorldStands, at_of, count_of, end_of};
ghost use Rattle.world_agenda.specs.Woken.{IsDeleteBeat, IsDue, IsGoing, IsNextDue, IsStalledFrom, IsTimeBeat, IsWithTurn, IsWoken, OnlyTurns, goes_now, not_before as since, resumed};

use agenda_laws::{beats_wake_by_causes, next_beats_are_soonest};
use kube_base::{Beat, ProcId, Wall};
use skew_clock::Clock;
use world_core::{Wakes, World, sooner_beat};

/// The least beat from the world's next one to the end at which an entry of the history stands. None exactly if there is no such
/// beat. It takes no memory.
pub fn next_beat(world: &World) -> Option<Beat>
    requires ready { IsReady world.now }
    requires within { at_of world.now ≤ end_of world.now }
    ensures { (doc : Doc) → AreLawfulFrom doc 0 doc.events → WorldStands doc (at_of world.now) (history doc (at_of world.now)) world.now
        → end_of world.now ≡ end_beat doc → IsNextBeat doc (at_of world.now) (beat_of result) }
{
    beats_wake_by_causes();
    next_beats_are_soonest();
    let at = world.at();
    let first = sooner_beat(world.next_event(), world.next_wire());
    if is_there(first, at) {
        return first;
    }
    let asked = asked_each(world, at);
    let mut next = first;
    for i in 0..asked {
        let who = ProcId(i);
        let wakes = world.wakes(who);
        if goes_at_once(world, who, &wakes, at) {
            return Some(at);
        }
        next = with_turn(world, who, &wakes, at, next);
    }
    with_others(world, asked, at, next)
}

// How many processes are asked one by one: in beat 0 all, since each may start, and later the controllers, since each may act.
fn asked_each(world: &World, at: Beat) -> u32
    requires { IsReady world.now }
    ensures few { result ≤ count_of world.now }
    ensures others { (doc : Doc) (k : ℕ) (h : List Entry) → WorldStands doc k h world.now → OnlyTurns doc at.0 result }
{
    if at.0 == 0 {
        world.processes()
    } else {
        world.controllers()
    }
}

// The sooner of a beat and the next turns of the kubelets from one on. One is asked only where its turn comes before the soonest beat
// so far, pauses aside: a pause only makes it later. The least turn is asked first, so that few more have to be.
fn with_others(world: &World, from: u32, at: Beat, next: Option<Beat>) -> Option<Beat>
    requires ready { IsReady world.now }
    requires within { at.0 ≤ end_of world.now }
    requires at { at.0 ≡ at_of world.now }
    ensures { (doc : Doc) (h : List Entry) → WorldStands doc at.0 h world.now → end_of world.now ≡ end_beat doc → OnlyTurns doc at.0 from
        → IsNextBelow doc at.0 from h (beat_of next) → IsNextBelow doc at.0 (processes doc) h (beat_of result) }
{
    next_beats_are_soonest();
    let mut next = with_least(world, from, at, next);
    let mut from = from;
    'others: while let Some(who) = world.first_turn(from, next) {
        next = with_turn(world, who, &world.wakes(who), at, next);
        from = who.0 + 1;
    }
    next
}

// The sooner of a beat and the next turn of the process whose turn is the least, where that is among those from one on.
fn with_least(world: &World, from: u32, at: Beat, next: Option<Beat>) -> Option<Beat>
    requires ready { IsReady world.now }
    requires within { at.0 ≤ end_of world.now }
    requires at { at.0 ≡ at_of world.now }
    ensures { (doc : Doc) (h : List Entry) → WorldStands doc at.0 h world.now → end_of world.now ≡ end_beat doc → OnlyTurns doc at.0 from
        → IsNextBelow doc at.0 from h (beat_of next) → IsNextBelow doc at.0 from h (beat_of result) }
{
    match world.least_turn() {
        Some(who) if from <= who.0 => with_turn(world, who, &world.wakes(who), at, next),
        _ => next,
    }
}

// The sooner of a beat and the next turn of a process that waits for this.
fn with_turn(
    world: &World,
    who: ProcId,
    wakes: &Wakes,
    at: Beat,
    next: Option<Beat>,
) -> Option<Beat>
    requires ready { IsReady world.now }
    requires within { at.0 ≤ end_of world.now }
    requires process { who.0 < count_of world.now }
    ensures { (doc : Doc) (h : List Entry) → WorldStands doc at.0 h world.now → end_of world.now ≡ end_beat doc
        → WakesStand doc at.0 who.0 h wakes.now → starts_now doc at.0 who.0 ≡ false
        → IsWithTurn doc at.0 who.0 h (beat_of next) (beat_of result) }
{
    let due = due_beat(world, who, wakes, at);
    match stalled_from(world, who, due) {
        None => sooner_turn(world, who, due, next),
        Some(from) => with_stalled(world, who, at, from, next),
    }
}

// The same for one that goes on at a beat at which the store stands still: its turn comes where that is due, and its tick where both go.
#[inline(never)]
fn with_stalled(
    world: &World,
    who: ProcId,
    at: Beat,
    from: Beat,
    next: Option<Beat>,
) -> Option<Beat>
    requires ready { IsReady world.now }
    requires within { at.0 ≤ end_of world.now }
    requires process { who.0 < count_of world.now }
    ensures { (doc : Doc) (h : List Entry) (due : Option ℕ) → WorldStands doc at.0 h world.now → end_of world.now ≡ end_beat doc
        → IsNextDue doc at.0 who.0 (wakes_of doc who.0 h) due → resumed doc who.0 due ≡ Some from.0
        → IsWithTurn doc at.0 who.0 h (beat_of next) (beat_of result) }
{
    let turn = due_beat(world, who, &world.turn_wakes(who), at);
    let next = sooner_turn(world, who, turn, next);
    sooner_beat(next, first_going(world, who, from))
}

// The beat at which a process goes on for which something is due, where the store stands still at it: then its turn may come before its tick.
fn stalled_from(world: &World, who: ProcId, due: Option<Beat>) -> Option<Beat>
    requires ready { IsReady world.now }
    requires process { who.0 < count_of world.now }
    ensures { (doc : Doc) (k : ℕ) (h : List Entry) → WorldStands doc k h world.now → end_of world.now ≡ end_beat doc
        → IsStalledFrom doc who.0 (beat_of due) (beat_of result) }
{
    let Some(due) = due else {
        return None;
    };
    let end = world.clock(who).end();
    if end.0 < due.0 {
        return None;
    }
    let resumes = world.resume(who, due);
    if end.0 < resumes.0 {
        return None;
    }
    if world.awake(resumes).0 == resumes.0 {
        return None;
    }
    Some(resumes)
}

// The first beat from one on at which neither a process nor the store stands still.
fn first_going(world: &World, who: ProcId, from: Beat) -> Option<Beat>
    requires ready { IsReady world.now }
    requires process { who.0 < count_of world.now }
    ensures { (doc : Doc) (k : ℕ) (h : List Entry) → WorldStands doc k h world.now → end_of world.now ≡ end_beat doc
        → IsGoing doc who.0 from.0 (beat_of result) }
{
    let end = world.clock(who).end();
    let mut beat = from;
    'held: while beat.0 <= end.0 {
        let until = held_until(world, who, beat);
        if until.0 <= beat.0 {
            return Some(beat);
        }
        beat = until;
    }
    None
}

// The later one of the beats at which a process and the store go that stand still at a beat; that beat, where neither does.
fn held_until(world: &World, who: ProcId, at: Beat) -> Beat
    requires ready { IsReady world.now }
    requires within { at.0 ≤ end_of world.now }
    requires process { who.0 < count_of world.now }
    ensures { (doc : Doc) (k : ℕ) (h : List Entry) → WorldStands doc k h world.now → end_of world.now ≡ end_beat doc
        → result.0 ≡ min (max (resume_of doc who.0 at.0) (awake_of doc at.0)) (end_beat doc + 1) }
{
    let resumes = world.resume(who, at);
    let wakes = world.awake(at);
    if resumes.0 < wakes.0 { wakes } else { resumes }
}

// Whether there is a beat, and it comes no later than another.
fn is_there(first: Option<Beat>, at: Beat) -> bool
    ensures { result ≡ not (is_early at.0 (beat_of first)) }
{
    match first {
        None => false,
        Some(first) => first.0 <= at.0,
    }
}

// Whether a process does something in the next beat that is there at once: it starts in beat 0, also in a pause or a stall, and else neither
// it nor the store stands still.
fn goes_at_once(world: &World, who: ProcId, wakes: &Wakes, at: Beat) -> bool
    requires ready { IsReady world.now }
    requires within { at.0 ≤ end_of world.now }
    requires process { who.0 < count_of world.now }
    ensures { (doc : Doc) (k : ℕ) (h : List Entry) → WorldStands doc k h world.now → end_of world.now ≡ end_beat doc
        → result ≡ goes_now doc at.0 who.0 wakes.now }
{
    wakes.at_once && (at.0 == 0 || held_until(world, who, at).0 == at.0)
}

// The first beat from the next one on at which something is there that a process waits for, paused or not.
fn due_beat(world: &World, who: ProcId, wakes: &Wakes, at: Beat) -> Option<Beat>
    requires ready { IsReady world.now }
    requires within { at.0 ≤ end_of world.now }
    requires process { who.0 < count_of world.now }
    ensures { (doc : Doc) (k : ℕ) (h : List Entry) → WorldStands doc k h world.now → end_of world.now ≡ end_beat doc
        → IsDue doc at.0 who.0 wakes.now result }
{
    if wakes.at_once {
        return Some(at);
    }
    not_before(beat_of_waking(world, who, wakes), at)
}

// The sooner of a beat and the one at which a process goes on for which something is due.
fn sooner_turn(world: &World, who: ProcId, due: Option<Beat>, next: Option<Beat>) -> Option<Beat>
    requires ready { IsReady world.now }
    requires process { who.0 < count_of world.now }
    ensures { (doc : Doc) (k : ℕ) (h : List Entry) → WorldStands doc k h world.now → end_of world.now ≡ end_beat doc
        → beat_of result ≡ soonest (beat_of next) (resumed doc who.0 (beat_of due)) }
{
    let Some(due) = due else {
        return next;
    };
    if is_there(next, due) {
        return next;
    }
    let end = world.clock(who).end();
    if end.0 < due.0 {
        return next;
    }
    let goes_on = world.resume(who, due);
    if end.0 < goes_on.0 {
        return next;
    }
    sooner_beat(next, Some(goes_on))
}

// The first beat at which the reading or the time of day is there for which a process waits.
fn beat_of_waking(world: &World, who: ProcId, wakes: &Wakes) -> Option<Beat>
    requires ready { IsReady world.now }
    requires process { who.0 < count_of world.now }
    ensures { (doc : Doc) (k : ℕ) (h : List Entry) → WorldStands doc k h world.now → end_of world.now ≡ end_beat doc
        → IsWoken doc who.0 wakes.now result }
{
    sooner_beat(
        world.turn_beat(who, wakes),
        delete_beat(world.clock(who), wakes),
    )
}

// The first beat at which a clock has the time of day that a process waits for, and the reading from which on it counts. Each clock begins
// with reading 0.
fn delete_beat(clock: &Clock, wakes: &Wakes) -> Option<Beat>
    ensures { IsDeleteBeat clock.now wakes.now result }
{
    let time = at_time(clock, wakes.wall)?;
    let room = wakes.room?;
    if room.0 == 0 {
        return Some(time);
    }
    let there = clock.first_beat(room)?;
    if time.0 < there.0 {
        Some(there)
    } else {
        Some(time)
    }
}

// The first beat at which a clock's time of day is this, in microseconds since 1970.
fn at_time(clock: &Clock, at: Option<u128>) -> Option<Beat>
    ensures { IsTimeBeat clock.now at result }
{
    let at = at?;
    let beat = clock.first_wall(Wall(shown(at)))?;
    if u128::from(clock.wall(beat).0) < at {
        return None;
    }
    Some(beat)
}

// No clock shows a time of day as late as this.
const NEVER: u64 = 10_000_000_000_000_001;

fn shown(at: u128) -> u64
    ensures { result ≡ min at 10000000000000001 }
{
    if at < u128::from(NEVER) {
        at as u64
    } else {
        NEVER
    }
}

fn not_before(next: Option<Beat>, least: Beat) -> Option<Beat>
    ensures { beat_of result ≡ since least.0 (beat_of next) }
{
    let next = next?;
    if next.0 < least.0 {
        Some(least)
    } else {
        Some(next)
    }
}
