// The lease premise of a document.
ghost use Rattle.std.specs.Prelude.{◌≡◌, ℕ, ◌+◌, ◌-◌, ◌*◌, ◌<◌, ◌≤◌, nat_lt, length, Option, Some, None};
ghost use Rattle.kube_objects.specs.Document.{Doc, end_beat, lease_seconds, of_seconds, of_millis};
ghost use Rattle.history.specs.Premise.{least_rate, greatest_rate, less, more, stands, longest, second_below, late_calls, calls_late, stall_by, span_by, is_long};
ghost use Rattle.history.specs.Premise.{is_prompt_event, are_prompt, answers_come, lease_part, lease_premise};
ghost use Rattle.script_reader.specs.Documents.{doc_of};
ghost use Rattle.script_reader.specs.ClockRates.{Spans, with_earlier};
ghost use Rattle.script_reader.specs.Lawful.{IsLawfulDoc};
ghost use Rattle.script_reader.specs.Leases as leases;
ghost use Rattle.script_reader.specs.Leases.{IsProcess};

use crate::Document;
use kube_base::Beat;
use kube_objects::{Event, Proc, ReleaseActing, ReleaseRule, RespectRule, What};

/// The least and greatest of a clock's rates from a beat on, in parts per million.
#[derive(Clone, Copy, Debug)]
pub struct ClockRates {
    from: u64,
    pub least: u32,
    pub greatest: u32,
}

impl ClockRates {
    // No rates: those from the beat behind the end on.
    fn none(end: Beat) -> ClockRates
        ensures { Spans end.0 (λ k. None) result }
    {
        ClockRates {
            from: u64::from(end.0) + 1,
            least: u32::MAX,
            greatest: 0,
        }
    }

    // With a rate that is set at a beat, before all of these in the document's order.
    fn with_earlier(self, beat: Beat, ppm: u32) -> ClockRates
        ensures { (end : ℕ) (later : ℕ → Option ℕ) → Spans end later self → Spans end (with_earlier beat.0 ppm later) result }
    {
        if self.from <= u64::from(beat.0) {
            return self;
        }
        ClockRates {
            from: u64::from(beat.0),
            least: self.least.min(ppm),
            greatest: self.greatest.max(ppm),
        }
    }
}

/// The rates of a controller's clock at the beats up to the end.
pub fn rates_of(document: &Document, controller: usize) -> ClockRates
    requires { controller < length document.now.controllers }
    ensures least { result.least ≡ least_rate (doc_of document.now) controller (end_beat (doc_of document.now)) }
    ensures greatest { result.greatest ≡ greatest_rate (doc_of document.now) controller (end_beat (doc_of document.now)) }
{
    let events = document.events.as_slice();
    let mut rates = ClockRates::none(document.settings.end_beat);
    for place in (0..events.len()).rev() {
        let event = &events[place];
        if let What::Rate(id, ppm) = event.what
            && id.0 as usize == controller
        {
            rates = rates.with_earlier(event.beat, ppm);
        }
    }
    rates.with_earlier(
        Beat(0),
        document.controllers.as_slice()[controller].rate_ppm,
    )
}

/// Of a controller's two longest pauses one more than the beats of each, or nothing if there is none.
#[derive(Clone, Copy, Debug)]
pub struct LongestPauses {
    pub longest: u64,
    pub second: u64,
    ghost longest_fits: { longest ≤ 4294967296 },
    ghost second_fits: { second ≤ 4294967296 },
}

impl LongestPauses {
    // With one more pause of so many beats.
    fn with_pause(self, beats: u32) -> LongestPauses
        ensures longest { result.longest ≡ more self.longest (stands (Some beats)) }
        ensures second { result.second ≡ more self.second (less self.longest (stands (Some beats))) }
    {
        let stands = u64::from(beats) + 1;
        LongestPauses {
            longest: self.longest.max(stands),
            second: self.second.max(self.longest.min(stands)),
        }
    }

    // So many beats a leader may add that sends so many calls after its deadline.
    fn stall_by(self, calls: u32) -> u64
        ensures is { (doc : Doc) (p : ℕ) → self.longest ≡ longest doc p → self.second ≡ second_below p doc.events → result ≡ stall_by calls doc p }
        ensures least { self.longest ≤ result }
        ensures fits { result ≤ 8589934592 }
    {
        if calls == 0 {
            return self.longest;
        }
        self.longest + self.second
    }
}

/// The two longest pauses of a controller.
pub fn longest_pauses(document: &Document, controller: usize) -> LongestPauses
    ensures longest { result.longest ≡ longest (doc_of document.now) controller }
    ensures second { result.second ≡ second_below controller document.now.events }
{
    let events = document.events.as_slice();
    let mut pauses = LongestPauses {
        longest: 0,
        second: 0,
    };
    for place in (0..events.len()).rev() {
        let event = &events[place];
        if let What::Pause(id, beats) = event.what
            && id.0 as usize == controller
        {
            pauses = pauses.with_pause(beats);
        }
    }
    pauses
}

/// By so many calls after its deadline a leader's release may reach the store, or let it act.
pub fn late_calls(release: ReleaseRule, acting: ReleaseActing) -> u32
    ensures { result ≡ late_calls release acting }
{
    match acting {
        ReleaseActing::Still => match release {
            ReleaseRule::Reread => 1,
            ReleaseRule::Stop | ReleaseRule::Own | ReleaseRule::Checked => 0,
        },
        ReleaseActing::Acts => match release {
            ReleaseRule::Stop => 0,
            ReleaseRule::Own => 1,
            ReleaseRule::Checked | ReleaseRule::Reread => 2,
        },
    }
}

// How long a leader may act on after its last sent success, without pauses, in milliseconds.
fn span_by(process: &Proc, calls: u32) -> u64
    ensures is { (doc : Doc) (p : ℕ) → IsProcess doc p process.now → of_millis result ≡ span_by calls doc p }
    ensures fits { result ≤ process.now.timeout_millis + process.now.retry_millis + 2 * process.now.renew_millis }
{
    let renew = u64::from(process.renew_millis);
    let timeout = u64::from(process.timeout_millis);
    let late = (timeout * u64::from(calls)).min(renew);
    timeout + u64::from(process.retry_millis) + renew + late
}

// The lease duration of a controller, in seconds.
fn lease_of(document: &Document, controller: usize) -> u32
    requires { controller < length document.now.controllers }
    ensures { result ≡ lease_seconds (doc_of document.now) controller }
{
    document.controllers.as_slice()[controller].lease_seconds
}

// The least lease duration of all controllers, in seconds.
fn least_seconds(document: &Document) -> u32
    requires { 0 < length document.now.controllers }
    ensures { result ≡ leases.least_up_to (doc_of document.now) (length document.now.controllers - 1) }
{
    let mut least = lease_of(document, 0);
    for before in 0..document.controllers.as_slice().len() - 1 {
        least = lease_of(document, before + 1).min(least);
    }
    least
}

/// The seconds for which others wait for a controller's lease: its own, or, if each goes by its own, at least the least of all. Takes
/// no memory.
pub fn waited_seconds(document: &Document, controller: usize) -> u32
    requires { controller < length document.now.controllers }
    ensures { result ≡ leases.waited_seconds document.now.settings.rules.respect (doc_of document.now) controller }
{
    match document.settings.rules.respect {
        RespectRule::Record => lease_of(document, controller),
        RespectRule::Own => least_seconds(document),
    }
}

/// What a lease has to outlast: how long a leader may act on after its last sent success, without pauses; the beats that its pauses may
/// add, and those of them that a further pause, longer than all, would be added to.
#[derive(Clone, Copy, Debug)]
pub struct Demand {
    pub acting_millis: u64,
    pub stall: u64,
    pub beside: u64,
    ghost acting_fits: { acting_millis ≤ 1000000000 },
    ghost stall_fits: { stall ≤ 8589934592 },
    ghost beside_least: { beside ≤ stall },
}

/// That of a controller. Takes no memory.
pub fn demand_of(document: &Document, controller: usize) -> Demand
    requires lawful { IsLawfulDoc (doc_of document.now) }
    requires controller { controller < length document.now.controllers }
    ensures acting { of_millis result.acting_millis ≡ span_by (calls_late (doc_of document.now)) (doc_of document.now) controller }
    ensures stall { result.stall ≡ stall_by (calls_late (doc_of document.now)) (doc_of document.now) controller }
    ensures beside { result.beside ≡ leases.beside_by (calls_late (doc_of document.now)) (doc_of document.now) controller }
{
    let process = document.controllers.as_slice()[controller];
    let rules = document.settings.rules;
    let calls = late_calls(rules.release, rules.in_release);
    let pauses = longest_pauses(document, controller);
    Demand {
        acting_millis: span_by(&process, calls),
        stall: pauses.stall_by(calls),
        beside: if calls == 0 { 0 } else { pauses.longest },
    }
}

// Whether a lease at the least rate outlasts the times of a leader and its pauses at the greatest rate.
fn outlasts(demand: Demand, lease_seconds: u32, beat_millis: u32, least: u32, greatest: u32) -> bool
    requires { beat_millis ≤ 1000 }
    ensures { result ≡ nat_lt
        (demand.stall * (beat_millis * 1000 * greatest) * least + of_millis demand.acting_millis * greatest)
        (of_seconds lease_seconds * least) }
{
    let paused_millis = demand.stall * u64::from(beat_millis);
    let paused = u128::from(paused_millis) * u128::from(greatest) * u128::from(least);
    let acting = u128::from(demand.acting_millis) * 1_000_000 * u128::from(greatest);
    let lease = u128::from(lease_seconds) * 1_000_000_000 * u128::from(least);
    paused + acting < lease
}

// Whether what others wait for a controller's lease is long enough for a greatest rate of any controller.
fn is_long(document: &Document, controller: usize, greatest: u32) -> bool
    requires lawful { IsLawfulDoc (doc_of document.now) }
    requires controller { controller < length document.now.controllers }
    ensures { result ≡ is_long (doc_of document.now) greatest controller }
{
    outlasts(
        demand_of(document, controller),
        waited_seconds(document, controller),
        document.settings.beat_millis,
        rates_of(document, controller).least,
        greatest,
    )
}

// Whether by an event each reply that a controller is sent still comes, and within the three beats that a takeover takes.
fn is_prompt(what: &What, controllers: usize) -> bool
    ensures { (doc : Doc) → length doc.controllers ≡ controllers → result ≡ is_prompt_event doc what.now }
{
    match what {
        What::Loss(who, _, replies) => !*replies || who.0 as usize >= controllers,
        What::Delay(who, _, replies) => *replies <= 3 || who.0 as usize >= controllers,
        _ => true,
    }
}

// Whether it is so by each of them.
fn are_prompt(events: &[Event], controllers: usize) -> bool
    ensures { (doc : Doc) → length doc.controllers ≡ controllers → result ≡ are_prompt doc events.now }
{
    for event in events {
        if !is_prompt(&event.what, controllers) {
            return false;
        }
    }
    true
}

/// Whether a leader that acts in its release hears of its emptying before another one leads. Takes no memory.
pub fn answers_come(document: &Document) -> bool
    ensures { result ≡ answers_come document.now.settings.rules.in_release (doc_of document.now) }
{
    match document.settings.rules.in_release {
        ReleaseActing::Still => true,
        ReleaseActing::Acts => are_prompt(
            document.events.as_slice(),
            document.controllers.as_slice().len(),
        ),
    }
}

/// Whether what others wait for it outlasts for every controller what it may act on as leader after its last sent success, at any clock rates
/// of the document, in its longest pauses and in its release. Takes no memory.
pub fn lease_part(document: &Document) -> bool
    requires { IsLawfulDoc (doc_of document.now) }
    ensures { result ≡ lease_part (doc_of document.now) }
{
    let controllers = document.controllers.as_slice().len();
    let mut greatest = 0;
    for controller in 0..controllers {
        greatest = rates_of(document, controller).greatest.max(greatest);
    }
    let mut long = true;
    for controller in 0..controllers {
        long = long && is_long(document, controller, greatest);
    }
    long
}

/// Whether the leases are long enough, and a leader that acts in its release hears of it in time. Takes no memory.
pub fn lease_premise(document: &Document) -> bool
    requires { IsLawfulDoc (doc_of document.now) }
    ensures { result ≡ lease_premise (doc_of document.now) }
{
    answers_come(document) && lease_part(document)
}
