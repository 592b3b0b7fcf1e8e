// What a controller's lease has to outlast, and what is left.
ghost use Rattle.std.specs.Prelude.{◌≡◌, ◌+◌, ◌*◌, ◌<◌, ◌≤◌, length};
ghost use Rattle.script_reader.specs.Documents.{doc_of};
ghost use Rattle.script_reader.specs.Lawful.{IsLawfulDoc};
ghost use Rattle.lens_margin.specs.Laws.{IsMargin};
ghost use Rattle.lens_margin.specs.Margins.{margin_of, numbers, least_within, stall_within};

use crate::rates::fastest;
use script_reader::{Demand, Document, answers_come, demand_of, rates_of, waited_seconds};

/// The most seconds that a lease duration may have.
const LONGEST_LEASE: u128 = 86_400;

/// The numbers of a controller. Times are in milliseconds but where a name says else.
#[derive(Clone, Copy)]
pub struct Margin {
    /// What others wait: the lease duration, or the least of all if each goes by its own.
    pub lease: u128,
    /// What the lease must exceed, rounded up.
    pub must_exceed: u128,
    /// The least lease in whole seconds that is enough, for all if each goes by its own, if one of at most a day is.
    pub least_seconds: Option<u32>,
    /// The longest further stall that the lease bears, if it is long enough at all.
    pub longest_stall: Option<u128>,
}

/// The numbers of a controller of a document, by its place among them. Takes no memory.
pub fn controller_margin(document: &Document, controller: usize) -> Margin
    requires lawful { IsLawfulDoc (doc_of document.now) }
    requires controller { controller < length document.now.controllers }
    ensures is { result ≡ margin_of (doc_of document.now) controller }
    ensures law { IsMargin (doc_of document.now) controller result }
{
    let lease_seconds = waited_seconds(document, controller);
    margin_at(
        answers_come(document),
        lease_seconds,
        demand_of(document, controller),
        document.settings.beat_millis,
        rates_of(document, controller).least,
        fastest(document),
    )
}

/// The numbers of a controller, by whether answers come in time, what is waited for its lease, what that has to outlast, the length of a
/// beat, its slowest rate and the fastest of any. Takes no memory.
pub fn margin_at(
    come: bool,
    lease_seconds: u32,
    demand: Demand,
    beat_millis: u32,
    slowest: u32,
    fastest: u32,
) -> Margin
    requires short_beat { beat_millis ≤ 1000 }
    requires some_beat { 0 < beat_millis }
    requires slowest { 0 < slowest }
    requires fastest { 0 < fastest }
    ensures { result ≡ numbers come lease_seconds (demand.acting_millis * 1000000000 * fastest) demand.stall demand.beside beat_millis slowest fastest }
{
    let milli = u128::from(slowest) * 1_000_000_000;
    let beat_micros = u128::from(beat_millis) * 1000;
    let beat = beat_micros * u128::from(fastest) * u128::from(slowest);
    let acting = u128::from(demand.acting_millis) * 1_000_000_000 * u128::from(fastest);
    let beside = u128::from(demand.beside) * beat + acting;
    let demand = u128::from(demand.stall) * beat + acting;
    let lease = u128::from(lease_seconds) * 1000;
    Margin {
        lease,
        must_exceed: demand.div_ceil(milli),
        least_seconds: if come {
            least_seconds(demand, milli)
        } else {
            None
        },
        longest_stall: longest_stall(lease * milli, demand, beside, beat, beat_millis),
    }
}

// The least whole seconds that are more than what is demanded, by what a millisecond counts.
fn least_seconds(demand: u128, milli: u128) -> Option<u32>
    requires some { 0 < milli }
    requires fits { milli * 1000 < 340282366920938463463374607431768211456 }
    ensures { result ≡ least_within demand milli }
{
    let whole = demand / (milli * 1000);
    if whole < LONGEST_LEASE {
        Some(whole as u32 + 1)
    } else {
        None
    }
}

// The milliseconds of the longest pause, of which each beat counts the same, that a lease bears beside the acting and the pauses that count with it.
fn longest_stall(
    lease: u128,
    demand: u128,
    beside: u128,
    beat: u128,
    beat_millis: u32,
) -> Option<u128>
    requires some { 0 < beat }
    requires part { beside ≤ demand }
    requires beat { beat_millis ≤ beat }
    ensures { result ≡ stall_within lease demand beside beat beat_millis }
{
    if demand >= lease {
        return None;
    }
    let beats = (lease - beside - 1) / beat;
    Some(beats.saturating_sub(1) * u128::from(beat_millis))
}
