// The bounds on elections.
ghost use Rattle.std.specs.Prelude.{◌≡◌, ◌*◌, ◌≤◌, IfSome};
ghost use Rattle.std.specs.Option.{ForSome};
ghost use Rattle.succession_laws.specs.Successions.{ways_after};
ghost use Rattle.lens_bounds.specs.Elections as spec;
ghost use Rattle.lens_bounds.specs.Elections.{IsCalm};

use crate::beats::{beats_of, least_beats, most_beats, of_millis, of_seconds, whole_beats};
use crate::calm::{Calm, Waits};
use kube_objects::{Proc, RespectRule};

/// From when to when, in milliseconds.
#[derive(Clone, Copy)]
pub struct Span {
    pub least: u128,
    pub most: u128,
}

/// The bounds of a leader and one that may follow it, in beats.
#[derive(Clone, Copy)]
pub struct Handover {
    /// After a crash the other leads no sooner.
    pub crash_least: u128,
    /// And no later.
    pub crash_most: u128,
    /// After a stop whose release is accepted it leads no later.
    pub stop_most: u128,
    /// From the beginning of a calm span it leads no later.
    pub leads: u128,
    /// By then one of them leads that stays.
    pub stays_from: u128,
}

/// The bounds of a leader, in milliseconds. None if a premise of the law on it fails.
#[derive(Clone, Copy)]
pub struct Election {
    /// How long nobody leads after a crash.
    pub crash: Option<Span>,
    /// After a stop whose release is accepted.
    pub stop: Option<Span>,
    /// How long it acts on at most if it is cut off.
    pub acts_on: Option<u128>,
    /// How long after the beginning of a calm span somebody leads.
    pub leads: Option<u128>,
    /// And somebody leads that stays.
    pub stays_from: Option<u128>,
}

/// So many thousandths of a retry period.
#[tactic(auto, unfolding(kube_objects::specs::Document::of_millis))]
fn share(retry_millis: u32, thousandths: u32) -> u128
    requires { thousandths ≤ 2200 }
    ensures is { result ≡ spec.share retry_millis thousandths }
    ensures few { result ≤ 9500000000000000000 }
{
    of_millis(u64::from(retry_millis)) * u128::from(thousandths) / 1000
}

fn longest(waits: Waits, retry_millis: u32) -> u128
    requires { spec.AreShort waits }
    ensures is { result ≡ spec.longest_by waits retry_millis }
    ensures few { result ≤ 9500000000000000000 }
{
    match waits {
        Waits::UpTo(millis) => of_millis(u64::from(millis)),
        Waits::Between(_, most) => share(retry_millis, most),
    }
}

fn shortest(waits: Waits, retry_millis: u32) -> u128
    requires { spec.AreShort waits }
    ensures is { result ≡ spec.shortest_by waits retry_millis }
    ensures few { result ≤ 9500000000000000000 }
{
    match waits {
        Waits::UpTo(_) => of_millis(u64::from(retry_millis)),
        Waits::Between(least, _) => share(retry_millis, least),
    }
}

fn wait(c: Calm, p: Proc) -> u128
    requires { IsCalm c }
    ensures is { result ≡ spec.wait c p }
    ensures few { result ≤ 9600000000000000 }
{
    beats_of(longest(c.waits, p.retry_millis), c.slow)
}

fn retry(c: Calm, p: Proc) -> u128
    requires { IsCalm c }
    ensures is { result ≡ spec.retry c p }
    ensures few { result ≤ 4300000000000000 }
{
    beats_of(of_millis(u64::from(p.retry_millis)), c.slow)
}

fn least_wait(c: Calm, p: Proc) -> u128
    requires { IsCalm c }
    ensures is { result ≡ spec.least_wait c p }
    ensures few { result ≤ 9600000000000000 }
{
    beats_of(shortest(c.waits, p.retry_millis), c.fast)
}

fn near_step(c: Calm, p: Proc) -> u128
    requires { IsCalm c }
    ensures is { result ≡ spec.near_step c p }
    ensures some { 1 ≤ result }
    ensures few { result ≤ 9900000000000000 }
{
    least_wait(c, p) + 2 * u128::from(c.near)
}

fn far_step(c: Calm, p: Proc) -> u128
    requires { IsCalm c }
    ensures is { result ≡ spec.far_step c p }
    ensures some { 1 ≤ result }
    ensures few { result ≤ 9900000000000000 }
{
    wait(c, p) + 2 * u128::from(c.far)
}

/// From a candidate's first look at a record of so many seconds to the look that finds it over, at most.
fn most_looks(c: Calm, p: Proc, seconds: u32) -> u128
    requires { IsCalm c }
    ensures is { result ≡ spec.most_looks c p seconds }
    ensures few { result ≤ 5000000000000000000 }
{
    let enough = beats_of(of_seconds(u64::from(seconds)), c.slow);
    most_beats(near_step(c, p), far_step(c, p), enough)
}

/// And at least.
fn least_looks(c: Calm, p: Proc, seconds: u32) -> u128
    requires { IsCalm c }
    ensures is { result ≡ spec.least_looks c p seconds }
    ensures few { result ≤ 60000000000000000000000000000000000 }
{
    let needed = beats_of(of_seconds(u64::from(seconds)), c.fast);
    least_beats(near_step(c, p), far_step(c, p), needed)
}

fn replies_count(c: Calm, p: Proc) -> bool
    ensures { result ≡ spec.replies_count c p }
{
    2 * u128::from(c.far) * u128::from(c.fast) <= of_millis(u64::from(p.timeout_millis))
}

fn renews(c: Calm, p: Proc) -> bool
    ensures { result ≡ spec.renews c p }
{
    4 * u128::from(c.far) * u128::from(c.fast) <= of_millis(u64::from(p.renew_millis))
}

fn outlasts(c: Calm, p: Proc) -> bool
    requires { IsCalm c }
    ensures { result ≡ spec.outlasts c p }
{
    let beats = (retry(c, p) + 5 * u128::from(c.far)).saturating_sub(u128::from(c.near));
    beats * u128::from(c.fast) < of_seconds(u64::from(p.lease_seconds))
}

/// Whether somebody comes to lead in a calm span: leaders give up their Leases at stops alone, and each controller's replies come within its call
/// timeout. Takes no memory.
pub fn leads(c: Calm, controllers: &[Proc]) -> bool
    ensures { result ≡ spec.lead c controllers.now }
{
    c.releases_by_stop && all_count(c, controllers)
}

fn all_count(c: Calm, controllers: &[Proc]) -> bool
    ensures { result ≡ spec.all_count c controllers.now }
{
    controllers.iter().all(|p| replies_count(c, *p))
}

/// Whether a leader stays in a calm span, whoever leads: beside that, renewals come within the renew deadline and before others find the
/// record over. Takes no memory.
pub fn stays(c: Calm, controllers: &[Proc]) -> bool
    requires { IsCalm c }
    ensures { result ≡ spec.stay c controllers.now }
{
    c.releases_by_stop && all_stay(c, controllers)
}

fn all_stay(c: Calm, controllers: &[Proc]) -> bool
    requires { IsCalm c }
    ensures { result ≡ spec.all_stay c controllers.now }
{
    let least = shortest_lease(controllers);
    for p in controllers {
        if !stays_by(c, as_respected(c.respect, least, *p)) {
            return false;
        }
    }
    true
}

fn shortest_lease(controllers: &[Proc]) -> u32
    ensures { result ≡ spec.shortest_lease controllers.now }
{
    let mut shortest = u32::MAX;
    for p in controllers {
        shortest = p.lease_seconds.min(shortest);
    }
    shortest
}

/// A leader as somebody respects it whose own lease has so many seconds.
fn as_respected(respect: RespectRule, seconds: u32, leader: Proc) -> Proc
    ensures { result ≡ spec.as_respected respect seconds leader }
{
    match respect {
        RespectRule::Record => leader,
        RespectRule::Own => Proc {
            lease_seconds: seconds,
            ..leader
        },
    }
}

/// Whether a leader of these settings stays in a calm span, if others respect its records for its lease duration. Takes no memory.
pub fn stays_by(c: Calm, p: Proc) -> bool
    requires { IsCalm c }
    ensures { result ≡ spec.stays_by c p }
{
    replies_count(c, p) && renews(c, p) && outlasts(c, p)
}

fn gets(c: Calm) -> u128
    ensures is { result ≡ spec.gets c }
    ensures few { result ≤ 13000000000 }
{
    if c.fast_renew {
        u128::from(c.far)
    } else {
        3 * u128::from(c.far)
    }
}

fn crash_least(c: Calm, leader: Proc, p: Proc) -> u128
    requires { IsCalm c }
    ensures is { result ≡ spec.crash_least c leader p }
    ensures few { result ≤ 100000000000000000000000000000000000 }
{
    let over = least_looks(c, p, leader.lease_seconds) + 3 * u128::from(c.near);
    over.saturating_sub(retry(c, leader) + gets(c))
}

fn last_ways(c: Calm) -> u128
    requires { IsCalm c }
    ensures is { result ≡ ways_after c.fast_renew c.far }
    ensures few { result ≤ 26000000000 }
{
    let ways = 6 * u128::from(c.far);
    if c.fast_renew { ways - 1 } else { ways - 2 }
}

/// After a crash of the leader the other one leads no later than in so many beats.
pub fn crash_most(c: Calm, leader: Proc, p: Proc) -> u128
    requires { IsCalm c }
    ensures is { result ≡ spec.crash_most c leader p }
    ensures few { result ≤ 100000000000000000000000000000000000 }
{
    most_looks(c, p, leader.lease_seconds) + wait(c, p) + last_ways(c)
}

fn stop_most(c: Calm, p: Proc) -> u128
    requires { IsCalm c }
    ensures is { result ≡ spec.stop_most c p }
    ensures few { result ≤ 100000000000000000000000000000000000 }
{
    (wait(c, p) + 6 * u128::from(c.far)).saturating_sub(1)
}

fn acts_on(c: Calm, millis: u64) -> u128
    requires calm { IsCalm c }
    requires millis { millis ≤ 8589934590 }
    ensures is { result ≡ spec.acts_on c millis }
    ensures few { result ≤ 8600000000000000 }
{
    let term = beats_of(of_millis(millis), c.slow);
    (2 * u128::from(c.far) + term).saturating_sub(1)
}

fn own_term(p: Proc) -> u64
    ensures is { result ≡ spec.own_term p }
    ensures few { result ≤ 8589934590 }
{
    u64::from(p.retry_millis) + u64::from(p.renew_millis)
}

fn leads_by(c: Calm, old: u128, seconds: u32, p: Proc) -> u128
    requires calm { IsCalm c }
    requires old { old ≤ 9000000000000000 }
    ensures is { result ≡ spec.leads_by c old seconds p }
    ensures few { result ≤ 100000000000000000000000000000000000 }
{
    let lost = whole_beats(of_millis(u64::from(p.timeout_millis)), c.slow).max(old);
    let free = lost.max(4 * u128::from(c.far) - 1);
    free + wait(c, p) + most_looks(c, p, seconds) + 4 * u128::from(c.far)
}

fn stays_from(c: Calm, term: u64, seconds: u32, p: Proc) -> u128
    requires calm { IsCalm c }
    requires term { term ≤ 8589934590 }
    ensures is { result ≡ spec.stays_from c term seconds p }
    ensures few { result ≤ 100000000000000000000000000000000000 }
{
    let old = (acts_on(c, term) + 4 * u128::from(c.far)).saturating_sub(1);
    leads_by(c, old, seconds, p)
}

fn longest_term(controllers: &[Proc]) -> u64
    ensures is { result ≡ spec.longest_term controllers.now }
    ensures few { result ≤ 8589934590 }
{
    let mut longest = 0;
    for p in controllers {
        longest = own_term(*p).max(longest);
    }
    longest
}

fn longest_lease(controllers: &[Proc]) -> u32
    ensures { result ≡ spec.longest_lease controllers.now }
{
    let mut longest = 0;
    for p in controllers {
        longest = p.lease_seconds.max(longest);
    }
    longest
}

fn handed_over(c: Calm, term: u64, seconds: u32, leader: Proc, p: Proc) -> Handover
    requires calm { IsCalm c }
    requires term { term ≤ 8589934590 }
    ensures is { result ≡ spec.handed_over c term seconds leader p }
    ensures few { spec.AreFew result }
{
    Handover {
        crash_least: crash_least(c, leader, p),
        crash_most: crash_most(c, leader, p),
        stop_most: stop_most(c, p),
        leads: leads_by(c, 0, leader.lease_seconds, p),
        stays_from: stays_from(c, term, seconds, p),
    }
}

fn either(a: Handover, b: Handover) -> Handover
    requires a { spec.AreFew a }
    requires b { spec.AreFew b }
    ensures is { result ≡ spec.either a b }
    ensures few { spec.AreFew result }
{
    Handover {
        crash_least: a.crash_least.min(b.crash_least),
        crash_most: a.crash_most.max(b.crash_most),
        stop_most: a.stop_most.max(b.stop_most),
        leads: a.leads.max(b.leads),
        stays_from: a.stays_from.max(b.stays_from),
    }
}

fn with_other(is_leader: bool, found: Option<Handover>, b: Handover) -> Option<Handover>
    requires found { ForSome found spec.AreFew }
    requires b { spec.AreFew b }
    ensures is { result ≡ spec.with_other is_leader found b }
    ensures few { IfSome result spec.AreFew }
{
    if is_leader {
        return found;
    }
    match found {
        Some(a) => Some(either(a, b)),
        None => Some(b),
    }
}

fn others(c: Calm, place: usize, leader: Proc, controllers: &[Proc]) -> Option<Handover>
    requires calm { IsCalm c }
    ensures is { result ≡ spec.others c place leader controllers.now }
    ensures few { IfSome result spec.AreFew }
{
    let term = longest_term(controllers);
    let seconds = longest_lease(controllers);
    let mut found = None;
    let mut at: usize = 0;
    for p in controllers {
        found = with_other(
            at == place,
            found,
            handed_over(
                c,
                term,
                seconds,
                as_respected(c.respect, p.lease_seconds, leader),
                *p,
            ),
        );
        at += 1;
    }
    found
}

fn followers(c: Calm, leader: Proc, controllers: &[Proc], found: Option<Handover>) -> Handover
    requires calm { IsCalm c }
    requires found { ForSome found spec.AreFew }
    ensures is { result ≡ spec.followers c leader controllers.now found }
    ensures few { spec.AreFew result }
{
    match found {
        Some(found) => found,
        None => handed_over(
            c,
            longest_term(controllers),
            longest_lease(controllers),
            leader,
            leader,
        ),
    }
}

fn number_if(holds: bool, number: u128) -> Option<u128>
    ensures { result ≡ spec.number_if holds number }
{
    if holds { Some(number) } else { None }
}

fn span_if(holds: bool, least: u128, most: u128) -> Option<Span>
    ensures { result ≡ spec.span_if holds least most }
{
    if holds {
        Some(Span { least, most })
    } else {
        None
    }
}

/// So many beats in milliseconds.
fn in_millis(c: Calm, beats: u128) -> u128
    requires calm { IsCalm c }
    requires few { beats ≤ 100000000000000000000000000000000000 }
    ensures { result ≡ beats * c.beat_millis }
{
    beats * u128::from(c.beat_millis)
}

fn crash_of(c: Calm, holds: bool, found: Option<Handover>) -> Option<Span>
    requires calm { IsCalm c }
    requires found { ForSome found spec.AreFew }
    ensures { result ≡ spec.crash_of c holds found }
{
    match found {
        None => None,
        Some(h) => span_if(
            holds,
            in_millis(c, h.crash_least),
            in_millis(c, h.crash_most),
        ),
    }
}

fn stop_of(c: Calm, holds: bool, found: Option<Handover>) -> Option<Span>
    requires calm { IsCalm c }
    requires found { ForSome found spec.AreFew }
    ensures { result ≡ spec.stop_of c holds found }
{
    match found {
        None => None,
        Some(h) => span_if(
            holds,
            in_millis(c, 4 * u128::from(c.near)),
            in_millis(c, h.stop_most),
        ),
    }
}

/// The bounds of a leader, which stands at a place of these controllers: how long nobody leads after its crash or stop, how long it acts on
/// if it is cut off, and by when somebody leads, or one that stays, once the network is well. Whichever other controller is up, they hold.
/// Takes no memory.
#[tactic(auto, unfolding(crate::specs::Elections::election_of))]
pub fn election_of(c: Calm, place: usize, leader: Proc, controllers: &[Proc]) -> Election
    requires { IsCalm c }
    ensures { result ≡ spec.election_of c place leader controllers.now }
{
    let leads = leads(c, controllers);
    let stays = stays(c, controllers);
    let found = others(c, place, leader, controllers);
    let followers = followers(c, leader, controllers, found);
    Election {
        crash: crash_of(c, stays, found),
        stop: stop_of(c, stays, found),
        acts_on: number_if(leads, in_millis(c, acts_on(c, own_term(leader)))),
        leads: number_if(leads, in_millis(c, followers.leads)),
        stays_from: number_if(stays, in_millis(c, followers.stays_from)),
    }
}
