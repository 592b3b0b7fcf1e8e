// Where two act at once.
ghost use Rattle.std.specs.Prelude.{◌≡◌, ◌≤◌, map, max};
ghost use Rattle.std.specs.Option.{option_copied, option_map};
ghost use Rattle.lens_terms.specs.Acting.{shown};
ghost use Rattle.lens_terms.specs.Together as spec;

use crate::latest::Latest;
use crate::stretch::Stretch;

/// The first of stretches, which stand in the order in which they begin, that begins while one of another identity lasts. One pass over them.
#[tactic(auto, unfolding(crate::specs::Together::overlap))]
pub fn overlap<'t, 'a>(found: &'t [Stretch<&'a [u8]>]) -> Option<&'t Stretch<&'a [u8]>>
    ensures { option_map shown (option_copied result) ≡ spec.overlap (map shown found.now) }
{
    let mut latest = Latest::none_yet();
    for stretch in found {
        if stretch.from < latest.rival(stretch.actor) {
            return Some(stretch);
        }
        latest = latest.with_stretch(stretch.actor, stretch.until);
    }
    None
}

/// The first stretch of another identity that lasts when this one begins.
pub fn crossing<'t, 'a>(
    found: &'t [Stretch<&'a [u8]>],
    stretch: &Stretch<&'a [u8]>,
) -> Option<&'t Stretch<&'a [u8]>>
    ensures { option_copied result ≡ spec.first (λ other. spec.crosses (shown stretch.now) (shown other)) found.now }
{
    for other in found {
        if other.actor != stretch.actor
            && other.from <= stretch.from
            && stretch.from < other.until
        {
            return Some(other);
        }
    }
    None
}

/// At how many beats two identities act, in a trace that ends before the beat `stop`. One pass over the stretches, which stand in the order in
/// which they begin.
#[tactic(auto, unfolding(crate::specs::Together::beats_of_two))]
pub fn beats_of_two(stop: u32, found: &[Stretch<&[u8]>]) -> u32
    ensures { result ≡ spec.beats_of_two stop (map shown found.now) }
{
    let mut latest = Latest::none_yet();
    let mut since = 0;
    let mut beats = 0;
    for stretch in found {
        let from = later(since, stretch.from);
        let end = shared_end(stop, from, &latest, stretch);
        beats += end - from;
        since = end;
        latest = latest.with_stretch(stretch.actor, stretch.until);
    }
    beats
}

fn later(one: u32, other: u32) -> u32
    ensures { result ≡ max one other }
{
    one.max(other)
}

/// The beat before which a stretch has all beats that it shares with those so far, and not before the beat `from`.
fn shared_end(stop: u32, from: u32, latest: &Latest<&[u8]>, stretch: &Stretch<&[u8]>) -> u32
    ensures is { result ≡ spec.shared_end stop from (spec.latest_shown latest.now) (shown stretch.now) }
    ensures behind { from ≤ result }
{
    let shared = stretch.until.min(stop).min(latest.rival(stretch.actor));
    from.max(shared)
}
