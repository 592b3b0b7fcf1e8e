// A world goes from one beat with an entry to the next.
ghost use Rattle.std.specs.Prelude.{◌≡◌, ◌+◌, ◌≤◌, ℕ, IfOk, OnOk};
ghost use Rattle.agenda_laws.specs.Standing.{standing_below};
ghost use Rattle.kube_objects.specs.Document.{Doc, end_beat};
ghost use Rattle.history.specs.History.{history};
ghost use Rattle.script_reader.specs.Lawful.{AreLawfulFrom};
ghost use Rattle.world_core.specs.Waits.{beat_of};
ghost use Rattle.world_core.specs.Worlds.{WorldStands, at_of, end_of, names_of};
ghost use Rattle.world_runs.specs.Runs.{AreNext, IsGoing, IsNextUpTo, Runs};

use beat_laws::nodes_are_few;
use history_laws::{calls_are_numbered, starts_are_few};
use kube_base::{Beat, NoMemory, Steps};
use kube_objects::Deeds;
use world_agenda::next_beat;
use world_core::World;
use zone_state::Policies;

/// Does all beats with entries up to the last one.
pub fn run_up_to<L>(
    world: &mut World,
    last: Beat,
    policies: &Policies,
    steps: &mut Steps<L>,
) -> Result<(), NoMemory>
    requires going { IsGoing last.0 world.old }
    requires runs { (doc : Doc) × (first : ℕ) × Runs doc first steps.old world.old }
    ensures kept { OnOk result (IsGoing last.0 world.new × (names_of world.new ≡ names_of world.old)) }
    ensures runs { (doc : Doc) (first : ℕ) → Runs doc first steps.old world.old
        → OnOk result (Runs doc first steps.new world.new × (history doc (last.0 + 1) ≡ history doc (at_of world.new))) }
    ensures counted { (doc : Doc) (first : ℕ) → Runs doc first steps.old world.old → steps.new ≤ first + standing_below doc (last.0 + 1) }
{
    'beats: while let Some(_deeds) = next_deeds(world, last, policies, steps)? {}
    Ok(())
}

/// Does the next beat with an entry, if it comes no later than the last one, and returns what of it is printed. None exactly if no
/// entry stands up to the last beat.
pub fn next_deeds<L>(
    world: &mut World,
    last: Beat,
    policies: &Policies,
    steps: &mut Steps<L>,
) -> Result<Option<Deeds>, NoMemory>
    requires going { IsGoing last.0 world.old }
    requires runs { (doc : Doc) × (first : ℕ) × Runs doc first steps.old world.old }
    ensures going { OnOk result (IsGoing last.0 world.new) }
    ensures kept { OnOk result ((end_of world.new ≡ end_of world.old) × (names_of world.new ≡ names_of world.old)) }
    ensures next { (doc : Doc) (first : ℕ) → Runs doc first steps.old world.old
        → IfOk result (λ deeds. Runs doc first steps.new world.new × AreNext doc last.0 world.old world.new deeds) }
    ensures counted { (doc : Doc) (first : ℕ) → Runs doc first steps.old world.old → steps.new ≤ first + standing_below doc (last.0 + 1) }
{
    calls_are_numbered();
    starts_are_few();
    nodes_are_few();
    let Some(beat) = next_up_to(world, last) else {
        return Ok(None);
    };
    world.skip_to(beat);
    let deeds = world.beat(policies, steps)?;
    Ok(Some(deeds))
}

/// The next beat with an entry, if it comes no later than this beat.
fn next_up_to(world: &World, last: Beat) -> Option<Beat>
    requires { IsGoing last.0 world.now }
    ensures { (doc : Doc) → AreLawfulFrom doc 0 doc.events → WorldStands doc (at_of world.now) (history doc (at_of world.now)) world.now
        → end_of world.now ≡ end_beat doc → IsNextUpTo doc (at_of world.now) last.0 (beat_of result) }
{
    if last.0 < world.at().0 {
        return None;
    }
    match next_beat(world) {
        Some(beat) => if beat.0 <= last.0 { Some(beat) } else { None },
        None => None,
    }
}
