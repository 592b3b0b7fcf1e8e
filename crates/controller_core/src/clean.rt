// The untaints and swaps of a tick: nodes lose condition taints that they don't want.
ghost use Rattle.std.specs.Prelude.{◌≡◌, ℕ, true, false, List, [], ◌∷◌, IfOk, OnOk};
ghost use Rattle.kube_objects.specs.Clocks.{wall};
ghost use Rattle.kube_objects.specs.Document.{Doc};
ghost use Rattle.kube_objects.specs.Entry.{Entry, Identity};
ghost use Rattle.kube_objects.specs.Health.{is_pass_tick};
ghost use Rattle.kube_objects.specs.Judgement.{Passed, passes};
ghost use Rattle.kube_objects.specs.Newest.{has};
ghost use Rattle.kube_objects.specs.Seen.{is_synced, seen_node};
ghost use Rattle.kube_objects.specs.Tick as tick;
ghost use Rattle.kube_objects.specs.declared.deed.Deed.{Deed};
ghost use Rattle.kube_objects.specs.declared.rules.JudgeRule.TheVariants as judges;
ghost use Rattle.controller_core.specs.Cleaning.{AreKept};
ghost use Rattle.controller_core.specs.Costs.{HaveCost};
ghost use Rattle.controller_core.specs.Looking.{LooksStand, are_looked_ahead};
ghost use Rattle.controller_core.specs.Trying.{IsTryOf};
ghost use Rattle.term_state.specs.ClusterStands.{ClusterStands};
ghost use Rattle.term_state.specs.MidTick.{IsView, MidTick};
ghost use Rattle.term_state.specs.Sights.{spent};

mod attempt;
mod strip;

use crate::clean::attempt::clean_of;
use crate::clean::strip::strip_of;
use crate::pass::found::Found;
use crate::trying::write_if;
use kube_base::{NoMemory, Steps, Wall};
use object_store::Store;
use term_state::{Cluster, NodeTry, Told, View};

/// Untaints each node that wants no condition taint and has one, and swaps the taint of each that has the other one than it
/// wants, in the order of nodes. A lost try is made again at the next tick; a refused one not before the next sync.
///
/// It looks at these nodes alone, and counts two steps for each pod on a node that was written.
pub(crate) fn clean<L>(
    cluster: &mut Cluster,
    store: &mut Store,
    view: &View,
    told: &mut Told,
    steps: &mut Steps<L>,
) -> Result<(), NoMemory>
    ensures { (doc : Doc) (k : ℕ) (q : Identity) (before : List Deed) (h : List Entry) → doc.settings.rules.judge ≡ judges.Tick → AreKept doc k q h
        → MidTick doc q k before h cluster.old store.old told.old → IsView doc k q h view.entry.now
        → OnOk result (MidTick doc q k before (tick.cleaned doc k q h) cluster.new store.new told.new
        × HaveCost q k h (tick.cleaned doc k q h) (spent cluster.old steps.old) (spent cluster.new steps.new)) }
{
    let mut next = cluster.next_unclean(None);
    while let Some(name) = next {
        let tried = clean_of(cluster, name, view.wall)?;
        write_if(cluster, store, view, told, steps, tried)?;
        next = cluster.next_unclean(Some(name));
    }
    Ok(())
}

/// The same at the tick of a pass: there each node that is new loses its condition taints, whatever it wants.
pub(crate) fn clean_found<L>(
    found: &Found,
    cluster: &mut Cluster,
    store: &mut Store,
    view: &View,
    told: &mut Told,
    steps: &mut Steps<L>,
) -> Result<(), NoMemory>
    ensures { (doc : Doc) (k : ℕ) (q : Identity) (before : List Deed) (h : List Entry) (x : Passed) (xs : List Passed) → doc.settings.rules.judge ≡ judges.Tick
        → MidTick doc q k before h cluster.old store.old told.old → IsView doc k q h view.entry.now
        → passes q h ≡ x ∷ xs → is_pass_tick k q h ≡ true → ((n : ℕ) → has (seen_node q n h) ≡ has (seen_node q n x.before))
        → (are_looked_ahead doc ≡ true → LooksStand doc q x found.now) → (are_looked_ahead doc ≡ false → found.now.looks.items ≡ [])
        → OnOk result (MidTick doc q k before (tick.cleaned doc k q h) cluster.new store.new told.new
        × HaveCost q k h (tick.cleaned doc k q h) (spent cluster.old steps.old) (spent cluster.new steps.new)) }
{
    if found.looks.is_empty() {
        return clean(cluster, store, view, told, steps);
    }
    let mut rest = found.names.as_slice();
    let mut looks = found.looks.as_slice();
    while let Some((name, others)) = rest.split_first() {
        let Some((look, more)) = looks.split_first() else {
            return Ok(());
        };
        let tried = clean_by(look.fresh, *name, cluster, view.wall)?;
        write_if(cluster, store, view, told, steps, tried)?;
        rest = others;
        looks = more;
    }
    Ok(())
}

// The try of one node, which is new or isn't.
fn clean_by(
    fresh: bool,
    name: u32,
    cluster: &Cluster,
    now: Wall,
) -> Result<Option<NodeTry>, NoMemory>
    ensures { (doc : Doc) (k : ℕ) (q : Identity) (h : List Entry) → ClusterStands q h cluster.now → is_synced q h ≡ true
        → now.0 ≡ wall doc q.process k → fresh ≡ tick.is_stripped doc.settings.rules.first_sight k q name h
        → IfOk result (λ tried. IsTryOf k q h (tick.clean doc k q name h) tried) }
{
    if fresh {
        return strip_of(cluster, name);
    }
    if cluster.is_unclean_at(name) {
        return clean_of(cluster, name, now);
    }
    Ok(None)
}
