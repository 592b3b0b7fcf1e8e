// The judgement of nodes at a pass: who is pushed into its zone's queue, and the untaints and swaps.
ghost use Rattle.std.specs.Prelude.{◌≡◌, ℕ, List, ◌∷◌, OnOk};
ghost use Rattle.kube_objects.specs.Document.{Doc};
ghost use Rattle.kube_objects.specs.Entry.{Entry, Identity, Place};
ghost use Rattle.kube_objects.specs.Judgement.{Passed, passes, queue_heads};
ghost use Rattle.kube_objects.specs.Tick as tick;
ghost use Rattle.kube_objects.specs.declared.deed.Deed.{Deed};
ghost use Rattle.term_state.specs.MidTick.{IsView, MidTick};
ghost use Rattle.term_state.specs.Sights.{spent};
ghost use Rattle.controller_core.specs.Costs.{HaveCost};
ghost use Rattle.controller_core.specs.Looking.{IsAsMarked, LooksStand};
ghost use Rattle.controller_core.specs.Pushing.{JudgingStand, PushesStand};

mod attempt;
mod verdict;

use crate::judging::attempt::judge_one;
use crate::pass::found::Found;
use crate::trying::write_if;
use kube_base::{NoMemory, Steps};
use kube_objects::QueueRule;
use object_store::Store;
use taint_zones::ZonePushes;
use term_state::{Cluster, Told, View};

/// Judges each node that a pass found, in order, by what was seen before the pass's marks.
pub(crate) fn judge_all<L>(
    found: &Found,
    rule: QueueRule,
    pushes: &mut ZonePushes,
    cluster: &mut Cluster,
    store: &mut Store,
    view: &View,
    told: &mut Told,
    steps: &mut Steps<L>,
) -> Result<(), NoMemory>
    ensures { (doc : Doc) (k : ℕ) (q : Identity) (before : List Deed) (h : List Entry) (x : Passed) (xs : List Passed)
        → MidTick doc q k before h cluster.old store.old told.old → IsView doc k q h view.entry.now
        → passes q h ≡ x ∷ xs → LooksStand doc q x found.now → ((name : ℕ) → IsAsMarked q x name h)
        → ((place : Place) (names : List ℕ) → queue_heads doc q place (x ∷ xs) x.after names ≡ names) → rule ≡ doc.settings.rules.queue
        → JudgingStand doc q x xs found.now.names pushes.old
        → OnOk result (MidTick doc q k before (tick.judge_all doc k q (passes q h) h) cluster.new store.new told.new
        × PushesStand doc q (tick.judge_all doc k q (passes q h) h) pushes.new
        × HaveCost q k h (tick.judge_all doc k q (passes q h) h) (spent cluster.old steps.old) (spent cluster.new steps.new)) }
{
    let mut rest = found.names.as_slice();
    let mut looks = found.looks.as_slice();
    while let Some((name, others)) = rest.split_first() {
        let Some((look, more)) = looks.split_first() else {
            return Ok(());
        };
        let tried = judge_one(*name, *look, found.turned, rule, pushes, cluster, view.wall)?;
        write_if(cluster, store, view, told, steps, tried)?;
        rest = others;
        looks = more;
    }
    Ok(())
}
