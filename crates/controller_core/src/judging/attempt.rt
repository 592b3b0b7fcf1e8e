// Judging one node.
ghost use Rattle.std.specs.Prelude.{◌≡◌, ◌==◌, ◌&&◌, ◌||◌, not, ℕ, true, false, List, ◌∷◌, OnOk, IfOk, if◌then◌else◌};
ghost use Rattle.kube_objects.specs.Clocks.{wall};
ghost use Rattle.kube_objects.specs.Document.{Doc};
ghost use Rattle.kube_objects.specs.Entry.{Entry, Identity};
ghost use Rattle.kube_objects.specs.Judgement as model;
ghost use Rattle.kube_objects.specs.Judgement.{Passed, has_turned_on};
ghost use Rattle.kube_objects.specs.Newest.{has};
ghost use Rattle.kube_objects.specs.Seen.{is_synced, seen_node};
ghost use Rattle.kube_objects.specs.Tick as tick;
ghost use Rattle.node_taints.specs.Wanting.{wants_of};
ghost use Rattle.taint_zones.specs.Places.{zone_eq};
ghost use Rattle.taint_zones.specs.Pushing.{counted_at, pushed_at};
ghost use Rattle.term_state.specs.ClusterStands.{ClusterStands};
ghost use Rattle.controller_core.specs.Looking.{IsAsMarked, IsLook};
ghost use Rattle.controller_core.specs.Pushing.{JudgingStand, is_left};
ghost use Rattle.controller_core.specs.Trying.{IsTryOf};
ghost use Rattle.controller_core.specs.Verdicts.{counts_after, said};

use crate::judging::verdict::{Verdict, is_again, verdict_of};
use crate::pass::found::Look;
use crate::trying::untaint_of;
use kube_base::{NoMemory, Version, Wall, whole_second};
use kube_objects::{Node, QueueRule};
use node_taints::{Wants, new_taint, with_only, with_swap};
use taint_zones::{Place, ZonePushes};
use term_state::{Cluster, NodeTry, NodeWrite};

fn clear_where(pushes: &mut ZonePushes, place: Place, name: u32, clears: bool)
    ensures names { (zone : Place) → pushed_at pushes.new zone
        ≡ (if zone_eq place zone then model.clear clears (counted_at pushes.old zone name) name (pushed_at pushes.old zone)
        else pushed_at pushes.old zone) }
    ensures counts { (zone : Place) (other : ℕ) → counted_at pushes.new zone other
        ≡ (not (clears && (zone_eq place zone && (name == other))) && counted_at pushes.old zone other) }
{
    if clears {
        pushes.clear(place, name);
    }
}

fn push_where(
    pushes: &mut ZonePushes,
    place: Place,
    name: u32,
    verdict: &Verdict,
    rule: QueueRule,
) -> Result<(), NoMemory>
    ensures names { OnOk result ((zone : Place) → pushed_at pushes.new zone
        ≡ (if zone_eq place zone
        then model.push rule (verdict.now.queued && (verdict.now.pushed || not (counted_at pushes.old zone name))) name (pushed_at pushes.old zone)
        else pushed_at pushes.old zone)) }
    ensures counts { OnOk result ((zone : Place) (other : ℕ) → counted_at pushes.new zone other
        ≡ ((verdict.now.queued && (zone_eq place zone && (name == other))) || counted_at pushes.old zone other)) }
{
    if verdict.queued {
        pushes.want(place, name, verdict.pushed, is_again(rule))?;
    }
    Ok(())
}

// A node is cleared where it is new or True, pushed where it is to stand in its zone's queue, and cleared where the mode begins.
fn queue(
    pushes: &mut ZonePushes,
    place: Place,
    name: u32,
    verdict: &Verdict,
    turned: bool,
    rule: QueueRule,
) -> Result<(), NoMemory>
    ensures names { OnOk result ((zone : Place) → pushed_at pushes.new zone
        ≡ (if zone_eq place zone
        then model.queue_verdict rule turned (counted_at pushes.old zone name) name (said verdict.now) (pushed_at pushes.old zone)
        else pushed_at pushes.old zone)) }
    ensures counts { OnOk result ((zone : Place) (other : ℕ) → counted_at pushes.new zone other
        ≡ (if zone_eq place zone && (name == other) then counts_after turned (said verdict.now) (counted_at pushes.old zone other)
        else counted_at pushes.old zone other)) }
{
    clear_where(pushes, place, name, verdict.cleared);
    push_where(pushes, place, name, verdict, rule)?;
    clear_where(pushes, place, name, turned);
    Ok(())
}

// The node with the taint that it wants in the place of the other one; a new one has it anew.
fn crossed(fresh: bool, node: &Node, wanted: u32, now: Wall) -> Result<Node, NoMemory>
    ensures { (doc : Doc) (k : ℕ) (q : Identity) → now.0 ≡ wall doc q.process k
        → IfOk result (λ written. written ≡ tick.crossed fresh (tick.new_taint doc k q wanted) node.now) }
{
    let taint = new_taint(wanted, whole_second(now));
    if fresh {
        return with_only(node, taint);
    }
    with_swap(node, taint)
}

// The swap of a node that has the opposite of what it wants.
fn swap_of(
    name: u32,
    wants: Wants,
    fresh: bool,
    given: Version,
    node: &Node,
    now: Wall,
) -> Result<Option<NodeTry>, NoMemory>
    ensures { (doc : Doc) (k : ℕ) (q : Identity) (h : List Entry) → now.0 ≡ wall doc q.process k → has (seen_node q name h) ≡ true
        → IfOk result (λ tried. IsTryOf k q h (tick.add_crossed doc k q name given node.now fresh (wants_of wants) h) tried) }
{
    let Wants::Wanted(wanted) = wants else {
        return Ok(None);
    };
    let written = crossed(fresh, node, wanted, now)?;
    Ok(Some(NodeTry {
        name,
        given,
        written,
        write: NodeWrite::Swap(wanted),
    }))
}

// Whether a node that isn't swapped loses its condition taints.
fn loses_taints(verdict: &Verdict, turned: bool) -> bool
    ensures { result ≡ (verdict.now.cleared || turned) }
{
    verdict.cleared || turned
}

// The try of a node with this verdict.
fn write_of(
    name: u32,
    verdict: &Verdict,
    fresh: bool,
    turned: bool,
    given: Version,
    node: &Node,
    now: Wall,
) -> Result<Option<NodeTry>, NoMemory>
    ensures { (doc : Doc) (k : ℕ) (q : Identity) (x : Passed) (h : List Entry) → now.0 ≡ wall doc q.process k → has (seen_node q name h) ≡ true
        → fresh ≡ model.is_new doc q name x.before → turned ≡ has_turned_on q x
        → verdict.now.crossed ≡ model.is_crossed (wants_of verdict.now.wants) node.now
        → verdict.now.cleared ≡ (fresh || model.is_healthy (wants_of verdict.now.wants))
        → IfOk result (λ tried. IsTryOf k q h (tick.judge_as doc k q name x given node.now (wants_of verdict.now.wants) h) tried) }
{
    if verdict.crossed {
        return swap_of(name, verdict.wants, fresh, given, node, now);
    }
    untaint_of(name, loses_taints(verdict, turned), given, node)
}

/// Judges one node as a pass found it: what its zone's queue has of it, and the try to swap or untaint it, if it isn't stale.
pub(crate) fn judge_one(
    name: u32,
    look: Look,
    turned: bool,
    rule: QueueRule,
    pushes: &mut ZonePushes,
    cluster: &Cluster,
    now: Wall,
) -> Result<Option<NodeTry>, NoMemory>
    ensures { (doc : Doc) (k : ℕ) (q : Identity) (h : List Entry) (x : Passed) (xs : List Passed) (rest : List ℕ)
        → ClusterStands q h cluster.now → is_synced q h ≡ true → now.0 ≡ wall doc q.process k
        → has (seen_node q name x.before) ≡ true → IsLook doc q x.before name look → IsAsMarked q x name h → turned ≡ has_turned_on q x
        → rule ≡ doc.settings.rules.queue → is_left rest name ≡ false → JudgingStand doc q x xs (name ∷ rest) pushes.old
        → IfOk result (λ tried. IsTryOf k q h (tick.judge doc k q x name h) tried × JudgingStand doc q x xs rest pushes.new) }
{
    let Some((given, node)) = cluster.node(name) else {
        return Ok(None);
    };
    let verdict = verdict_of(look, rule, node);
    let place = Place {
        region: node.region,
        zone: node.zone,
    };
    queue(pushes, place, name, &verdict, turned, rule)?;
    if cluster.is_stale(name) {
        return Ok(None);
    }
    write_of(name, &verdict, look.fresh, turned, given, node, now)
}
