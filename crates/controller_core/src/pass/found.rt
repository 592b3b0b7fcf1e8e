// What a pass leaves to be judged at its tick.
ghost use Rattle.std.specs.Prelude.{◌≡◌, ◌&&◌, not, ℕ, true, false, List, [], IfOk};
ghost use Rattle.std.specs.List.Sorted.{IsStrictlySortedBy};
ghost use Rattle.std.specs.Ordering.{nat_cmp};
ghost use Rattle.kube_objects.specs.Document.{Doc};
ghost use Rattle.kube_objects.specs.Entry.{Entry, Identity};
ghost use Rattle.kube_objects.specs.Judgement as model;
ghost use Rattle.kube_objects.specs.Seen.{is_synced, seen_node};
ghost use Rattle.node_health.specs.Kept as kept;
ghost use Rattle.node_taints.specs.Wanting.{wants_of};
ghost use Rattle.term_state.specs.ClusterStands.{ClusterStands};
ghost use Rattle.zone_counts.specs.Settings.{AreSettings};
ghost use Rattle.controller_core.specs.Looking.{AreLooks, HeldStand, IsLook, are_looked_ahead, looks_ahead, wants_seen};

use kube_base::NoMemory;
use kube_objects::{JudgeRule, NumberList, SightRule, TickSettings};
use node_taints::{Wants, ready_wants};
use std::alloc::Global;
use term_state::Cluster;

/// A node as a pass found it, before its marks: what it wanted by its Ready, and whether the pass before didn't hold it.
#[derive(Clone, Copy, Debug, PartialEq, Eq)]
pub(crate) struct Look {
    pub(crate) wants: Wants,
    pub(crate) fresh: bool,
}

/// The nodes that a pass found, in order, and whether it turned the mode on in which every zone is disrupted. The looks are as many as the nodes,
/// or there are none: then nothing is to be judged by the pass.
#[derive(Drop)]
pub(crate) struct Found {
    pub(crate) names: NumberList,
    pub(crate) looks: Vec<Look>,
    pub(crate) turned: bool,
}

impl Found {
    /// The nodes that it found.
    pub(crate) fn into_names(self) -> NumberList
        ensures { result ≡ self.names }
    {
        self.names
    }
}

/// Whether the mode is turned on, which was on or wasn't before.
pub(crate) fn turns_on(was: bool, is: bool) -> bool
    ensures { result ≡ (not was && is) }
{
    !was && is
}

// Whether a list has a name.
fn holds(names: &[u32], name: u32) -> bool
    ensures { IsStrictlySortedBy nat_cmp names.now → result ≡ kept.is_listed names.now name }
{
    names.binary_search(&name).is_ok()
}

// What a node wants by its Ready.
fn wanted(cluster: &Cluster, name: u32) -> Wants
    ensures { (q : Identity) (h : List Entry) → ClusterStands q h cluster.now → is_synced q h ≡ true
        → wants_of result ≡ wants_seen (seen_node q name h) }
{
    match cluster.node(name) {
        None => Wants::Whatever,
        Some((_, node)) => ready_wants(node.ready),
    }
}

// Whether the node is new.
fn is_new(settings: &TickSettings, held: &NumberList, name: u32) -> bool
    ensures { (doc : Doc) (q : Identity) (h : List Entry) → AreSettings doc settings.now → HeldStand q h held.now → result ≡ model.is_new doc q name h }
{
    strips(settings) && !holds(held.as_slice(), name)
}

// Whether a pass has something to judge.
fn looks_ahead(settings: &TickSettings) -> bool
    ensures { result ≡ looks_ahead settings.now }
{
    matches!(settings.judge, JudgeRule::Pass) || strips(settings)
}

/// Whether nodes that are new lose their condition taints.
pub(crate) fn strips(settings: &TickSettings) -> bool
    ensures { result ≡ model.strips settings.now.first_sight }
{
    matches!(settings.first_sight, SightRule::Strip)
}

// A node as it is seen before the marks.
fn look_of(settings: &TickSettings, held: &NumberList, cluster: &Cluster, name: u32) -> Look
    ensures { (doc : Doc) (q : Identity) (h : List Entry) → ClusterStands q h cluster.now → is_synced q h ≡ true → AreSettings doc settings.now
        → HeldStand q h held.now → IsLook doc q h name result }
{
    Look {
        wants: wanted(cluster, name),
        fresh: is_new(settings, held, name),
    }
}

/// What a pass finds of these nodes before its marks; `held` has the nodes of the pass before.
pub(crate) fn looks_before(
    alloc: Global,
    settings: &TickSettings,
    names: &NumberList,
    held: &NumberList,
    cluster: &Cluster,
) -> Result<Vec<Look>, NoMemory>
    ensures looks { (doc : Doc) (q : Identity) (h : List Entry) → ClusterStands q h cluster.now → is_synced q h ≡ true → AreSettings doc settings.now
        → HeldStand q h held.now → are_looked_ahead doc ≡ true → IfOk result (λ looks. AreLooks doc q h names.now looks.items) }
    ensures unasked { (doc : Doc) → AreSettings doc settings.now → are_looked_ahead doc ≡ false → IfOk result (λ looks. looks.items ≡ []) }
{
    let mut looks = Vec::new(alloc);
    if !looks_ahead(settings) {
        return Ok(looks);
    }
    let mut rest = names.as_slice();
    while let Some((name, others)) = rest.split_first() {
        looks.push(look_of(settings, held, cluster, *name))?;
        rest = others;
    }
    Ok(looks)
}
