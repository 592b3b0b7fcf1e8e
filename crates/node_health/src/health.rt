// The health of the nodes that a leader knows.
ghost use Rattle.std.specs.Prelude.{◌≡◌, ◌==◌, ◌+◌, ℕ, nat_lt, Bool, true, false, List, Option, None, Some, option_map};
ghost use Rattle.std.specs.Prelude.{IfOk, IfSome, IsOk, OnOk, OnErr, IsSome, if◌then◌else◌};
ghost use Rattle.kube_base.specs.declared.numbers.Version.{Version};
ghost use Rattle.kube_objects.specs.Clocks.{local};
ghost use Rattle.kube_objects.specs.Document.{Doc};
ghost use Rattle.kube_objects.specs.Entry.{Entry, Identity, Mark, Mode, Pass};
ghost use Rattle.kube_objects.specs.Health.{heard, is_found, is_known, mark_of};
ghost use Rattle.kube_objects.specs.Newest.{has};
ghost use Rattle.kube_objects.specs.Own.{ProbesByRun};
ghost use Rattle.kube_objects.specs.Seen.{is_accepted};
ghost use Rattle.kube_objects.specs.Tick.{add};
ghost use Rattle.kube_objects.specs.declared.call.Answer.{Answer};
ghost use Rattle.kube_objects.specs.declared.node.Node.{Node};
ghost use Rattle.kube_objects.specs.declared.rules.ProbeRule.TheVariants as probes;
ghost use Rattle.node_health.specs.Kept as spec;
ghost use Rattle.node_health.specs.Kept.{grace_for, judged, kept, verdict_of};
ghost use Rattle.node_health.specs.Recorded as recorded;
ghost use Rattle.node_health.specs.Recorded.{after_mark, after_mode, after_others, after_seen};
ghost use Rattle.node_health.specs.Stands.{AreAlike, AreUnlooked, HealthStands, IsLook, IsNoted, PassStands, and_looked};

use crate::known::{Known, heartbeat_of, is_silent, renewed_of};
use crate::known_nodes::KnownNodes;
use crate::verdict::judge;
use crate::{Grace, Verdict};
use kube_base::{Local, NoMemory};
use kube_objects::{Lease, Node, NumberList, ProbeRule, Ready};
use std::alloc::Global;

/// The nodes that a leader's last pass found, by the numbers of their names, each with the reading at which it was last
/// heard of. Source: the monitor of node health of Kubernetes' node lifecycle controller.
///
/// Readings are those of the leader's own clock, in units of 10^-12 s. A node tells of itself by the heartbeat of its Ready
/// condition and by the renew time of its Lease. These are kept to be compared with later ones, and never with a clock.
///
/// By the record a node that a pass doesn't find stays known, with Ready as the marks of the last pass left it that found the node, and with
/// the Lease that was counted last.
///
/// A look costs the same however many nodes are known.
#[derive(Drop)]
pub struct Health {
    rule: ProbeRule,
    nodes: KnownNodes,
}

impl Health {
    /// No node is known. Takes no memory.
    pub fn new(alloc: Global, rule: ProbeRule) -> Health
        ensures rule { result.rule ≡ rule }
        ensures kept { (node : ℕ) → kept result node ≡ None }
        ensures stands { (doc : Doc) (q : Identity) (h : List Entry) → rule ≡ doc.settings.rules.probe → AreUnlooked q h → HealthStands doc q h result }
    {
        Health {
            rule,
            nodes: KnownNodes::new(alloc),
        }
    }

    /// A pass looks at a node, which it finds with this Lease. Answers whether the node is to be marked.
    ///
    /// If the node is known it takes no memory. If memory runs out, the node stays unknown.
    pub fn look(
        &mut self,
        node: u32,
        seen: &Node,
        lease: Option<Lease>,
        now: Local,
        grace: &Grace,
    ) -> Result<Verdict, NoMemory>
        ensures rule { self.new.rule ≡ self.old.rule }
        ensures verdict { IfOk result (λ verdict. verdict ≡ judged seen.now.ready
            (nat_lt ((after_seen self.old.rule (kept self.old node) seen.now.ready lease now.0).probe.0
            + grace_for grace.now seen.now.ready) now.0)) }
        ensures kept { OnOk result ((other : ℕ) → kept self.new other
            ≡ (if node == other then Some (after_seen self.old.rule (kept self.old node) seen.now.ready lease now.0) else kept self.old other)) }
        ensures err { OnErr result ((other : ℕ) → kept self.new other ≡ kept self.old other) }
        ensures room { IsSome (kept self.old node) → IsOk result }
        ensures marks { (doc : Doc) (k : ℕ) (q : Identity) (h g : List Entry) (looked : ℕ → Bool)
            → PassStands doc q h g looked self.old → looked node ≡ false → IsLook doc k q h g node seen.now lease now.0 grace.now
            → IfOk result (λ verdict. verdict ≡ verdict_of (mark_of doc q k node seen.now g)) }
        ensures stands { (doc : Doc) (k : ℕ) (q : Identity) (h g : List Entry) (looked : ℕ → Bool)
            → PassStands doc q h g looked self.old → looked node ≡ false → IsLook doc k q h g node seen.now lease now.0 grace.now
            → OnOk result (PassStands doc q h g (and_looked node looked) self.new) }
    {
        let probe = self.hear(node, seen.ready, lease, now)?;
        Ok(judge(seen.ready, is_silent(probe, grace.of(seen.ready), now)))
    }

    /// A mark of a node that was looked at was accepted, with this Lease. Takes no memory.
    pub fn note_mark(&mut self, node: u32, lease: Option<Lease>)
        ensures rule { self.new.rule ≡ self.old.rule }
        ensures kept { (other : ℕ) → kept self.new other
            ≡ (if node == other then after_mark self.old.rule lease (kept self.old node) else kept self.old other) }
        ensures stands { (doc : Doc) (k : ℕ) (q : Identity) (h g : List Entry) (looked : ℕ → Bool) (given : Version) (written : Node) (tried : Option Answer)
            → PassStands doc q h g looked self.old → looked node ≡ true → is_accepted tried ≡ true
            → (self.old.rule ≡ probes.Record → IsNoted q g node written lease (kept self.old node))
            → PassStands doc q h (add k q (Mark node given written tried) g) looked self.new }
    {
        match self.rule {
            ProbeRule::Run => {}
            ProbeRule::Record => {
                let Some(known) = self.nodes.get(node) else {
                    return;
                };
                // What is there is changed in its place, which takes no memory.
                let _ = self.nodes.keep(node, known.marked(lease));
            }
        }
    }

    /// Forgets each known node that isn't in the list, but by the record none. Takes no memory. The list of the last call, followed by the
    /// nodes that became known since, is gone through once; else one that ascends is searched by halves for each known node, and any other is gone through for each.
    pub fn forget_others(&mut self, nodes: &NumberList)
        ensures rule { self.new.rule ≡ self.old.rule }
        ensures kept { (node : ℕ) → kept self.new node ≡ after_others self.old.rule (spec.is_listed nodes.now node) (kept self.old node) }
        ensures stands { (doc : Doc) (k : ℕ) (q : Identity) (h g : List Entry)
            → PassStands doc q h g (spec.is_listed nodes.now) self.old
            → ((node : ℕ) → is_found q node h ≡ spec.is_listed nodes.now node)
            → ((node : ℕ) → spec.is_listed nodes.now node ≡ false → AreAlike q node (add k q Pass h) g)
            → HealthStands doc q g self.new }
    {
        match self.rule {
            ProbeRule::Run => self.nodes.forget_others(nodes.as_slice()),
            ProbeRule::Record => {}
        }
    }

    /// Each known node of these, which are those that the pass finds, is heard of at this reading: the all-Full mode has ended. Takes no memory.
    pub fn reset_probes(&mut self, nodes: &NumberList, now: Local)
        ensures rule { self.new.rule ≡ self.old.rule }
        ensures kept { (node : ℕ) → kept self.new node ≡ after_mode self.old.rule (spec.is_listed nodes.now node) now.0 (kept self.old node) }
        ensures stands { (doc : Doc) (k : ℕ) (q : Identity) (h : List Entry)
            → HealthStands doc q h self.old → ((node : ℕ) → is_found q node h ≡ spec.is_listed nodes.now node) → now.0 ≡ local doc q.process k
            → HealthStands doc q (add k q (Mode false) h) self.new }
    {
        match self.rule {
            ProbeRule::Run => self.nodes.reset_probes(now),
            ProbeRule::Record => self.nodes.reset_these(nodes.as_slice(), now),
        }
    }

    /// The reading at which a node was last heard of; none exactly if it isn't known. Takes no memory.
    pub fn probe(&self, node: u32) -> Option<Local>
        ensures kept { result ≡ option_map (λ known. known.probe) (kept self.now node) }
        ensures known { (doc : Doc) (q : Identity) (h : List Entry) → ProbesByRun doc → HealthStands doc q h self.now → has result ≡ is_known q node h }
        ensures reading { (doc : Doc) (q : Identity) (h : List Entry) → HealthStands doc q h self.now
            → IfSome result (λ at. at.0 ≡ local doc q.process (heard doc.settings.rules.probe q node h)) }
    {
        match self.nodes.get(node) {
            Some(known) => Some(known.probe),
            None => None,
        }
    }

    /// Keeps what a look shows. Answers the probe.
    fn hear(
        &mut self,
        node: u32,
        ready: Option<Ready>,
        lease: Option<Lease>,
        now: Local,
    ) -> Result<Local, NoMemory>
        ensures rule { self.new.rule ≡ self.old.rule }
        ensures probe { IfOk result (λ probe. probe ≡ (after_seen self.old.rule (kept self.old node) ready lease now.0).probe) }
        ensures kept { OnOk result ((other : ℕ) → kept self.new other
            ≡ (if node == other then Some (after_seen self.old.rule (kept self.old node) ready lease now.0) else kept self.old other)) }
        ensures err { OnErr result ((other : ℕ) → kept self.new other ≡ kept self.old other) }
        ensures room { IsSome (kept self.old node) → IsOk result }
    {
        let known = after_seen(self.rule, self.nodes.get(node), ready, lease, now);
        self.nodes.keep(node, known)?;
        Ok(known.probe)
    }
}

// What is kept of a node after a look, by the rule.
fn after_seen(
    rule: ProbeRule,
    old: Option<Known>,
    ready: Option<Ready>,
    lease: Option<Lease>,
    now: Local,
) -> Known
    ensures { result ≡ recorded.after_seen rule old ready lease now.0 }
{
    match rule {
        ProbeRule::Run => match old {
            Some(known) => known.heard(heartbeat_of(ready), renewed_of(lease), now),
            None => Known::new(heartbeat_of(ready), renewed_of(lease), now),
        },
        ProbeRule::Record => match old {
            Some(known) => known.recorded(ready, lease, now),
            None => Known::first(ready, lease, now),
        },
    }
}
