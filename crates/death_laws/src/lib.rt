//! A node's death, from its last word to the end of its pods, also over a change of the leader.
#![tactic(auto)]

ghost use Rattle.death_laws.specs.Deaths.{DeadNodesAreMarked, DeadNodesEnd, DeathsAreMarked, PodsGoAfterFailovers};

/// Whoever leads from its first pass over the nodes on, and attends to them: a node that says nothing any more is last heard of by that pass, or less
/// than a monitor period after its last word. So it is marked Unknown by a beat that adds the bounds of more than the grace period, is tainted by as many
/// of a token's intervals later as nodes wait before it, and one more, unless it doesn't wait any more for another reason; and a pod that tolerates the
/// taint for some seconds is gone, or the taint is, when these are over on the leader's clock, if evictions go by the own rules too: for every
/// document with the project's own rules, those of probes and for its taint those of judgement too, whose passes take no time.
pub fn dead_nodes_end()
    ensures marks { DeadNodesAreMarked }
    ensures deaths { DeathsAreMarked }
    ensures ends { DeadNodesEnd }
{}

/// A taint of an earlier leader keeps its time: if both have the same time of day as it is added, the later leader counts the seconds from then,
/// and the pod is gone by the first attended beat at which they are over on its clock: for every document with the project's own rules, those of
/// evictions too.
pub fn pods_go_after_failovers()
    ensures { PodsGoAfterFailovers }
{}
