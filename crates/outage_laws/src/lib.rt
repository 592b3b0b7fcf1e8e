//! From the outage of a node to the end of its pods: how long it takes at least and at most.
#![tactic(auto)]

ghost use Rattle.outage_laws.specs.Gone.{PodsGo, PodsStay};
ghost use Rattle.outage_laws.specs.Marked.{NodesAreMarked};
ghost use Rattle.outage_laws.specs.Passes.{PassesFind};

/// A pod that tolerates a leader's taint of its node for some seconds is gone by the first attended beat at which they are over on the leader's
/// clock since the taint, whatever other taints the node has; and if no other one counts, the leader deletes it no sooner than in more than
/// a second less: for every document with the project's own rules, those of evictions too, whose times of day don't begin before zero.
pub fn pods_go_in_time()
    ensures go { PodsGo }
    ensures stay { PodsStay }
{}

/// While a leader attends to its nodes, its passes come as many beats apart as the monitor period takes on its clock; so the first one that
/// finds a time over since a pass, as a silent node's grace, comes neither sooner nor later than these steps allow: for every document with the
/// project's own rules whose passes take no time.
pub fn passes_find()
    ensures { PassesFind }
{}

/// So a node that such a leader's passes don't hear of any more is marked Unknown, and the store accepts it, within these bounds for more than
/// the grace period: for every document with the project's own rules, that of probes too, whose passes take no time.
pub fn nodes_are_marked()
    ensures { NodesAreMarked }
{}
