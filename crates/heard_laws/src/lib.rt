//! Until when a leader hears of a node whose kubelet dies.
#![tactic(auto)]

ghost use Rattle.heard_laws.specs.Heard.{PassesHearInTime, RenewalsAreHeard};
ghost use Rattle.heard_laws.specs.Kubelet.{LastWordsAreLate, LastWordsAreSoon};

/// While a leader attends to its nodes: a pass that hears of a node which is stored comes less than a monitor period, on the leader's clock, after
/// the last write of the node or of its Lease by a kubelet or the script, but for the first of these passes. And if that last write renews the
/// Lease later than all before it, the first pass from then on hears of the node: for every document with the project's own rules.
pub fn passes_hear()
    ensures most { PassesHearInTime }
    ensures least { RenewalsAreHeard }
{}

/// A kubelet starts, its messages pass from then until it dies, and after its start its node and the node's Lease are left to this run of it alone: its
/// last write comes at most one greatest delay after its last beat. It comes at the earliest five least delays after the beginning of a round that
/// isn't longer ago, before the beat after its last one, than four greatest delays and the time from one round to the next: a quarter of the duration
/// of the node's Lease by its clock, or six greatest delays, whichever is more. So it is for every document that leaves the election Lease alone, stops
/// controllers only, and puts objects under keys of their kinds, as each does that is read.
pub fn kubelets_tell_until_they_die()
    ensures late { LastWordsAreLate }
    ensures soon { LastWordsAreSoon }
{}
