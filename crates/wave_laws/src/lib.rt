//! Nodes of a zone that become Unknown are tainted in waves, one after the other: how long a node waits for its taint.
#![tactic(auto)]

ghost use Rattle.wave_laws.specs.Waves.{TaintsCome, TaintsComeAnyway, TaintsTakeTime, SwapsAreAtOnce};

/// While a leader attends to its nodes, and a zone keeps its rate, a node that waits there is tainted, and the store accepts it, by as many of
/// a token's intervals after the first token as nodes are ahead of it in the zone's queue; unless it doesn't wait any more. The first token is
/// there an interval after the zone's base, so an interval after the rate is set at the latest: for every document with the project's own rules,
/// those of judgement too.
pub fn taints_come()
    ensures known { TaintsCome }
    ensures anyway { TaintsComeAnyway }
{}

/// And if the nodes ahead of it leave the queue by taints only, it leaves by its own no sooner than as many intervals later: for every
/// document with the project's own rules, those of judgement too, and buckets that start empty.
pub fn taints_take_time()
    ensures { TaintsTakeTime }
{}

/// A node that has the opposite of the taint that it wants doesn't wait for a token: in each beat in which a leader attends to its nodes they
/// are swapped at once, and the store accepts it: for every document with the project's own rules, those of judgement too.
pub fn swaps_are_at_once()
    ensures { SwapsAreAtOnce }
{}
