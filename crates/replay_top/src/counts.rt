// What is counted of the lines of a trace.
ghost use Rattle.std.specs.Prelude.{◌≡◌, ◌+◌, ◌^◌, ℕ, []};
ghost use Rattle.replay_top.specs.Counts.{AreAtMost, count_of, counts_of, is_lead, is_taint, is_eviction};

use kube_objects::{Act, Answer, Deed};

/// How many lines of a trace say that a controller leads, that a node was tainted and that a pod was evicted.
#[derive(Clone, Copy, Debug, PartialEq, Eq)]
pub(crate) struct Counts {
    pub(crate) leads: u128,
    pub(crate) taints: u128,
    pub(crate) evictions: u128,
}

impl Counts {
    /// The counts of no line.
    pub(crate) fn none() -> Counts
        ensures { result ≡ counts_of [] }
    {
        Counts {
            leads: 0,
            taints: 0,
            evictions: 0,
        }
    }

    /// These counts and those of more lines.
    pub(crate) fn and(self, deeds: &[Deed]) -> Counts
        requires { AreAtMost (2 ^ 127) self }
        ensures leads { result.leads ≡ self.leads + count_of is_lead deeds.now }
        ensures taints { result.taints ≡ self.taints + count_of is_taint deeds.now }
        ensures evictions { result.evictions ≡ self.evictions + count_of is_eviction deeds.now }
        ensures small { (n : ℕ) → AreAtMost n self → AreAtMost (n + 2 ^ 64) result }
    {
        Counts {
            leads: self.leads + leads_in(deeds) as u128,
            taints: self.taints + taints_in(deeds) as u128,
            evictions: self.evictions + evictions_in(deeds) as u128,
        }
    }
}

fn leads_in(deeds: &[Deed]) -> usize
    ensures { result ≡ count_of is_lead deeds.now }
{
    deeds.iter().filter(|deed| is_lead(deed.act)).count()
}

fn taints_in(deeds: &[Deed]) -> usize
    ensures { result ≡ count_of is_taint deeds.now }
{
    deeds.iter().filter(|deed| is_taint(deed.act)).count()
}

fn evictions_in(deeds: &[Deed]) -> usize
    ensures { result ≡ count_of is_eviction deeds.now }
{
    deeds.iter().filter(|deed| is_eviction(deed.act)).count()
}

fn is_lead(act: Act) -> bool
    ensures { result ≡ is_lead act }
{
    match act {
        Act::Lead(_) => true,
        _ => false,
    }
}

/// Whether it is a taint that the store took.
fn is_taint(act: Act) -> bool
    ensures { result ≡ is_taint act }
{
    match act {
        Act::Tainted(_, _, Answer::Done(_)) => true,
        _ => false,
    }
}

/// Whether it is an eviction that the store took.
fn is_eviction(act: Act) -> bool
    ensures { result ≡ is_eviction act }
{
    match act {
        Act::Evicted(_, _, Answer::Done(_)) => true,
        _ => false,
    }
}
