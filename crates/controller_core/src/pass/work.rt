// The time that a pass takes for the pods that it sets not ready.
ghost use Rattle.std.specs.Prelude.{◌≡◌, ◌≤◌, ◌+◌, ◌*◌, ◌-◌, ◌==◌, ◌&&◌, not, ℕ, true, false, cond, List, IfOk, OnOk};
ghost use Rattle.kube_objects.specs.Document.{of_millis};
ghost use Rattle.kube_objects.specs.Entry.{Entry, Identity};
ghost use Rattle.kube_objects.specs.Health.{work_of};
ghost use Rattle.kube_objects.specs.Seen.{is_accepted, is_synced};
ghost use Rattle.term_state.specs.ClusterStands.{ClusterStands};
ghost use Rattle.tick_laws.specs.Steps.{pods_on};
ghost use Rattle.controller_core.specs.Working.{kept};

use crate::pass::due::picoseconds;
use kube_base::{Local, NoMemory, Steps};
use kube_objects::{Answer, TickSettings};
use term_state::Cluster;

/// What a term keeps of its last pass: its reading, and how long after it the next one is due, if that is less than the
/// greatest u64.
#[derive(Clone, Copy)]
pub(crate) struct LastPass {
    pub(crate) at: Local,
    pub(crate) period: u64,
}

/// How many pods a pass sets not ready so far. If that takes no time they aren't counted.
#[derive(Drop)]
pub(crate) struct PodWrites {
    pub(crate) takes: bool,
    pub(crate) count: u64,
}

/// Whether a try was accepted.
pub(crate) fn is_accepted(answer: Option<Answer>) -> bool
    ensures { result ≡ is_accepted answer }
{
    match answer {
        Some(Answer::Done(_)) => true,
        _ => false,
    }
}

impl PodWrites {
    /// None so far.
    pub(crate) fn new(ready_millis: u32) -> PodWrites
        ensures takes { result.takes ≡ not (ready_millis == 0) }
        ensures count { result.count ≡ 0 }
    {
        PodWrites {
            takes: ready_millis != 0,
            count: 0,
        }
    }

    // The pods on a node. Each one counts a step.
    fn add<L>(&mut self, name: u32, cluster: &Cluster, steps: &mut Steps<L>) -> Result<(), NoMemory>
        ensures takes { self.new.takes ≡ self.old.takes }
        ensures count { (q : Identity) (h : List Entry) → ClusterStands q h cluster.now → is_synced q h ≡ true
            → OnOk result (self.new.count ≡ kept (self.old.count + pods_on q name h)) }
        ensures counted { (q : Identity) (h : List Entry) → ClusterStands q h cluster.now → is_synced q h ≡ true
            → OnOk result (steps.new ≤ steps.old + pods_on q name h) }
    {
        let pods = cluster.pods_of(name, steps)?;
        self.count = self.count.saturating_add(pods.as_slice().len() as u64);
        Ok(())
    }

    /// What a mark of a node adds: the pods on it, if it was accepted and the node was ready before. Each of them counts a step.
    pub(crate) fn note_mark<L>(
        &mut self,
        name: u32,
        ready: bool,
        answer: Option<Answer>,
        cluster: &Cluster,
        steps: &mut Steps<L>,
    ) -> Result<(), NoMemory>
        ensures takes { self.new.takes ≡ self.old.takes }
        ensures count { (q : Identity) (h : List Entry) → ClusterStands q h cluster.now → is_synced q h ≡ true
            → OnOk result (self.new.count
            ≡ (cond (self.old.takes && (ready && is_accepted answer)) (kept (self.old.count + pods_on q name h)) self.old.count)) }
        ensures counted { (q : Identity) (h : List Entry) → ClusterStands q h cluster.now → is_synced q h ≡ true
            → OnOk result (steps.new ≤ steps.old + cond (self.old.takes && (ready && is_accepted answer)) (pods_on q name h) 0) }
    {
        if self.takes && ready && is_accepted(answer) {
            return self.add(name, cluster, steps);
        }
        Ok(())
    }
}

/// How long after a pass that sets so many pods not ready the next one is due.
pub(crate) fn period_after(settings: &TickSettings, pods: u64) -> u64
    ensures { (all : ℕ) → pods ≡ kept all → result ≡ kept (of_millis settings.now.monitor_period_millis
        + work_of settings.now.ready_millis settings.now.ready_burst all) }
{
    let over = pods.saturating_sub(u64::from(settings.ready_burst));
    let work = over.saturating_mul(picoseconds(settings.ready_millis));
    picoseconds(settings.monitor_period_millis).saturating_add(work)
}
