// Pods that are collected.
ghost use Rattle.std.specs.Prelude.{◌≡◌, ◌+◌, ◌++◌, nat_le, IfOk, OnOk, Some};
ghost use Rattle.std.specs.List.{list_any};
ghost use Rattle.std.specs.Option.{option_map};
ghost use Rattle.pod_tools.specs.Collected as spec;
ghost use Rattle.pod_tools.specs.Feasible.{AreFew};

use crate::oldest::{Age, comes_before, first_to_keep};
use crate::{CollectInput, MissingRow, NodeRow, PodRow, has_status};
use kube_base::{ListOf, NoMemory, Wall};
use kube_objects::{ReadyStatus, Taint};
use std::alloc::Global;

/// How long a node has to be gone before its pods are collected, in microseconds: 40 seconds.
const QUARANTINE: u64 = 40_000_000;

/// Why a pod is collected.
#[derive(Clone, Copy, Debug, PartialEq, Eq)]
pub enum Cause {
    Terminated,
    OutOfService,
    Orphaned,
    Unscheduled,
}

/// A pod that is collected, by its place among the pods.
#[derive(Clone, Copy, Debug, PartialEq, Eq)]
pub struct Pick {
    pub pod: u32,
    pub cause: Cause,
}

/// Pods that are collected, in input order.
pub type Picks = ListOf<Pick>;

/// The pods that the garbage collector deletes, each with the first of its causes.
///
/// Takes memory for the ages of the terminated pods, which are sorted once, and for the answer.
pub fn collect(alloc: Global, input: &CollectInput) -> Result<Picks, NoMemory>
    requires { AreFew input.now.nodes input.now.pods }
    ensures { IfOk result (λ picks. picks ≡ spec.collected input.entry.now) }
{
    let kept = first_to_keep(alloc, input.threshold, input.pods.as_slice())?;
    let mut picks = Picks::new(alloc);
    for (place, row) in input.pods.as_slice().iter().enumerate() {
        let cause = cause_of(input, kept, place as u32, row);
        add_pick(&mut picks, place as u32, cause)?;
    }
    Ok(picks)
}

fn add_pick(picks: &mut Picks, pod: u32, cause: Option<Cause>) -> Result<(), NoMemory>
    ensures { OnOk result (picks.new ≡ picks.old ++ spec.picked pod cause) }
{
    match cause {
        Some(cause) => picks.push(Pick { pod, cause }),
        None => Ok(()),
    }
}

/// The first of the causes to collect the pod at a place, if there is one.
fn cause_of(input: &CollectInput, kept: Option<Age>, place: u32, row: &PodRow) -> Option<Cause>
    requires { spec.IsFirstToKeep input.now.threshold input.now.pods kept }
    ensures { result ≡ spec.cause_of input.entry.now place row.now }
{
    if row.terminated && comes_before((row.created.0, place), kept) {
        Some(Cause::Terminated)
    } else if is_stranded(input, row) {
        Some(Cause::OutOfService)
    } else if is_orphan(input, row) {
        Some(Cause::Orphaned)
    } else if row.terminating && !is_scheduled(row) {
        Some(Cause::Unscheduled)
    } else {
        None
    }
}

fn is_scheduled(row: &PodRow) -> bool
    ensures { result ≡ spec.is_scheduled row.now }
{
    row.pod.node != 0
}

/// Whether the pod is terminating on a node that isn't Ready and is out of service.
fn is_stranded(input: &CollectInput, row: &PodRow) -> bool
    ensures { result ≡ spec.is_stranded input.entry.now row.now }
{
    if !(row.terminating && is_scheduled(row)) {
        return false;
    }
    let service = input.names.find(b"node.kubernetes.io/out-of-service");
    match node_of(input.nodes.as_slice(), row.pod.node) {
        Some(found) => is_out(service, found),
        None => false,
    }
}

fn node_of(nodes: &[NodeRow], name: u32) -> Option<&NodeRow>
    ensures { option_map (λ r. r.now) result ≡ spec.node_of nodes.now name }
{
    nodes.iter().find(|row| row.name == name)
}

fn is_out(service: Option<u32>, row: &NodeRow) -> bool
    ensures { result ≡ spec.is_out service (Some row.now) }
{
    !has_status(row.node.ready, ReadyStatus::True) && has_taint(service, row.node.taints.as_slice())
}

/// Whether one of the taints has this key.
fn has_taint(key: Option<u32>, taints: &[Taint]) -> bool
    ensures { result ≡ list_any (λ t. spec.is_number key t.key) taints.now }
{
    taints.iter().any(|taint| is_number(key, taint.key))
}

fn is_number(number: Option<u32>, key: u32) -> bool
    ensures { result ≡ spec.is_number number key }
{
    match number {
        Some(number) => number == key,
        None => false,
    }
}

/// Whether the pod names a node that isn't there and has been missing for 40 seconds.
fn is_orphan(input: &CollectInput, row: &PodRow) -> bool
    ensures { result ≡ spec.is_orphan input.entry.now row.now }
{
    is_scheduled(row)
        && is_gone(input.now, input.missing.as_slice(), row.pod.node)
        && node_of(input.nodes.as_slice(), row.pod.node).is_none()
}

fn is_gone(now: Wall, missing: &[MissingRow], node: u32) -> bool
    ensures { result ≡ spec.is_gone now.0 missing.now node }
{
    missing
        .iter()
        .any(|row| row.node == node && is_past(now, row.since))
}

/// Whether the quarantine since then is over.
fn is_past(now: Wall, since: Wall) -> bool
    ensures { result ≡ nat_le (since.0 + 40_000_000) now.0 }
{
    now.0 >= QUARANTINE && since.0 <= now.0 - QUARANTINE
}
