// The oldest of the terminated pods.
ghost use Rattle.std.specs.Prelude.{◌≡◌, ◌≤◌, ◌++◌, length, slice_get, IfOk, OnOk};
ghost use Rattle.pod_tools.specs.Collected.{Age, IsFirstToKeep, age_of, ages_from, comes_before_any, excess};

use crate::PodRow;
use kube_base::NoMemory;
use std::alloc::Global;

/// When a terminated pod was created, in microseconds since 1970, and its place.
pub(crate) type Age = (u64, u32);

/// The first of the terminated pods that is kept, in their order by age, or none if none is kept: those before it are
/// collected.
pub(crate) fn first_to_keep(
    alloc: Global,
    threshold: u32,
    pods: &[PodRow],
) -> Result<Option<Age>, NoMemory>
    requires { length pods.now ≤ 30000 }
    ensures { IfOk result (IsFirstToKeep threshold pods.now) }
{
    let mut ages = ages_of(alloc, pods)?;
    ages.sort_unstable();
    Ok(age_over(threshold, &ages))
}

/// The age behind so many as are over the threshold.
fn age_over(threshold: u32, ages: &[Age]) -> Option<Age>
    ensures { result ≡ slice_get ages.now (excess threshold (length ages.now)) }
{
    age_at(ages, excess(threshold, ages.len()))
}

/// The age at a place.
fn age_at(ages: &[Age], place: usize) -> Option<Age>
    ensures { result ≡ slice_get ages.now place }
{
    match ages.get(place) {
        Some(age) => Some(*age),
        None => None,
    }
}

/// The ages of the terminated pods in input order.
fn ages_of(alloc: Global, pods: &[PodRow]) -> Result<Vec<Age>, NoMemory>
    requires { length pods.now ≤ 30000 }
    ensures { IfOk result (λ ages. ages.items ≡ ages_from 0 pods.now) }
{
    let mut ages = Vec::new(alloc);
    for (place, row) in pods.iter().enumerate() {
        add_age(&mut ages, place as u32, row)?;
    }
    Ok(ages)
}

fn add_age(ages: &mut Vec<Age>, place: u32, row: &PodRow) -> Result<(), NoMemory>
    ensures { OnOk result (ages.new.items ≡ ages.old.items ++ age_of place row.now) }
{
    if row.terminated {
        ages.push((row.created.0, place))?;
    }
    Ok(())
}

/// How many terminated pods are over the threshold.
fn excess(threshold: u32, count: usize) -> usize
    ensures { result ≡ excess threshold count }
{
    if threshold == 0 {
        0
    } else {
        count.saturating_sub(threshold as usize)
    }
}

/// Whether a pod of this age stands before the first that is kept.
pub(crate) fn comes_before(age: Age, kept: Option<Age>) -> bool
    ensures { result ≡ comes_before_any age kept }
{
    match kept {
        Some(first) => age < first,
        None => true,
    }
}
