// The waits of a controller after failed attempts, in thousandths of its retry period.
ghost use Rattle.std.specs.Prelude.{◌≡◌, ◌+◌, ◌<◌, ◌^◌, [], ◌∷◌, codes, length, IfOk};
ghost use Rattle.serde_json.specs.View.{view, items_view};
ghost use Rattle.manifest_json.specs.Faults.{Gives};
ghost use Rattle.manifest_json.specs.Walk.{member_path};
ghost use Rattle.script_reader.specs.Fields as fields;
ghost use Rattle.script_reader.specs.Waits as spec;

use crate::choice::Preset;
use crate::field::{array_in, not_empty};
use kube_base::NoMemory;
use kube_objects::NumberList;
use manifest_json::codes::{OUT_OF_RANGE, WRONG_TYPE};
use manifest_json::fault::fault;
use manifest_json::{Path, ReadFault};
use serde_json::Value;
use std::alloc::Global;

/// The waits under their key, or those of the preset.
pub(crate) fn waits_at(
    alloc: Global,
    preset: Preset,
    path: &Path,
    value: &Value,
) -> Result<NumberList, ReadFault>
    ensures { Gives (λ waits. waits) result (spec.waits_at preset path.now (view value.now)) }
{
    match value.get("waits") {
        Some(found) => {
            let slash = path.below("/")?;
            let here = slash.below("waits")?;
            waits_in(alloc, &here, found)
        }
        None => Ok(usual_waits(alloc, preset)?),
    }
}

/// One wait of a whole retry period, or by the rules of Kubernetes of the mean of what is drawn there.
fn usual_waits(alloc: Global, preset: Preset) -> Result<NumberList, NoMemory>
    ensures { IfOk result (λ waits. waits ≡ spec.usual_waits preset) }
{
    let mut waits = NumberList::new(alloc);
    waits.push(usual_wait(preset))?;
    Ok(waits)
}

fn usual_wait(preset: Preset) -> u32
    ensures { result ∷ [] ≡ spec.usual_waits preset }
{
    match preset {
        Preset::Own => 1_000,
        Preset::Upstream120 => 1_600,
        Preset::Upstream136 => 1_600,
    }
}

/// One to 1,000 waits.
#[tactic(auto, unfolding(crate::specs::Waits::waits_in))]
fn waits_in(alloc: Global, path: &Path, value: &Value) -> Result<NumberList, ReadFault>
    ensures { Gives (λ waits. waits) result (spec.waits_in path.now (view value.now)) }
{
    let all = array_in(1_000, path, value)?;
    let some = not_empty(path, all)?;
    waits_of(alloc, path, some)
}

fn waits_of(alloc: Global, path: &Path, list: &[Value]) -> Result<NumberList, ReadFault>
    ensures { Gives (λ waits. waits) result (spec.waits_from path.now 0 [] (items_view list.now)) }
{
    let mut waits = NumberList::new(alloc);
    for (place, value) in list.iter().enumerate() {
        match wait_at(path, place, value) {
            Ok(wait) => waits.push(wait)?,
            Err(fault) => return Err(fault),
        }
    }
    Ok(waits)
}

fn wait_at(path: &Path, place: usize, value: &Value) -> Result<u32, ReadFault>
    ensures { Gives (λ n. n) result
        (spec.wait_in (member_path path.now (codes "/") place) (view value.now)) }
{
    let here = path.member("/", place)?;
    wait_in(&here, value)
}

/// A whole number from 1,000 to 2,200.
fn wait_in(path: &Path, value: &Value) -> Result<u32, ReadFault>
    ensures { Gives (λ n. n) result (spec.wait_in path.now (view value.now)) }
{
    match value.as_u64() {
        Some(n) => if 1_000 <= n && n <= 2_200 {
            Ok(n as u32)
        } else {
            Err(fault(OUT_OF_RANGE, path))
        },
        None => match value.as_i64() {
            Some(_) => Err(fault(OUT_OF_RANGE, path)),
            None => Err(fault(WRONG_TYPE, path)),
        },
    }
}
