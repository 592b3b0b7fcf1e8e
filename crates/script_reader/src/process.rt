// Controllers and kubelets.
ghost use Rattle.std.specs.Prelude.{◌≡◌, ◌≤◌, [], codes, false, length, IfOk};
ghost use Rattle.serde_json.specs.Find.{get};
ghost use Rattle.serde_json.specs.View.{view, items_view};
ghost use Rattle.manifest_json.specs.Faults.{Gives};
ghost use Rattle.manifest_json.specs.Walk.{member_path};
ghost use Rattle.script_reader.specs.Cast.{Stands};
ghost use Rattle.script_reader.specs.Fields as fields;
ghost use Rattle.script_reader.specs.Walk as walk;

use crate::cast::{Named, Team};
use crate::choice::Preset;
use crate::field::{
    array_in, fault_at, fault_under, flag_at, member_of, name_number_at, not_empty, path_of,
    signed_at, status_at, whole_at,
};
use crate::limits::kubelet_limit;
use crate::parts::{Clock, Timings};
use crate::settings::{is_sound, timings_at, timings_of};
use crate::table::{Table, Version, object_in};
use crate::waits::waits_at;
use kube_base::Names;
use kube_objects::{NumberList, Proc, ReadyStatus, Settings, WaitLists};
use manifest_json::codes::{BAD_SETTINGS, DUPLICATE, MISSING_KEY};
use manifest_json::fault::fault;
use manifest_json::{Path, ReadFault};
use serde_json::Value;
use std::alloc::Global;

#[tactic(auto, unfolding(crate::specs::Walk::clock_at))]
fn clock_at(path: &Path, value: &Value) -> Result<Clock, ReadFault>
    ensures { Gives (λ clock. clock) result (walk.clock_at path.now (view value.now)) }
{
    let rate_ppm = whole_at(1_000_000, 500_000, 2_000_000, path, "ratePpm", value)?;
    let offset_millis = signed_at(
        0,
        -31_536_000_000,
        31_536_000_000,
        path,
        "offsetMillis",
        value,
    )?;
    let up = flag_at(true, path, "up", value)?;
    Ok(Clock {
        rate_ppm,
        offset_millis,
        up,
    })
}

/// The document's controllers, one to 16.
#[tactic(auto, unfolding(crate::specs::Walk::controllers_in))]
pub(crate) fn controllers_at(
    alloc: Global,
    version: Version,
    settings: &Settings,
    preset: Preset,
    names: &mut Names,
    document: &Value,
) -> Result<Team, ReadFault>
    ensures gives { Gives (λ team. ((team.named.procs, team.waits), names.new)) result
        (fields.required (codes "/controllers") (walk.controllers_in version settings.now preset names.old)
        (get (codes "controllers") (view document.now))) }
    ensures stands { IfOk result (λ team. Stands team.named) }
{
    let Some(found) = document.get("controllers") else {
        return Err(fault_at(alloc, MISSING_KEY, "/controllers"));
    };
    let path = path_of(alloc, "/controllers")?;
    let all = array_in(16, &path, found)?;
    let some = not_empty(&path, all)?;
    controllers_of(alloc, version, settings, preset, names, some)
}

fn controllers_of(
    alloc: Global,
    version: Version,
    settings: &Settings,
    preset: Preset,
    names: &mut Names,
    list: &[Value],
) -> Result<Team, ReadFault>
    requires { length list.now ≤ 1000 }
    ensures gives { Gives (λ team. ((team.named.procs, team.waits), names.new)) result
        (walk.controllers_from version settings.now preset names.old 0 [] [] (items_view list.now)) }
    ensures stands { IfOk result (λ team. Stands team.named) }
{
    let mut named = Named::new(alloc);
    let mut waits = WaitLists::new(alloc);
    for (place, value) in list.iter().enumerate() {
        match controller_in(
            alloc, version, settings, preset, names, place, &named, value,
        ) {
            Ok(controller) => {
                named.push(controller.0)?;
                waits.push(controller.1)?;
            }
            Err(fault) => return Err(fault),
        }
    }
    Ok(Team { named, waits })
}

fn controller_in(
    alloc: Global,
    version: Version,
    settings: &Settings,
    preset: Preset,
    names: &mut Names,
    place: usize,
    earlier: &Named,
    value: &Value,
) -> Result<(Proc, NumberList), ReadFault>
    requires { Stands earlier.now }
    ensures gives { Gives (λ controller. (controller, names.new)) result
        (walk.controller_at version settings.now preset names.old (member_path [] (codes "/controllers/") place)
        earlier.now.procs (view value.now)) }
    ensures fresh { IfOk result (λ controller. walk.has_name controller.0.name earlier.now.procs ≡ false) }
{
    let path = member_of(alloc, "/controllers/", place)?;
    controller_at(
        alloc, version, settings, preset, names, &path, earlier, value,
    )
}

/// A controller behind earlier ones, with its waits.
#[tactic(auto, unfolding(crate::specs::Walk::controller_at))]
fn controller_at(
    alloc: Global,
    version: Version,
    settings: &Settings,
    preset: Preset,
    names: &mut Names,
    path: &Path,
    earlier: &Named,
    value: &Value,
) -> Result<(Proc, NumberList), ReadFault>
    requires { Stands earlier.now }
    ensures gives { Gives (λ controller. (controller, names.new)) result
        (walk.controller_at version settings.now preset names.old path.now earlier.now.procs (view value.now)) }
    ensures fresh { IfOk result (λ controller. walk.has_name controller.0.name earlier.now.procs ≡ false) }
{
    object_in(Table::Controller(version), path, value)?;
    let name = name_number_at(names, path, "name", value)?;
    let clock = clock_at(path, value)?;
    let watch = flag_at(true, path, "watch", value)?;
    let timings = timings_at(timings_of(settings), path, value)?;
    let waits = waits_at(alloc, preset, path, value)?;
    if earlier.has(name) {
        return Err(fault_under(DUPLICATE, path, "name"));
    }
    if !is_sound(timings) {
        return Err(fault(BAD_SETTINGS, path));
    }
    let controller = proc_of(name, clock, watch, ReadyStatus::True, timings);
    Ok((controller, waits))
}

fn proc_of(name: u32, clock: Clock, watch: bool, ready: ReadyStatus, timings: Timings) -> Proc
    ensures { result ≡ walk.proc_of name clock watch ready timings }
{
    Proc {
        name,
        rate_ppm: clock.rate_ppm,
        offset_millis: clock.offset_millis,
        up: clock.up,
        watch,
        ready,
        lease_seconds: timings.lease_seconds,
        renew_millis: timings.renew_millis,
        retry_millis: timings.retry_millis,
        timeout_millis: timings.timeout_millis,
    }
}

/// The document's kubelets, no more than the version allows.
#[tactic(auto, unfolding(crate::specs::Walk::kubelets_in))]
pub(crate) fn kubelets_at(
    alloc: Global,
    version: Version,
    settings: &Settings,
    names: &mut Names,
    document: &Value,
) -> Result<Named, ReadFault>
    ensures gives { Gives (λ named. (named.procs, names.new)) result
        (fields.default_of ([], names.old) (walk.kubelets_in version settings.now names.old) (get (codes "kubelets") (view document.now))) }
    ensures stands { IfOk result Stands }
{
    let Some(found) = document.get("kubelets") else {
        return Ok(Named::new(alloc));
    };
    let path = path_of(alloc, "/kubelets")?;
    let all = array_in(kubelet_limit(version), &path, found)?;
    kubelets_of(alloc, settings, names, all)
}

fn kubelets_of(
    alloc: Global,
    settings: &Settings,
    names: &mut Names,
    list: &[Value],
) -> Result<Named, ReadFault>
    requires { length list.now ≤ 15000 }
    ensures gives { Gives (λ named. (named.procs, names.new)) result
        (walk.kubelets_from settings.now names.old 0 [] (items_view list.now)) }
    ensures stands { IfOk result Stands }
{
    let mut named = Named::new(alloc);
    for (place, value) in list.iter().enumerate() {
        match kubelet_at(alloc, settings, names, place, &named, value) {
            Ok(kubelet) => named.push(kubelet)?,
            Err(fault) => return Err(fault),
        }
    }
    Ok(named)
}

/// A kubelet behind earlier ones.
#[tactic(auto, unfolding(crate::specs::Walk::kubelet_at))]
fn kubelet_at(
    alloc: Global,
    settings: &Settings,
    names: &mut Names,
    place: usize,
    earlier: &Named,
    value: &Value,
) -> Result<Proc, ReadFault>
    requires { Stands earlier.now }
    ensures gives { Gives (λ proc. (proc, names.new)) result
        (walk.kubelet_at settings.now names.old (member_path [] (codes "/kubelets/") place) earlier.now.procs (view value.now)) }
    ensures fresh { IfOk result (λ proc. walk.has_name proc.name earlier.now.procs ≡ false) }
{
    let path = member_of(alloc, "/kubelets/", place)?;
    object_in(Table::Kubelet, &path, value)?;
    let name = name_number_at(names, &path, "node", value)?;
    let clock = clock_at(&path, value)?;
    let ready = status_at(&path, "ready", value)?;
    if earlier.has(name) {
        return Err(fault_under(DUPLICATE, &path, "node"));
    }
    Ok(proc_of(name, clock, true, ready, timings_of(settings)))
}
