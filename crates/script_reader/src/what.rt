// What an event does, by its type.
ghost use Rattle.std.specs.Prelude.{◌≡◌, codes};
ghost use Rattle.serde_json.specs.Find.{get};
ghost use Rattle.serde_json.specs.View.{view};
ghost use Rattle.manifest_json.specs.Faults.{Gives};
ghost use Rattle.script_reader.specs.Cast.{AreNamed, seen};
ghost use Rattle.script_reader.specs.Fields as fields;
ghost use Rattle.manifest_json.specs.Walk as manifests;
ghost use Rattle.script_reader.specs.Walk as walk;

use crate::cast::{Players, Sort, find_process};
use crate::field::{
    fault_under, name_number_at, namespace_at, needed_flag, needed_status, needed_text,
    needed_whole, or_refuse,
};
use crate::table::EventType;
use kube_base::{Names, ProcId};
use kube_objects::{Key, Kind, Object, What};
use manifest_json::codes::{MISSING_KEY, OUT_OF_RANGE, UNKNOWN_PROCESS};
use manifest_json::{Path, ReadFault, number, read_object};
use serde_json::Value;
use std::alloc::Global;

/// What an event of this type does.
#[tactic(auto, unfolding(crate::specs::Walk::what_at))]
pub(crate) fn what_at(
    alloc: Global,
    players: &Players,
    names: &mut Names,
    path: &Path,
    kind: EventType,
    value: &Value,
) -> Result<What, ReadFault>
    requires { AreNamed players.now }
    ensures { Gives (λ what. (what, names.new)) result (walk.what_at (seen players.now) names.old path.now kind (view value.now)) }
{
    match kind {
        EventType::Rate => {
            let id = process_at(Sort::Any, players, names, path, value)?;
            let ppm = needed_whole(500_000, 2_000_000, path, "ratePpm", value)?;
            Ok(What::Rate(id, ppm))
        }
        EventType::Delay => Ok(delay_at(players, names, path, value)?),
        EventType::Loss => Ok(loss_at(players, names, path, value)?),
        EventType::Crash => Ok(What::Crash(process_at(Sort::Any, players, names, path, value)?)),
        EventType::Start => Ok(What::Start(process_at(Sort::Any, players, names, path, value)?)),
        EventType::Stop => {
            let id = process_at(Sort::Controller, players, names, path, value)?;
            Ok(What::Stop(id))
        }
        EventType::Watch => {
            let id = process_at(Sort::Controller, players, names, path, value)?;
            let on = needed_flag(path, "on", value)?;
            Ok(What::Watch(id, on))
        }
        EventType::Ready => {
            let id = process_at(Sort::Kubelet, players, names, path, value)?;
            let status = needed_status(path, "status", value)?;
            Ok(What::Ready(id, status))
        }
        EventType::Pause => Ok(pause_at(players, names, path, value)?),
        EventType::Stall => Ok(stall_at(path, value)?),
        EventType::Put => put_at(alloc, players, names, path, value),
        EventType::Remove => remove_at(names, path, value),
    }
}

#[tactic(auto, unfolding(crate::specs::Walk::delay_at))]
fn delay_at(players: &Players, names: &Names, path: &Path, value: &Value) -> Result<What, ReadFault>
    requires { AreNamed players.now }
    ensures { Gives (λ what. what) result
        (walk.delay_at (seen players.now) names.now path.now (view value.now)) }
{
    let id = process_at(Sort::Any, players, names, path, value)?;
    let requests = needed_whole(1, 6_000, path, "requestBeats", value)?;
    let replies = needed_whole(1, 6_000, path, "replyBeats", value)?;
    Ok(What::Delay(id, requests, replies))
}

#[tactic(auto, unfolding(crate::specs::Walk::loss_at))]
fn loss_at(players: &Players, names: &Names, path: &Path, value: &Value) -> Result<What, ReadFault>
    requires { AreNamed players.now }
    ensures { Gives (λ what. what) result
        (walk.loss_at (seen players.now) names.now path.now (view value.now)) }
{
    let id = process_at(Sort::Any, players, names, path, value)?;
    let requests = needed_flag(path, "requests", value)?;
    let replies = needed_flag(path, "replies", value)?;
    Ok(What::Loss(id, requests, replies))
}

#[tactic(auto, unfolding(crate::specs::Walk::pause_at))]
fn pause_at(players: &Players, names: &Names, path: &Path, value: &Value) -> Result<What, ReadFault>
    requires { AreNamed players.now }
    ensures { Gives (λ what. what) result
        (walk.pause_at (seen players.now) names.now path.now (view value.now)) }
{
    let id = process_at(Sort::Any, players, names, path, value)?;
    let beats = needed_whole(1, 604_800_000, path, "beats", value)?;
    Ok(What::Pause(id, beats))
}

#[tactic(auto, unfolding(crate::specs::Walk::stall_at))]
fn stall_at(path: &Path, value: &Value) -> Result<What, ReadFault>
    ensures { Gives (λ what. what) result (walk.stall_at path.now (view value.now)) }
{
    let length = needed_whole(1, 604_800_000, path, "beats", value)?;
    Ok(What::Stall(length))
}

/// The process of an event, which is of this sort.
#[tactic(auto, unfolding(crate::specs::Walk::process_at))]
fn process_at(
    sort: Sort,
    players: &Players,
    names: &Names,
    path: &Path,
    value: &Value,
) -> Result<ProcId, ReadFault>
    requires { AreNamed players.now }
    ensures { Gives (λ id. id) result
        (walk.process_at (walk.named_by sort (seen players.now) names.now) path.now (view value.now)) }
{
    let text = needed_text(path, "process", value)?;
    let found = find_process(sort, players, names, text);
    or_refuse(found, UNKNOWN_PROCESS, path, "process")
}

/// Puts an object.
#[tactic(auto, unfolding(crate::specs::Walk::put_at))]
fn put_at(
    alloc: Global,
    players: &Players,
    names: &mut Names,
    path: &Path,
    value: &Value,
) -> Result<What, ReadFault>
    requires { AreNamed players.now }
    ensures { Gives (λ what. (what, names.new)) result
        (walk.put_at (seen players.now) names.old path.now (view value.now)) }
{
    let found = object_under(alloc, players, names, path, value)?;
    Ok(What::Put(found.0, found.1))
}

/// The object that is put.
fn object_under(
    alloc: Global,
    players: &Players,
    names: &mut Names,
    path: &Path,
    value: &Value,
) -> Result<(Key, Object), ReadFault>
    requires { AreNamed players.now }
    ensures { Gives (λ found. (found, names.new)) result
        (walk.object_under (seen players.now) names.old path.now (view value.now)) }
{
    match value.get("object") {
        Some(found) => object_in(alloc, players, names, path, found),
        None => Err(fault_under(MISSING_KEY, path, "object")),
    }
}

fn object_in(
    alloc: Global,
    players: &Players,
    names: &mut Names,
    path: &Path,
    found: &Value,
) -> Result<(Key, Object), ReadFault>
    requires { AreNamed players.now }
    ensures { Gives (λ found. (found, names.new)) result
        (manifests.object_walk names.old (seen players.now).controllers (fields.under path.now (codes "object")) (view found.now)) }
{
    let slash = path.below("/")?;
    let here = slash.below("object")?;
    read_object(alloc, names, players.controllers.known(), found, &here)
}

/// Removes what stands under a key.
#[tactic(auto, unfolding(crate::specs::Walk::remove_at))]
fn remove_at(names: &mut Names, path: &Path, value: &Value) -> Result<What, ReadFault>
    ensures { Gives (λ what. (what, names.new)) result
        (walk.remove_at names.old path.now (view value.now)) }
{
    let kind = kind_at(path, value)?;
    let text = namespace_at(path, value)?;
    let space = space_of(names, kind, text)?;
    let name = name_number_at(names, path, "name", value)?;
    Ok(What::Remove(Key { kind, space, name }))
}

#[tactic(auto, unfolding(crate::specs::Walk::kind_at))]
fn kind_at(path: &Path, value: &Value) -> Result<Kind, ReadFault>
    ensures { Gives (λ kind. kind) result (walk.kind_at path.now (view value.now)) }
{
    let text = needed_text(path, "kind", value)?;
    or_refuse(kind_of(text), OUT_OF_RANGE, path, "kind")
}

fn kind_of(text: &str) -> Option<Kind>
    ensures { result ≡ walk.kind_of text.now }
{
    if text == "Node" {
        Some(Kind::Node)
    } else if text == "Lease" {
        Some(Kind::Lease)
    } else if text == "Pod" {
        Some(Kind::Pod)
    } else {
        None
    }
}

/// The number of a namespace. A Node has none.
fn space_of(names: &mut Names, kind: Kind, text: &str) -> Result<u32, ReadFault>
    ensures { Gives (λ n. (n, names.new)) result (walk.space_of names.old kind text.now) }
{
    match kind {
        Kind::Node => Ok(0),
        Kind::Lease => number(names, text),
        Kind::Pod => number(names, text),
    }
}
