// Events.
ghost use Rattle.std.specs.Prelude.{◌≡◌, [], codes};
ghost use Rattle.serde_json.specs.View.{view, items_view};
ghost use Rattle.manifest_json.specs.Faults.{Gives};
ghost use Rattle.manifest_json.specs.Walk.{member_path};
ghost use Rattle.script_reader.specs.Cast.{AreNamed, seen};
ghost use Rattle.script_reader.specs.Scripts.{IsIndexed};
ghost use Rattle.script_reader.specs.Walk as walk;

use crate::cast::Players;
use crate::field::{array_in, member_of, needed_text, needed_whole, object_at, or_refuse, path_of};
use crate::limits::event_limit;
use crate::parts::Scope;
use crate::script::Script;
use crate::table::{EventType, Table, Version, is_four, is_from_three, known_in};
use crate::what::what_at;
use kube_base::{Beat, KUBE_CONTROLLER_MANAGER, KUBE_SYSTEM, Names};
use kube_objects::{Event, Events, Key, Kind, What};
use manifest_json::codes::{
    BAD_SETTINGS, ELECTION_LEASE_EDIT, EVENT_ORDER, OUT_OF_RANGE, WRONG_TYPE,
};
use manifest_json::fault::fault;
use manifest_json::{Path, ReadFault};
use serde_json::Value;
use std::alloc::Global;

/// The document's events, no more than the version allows.
#[tactic(auto, unfolding(crate::specs::Walk::events_in))]
pub(crate) fn events_at(
    alloc: Global,
    players: &Players,
    scope: Scope,
    names: &mut Names,
    document: &Value,
) -> Result<Events, ReadFault>
    requires { AreNamed players.now }
    ensures { Gives (λ events. (events, names.new)) result
        (walk.events_at scope (seen players.now) names.old (view document.now)) }
{
    let Some(found) = document.get("events") else {
        return Ok(Events::new(alloc));
    };
    let path = path_of(alloc, "/events")?;
    let all = array_in(event_limit(scope.version), &path, found)?;
    events_of(alloc, players, scope, names, all)
}

fn events_of(
    alloc: Global,
    players: &Players,
    scope: Scope,
    names: &mut Names,
    list: &[Value],
) -> Result<Events, ReadFault>
    requires { AreNamed players.now }
    ensures { Gives (λ events. (events, names.new)) result
        (walk.events_from scope (seen players.now) names.old 0 0 [] (items_view list.now)) }
{
    let mut script = Script::new(alloc);
    for (place, value) in list.iter().enumerate() {
        match event_at(alloc, players, scope, names, &script, place, value) {
            Ok(event) => script.push(event)?,
            Err(fault) => return Err(fault),
        }
    }
    Ok(script.events)
}

/// An event behind these earlier ones.
#[tactic(auto, unfolding(crate::specs::Walk::event_at))]
fn event_at(
    alloc: Global,
    players: &Players,
    scope: Scope,
    names: &mut Names,
    earlier: &Script,
    place: usize,
    value: &Value,
) -> Result<Event, ReadFault>
    requires named { AreNamed players.now }
    requires indexed { IsIndexed earlier.now }
    ensures { Gives (λ event. (event, names.new)) result
        (walk.event_at scope (seen players.now) names.old earlier.now.last.0 earlier.now.events
        (member_path [] (codes "/events/") place) (view value.now)) }
{
    let path = member_of(alloc, "/events/", place)?;
    object_at(WRONG_TYPE, &path, value)?;
    let beat = needed_whole(0, 604_800_000, &path, "beat", value)?;
    let kind = type_at(scope.version, &path, value)?;
    known_in(Table::Event(kind), &path, value)?;
    let what = what_at(alloc, players, names, &path, kind, value)?;
    if beat < earlier.last.0 || scope.end.0 < beat {
        return Err(fault(EVENT_ORDER, &path));
    }
    if earlier.is_too_soon(beat, &what) {
        return Err(fault(BAD_SETTINGS, &path));
    }
    if edits_election(&what) {
        return Err(fault(ELECTION_LEASE_EDIT, &path));
    }
    Ok(Event {
        beat: Beat(beat),
        what,
    })
}

#[tactic(auto, unfolding(crate::specs::Walk::type_at))]
fn type_at(version: Version, path: &Path, value: &Value) -> Result<EventType, ReadFault>
    ensures { Gives (λ kind. kind) result (walk.type_at version path.now (view value.now)) }
{
    let text = needed_text(path, "type", value)?;
    or_refuse(type_of(version, text), OUT_OF_RANGE, path, "type")
}

/// A type of events. A pause is one from version 3 on, a stall of the store from version 4 on.
pub fn type_of(version: Version, text: &str) -> Option<EventType>
    ensures { result ≡ walk.type_of version text.now }
{
    if text == "rate" {
        Some(EventType::Rate)
    } else if text == "delay" {
        Some(EventType::Delay)
    } else if text == "loss" {
        Some(EventType::Loss)
    } else if text == "crash" {
        Some(EventType::Crash)
    } else if text == "start" {
        Some(EventType::Start)
    } else if text == "stop" {
        Some(EventType::Stop)
    } else if text == "watch" {
        Some(EventType::Watch)
    } else if text == "ready" {
        Some(EventType::Ready)
    } else if text == "pause" && is_from_three(version) {
        Some(EventType::Pause)
    } else if text == "stall" && is_four(version) {
        Some(EventType::Stall)
    } else if text == "put" {
        Some(EventType::Put)
    } else if text == "remove" {
        Some(EventType::Remove)
    } else {
        None
    }
}

/// Whether an event puts or removes the election Lease.
fn edits_election(what: &What) -> bool
    ensures { result ≡ walk.edits_election what.now }
{
    match what {
        What::Put(key, _) => is_election(*key),
        What::Remove(key) => is_election(*key),
        What::Rate(_, _) => false,
        What::Delay(_, _, _) => false,
        What::Loss(_, _, _) => false,
        What::Crash(_) => false,
        What::Start(_) => false,
        What::Stop(_) => false,
        What::Watch(_, _) => false,
        What::Ready(_, _) => false,
        What::Pause(_, _) => false,
        What::Stall(_) => false,
    }
}

/// Whether a key is that of the Lease kube-system/kube-controller-manager.
fn is_election(key: Key) -> bool
    ensures { result ≡ walk.is_election key }
{
    match key.kind {
        Kind::Node => false,
        Kind::Lease => key.space == KUBE_SYSTEM && key.name == KUBE_CONTROLLER_MANAGER,
        Kind::Pod => false,
    }
}
