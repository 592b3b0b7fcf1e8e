// The document in bytes.
ghost use Rattle.std.specs.Prelude.{◌≡◌, ◌≤◌, codes, length, IfOk};
ghost use Rattle.serde_json.specs.Find.{get};
ghost use Rattle.serde_json.specs.View.{view};
ghost use Rattle.manifest_json.specs.Faults.{Gives};
ghost use Rattle.manifest_json.specs.Kept as kept;
ghost use Rattle.script_reader.specs.Fields as fields;
ghost use Rattle.script_reader.specs.Limits as limits;
ghost use Rattle.script_reader.specs.SetParts.{listed_objects};
ghost use Rattle.script_reader.specs.Sets.{sets_in};
ghost use Rattle.script_reader.specs.Walk as walk;
ghost use Rattle.script_reader.specs.Walk.{document_walk};

use crate::Document;
use crate::cast::{Players, Team};
use crate::choice::Preset;
use crate::event::events_at;
use crate::field::{fault_at, object_at, path_of};
use crate::limits::scale_of;
use crate::parts::Scope;
use crate::process::{controllers_at, kubelets_at};
use crate::sets::sets_in;
use crate::settings::settings_at;
use crate::table::{Table, Version, known_in};
use kube_base::{NameHash, Names};
use kube_objects::{Items, Settings};
use manifest_json::codes::{BAD_JSON, MISSING_KEY, TOP_SHAPE, WRONG_TYPE};
use manifest_json::{Kept, Listed, Objects, ReadFault, read_kept};
use serde_json::Value;
use std::alloc::Global;

/// The document in these bytes with its defaults, or the first refusal of the walk.
#[tactic(auto, unfolding(crate::specs::Walk::document_walk))]
pub fn read_document(alloc: Global, bytes: &[u8]) -> Result<Document, ReadFault>
    ensures { Gives (λ document. document) result (document_walk bytes.now) }
{
    let value = read_value(alloc, bytes)?;
    document_of(alloc, NameHash::of(bytes), &value)
}

/// The JSON value of these bytes, of which `document_of` makes the document.
pub fn read_value(alloc: Global, bytes: &[u8]) -> Result<Value, ReadFault>
    ensures { Gives view result (walk.data_of bytes.now) }
{
    match Value::from_slice(alloc, bytes) {
        Ok(value) => Ok(value),
        Err(error) => {
            if error.is_memory() {
                return Err(ReadFault::NoMemory);
            }
            Err(fault_at(alloc, BAD_JSON, "/"))
        }
    }
}

/// The document of a JSON value with its defaults, or the first refusal of the walk. Its names are hashed by the key of the bytes of which
/// the value was read.
#[tactic(auto, unfolding(crate::specs::Walk::document_at))]
pub fn document_of(alloc: Global, hash: NameHash, value: &Value) -> Result<Document, ReadFault>
    ensures { Gives (λ document. document) result (walk.document_at (view value.now)) }
{
    top_in(alloc, value)?;
    let version = version(alloc, value)?;
    let given = settings(alloc, version, value)?;
    let mut names = Names::keyed(alloc, hash)?;
    let team = controllers_at(alloc, version, &given.0, given.1, &mut names, value)?;
    let kubelets = kubelets_at(alloc, version, &given.0, &mut names, value)?;
    let objects = objects_at(alloc, version, &mut names, team.named.known(), value)?;
    let Team { named, waits } = team;
    let players = Players {
        controllers: named,
        kubelets,
    };
    let scope = Scope {
        version,
        end: given.0.end_beat,
    };
    let events = events_at(alloc, &players, scope, &mut names, value)?;
    let Players {
        controllers,
        kubelets,
    } = players;
    Ok(Document {
        settings: given.0,
        controllers: controllers.procs,
        kubelets: kubelets.procs,
        waits,
        objects,
        events,
        names,
    })
}

/// The value is an object with no unknown key.
#[tactic(auto, unfolding(crate::specs::Walk::top_in))]
fn top_in(alloc: Global, value: &Value) -> Result<(), ReadFault>
    ensures { Gives (λ _. view value.now) result (walk.top_in (view value.now)) }
{
    let path = path_of(alloc, "/")?;
    object_at(TOP_SHAPE, &path, value)?;
    known_in(Table::Top(says_four(value)), &path, value)
}

/// Whether the version is the whole number 4.
fn says_four(value: &Value) -> bool
    ensures { result ≡ walk.says_four (get (codes "version") (view value.now)) }
{
    match value.get("version") {
        Some(found) => match found.as_u64() {
            Some(n) => n == 4,
            None => false,
        },
        None => false,
    }
}

fn version(alloc: Global, value: &Value) -> Result<Version, ReadFault>
    ensures { Gives (λ version. version) result
        (fields.required (codes "/version") walk.version_in (get (codes "version") (view value.now))) }
{
    match value.get("version") {
        Some(found) => version_in(alloc, found),
        None => Err(fault_at(alloc, MISSING_KEY, "/version")),
    }
}

/// A whole number from 1 to 4.
fn version_in(alloc: Global, found: &Value) -> Result<Version, ReadFault>
    ensures { Gives (λ version. version) result (walk.version_in (view found.now)) }
{
    match found.as_u64() {
        Some(n) => version_of(alloc, n),
        None => match found.as_i64() {
            Some(_) => Err(fault_at(alloc, TOP_SHAPE, "/version")),
            None => Err(fault_at(alloc, WRONG_TYPE, "/version")),
        },
    }
}

fn version_of(alloc: Global, n: u64) -> Result<Version, ReadFault>
    ensures { Gives (λ version. version) result (walk.version_of n) }
{
    if n == 1 {
        Ok(Version::One)
    } else if n == 2 {
        Ok(Version::Two)
    } else if n == 3 {
        Ok(Version::Three)
    } else if n == 4 {
        Ok(Version::Four)
    } else {
        Err(fault_at(alloc, TOP_SHAPE, "/version"))
    }
}

fn settings(alloc: Global, version: Version, value: &Value) -> Result<(Settings, Preset), ReadFault>
    ensures { Gives (λ found. found) result
        (fields.required (codes "/settings") (walk.settings_at version (codes "/settings")) (get (codes "settings") (view value.now))) }
{
    let Some(found) = value.get("settings") else {
        return Err(fault_at(alloc, MISSING_KEY, "/settings"));
    };
    let path = path_of(alloc, "/settings")?;
    settings_at(version, &path, found)
}

/// The objects, with the Pods of the sets behind them.
#[tactic(auto, unfolding(crate::specs::Walk::objects_at))]
fn objects_at(
    alloc: Global,
    version: Version,
    names: &mut Names,
    known: &[u32],
    value: &Value,
) -> Result<Objects, ReadFault>
    requires { length known.now ≤ 15000 }
    ensures { Gives (λ objects. (objects, names.new)) result
        (walk.objects_at version names.old known.now (view value.now)) }
{
    let mut listed = listed(alloc, version, names, known, value)?;
    let skipped = listed.skipped;
    sets(alloc, names, &mut listed.kept, value)?;
    Ok(Objects {
        items: listed.kept.items,
        skipped,
    })
}

#[tactic(auto, unfolding(crate::specs::Walk::objects_in))]
fn listed(
    alloc: Global,
    version: Version,
    names: &mut Names,
    known: &[u32],
    value: &Value,
) -> Result<Listed, ReadFault>
    requires { length known.now ≤ 15000 }
    ensures gives { Gives (λ listed. (listed_objects listed, names.new)) result
        (fields.default_of (walk.no_objects, names.old) (walk.objects_in version names.old known.now) (get (codes "objects") (view value.now))) }
    ensures stands { IfOk result (λ listed. kept.Stands listed.kept) }
    ensures scale { IfOk result (λ listed. listed.kept.scale ≡ limits.scale_of version) }
{
    let Some(found) = value.get("objects") else {
        return Ok(Listed {
            kept: Kept::new(alloc, scale_of(version)),
            skipped: 0,
        });
    };
    let path = path_of(alloc, "/objects")?;
    let listed = read_kept(alloc, scale_of(version), names, known, found, &path)?;
    Ok(listed)
}

/// Adds the Pods of the sets behind the objects.
fn sets(
    alloc: Global,
    names: &mut Names,
    objects: &mut Kept,
    value: &Value,
) -> Result<(), ReadFault>
    requires { kept.Stands objects.old }
    ensures { Gives (λ _. (objects.new.items, names.new)) result
        (fields.default_of (objects.old.items, names.old) (sets_in objects.old.scale names.old objects.old.items)
        (get (codes "podSets") (view value.now))) }
{
    match value.get("podSets") {
        Some(found) => sets_in(alloc, names, objects, found),
        None => Ok(()),
    }
}
