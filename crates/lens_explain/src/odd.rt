// The first key of an object that isn't known there.
ghost use Rattle.std.specs.Prelude.{◌≡◌, ◌==◌, IfOk, option_and_then, option_map};
ghost use Rattle.std.specs.List.{list_any};
ghost use Rattle.serde_json.specs.Find.{as_str, pointer};
ghost use Rattle.serde_json.specs.View.{view};
ghost use Rattle.lens_explain.specs.Keys.{key_of, keys_of};
ghost use Rattle.lens_explain.specs.Odd as spec;
ghost use Rattle.lens_explain.specs.Odd.{odd_place};
ghost use Rattle.lens_explain.specs.Ways as ways;
ghost use Rattle.script_reader.specs.Walk.{data_of};

use crate::keys::{Key, Keys};
use crate::known::is_known;
use crate::place::cut_at;
use crate::walk::follow;
use kube_base::NoMemory;
use manifest_json::ReadFault;
use script_reader::table::{EventType, Table, Version, is_four};
use script_reader::{read_value, type_of};
use serde_json::Value;
use std::alloc::Global;
use std::str::from_utf8;
use trace_writer::add;

/// A place of the input, and there the key that isn't known and the object's keys.
#[derive(Clone, Copy)]
pub(crate) struct Odd<'t> {
    pub place: usize,
    pub key: Option<&'t [u8]>,
    pub table: Table,
}

/// The place of the first key of the object at a path that isn't known there, or of that object.
#[tactic(auto, unfolding(crate::specs::Odd::odd_place))]
pub(crate) fn odd_spot<'t>(alloc: Global, input: &'t [u8], path: &[u8]) -> Result<Odd<'t>, NoMemory>
    ensures { IfOk result (λ odd. IfOk (data_of input.now) (λ d. odd.place ≡ odd_place d input.now path.now)) }
{
    let table = table_in(alloc, input, path)?;
    let found = follow(alloc, input, path)?;
    match first_odd(alloc, input, table, found.place)? {
        Some(key) => Ok(Odd {
            place: key.place,
            key: Some(key.text),
            table,
        }),
        None => Ok(Odd {
            place: found.place,
            key: None,
            table,
        }),
    }
}

/// The first key of the object at this place that isn't known.
fn first_odd<'t>(
    alloc: Global,
    input: &'t [u8],
    table: Table,
    owner: usize,
) -> Result<Option<Key<'t>>, NoMemory>
    ensures { IfOk result (λ found. option_map key_of found ≡ spec.first_odd table owner (keys_of input.now)) }
{
    let mut keys = Keys::new(alloc);
    for (place, byte) in input.iter().enumerate() {
        if let Some(key) = keys.key_at(input, place, *byte)?
            && is_odd(table, owner, key)
        {
            return Ok(Some(key));
        }
    }
    Ok(None)
}

fn is_odd(table: Table, owner: usize, key: Key<'_>) -> bool
    ensures { result ≡ spec.is_odd table owner (key_of key.entry) }
{
    key.owner == owner && !is_known(table, key.text)
}

/// The keys of the object at a path of a document.
fn table_in(alloc: Global, input: &[u8], path: &[u8]) -> Result<Table, NoMemory>
    ensures { IfOk result (λ table. IfOk (data_of input.now) (λ d. table ≡ spec.table_at path.now d)) }
{
    match read_value(alloc, input) {
        Ok(value) => table_at(alloc, &value, path),
        Err(ReadFault::Refused(_)) => Ok(Table::Top(false)),
        Err(ReadFault::NoMemory) => Err(NoMemory),
    }
}

#[tactic(auto, unfolding(crate::specs::Odd::table_at))]
fn table_at(alloc: Global, value: &Value, path: &[u8]) -> Result<Table, NoMemory>
    ensures { IfOk result (λ table. table ≡ spec.table_at path.now (view value.now)) }
{
    if begins(path, b"/settings") {
        Ok(Table::Settings(version_in(value)))
    } else if begins(path, b"/controllers/") {
        Ok(Table::Controller(version_in(value)))
    } else if begins(path, b"/kubelets/") {
        Ok(Table::Kubelet)
    } else if begins(path, b"/podSets/") {
        Ok(set_table(path))
    } else if begins(path, b"/events/") {
        let kind = kind_at(alloc, value, path)?;
        Ok(Table::Event(kind))
    } else {
        Ok(Table::Top(is_four(version_in(value))))
    }
}

/// The keys of a set of pods, or of a member of its `on`, at a path.
fn set_table(path: &[u8]) -> Table
    ensures { result ≡ spec.set_table path.now }
{
    let (_, rest) = cut_at(path, 9);
    if has_slash(rest) {
        Table::Share
    } else {
        Table::PodSet
    }
}

fn has_slash(text: &[u8]) -> bool
    ensures { result ≡ list_any (λ byte. byte == 47) text.now }
{
    text.iter().any(|byte| *byte == b'/')
}

fn begins(path: &[u8], front: &[u8]) -> bool
    ensures { result ≡ ways.begins front.now path.now }
{
    path.strip_prefix(front).is_some()
}

/// The version of a document.
#[tactic(auto, unfolding(crate::specs::Odd::version_in))]
fn version_in(value: &Value) -> Version
    ensures { result ≡ spec.version_in (view value.now) }
{
    version_or_one(value.get("version").and_then(Value::as_u64))
}

fn version_or_one(number: Option<u64>) -> Version
    ensures { result ≡ spec.version_or_one number }
{
    match number {
        Some(2) => Version::Two,
        Some(3) => Version::Three,
        Some(4) => Version::Four,
        _ => Version::One,
    }
}

/// The type of the event at a path.
#[tactic(auto, unfolding(crate::specs::Odd::kind_at))]
fn kind_at(alloc: Global, value: &Value, path: &[u8]) -> Result<EventType, NoMemory>
    ensures { IfOk result (λ kind. kind ≡ spec.kind_at path.now (view value.now)) }
{
    let mut below = Vec::from_slice(alloc, path)?;
    add(&mut below, b"/type")?;
    Ok(kind_or_crash(version_in(value), text_at(value, &below)))
}

/// The text at a path.
fn text_at<'v>(value: &'v Value, path: &[u8]) -> Option<&'v str>
    ensures { option_map (λ text. text.now) result ≡ spec.text_at path.now (view value.now) }
{
    match from_utf8(path) {
        Ok(path) => text_in(value, path),
        Err(_) => None,
    }
}

fn text_in<'v>(value: &'v Value, path: &str) -> Option<&'v str>
    ensures { option_map (λ text. text.now) result ≡ option_and_then as_str (pointer path.now (view value.now)) }
{
    value.pointer(path).and_then(Value::as_str)
}

fn kind_or_crash(version: Version, text: Option<&str>) -> EventType
    ensures { result ≡ spec.kind_or_crash version (option_map (λ text. text.now) text.entry) }
{
    match text {
        Some(text) => type_of(version, text).unwrap_or(EventType::Crash),
        None => EventType::Crash,
    }
}
