// Values of a document's keys. A null is a value of the wrong type.
ghost use Rattle.std.specs.Prelude.{◌≡◌, ◌≤◌, ◌++◌, codes, [], length, IfOk};
ghost use Rattle.serde_json.specs.View.{view, items_view};
ghost use Rattle.kube_base.specs.Times.{time_of};
ghost use Rattle.manifest_json.specs.Faults.{Gives, IsFault};
ghost use Rattle.manifest_json.specs.Fields.{AreKept, or_refuse};
ghost use Rattle.manifest_json.specs.Walk.{member_path};
ghost use Rattle.script_reader.specs.Fields as spec;
ghost use Rattle.script_reader.specs.Walk.{named_at};

use kube_base::{Names, NoMemory, Wall, read_time};
use kube_objects::{RatePolicy, ReadyStatus};
use manifest_json::codes::{MISSING_KEY, OUT_OF_RANGE, TOO_MANY, WRONG_TYPE};
use manifest_json::fault::fault;
use manifest_json::{Path, ReadFault, fault_below, is_name, number};
use serde_json::Value;
use std::alloc::Global;

/// The path of these bytes.
pub fn path_of(alloc: Global, text: &str) -> Result<Path, NoMemory>
    ensures { IfOk result (λ path. path ≡ text.now) }
{
    Path::new(alloc).below(text)
}

/// The path of an array's member.
pub fn member_of(alloc: Global, key: &str, place: usize) -> Result<Path, NoMemory>
    ensures { IfOk result (λ path. path ≡ member_path [] key.now place) }
{
    Path::new(alloc).member(key, place)
}

/// The fault with this code at a path of these bytes, unless memory runs out.
pub fn fault_at(alloc: Global, code: u32, path: &str) -> ReadFault
    ensures { IsFault code path.now result }
{
    fault_below(code, &Path::new(alloc), path)
}

/// The fault with this code at a key of the object at the path, unless memory runs out.
pub fn fault_under(code: u32, path: &Path, key: &str) -> ReadFault
    ensures { IsFault code (spec.under path.now key.now) result }
{
    match path.below("/") {
        Ok(path) => fault_below(code, &path, key),
        Err(_) => ReadFault::NoMemory,
    }
}

/// The value under a key that is required.
pub fn needed<'v>(path: &Path, key: &str, object: &'v Value) -> Result<&'v Value, ReadFault>
    ensures { Gives (λ found. view found.now) result (spec.needed path.now key.now (view object.now)) }
{
    match object.get(key) {
        Some(found) => Ok(found),
        None => Err(fault_under(MISSING_KEY, path, key)),
    }
}

/// What was made of the value under a key, or its refusal with this code.
pub fn or_refuse<T: Copy>(
    found: Option<T>,
    code: u32,
    path: &Path,
    key: &str,
) -> Result<T, ReadFault>
    ensures { Gives (λ x. x) result (or_refuse found code (spec.under path.now key.now)) }
{
    match found {
        Some(found) => Ok(found),
        None => Err(fault_under(code, path, key)),
    }
}

/// A whole number under a key, or the default.
pub fn whole_at(
    default: u32,
    least: u32,
    most: u32,
    path: &Path,
    key: &str,
    object: &Value,
) -> Result<u32, ReadFault>
    ensures { Gives (λ n. n) result
        (spec.whole_at default least most path.now key.now (view object.now)) }
{
    match object.get(key) {
        Some(found) => whole_in(least, most, path, key, found),
        None => Ok(default),
    }
}

/// A whole number under a key that is required.
pub(crate) fn needed_whole(
    least: u32,
    most: u32,
    path: &Path,
    key: &str,
    object: &Value,
) -> Result<u32, ReadFault>
    ensures { Gives (λ n. n) result
        (spec.needed_whole least most path.now key.now (view object.now)) }
{
    let found = needed(path, key, object)?;
    whole_in(least, most, path, key, found)
}

/// A whole number from the least to the most.
fn whole_in(least: u32, most: u32, path: &Path, key: &str, found: &Value) -> Result<u32, ReadFault>
    ensures { Gives (λ n. n) result
        (spec.whole_in least most (spec.under path.now key.now) (view found.now)) }
{
    match found.as_u64() {
        Some(n) => if u64::from(least) <= n && n <= u64::from(most) {
            Ok(n as u32)
        } else {
            Err(fault_under(OUT_OF_RANGE, path, key))
        },
        None => match found.as_i64() {
            Some(_) => Err(fault_under(OUT_OF_RANGE, path, key)),
            None => Err(fault_under(WRONG_TYPE, path, key)),
        },
    }
}

/// A whole number with a sign under a key, or the default.
pub(crate) fn signed_at(
    default: i64,
    least: i64,
    most: i64,
    path: &Path,
    key: &str,
    object: &Value,
) -> Result<i64, ReadFault>
    ensures { Gives (λ n. n) result
        (spec.signed_at default least most path.now key.now (view object.now)) }
{
    match object.get(key) {
        Some(found) => signed_in(least, most, path, key, found),
        None => Ok(default),
    }
}

fn signed_in(least: i64, most: i64, path: &Path, key: &str, found: &Value) -> Result<i64, ReadFault>
    ensures { Gives (λ n. n) result
        (spec.signed_in least most (spec.under path.now key.now) (view found.now)) }
{
    match found.as_i64() {
        Some(n) => if least <= n && n <= most {
            Ok(n)
        } else {
            Err(fault_under(OUT_OF_RANGE, path, key))
        },
        None => match found.as_u64() {
            Some(_) => Err(fault_under(OUT_OF_RANGE, path, key)),
            None => Err(fault_under(WRONG_TYPE, path, key)),
        },
    }
}

/// True or false under a key, or the default.
pub(crate) fn flag_at(
    default: bool,
    path: &Path,
    key: &str,
    object: &Value,
) -> Result<bool, ReadFault>
    ensures { Gives (λ flag. flag) result
        (spec.flag_at default path.now key.now (view object.now)) }
{
    match object.get(key) {
        Some(found) => flag_in(path, key, found),
        None => Ok(default),
    }
}

/// True or false under a key that is required.
pub(crate) fn needed_flag(path: &Path, key: &str, object: &Value) -> Result<bool, ReadFault>
    ensures { Gives (λ flag. flag) result
        (spec.needed_flag path.now key.now (view object.now)) }
{
    let found = needed(path, key, object)?;
    flag_in(path, key, found)
}

fn flag_in(path: &Path, key: &str, found: &Value) -> Result<bool, ReadFault>
    ensures { Gives (λ flag. flag) result
        (spec.flag_in (spec.under path.now key.now) (view found.now)) }
{
    or_refuse(found.as_bool(), WRONG_TYPE, path, key)
}

/// A text under a key, or the default.
fn text_at<'v>(
    default: &'v str,
    path: &Path,
    key: &str,
    object: &'v Value,
) -> Result<&'v str, ReadFault>
    ensures { Gives (λ text. text.now) result
        (spec.text_at default.now path.now key.now (view object.now)) }
{
    match object.get(key) {
        Some(found) => text_in(path, key, found),
        None => Ok(default),
    }
}

/// A text under a key that is required.
pub(crate) fn needed_text<'v>(
    path: &Path,
    key: &str,
    object: &'v Value,
) -> Result<&'v str, ReadFault>
    ensures { Gives (λ text. text.now) result
        (spec.needed_text path.now key.now (view object.now)) }
{
    let found = needed(path, key, object)?;
    text_in(path, key, found)
}

/// A text.
pub fn text_in<'v>(path: &Path, key: &str, found: &'v Value) -> Result<&'v str, ReadFault>
    ensures { Gives (λ text. text.now) result
        (spec.text_in (spec.under path.now key.now) (view found.now)) }
{
    match found.as_str() {
        Some(text) => Ok(text),
        None => Err(fault_under(WRONG_TYPE, path, key)),
    }
}

/// A name under a key that is required.
#[tactic(auto, unfolding(crate::specs::Fields::needed_name))]
pub fn needed_name<'v>(path: &Path, key: &str, object: &'v Value) -> Result<&'v str, ReadFault>
    ensures { Gives (λ text. text.now) result
        (spec.needed_name path.now key.now (view object.now)) }
{
    let text = needed_text(path, key, object)?;
    if_name(path, key, text)
}

/// The number of a name under a key that is required.
#[tactic(auto, unfolding(crate::specs::Walk::named_at))]
pub fn name_number_at(
    names: &mut Names,
    path: &Path,
    key: &str,
    value: &Value,
) -> Result<u32, ReadFault>
    ensures gives { Gives (λ n. (n, names.new)) result
        (named_at names.old path.now key.now (view value.now)) }
    ensures names { AreKept names.old names.new }
{
    let text = needed_name(path, key, value)?;
    number(names, text)
}

/// The name of a namespace: `default` if none is given.
#[tactic(auto, unfolding(crate::specs::Fields::name_at))]
pub(crate) fn namespace_at<'v>(path: &Path, object: &'v Value) -> Result<&'v str, ReadFault>
    ensures { Gives (λ text. text.now) result
        (spec.name_at (codes "default") path.now (codes "namespace") (view object.now)) }
{
    let text = text_at("default", path, "namespace", object)?;
    if_name(path, "namespace", text)
}

fn if_name<'v>(path: &Path, key: &str, text: &'v str) -> Result<&'v str, ReadFault>
    ensures { Gives (λ text. text.now) result (spec.if_name (spec.under path.now key.now) text.now) }
{
    if is_name(text) {
        Ok(text)
    } else {
        Err(fault_under(OUT_OF_RANGE, path, key))
    }
}

/// The status that a kubelet posts: True if none is given.
#[tactic(auto, unfolding(crate::specs::Fields::posted_at))]
pub(crate) fn status_at(path: &Path, key: &str, object: &Value) -> Result<ReadyStatus, ReadFault>
    ensures { Gives (λ status. status) result
        (spec.posted_at path.now key.now (view object.now)) }
{
    let text = text_at("True", path, key, object)?;
    or_refuse(status_of(text), OUT_OF_RANGE, path, key)
}

/// The status that a kubelet posts, which is required.
#[tactic(auto, unfolding(crate::specs::Fields::needed_posted))]
pub(crate) fn needed_status(
    path: &Path,
    key: &str,
    object: &Value,
) -> Result<ReadyStatus, ReadFault>
    ensures { Gives (λ status. status) result
        (spec.needed_posted path.now key.now (view object.now)) }
{
    let text = needed_text(path, key, object)?;
    or_refuse(status_of(text), OUT_OF_RANGE, path, key)
}

fn status_of(text: &str) -> Option<ReadyStatus>
    ensures { result ≡ spec.posted_of text.now }
{
    if text == "True" {
        Some(ReadyStatus::True)
    } else if text == "False" {
        Some(ReadyStatus::False)
    } else {
        None
    }
}

/// The name of a rate policy: `standard` if none is given.
#[tactic(auto, unfolding(crate::specs::Fields::policy_at))]
pub(crate) fn policy_at(path: &Path, key: &str, object: &Value) -> Result<RatePolicy, ReadFault>
    ensures { Gives (λ policy. policy) result
        (spec.policy_at path.now key.now (view object.now)) }
{
    let text = text_at("standard", path, key, object)?;
    or_refuse(policy_of(text), OUT_OF_RANGE, path, key)
}

fn policy_of(text: &str) -> Option<RatePolicy>
    ensures { result ≡ spec.policy_of text.now }
{
    if text == "standard" {
        Some(RatePolicy::Standard)
    } else if text == "gentle" {
        Some(RatePolicy::Gentle)
    } else if text == "halt" {
        Some(RatePolicy::Halt)
    } else {
        None
    }
}

/// The time of day at beat 0, in the years 2000 to 2199 of UTC.
#[tactic(auto, unfolding(crate::specs::Fields::epoch_at))]
pub(crate) fn epoch_at(path: &Path, key: &str, object: &Value) -> Result<Wall, ReadFault>
    ensures { Gives (λ at. at) result
        (spec.epoch_at path.now key.now (view object.now)) }
{
    let text = text_at("2024-01-01T00:00:00Z", path, key, object)?;
    if_epoch(path, key, read_time(text.as_bytes()))
}

fn if_epoch(path: &Path, key: &str, at: Option<Wall>) -> Result<Wall, ReadFault>
    ensures { Gives (λ at. at) result (spec.if_epoch (spec.under path.now key.now) at) }
{
    match at {
        Some(at) => if 946_684_800_000_000 <= at.0 && at.0 < 7_258_118_400_000_000 {
            Ok(at)
        } else {
            Err(fault_under(OUT_OF_RANGE, path, key))
        },
        None => Err(fault_under(OUT_OF_RANGE, path, key)),
    }
}

/// The value is an object.
pub fn object_at(code: u32, path: &Path, value: &Value) -> Result<(), ReadFault>
    ensures { Gives (λ _. view value.now) result
        (spec.object_at code path.now (view value.now)) }
{
    match value.as_object() {
        Some(_) => Ok(()),
        None => Err(fault(code, path)),
    }
}

/// An array of at most so many members.
#[tactic(auto, unfolding(crate::specs::Fields::array_in))]
pub fn array_in<'v>(most: usize, path: &Path, value: &'v Value) -> Result<&'v [Value], ReadFault>
    ensures gives { Gives (λ list. items_view list.now) result
        (spec.array_in most path.now (view value.now)) }
    ensures few { IfOk result (λ list. length list.now ≤ most) }
{
    let list = members(path, value)?;
    at_most(most, path, list)
}

fn members<'v>(path: &Path, value: &'v Value) -> Result<&'v [Value], ReadFault>
    ensures { Gives (λ list. items_view list.now) result
        (spec.items_in path.now (view value.now)) }
{
    match value.as_array() {
        Some(list) => Ok(list.as_slice()),
        None => Err(fault(WRONG_TYPE, path)),
    }
}

fn at_most<'v>(most: usize, path: &Path, list: &'v [Value]) -> Result<&'v [Value], ReadFault>
    ensures gives { Gives (λ few. items_view few.now) result
        (spec.at_most most path.now (items_view list.now)) }
    ensures few { IfOk result (λ few. length few.now ≤ most) }
{
    if list.len() > most {
        return Err(fault(TOO_MANY, path));
    }
    Ok(list)
}

/// An array of at least one member.
pub(crate) fn not_empty<'v>(path: &Path, list: &'v [Value]) -> Result<&'v [Value], ReadFault>
    ensures gives { Gives (λ some. items_view some.now) result
        (spec.not_empty path.now (items_view list.now)) }
    ensures same { IfOk result (λ some. some.now ≡ list.now) }
{
    match list.first() {
        Some(_) => Ok(list),
        None => Err(fault(OUT_OF_RANGE, path)),
    }
}
