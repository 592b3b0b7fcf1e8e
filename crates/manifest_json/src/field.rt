// Fields of a manifest's objects. A null counts as a missing key.
ghost use Rattle.std.specs.Prelude.{◌≡◌, ◌++◌, option_and_then};
ghost use Rattle.std.specs.Option.{option_map};
ghost use Rattle.serde_json.specs.View.{view, items_view};
ghost use Rattle.manifest_json.specs.Faults.{Gives};
ghost use Rattle.serde_json.specs.Find.{as_str};
ghost use Rattle.kube_base.specs.Times as times;
ghost use Rattle.manifest_json.specs.Fields as spec;
ghost use Rattle.manifest_json.specs.Fields.{AreKept};
ghost use Rattle.manifest_json.specs.Walk.{hundred, is_text};

use crate::codes::{BAD_NAME, BAD_NUMBER, BAD_TIME, TOO_MANY, WRONG_JSON};
use crate::fault::{fault, fault_below};
use crate::grammar::is_name;
use crate::{Path, ReadFault};
use kube_base::{Names, Wall, read_time};
use serde_json::Value;

/// A field, if it is there and isn't null.
pub fn field<'v>(value: &'v Value, key: &str) -> Option<&'v Value>
    ensures { option_map (λ v. view v.now) result ≡ spec.field key.now (view value.now) }
{
    match value.get(key) {
        Some(found) => if found.is_null() { None } else { Some(found) },
        None => None,
    }
}

/// A field of an object that may be missing.
pub fn field_in<'v>(parent: Option<&'v Value>, key: &str) -> Option<&'v Value>
    ensures { option_map (λ v. view v.now) result
        ≡ spec.field_in key.now (option_map (λ v. view v.now) parent.entry) }
{
    match parent {
        Some(value) => field(value, key),
        None => None,
    }
}

/// The value, which is an object.
pub(crate) fn object<'v>(path: &Path, value: &'v Value) -> Result<&'v Value, ReadFault>
    ensures { Gives (λ v. view v.now) result (spec.object_at path.now (view value.now)) }
{
    match value.as_object() {
        Some(_) => Ok(value),
        None => Err(fault(WRONG_JSON, path)),
    }
}

/// An object that counts as empty if it is missing.
pub fn parent<'v>(
    path: &Path,
    key: &str,
    value: Option<&'v Value>,
) -> Result<Option<&'v Value>, ReadFault>
    ensures { Gives (option_map (λ v. view v.now)) result
        (spec.parent_at (path.now ++ key.now) (option_map (λ v. view v.now) value.entry)) }
{
    match value {
        None => Ok(None),
        Some(found) => match found.as_object() {
            Some(_) => Ok(Some(found)),
            None => Err(fault_below(WRONG_JSON, path, key)),
        },
    }
}

/// A text that counts as empty if it is missing.
pub fn text<'v>(
    code: u32,
    path: &Path,
    key: &str,
    value: Option<&'v Value>,
) -> Result<&'v str, ReadFault>
    ensures { Gives (λ t. t.now) result
        (spec.text_at code (path.now ++ key.now) (option_map (λ v. view v.now) value.entry)) }
{
    match value {
        None => Ok(""),
        Some(found) => match found.as_str() {
            Some(text) => Ok(text),
            None => Err(fault_below(code, path, key)),
        },
    }
}

/// Whether a value is this text.
pub fn is_text(wanted: &str, value: Option<&Value>) -> bool
    ensures { result ≡ is_text wanted.now (option_and_then as_str (option_map (λ v. view v.now) value.entry)) }
{
    match value.and_then(Value::as_str) {
        Some(text) => text == wanted,
        None => false,
    }
}

/// An array that counts as empty if it is missing.
pub fn items<'v>(path: &Path, key: &str, value: Option<&'v Value>) -> Result<&'v [Value], ReadFault>
    ensures { Gives (λ list. items_view list.now) result
        (spec.items_at (path.now ++ key.now) (option_map (λ v. view v.now) value.entry)) }
{
    match value {
        None => Ok(&[]),
        Some(found) => match found.as_array() {
            Some(list) => Ok(list.as_slice()),
            None => Err(fault_below(WRONG_JSON, path, key)),
        },
    }
}

/// At most a hundred members.
pub(crate) fn hundred<'v>(
    path: &Path,
    key: &str,
    list: &'v [Value],
) -> Result<&'v [Value], ReadFault>
    ensures { Gives (λ few. items_view few.now) result (hundred (path.now ++ key.now) (items_view list.now)) }
{
    if list.len() > 100 {
        return Err(fault_below(TOO_MANY, path, key));
    }
    Ok(list)
}

/// A time.
pub fn time(path: &Path, key: &str, value: Option<&Value>) -> Result<Option<Wall>, ReadFault>
    ensures { Gives (λ at. at) result
        (spec.time_at (path.now ++ key.now) (option_map (λ v. view v.now) value.entry)) }
{
    match value {
        None => Ok(None),
        Some(found) => match time_of(found) {
            Some(at) => Ok(Some(at)),
            None => Err(fault_below(BAD_TIME, path, key)),
        },
    }
}

fn time_of(value: &Value) -> Option<Wall>
    ensures { result ≡ option_and_then times.time_of (as_str (view value.now)) }
{
    match value.as_str() {
        Some(text) => read_time(text.as_bytes()),
        None => None,
    }
}

/// A count of 31 bits.
pub(crate) fn count(path: &Path, key: &str, value: Option<&Value>) -> Result<Option<u32>, ReadFault>
    ensures { Gives (λ n. n) result
        (spec.count_at (path.now ++ key.now) (option_map (λ v. view v.now) value.entry)) }
{
    match value {
        None => Ok(None),
        Some(found) => match found.as_u64() {
            Some(n) => if n <= 2_147_483_647 {
                Ok(Some(n as u32))
            } else {
                Err(fault_below(BAD_NUMBER, path, key))
            },
            None => Err(fault_below(BAD_NUMBER, path, key)),
        },
    }
}

/// A whole number of 64 bits with its sign.
pub(crate) fn integer(
    path: &Path,
    key: &str,
    value: Option<&Value>,
) -> Result<Option<i64>, ReadFault>
    ensures { Gives (λ n. n) result
        (spec.signed_at (path.now ++ key.now) (option_map (λ v. view v.now) value.entry)) }
{
    match value {
        None => Ok(None),
        Some(found) => match found.as_i64() {
            Some(n) => Ok(Some(n)),
            None => Err(fault_below(BAD_NUMBER, path, key)),
        },
    }
}

/// A text's number. A full table of names counts as out of memory.
#[tactic(auto, unfolding(crate::specs::Fields::numbered))]
pub fn number(names: &mut Names, text: &str) -> Result<u32, ReadFault>
    ensures gives { Gives (λ n. (n, names.new)) result (spec.numbered names.old text.now) }
    ensures names { AreKept names.old names.new }
{
    if names.len() >= u32::MAX as usize {
        return Err(ReadFault::NoMemory);
    }
    match names.number(text.as_bytes()) {
        Ok(number) => Ok(number),
        Err(_) => Err(ReadFault::NoMemory),
    }
}

/// The same of the text that both make together, which is likely new.
#[tactic(auto, unfolding(crate::specs::Fields::numbered))]
pub fn number_joined(names: &mut Names, front: &str, back: &str) -> Result<u32, ReadFault>
    ensures gives { Gives (λ n. (n, names.new)) result (spec.numbered names.old (front.now ++ back.now)) }
    ensures names { AreKept names.old names.new }
{
    if names.len() >= u32::MAX as usize {
        return Err(ReadFault::NoMemory);
    }
    match names.number_joined(front.as_bytes(), back.as_bytes()) {
        Ok(number) => Ok(number),
        Err(_) => Err(ReadFault::NoMemory),
    }
}

/// The number of a name. Another text is refused.
pub(crate) fn name_number(
    names: &mut Names,
    path: &Path,
    key: &str,
    text: &str,
) -> Result<u32, ReadFault>
    ensures gives { Gives (λ n. (n, names.new)) result (spec.named names.old (path.now ++ key.now) text.now) }
    ensures names { AreKept names.old names.new }
{
    if is_name(text) {
        number(names, text)
    } else {
        Err(fault_below(BAD_NAME, path, key))
    }
}
