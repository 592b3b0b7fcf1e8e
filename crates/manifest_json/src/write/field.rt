// Fields that are written.
ghost use Rattle.std.specs.Prelude.{◌≡◌, true, IfOk};
ghost use Rattle.std.specs.Option.{option_map};
ghost use Rattle.std.specs.Str.{IsUtf8};
ghost use Rattle.serde_json.specs.View.{view, items_view};
ghost use Rattle.manifest_json.specs.Written as written;

use crate::write::members::Members;
use kube_base::{Names, NoMemory, Wall, write_micros, write_seconds};
use kube_objects::Key;
use serde_json::Value;
use std::alloc::Global;

/// The text of a number.
pub(crate) fn text_of<'n>(names: &'n Names, number: u32) -> &'n str
    ensures { result.now ≡ written.text_of names.now number }
{
    match names.bytes(number) {
        Some(bytes) => utf8(bytes),
        None => "",
    }
}

fn utf8<'b>(bytes: &'b [u8]) -> &'b str
    requires { IsUtf8 bytes.now }
    ensures { result.now ≡ bytes.now }
{
    match str::from_utf8(bytes) {
        Ok(text) => text,
        Err(_) => {
            prove!(false);
            ""
        }
    }
}

/// A time in seconds.
pub(crate) fn in_seconds(alloc: Global, at: Option<Wall>) -> Result<Option<Value>, NoMemory>
    requires { written.is_writable at ≡ true }
    ensures { IfOk result (λ value. option_map view value ≡ written.in_seconds at) }
{
    match at {
        Some(at) => {
            let text = write_seconds(alloc, at)?;
            let value = Value::try_from_str(alloc, utf8(text.bytes()))?;
            Ok(Some(value))
        }
        None => Ok(None),
    }
}

/// A time in microseconds.
pub(crate) fn in_micros(alloc: Global, at: Option<Wall>) -> Result<Option<Value>, NoMemory>
    requires { written.is_writable at ≡ true }
    ensures { IfOk result (λ value. option_map view value ≡ written.in_micros at) }
{
    match at {
        Some(at) => {
            let text = write_micros(alloc, at)?;
            let value = Value::try_from_str(alloc, utf8(text.bytes()))?;
            Ok(Some(value))
        }
        None => Ok(None),
    }
}

/// A count.
pub(crate) fn count(n: Option<u32>) -> Option<Value>
    ensures { option_map view result ≡ written.count n }
{
    match n {
        Some(n) => Some(Value::from(n)),
        None => None,
    }
}

/// An array that has a member.
#[tactic(auto, unfolding(crate::specs::Written::filled_array))]
pub(crate) fn array_unless_empty(values: Vec<Value>) -> Option<Value>
    ensures { option_map view result ≡ written.filled_array (items_view values.items) }
{
    if values.len() == 0 {
        None
    } else {
        Some(Value::Array(values))
    }
}

/// Name and namespace.
#[tactic(auto, unfolding(crate::specs::Written::metadata_of, crate::specs::Written::members_of))]
pub(crate) fn metadata(alloc: Global, names: &Names, key: Key) -> Result<Value, NoMemory>
    ensures { IfOk result (λ value. view value ≡ written.metadata_of names.now key) }
{
    let mut members = Members::new(alloc);
    members.put_text("namespace", text_of(names, key.space))?;
    members.put_text("name", text_of(names, key.name))?;
    Ok(members.into_value())
}
