// Leases and their holders.
ghost use Rattle.std.specs.Prelude.{◌≡◌, ◌<◌, ◌^◌, ◌++◌, codes, option_and_then, position, reverse, length, ◌==◌, IfSome};
ghost use Rattle.std.specs.Option.{option_map};
ghost use Rattle.serde_json.specs.View.{view};
ghost use Rattle.kube_base.specs.Names.{number_of};
ghost use Rattle.manifest_json.specs.Faults.{Gives};
ghost use Rattle.manifest_json.specs.Fields.{AreKept};
ghost use Rattle.manifest_json.specs.Walk as walk;

use crate::codes::WRONG_JSON;
use crate::field::{count, field, field_in, number, parent, text, time};
use crate::metadata::spaced_key;
use crate::{Path, ReadFault};
use kube_base::{Names, ProcId};
use kube_objects::{Holder, Key, Kind, Lease, Object};
use serde_json::Value;

/// A Lease with its key.
#[tactic(auto, unfolding(crate::specs::Walk::lease_at))]
pub(crate) fn lease(
    names: &mut Names,
    known: &[u32],
    path: &Path,
    value: &Value,
) -> Result<(Key, Object), ReadFault>
    requires { length known.now < 2 ^ 32 }
    ensures gives { Gives (λ found. (found, names.new)) result
        (walk.lease_at names.old known.now path.now (view value.now)) }
    ensures names { AreKept names.old names.new }
{
    let metadata = parent(path, "/metadata", field(value, "metadata"))?;
    let key = spaced_key(names, path, Kind::Lease, metadata)?;
    let spec = parent(path, "/spec", field(value, "spec"))?;
    let lease = lease_spec(names, known, path, spec)?;
    Ok((key, Object::Lease(lease)))
}

#[tactic(auto, unfolding(crate::specs::Walk::lease_spec_at))]
fn lease_spec(
    names: &mut Names,
    known: &[u32],
    path: &Path,
    spec: Option<&Value>,
) -> Result<Lease, ReadFault>
    requires { length known.now < 2 ^ 32 }
    ensures gives { Gives (λ lease. (lease, names.new)) result
        (walk.lease_spec_at names.old known.now path.now (option_map (λ v. view v.now) spec.entry)) }
    ensures names { AreKept names.old names.new }
{
    let text = text(
        WRONG_JSON,
        path,
        "/spec/holderIdentity",
        field_in(spec, "holderIdentity"),
    )?;
    let holder = holder(names, known, text)?;
    let duration = count(
        path,
        "/spec/leaseDurationSeconds",
        field_in(spec, "leaseDurationSeconds"),
    )?;
    let acquired = time(path, "/spec/acquireTime", field_in(spec, "acquireTime"))?;
    let renewed = time(path, "/spec/renewTime", field_in(spec, "renewTime"))?;
    let transitions = count(
        path,
        "/spec/leaseTransitions",
        field_in(spec, "leaseTransitions"),
    )?;
    Ok(Lease {
        holder,
        duration,
        acquired,
        renewed,
        transitions,
    })
}

/// Who a text names.
#[tactic(auto, unfolding(crate::specs::Walk::holder_of))]
fn holder(names: &mut Names, known: &[u32], text: &str) -> Result<Holder, ReadFault>
    requires { length known.now < 2 ^ 32 }
    ensures gives { Gives (λ holder. (holder, names.new)) result
        (walk.holder_of names.old known.now text.now) }
    ensures names { AreKept names.old names.new }
{
    if text.is_empty() {
        return Ok(Holder::Nobody);
    }
    if let Some(holder) = identity(names, known, text.as_bytes()) {
        return Ok(holder);
    }
    let number = number(names, text)?;
    Ok(Holder::Foreign(number))
}

/// The process and incarnation that a text is the identity of.
fn identity(names: &Names, known: &[u32], text: &[u8]) -> Option<Holder>
    requires { length known.now < 2 ^ 32 }
    ensures { result ≡ walk.identity_of names.now known.now text.now }
{
    let behind = behind_mark(text)?;
    let place = process(names, known, &text[..text.len() - behind - 1])?;
    let incarnation = incarnation_of(&text[text.len() - behind..])?;
    Some(Holder::Proc(ProcId(place), incarnation))
}

/// How many bytes stand behind the last underscore.
fn behind_mark(text: &[u8]) -> Option<usize>
    ensures value { result ≡ position (λ byte. byte == 95) (reverse text.now) }
    ensures within { IfSome result (λ n. n < length text.now) }
{
    text.iter().rev().position(|byte| *byte == b'_')
}

/// A process by its name: its place among the known names.
fn process(names: &Names, known: &[u32], name: &[u8]) -> Option<u32>
    requires { length known.now < 2 ^ 32 }
    ensures { result ≡ walk.process_of names.now known.now name.now }
{
    let number = names.find(name)?;
    match place_of(known, number) {
        Some(place) => Some(place as u32),
        None => None,
    }
}

fn place_of(known: &[u32], number: u32) -> Option<usize>
    ensures value { result ≡ position (λ other. number == other) known.now }
    ensures within { IfSome result (λ place. place < length known.now) }
{
    known.iter().position(|other| number == *other)
}

/// A decimal number from 1 to 2^32 - 1 with no leading 0.
fn incarnation_of(digits: &[u8]) -> Option<u32>
    ensures { result ≡ walk.incarnation_of digits.now }
{
    match digits.first() {
        Some(first) => if *first == b'0' {
            None
        } else {
            decimal_number(digits)
        },
        None => None,
    }
}

fn decimal_number(digits: &[u8]) -> Option<u32>
    ensures { result ≡ walk.number_onto 0 digits.now }
{
    let mut value: u64 = 0;
    for byte in digits {
        if !byte.is_ascii_digit() {
            return None;
        }
        value = 10 * value + u64::from(*byte - b'0');
        if value > 4_294_967_295 {
            return None;
        }
    }
    Some(value as u32)
}
