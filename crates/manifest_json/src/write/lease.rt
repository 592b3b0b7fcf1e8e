// Leases that are written.
ghost use Rattle.std.specs.Prelude.{◌≡◌, ◌++◌, true, codes, slice_get, unwrap_or, string_bytes, IfOk};
ghost use Rattle.std.specs.Fmt.{decimal};
ghost use Rattle.std.specs.Option.{option_map};
ghost use Rattle.serde_json.specs.View.{view};
ghost use Rattle.manifest_json.specs.Written as written;

use crate::write::field::{count, in_micros, metadata, text_of};
use crate::write::members::Members;
use kube_base::{Names, NoMemory};
use kube_objects::{Holder, Key, Lease};
use serde_json::Value;
use std::alloc::Global;

#[tactic(auto, unfolding(crate::specs::Written::lease_of, crate::specs::Written::members_of))]
pub(crate) fn write_lease(
    alloc: Global,
    names: &Names,
    known: &[u32],
    key: Key,
    lease: Lease,
) -> Result<Value, NoMemory>
    requires { written.is_writable_lease lease ≡ true }
    ensures { IfOk result (λ value. view value ≡ written.lease_of names.now known.now key lease) }
{
    let metadata = metadata(alloc, names, key)?;
    let spec = spec(alloc, names, known, lease)?;
    let mut members = Members::new(alloc);
    members.put("spec", spec)?;
    members.put("metadata", Some(metadata))?;
    members.put_text("kind", "Lease")?;
    members.put_text("apiVersion", "coordination.k8s.io/v1")?;
    Ok(members.into_value())
}

#[tactic(auto, unfolding(crate::specs::Written::lease_spec_of, crate::specs::Written::members_of))]
fn spec(
    alloc: Global,
    names: &Names,
    known: &[u32],
    lease: Lease,
) -> Result<Option<Value>, NoMemory>
    requires { written.is_writable_lease lease ≡ true }
    ensures { IfOk result (λ value. option_map view value ≡ written.lease_spec_of names.now known.now lease) }
{
    let holder = holder(alloc, names, known, lease.holder)?;
    let acquired = in_micros(alloc, lease.acquired)?;
    let renewed = in_micros(alloc, lease.renewed)?;
    let mut members = Members::new(alloc);
    members.put("renewTime", renewed)?;
    members.put("leaseTransitions", count(lease.transitions))?;
    members.put("leaseDurationSeconds", count(lease.duration))?;
    members.put_unless_empty("holderIdentity", holder.as_str())?;
    members.put("acquireTime", acquired)?;
    Ok(members.into_value_unless_empty())
}

/// The text of a holder, empty if there is none.
fn holder(alloc: Global, names: &Names, known: &[u32], holder: Holder) -> Result<String, NoMemory>
    ensures { IfOk result (λ text. string_bytes text ≡ written.holder_text names.now known.now holder) }
{
    match holder {
        Holder::Nobody => Ok(String::new(alloc)),
        Holder::Proc(process, incarnation) => {
            identity(
                alloc,
                text_of(names, number_at(known, process.0)),
                incarnation,
            )
        }
        Holder::Foreign(number) => Ok(String::from_str(alloc, text_of(names, number))?),
    }
}

fn number_at(known: &[u32], place: u32) -> u32
    ensures { result ≡ unwrap_or (slice_get known.now place) 0 }
{
    match known.get(place as usize) {
        Some(number) => *number,
        None => 0,
    }
}

/// A name, an underscore and an incarnation.
fn identity(alloc: Global, name: &str, incarnation: u32) -> Result<String, NoMemory>
    ensures { IfOk result (λ text. string_bytes text ≡ name.now ++ codes "_" ++ decimal incarnation) }
{
    let digits = incarnation.to_string(alloc)?;
    let mut text = String::from_str(alloc, name)?;
    text.push_str("_")?;
    text.push_str(digits.as_str())?;
    Ok(text)
}
