// The members of the answer.
ghost use Rattle.std.specs.Prelude.{◌≡◌, ◌<◌, ◌++◌, ◌∷◌, [], IfOk, OnOk, length, map};
ghost use Rattle.lens_json.specs.Members.{data_of, named};
ghost use Rattle.lens_json.specs.Parts.{members_in, what_of};
ghost use Rattle.script_reader.specs.Documents.{doc_of};
ghost use Rattle.script_reader.specs.Lawful.{IsLawfulDoc, IsWellNamed};
ghost use Rattle.lens_room.specs.Late.{late_reply};
ghost use Rattle.lens_room.specs.MarginJson as spec;

use crate::late::{Late, late_reply};
use kube_base::NoMemory;
use lens_json::{Member, Object, Value, What};
use lens_margin::{Margin, controller_margin};
use script_reader::Document;
use std::alloc::Global;
use trace_writer::name_of;

/// An object for each controller.
pub(crate) fn controllers_in<'a>(
    alloc: Global,
    document: &'a Document,
) -> Result<Vec<Object<'a>>, NoMemory>
    requires lawful { IsLawfulDoc (doc_of document.now) }
    requires named { IsWellNamed document.now.names (doc_of document.now) }
    ensures { IfOk result (λ objects. map members_in objects.items
        ≡ spec.controllers_below document.now (length document.now.controllers)) }
{
    let mut objects = Vec::new(alloc);
    for controller in 0..document.controllers.as_slice().len() {
        let members = controller_members(alloc, document, controller)?;
        add(&mut objects, members)?;
    }
    Ok(objects)
}

/// Adds the object of these members.
fn add<'a>(objects: &mut Vec<Object<'a>>, members: Vec<Member<'a>>) -> Result<(), NoMemory>
    ensures { OnOk result (map members_in objects.new.items
        ≡ map members_in objects.old.items ++ map named members.entry.items ∷ []) }
{
    objects.push(Object { members })?;
    Ok(())
}

fn controller_members<'a>(
    alloc: Global,
    document: &'a Document,
    controller: usize,
) -> Result<Vec<Member<'a>>, NoMemory>
    requires lawful { IsLawfulDoc (doc_of document.now) }
    requires named { IsWellNamed document.now.names (doc_of document.now) }
    requires controller { controller < length document.now.controllers }
    ensures { IfOk result (λ members. map named members.items ≡ spec.members_at document.now controller) }
{
    let name = document.controllers.as_slice()[controller].name;
    margin_members(
        alloc,
        name_of(&document.names, name),
        controller_margin(document, controller),
    )
}

/// The reply for which no lease is enough, if there is one.
pub(crate) fn late_in<'a>(alloc: Global, document: &'a Document) -> Result<What<'a>, NoMemory>
    requires lawful { IsLawfulDoc (doc_of document.now) }
    requires named { IsWellNamed document.now.names (doc_of document.now) }
    ensures { IfOk result (λ what. what_of what ≡ spec.late_data document.now (late_reply (doc_of document.now))) }
{
    match late_reply(document) {
        None => Ok(What::Value(Value::Nothing)),
        Some(late) => {
            let name = document.controllers.as_slice()[late.who.0 as usize].name;
            let members = late_members(alloc, late, name_of(&document.names, name))?;
            Ok(What::Object(Object { members }))
        }
    }
}

fn late_members<'a>(alloc: Global, late: Late, name: &'a [u8]) -> Result<Vec<Member<'a>>, NoMemory>
    ensures { IfOk result (λ members. map named members.items ≡ spec.late_members late name.now) }
{
    let members = vec![in alloc;
        Member::number(b"event", late.place as u64),
        Member::number(b"beat", u64::from(late.beat.0)),
        Member::text(b"name", name),
    ]?;
    Ok(members)
}

/// The members of a controller of this name.
fn margin_members<'a>(
    alloc: Global,
    name: &'a [u8],
    margin: Margin,
) -> Result<Vec<Member<'a>>, NoMemory>
    ensures { IfOk result (λ members. map named members.items ≡ spec.margin_members name.now margin) }
{
    let members = vec![in alloc;
        Member::text(b"name", name),
        member(b"leaseMillis", Value::Large(margin.lease)),
        member(b"mustExceedMillis", Value::Large(margin.must_exceed)),
        member(b"slackMillis", slack(margin.lease, margin.must_exceed)),
        member(b"leastLeaseSeconds", seconds(margin.least_seconds)),
        member(b"longestStallMillis", stall(margin.longest_stall)),
    ]?;
    Ok(members)
}

/// A member of this name and value.
pub fn member<'a>(name: &'a [u8], value: Value<'a>) -> Member<'a>
    ensures { named result ≡ (name.now, data_of value.entry) }
{
    Member { name, value }
}

/// The lease less what it must exceed.
pub fn slack<'a>(lease: u128, must_exceed: u128) -> Value<'a>
    ensures { data_of result ≡ spec.slack lease must_exceed }
{
    if must_exceed <= lease {
        Value::Large(lease - must_exceed)
    } else {
        Value::Below(must_exceed - lease)
    }
}

/// A number of seconds, if there is one.
pub fn seconds<'a>(seconds: Option<u32>) -> Value<'a>
    ensures { data_of result ≡ spec.number_if seconds }
{
    match seconds {
        Some(seconds) => Value::Number(u64::from(seconds)),
        None => Value::Nothing,
    }
}

/// A number of milliseconds, if there is one.
pub fn stall<'a>(millis: Option<u128>) -> Value<'a>
    ensures { data_of result ≡ spec.number_if millis }
{
    match millis {
        Some(millis) => Value::Large(millis),
        None => Value::Nothing,
    }
}
