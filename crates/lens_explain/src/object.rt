// The JSON on a document.
ghost use Rattle.std.specs.Prelude.{◌≡◌, ◌++◌, List, IfOk, OnOk, codes, map};
ghost use Rattle.serde_json.specs.Data.{boolean};
ghost use Rattle.lens_json.specs.Members.{data_of, named, nat};
ghost use Rattle.lens_json.specs.Parts.{members_in, part_of};
ghost use Rattle.lens_explain.specs.declared.twice.Warning.{Warning};
ghost use Rattle.lens_explain.specs.Json as spec;
ghost use Rattle.lens_explain.specs.Slips as slip_spec;
ghost use Rattle.lens_explain.specs.Slips.{slip_of};

use crate::place::Shown;
use crate::slips::{Slip, is_unheard};
use crate::twice::Warning;
use kube_base::NoMemory;
use lens_json::{Member, Object, Part, Value, What, add_object, add_parts};
use manifest_json::Refusal;
use script_reader::Document;
use std::alloc::Global;
use trace_writer::add;

/// Adds the object of a refusal.
#[tactic(auto, unfolding(crate::specs::Json::refused_json))]
pub(crate) fn add_refused(
    text: &mut Vec<u8>,
    alloc: Global,
    refusal: &Refusal,
    shown: Shown<'_>,
    more: &[u8],
) -> Result<(), NoMemory>
    ensures { OnOk result (text.new.items ≡ text.old.items ++ spec.refused_json refusal.now shown.entry more.now) }
{
    let members = refused_members(alloc, refusal, shown, more)?;
    add_object(text, &members)?;
    add(text, b"\n")
}

fn refused_members<'a>(
    alloc: Global,
    refusal: &'a Refusal,
    shown: Shown<'a>,
    more: &'a [u8],
) -> Result<Vec<Member<'a>>, NoMemory>
    ensures { IfOk result (λ members. map named members.items ≡ spec.refused_members refusal.now shown.entry more.now) }
{
    let members = vec![in alloc;
        Member {
            name: b"wellFormed",
            value: Value::Truth(false),
        },
        Member::number(b"code", u64::from(refusal.code)),
        Member::text(b"path", refusal.path.as_slice()),
        Member::number(b"line", shown.line),
        Member::number(b"column", shown.column),
        Member::text(b"found", shown.text),
        Member::text(b"why", more),
    ]?;
    Ok(members)
}

/// Adds the object of a document that is well formed.
#[tactic(auto, unfolding(crate::specs::Json::formed_json))]
pub(crate) fn add_formed<'a>(
    text: &mut Vec<u8>,
    alloc: Global,
    document: &Document,
    found: &[Warning<'a>],
    slips: &'a [Slip],
) -> Result<(), NoMemory>
    requires { map slip_of slips.now ≡ slip_spec.slips document.now }
    ensures { OnOk result (text.new.items ≡ text.old.items ++ spec.formed_json document.now found.now) }
{
    let warnings = warnings_in(alloc, found)?;
    let units = units_in(alloc, slips)?;
    add_parts(text, &parts(document, warnings, units))?;
    add(text, b"\n")
}

/// The members of that object.
fn parts<'a>(
    document: &Document,
    warnings: Vec<Object<'a>>,
    units: Vec<Object<'a>>,
) -> [Part<'a>; 9]
    ensures { (ws : List Warning) → map members_in warnings.entry.items ≡ map spec.warning_members ws
        → map members_in units.entry.items ≡ map spec.slip_members (slip_spec.slips document.now)
        → map part_of result ≡ spec.formed_members document.now ws }
{
    [
        part(b"wellFormed", Value::Truth(true)),
        count(b"controllers", document.controllers.as_slice().len() as u64),
        count(b"kubelets", document.kubelets.as_slice().len() as u64),
        count(b"objects", document.objects.items.as_slice().len() as u64),
        count(b"skipped", document.objects.skipped),
        count(b"events", document.events.as_slice().len() as u64),
        Part {
            name: b"warnings",
            what: What::List(warnings),
        },
        Part {
            name: b"units",
            what: What::List(units),
        },
        unheard_part(document),
    ]
}

fn part<'a>(name: &'a [u8], value: Value<'a>) -> Part<'a>
    ensures { part_of result ≡ (name.now, data_of value.entry) }
{
    Part {
        name,
        what: What::Value(value),
    }
}

fn unheard_part<'a>(document: &Document) -> Part<'a>
    ensures { part_of result ≡ (codes "noKubelets", boolean (slip_spec.is_unheard document.now)) }
{
    part(b"noKubelets", Value::Truth(is_unheard(document)))
}

fn count(name: &[u8], count: u64) -> Part<'_>
    ensures { part_of result ≡ nat name.now count }
{
    part(name, Value::Number(count))
}

/// The objects of some warnings.
fn warnings_in<'a>(alloc: Global, found: &[Warning<'a>]) -> Result<Vec<Object<'a>>, NoMemory>
    ensures { IfOk result (λ objects. map members_in objects.items ≡ map spec.warning_members found.now) }
{
    let mut objects = Vec::new(alloc);
    for warning in found {
        let members = warning_members(alloc, warning)?;
        objects.push(Object { members })?;
    }
    Ok(objects)
}

fn warning_members<'a>(alloc: Global, warning: &Warning<'a>) -> Result<Vec<Member<'a>>, NoMemory>
    ensures { IfOk result (λ members. map named members.items ≡ spec.warning_members warning.now) }
{
    let members = vec![in alloc;
        Member::number(b"line", warning.first.line),
        Member::number(b"column", warning.first.column),
        Member::text(b"found", warning.first.text),
        Member::number(b"againLine", warning.again.line),
        Member::number(b"againColumn", warning.again.column),
        Member::text(b"againFound", warning.again.text),
    ]?;
    Ok(members)
}

/// The objects of some values that look as if they were meant in another unit.
fn units_in<'a>(alloc: Global, slips: &'a [Slip]) -> Result<Vec<Object<'a>>, NoMemory>
    ensures { IfOk result (λ objects. map members_in objects.items ≡ map spec.slip_members (map slip_of slips.now)) }
{
    let mut objects = Vec::new(alloc);
    for slip in slips {
        let members = slip_members(alloc, slip)?;
        objects.push(Object { members })?;
    }
    Ok(objects)
}

fn slip_members<'a>(alloc: Global, slip: &'a Slip) -> Result<Vec<Member<'a>>, NoMemory>
    ensures { IfOk result (λ members. map named members.items ≡ spec.slip_members (slip_of slip.now)) }
{
    let members = vec![in alloc;
        Member::text(b"path", &slip.path),
        Member::number(b"value", u64::from(slip.value)),
        Member::number(b"likely", slip.likely),
    ]?;
    Ok(members)
}
