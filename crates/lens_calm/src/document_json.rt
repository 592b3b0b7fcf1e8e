// The answer to a document, as JSON.
ghost use Rattle.std.specs.Prelude.{◌≡◌, ◌++◌, ◌<◌, ◌∷◌, [], IfOk, OnOk, length, map, slice_get};
ghost use Rattle.run_edge.specs.Outcome.{reply_of};
ghost use Rattle.lens_bounds.specs.Outages.{IsOutage};
ghost use Rattle.lens_json.specs.Members.{named};
ghost use Rattle.lens_json.specs.Parts.{members_in, part_of};
ghost use Rattle.script_reader.specs.Documents.{doc_of};
ghost use Rattle.script_reader.specs.Lawful.{IsLawfulDoc, IsWellNamed};
ghost use Rattle.script_reader.specs.Walk.{document_walk};
ghost use Rattle.lens_calm.specs.Documents as spec;

use crate::document::stays_in;
use crate::objects::{
    add_all, add_part, end_parts, gone_members, leader_members, node_parts, part,
};
use crate::tolerated::times_of;
use document_laws::documents_are_lawful;
use kube_base::NoMemory;
use lens_bounds::{
    Calm, Outage, calm_of, election_of, outage_of, until_gone, until_tainted, until_unknown,
};
use lens_json::{Member, Object, Part, Value, What, add_parts};
use lens_room::verdict_by;
use manifest_json::ReadFault;
use run_edge::{Answer, refuse_as};
use script_reader::{Document, lease_premise, read_document};
use std::alloc::Global;
use trace_writer::{add, name_of};

/// The same as one JSON object.
pub fn json_in(alloc: Global, input: &[u8]) -> Result<Answer, NoMemory>
    ensures { IfOk result (λ answer. reply_of answer ≡ spec.found_json (document_walk input.now)) }
{
    documents_are_lawful();
    match read_document(alloc, input) {
        Ok(document) => json_of(alloc, &document),
        Err(ReadFault::Refused(refusal)) => refuse_as(alloc, &refusal),
        Err(ReadFault::NoMemory) => Err(NoMemory),
    }
}

#[tactic(auto, unfolding(crate::specs::Documents::document_json))]
fn json_of(alloc: Global, document: &Document) -> Result<Answer, NoMemory>
    requires lawful { IsLawfulDoc (doc_of document.now) }
    requires named { IsWellNamed document.now.names (doc_of document.now) }
    ensures { IfOk result (λ answer. reply_of answer ≡ spec.bounds_json document.now) }
{
    let stays = stays_in(document);
    let parts = parts(alloc, document, lease_premise(document), stays)?;
    let mut text = Vec::new(alloc);
    add_parts(&mut text, &parts)?;
    add(&mut text, b"\n")?;
    Ok(Answer {
        verdict: verdict_by(stays),
        text,
    })
}

fn parts<'a>(
    alloc: Global,
    document: &'a Document,
    safe: bool,
    stays: bool,
) -> Result<Vec<Part<'a>>, NoMemory>
    requires lawful { IsLawfulDoc (doc_of document.now) }
    requires named { IsWellNamed document.now.names (doc_of document.now) }
    requires stays { stays ≡ spec.stays_in document.now }
    ensures { IfOk result (λ parts. map part_of parts.items ≡ spec.document_members document.now safe) }
{
    let times = times_of(alloc, document)?;
    let mut parts = spread_parts(alloc, calm_of(document))?;
    add_leaders(&mut parts, alloc, document)?;
    add_nodes(&mut parts, alloc, outage_of(document), &times)?;
    add_all(&mut parts, end_parts(alloc, stays, safe)?)?;
    Ok(parts)
}

#[tactic(auto, unfolding(crate::specs::Documents::spread_members))]
fn spread_parts<'a>(alloc: Global, c: Calm) -> Result<Vec<Part<'a>>, NoMemory>
    ensures { IfOk result (λ parts. map part_of parts.items ≡ spec.spread_members c) }
{
    let beat = u64::from(c.beat_millis);
    let parts = vec![in alloc;
        part(b"beatMillis", Value::Number(beat)),
        part(b"leastDelayMillis", Value::Number(u64::from(c.near) * beat)),
        part(b"delayMillis", Value::Number(u64::from(c.far) * beat)),
    ]?;
    Ok(parts)
}

#[tactic(auto, unfolding(crate::specs::Documents::leaders_members))]
fn add_leaders<'a>(
    parts: &mut Vec<Part<'a>>,
    alloc: Global,
    document: &'a Document,
) -> Result<(), NoMemory>
    requires lawful { IsLawfulDoc (doc_of document.now) }
    requires named { IsWellNamed document.now.names (doc_of document.now) }
    ensures { OnOk result (map part_of parts.new.items ≡ map part_of parts.old.items ++ spec.leaders_members document.now) }
{
    let leaders = leaders_in(alloc, document)?;
    add_part(parts, b"controllers", What::List(leaders))
}

#[tactic(auto, unfolding(crate::specs::Documents::nodes_members))]
fn add_nodes<'a>(
    parts: &mut Vec<Part<'a>>,
    alloc: Global,
    o: Outage,
    times: &[u64],
) -> Result<(), NoMemory>
    requires { IsOutage o }
    ensures { OnOk result (map part_of parts.new.items ≡ map part_of parts.old.items ++ spec.nodes_members o times.now) }
{
    let gone = gone_objects(alloc, o, times)?;
    let nodes = node_parts(alloc, 0, until_unknown(o), until_tainted(o))?;
    add_all(parts, nodes)?;
    add_part(parts, b"gone", What::List(gone))
}

/// Adds the object of these members.
fn add_object<'a>(objects: &mut Vec<Object<'a>>, members: Vec<Member<'a>>) -> Result<(), NoMemory>
    ensures { OnOk result (map members_in objects.new.items
        ≡ map members_in objects.old.items ++ map named members.entry.items ∷ []) }
{
    objects.push(Object { members })?;
    Ok(())
}

fn gone_objects<'a>(alloc: Global, o: Outage, times: &[u64]) -> Result<Vec<Object<'a>>, NoMemory>
    requires { IsOutage o }
    ensures { IfOk result (λ objects. map members_in objects.items ≡ spec.gone_objects o times.now) }
{
    let mut objects = Vec::new(alloc);
    for seconds in times {
        let members = gone_members(alloc, *seconds, until_gone(o, *seconds))?;
        add_object(&mut objects, members)?;
    }
    Ok(objects)
}

fn leaders_in<'a>(alloc: Global, document: &'a Document) -> Result<Vec<Object<'a>>, NoMemory>
    requires lawful { IsLawfulDoc (doc_of document.now) }
    requires named { IsWellNamed document.now.names (doc_of document.now) }
    ensures { IfOk result (λ objects. map members_in objects.items ≡ spec.members_below document.now (length document.now.controllers)) }
{
    let mut objects = Vec::new(alloc);
    for place in 0..document.controllers.as_slice().len() {
        let members = members_at(alloc, document, place)?;
        add_object(&mut objects, members)?;
    }
    Ok(objects)
}

fn members_at<'a>(
    alloc: Global,
    document: &'a Document,
    place: usize,
) -> Result<Vec<Member<'a>>, NoMemory>
    requires lawful { IsLawfulDoc (doc_of document.now) }
    requires named { IsWellNamed document.now.names (doc_of document.now) }
    requires place { place < length document.now.controllers }
    ensures { IfOk result (λ members. map named members.items ∷ [] ≡ spec.members_by document.now place (slice_get document.now.controllers place)) }
{
    let controllers = document.controllers.as_slice();
    let leader = controllers[place];
    let election = election_of(calm_of(document), place, leader, controllers);
    leader_members(alloc, name_of(&document.names, leader.name), election)
}
