// The answer to a document, in lines.
ghost use Rattle.std.specs.Prelude.{◌≡◌, ◌++◌, ◌<◌, IfOk, OnOk, codes, length, slice_get};
ghost use Rattle.run_edge.specs.Outcome.{reply_of};
ghost use Rattle.lens_bounds.specs.Outages.{IsOutage};
ghost use Rattle.script_reader.specs.Documents.{doc_of};
ghost use Rattle.script_reader.specs.Lawful.{IsLawfulDoc, IsWellNamed};
ghost use Rattle.script_reader.specs.Walk.{document_walk};
ghost use Rattle.trace_writer.specs.Names.{text_of};
ghost use Rattle.lens_calm.specs.Documents as spec;

use crate::lines::{add_delay, add_election, add_gone, add_tainted, add_unknown, stays_line};
use crate::tolerated::times_of;
use document_laws::documents_are_lawful;
use kube_base::NoMemory;
use kube_objects::Proc;
use lens_bounds::{
    Calm, Outage, calm_of, election_of, outage_of, stays, until_gone, until_tainted, until_unknown,
};
use lens_room::verdict_by;
use manifest_json::ReadFault;
use run_edge::{Answer, refuse_as};
use script_reader::{Document, lease_premise, read_document};
use std::alloc::Global;
use trace_writer::{add, name_of};

/// For each controller of the document that these bytes are how long nobody leads after its crash or stop, how long it acts on if it is cut
/// off, and by when somebody leads once the network is well; when a node whose kubelet dies is marked and tainted, and its pods are gone: at
/// least and at most, over all calm spans with its settings, clocks and delays. Or its refusal.
pub fn bounds_in(alloc: Global, input: &[u8]) -> Result<Answer, NoMemory>
    ensures { IfOk result (λ answer. reply_of answer ≡ spec.found (document_walk input.now)) }
{
    documents_are_lawful();
    match read_document(alloc, input) {
        Ok(document) => bounds_of(alloc, &document),
        Err(ReadFault::Refused(refusal)) => refuse_as(alloc, &refusal),
        Err(ReadFault::NoMemory) => Err(NoMemory),
    }
}

fn bounds_of(alloc: Global, document: &Document) -> Result<Answer, NoMemory>
    requires lawful { IsLawfulDoc (doc_of document.now) }
    requires named { IsWellNamed document.now.names (doc_of document.now) }
    ensures { IfOk result (λ answer. reply_of answer ≡ spec.bounds document.now) }
{
    let stays = stays_in(document);
    let mut text = Vec::new(alloc);
    add_bounds(&mut text, alloc, document, lease_premise(document), stays)?;
    Ok(Answer {
        verdict: verdict_by(stays),
        text,
    })
}

/// Whether a leader stays, whichever controller leads.
pub(crate) fn stays_in(document: &Document) -> bool
    requires { IsLawfulDoc (doc_of document.now) }
    ensures { result ≡ spec.stays_in document.now }
{
    stays(calm_of(document), document.controllers.as_slice())
}

#[tactic(auto, unfolding(crate::specs::Documents::bounds_text))]
fn add_bounds(
    text: &mut Vec<u8>,
    alloc: Global,
    document: &Document,
    safe: bool,
    stays: bool,
) -> Result<(), NoMemory>
    requires lawful { IsLawfulDoc (doc_of document.now) }
    requires named { IsWellNamed document.now.names (doc_of document.now) }
    requires stays { stays ≡ spec.stays_in document.now }
    ensures { OnOk result (text.new.items ≡ text.old.items ++ spec.bounds_text document.now safe) }
{
    let times = times_of(alloc, document)?;
    add_spread(text, calm_of(document))?;
    add_leaders(text, alloc, document, safe)?;
    add_nodes(text, outage_of(document), &times)?;
    add(text, stays_line(stays))
}

#[tactic(auto, unfolding(crate::specs::Documents::spread_text))]
fn add_spread(text: &mut Vec<u8>, c: Calm) -> Result<(), NoMemory>
    ensures { OnOk result (text.new.items ≡ text.old.items ++ spec.spread_text c) }
{
    let beat = u64::from(c.beat_millis);
    add_delay(text, u64::from(c.near) * beat, u64::from(c.far) * beat)?;
    add(text, b"\n")
}

fn add_leaders(
    text: &mut Vec<u8>,
    alloc: Global,
    document: &Document,
    safe: bool,
) -> Result<(), NoMemory>
    requires lawful { IsLawfulDoc (doc_of document.now) }
    requires named { IsWellNamed document.now.names (doc_of document.now) }
    ensures { OnOk result (text.new.items ≡ text.old.items ++ spec.leaders_below document.now safe (length document.now.controllers)) }
{
    for place in 0..document.controllers.as_slice().len() {
        add_leader(text, alloc, document, safe, place)?;
    }
    Ok(())
}

fn add_leader(
    text: &mut Vec<u8>,
    alloc: Global,
    document: &Document,
    safe: bool,
    place: usize,
) -> Result<(), NoMemory>
    requires lawful { IsLawfulDoc (doc_of document.now) }
    requires named { IsWellNamed document.now.names (doc_of document.now) }
    requires place { place < length document.now.controllers }
    ensures { OnOk result (text.new.items ≡ text.old.items ++ spec.leader_by document.now safe place (slice_get document.now.controllers place)) }
{
    let leader = document.controllers.as_slice()[place];
    let prefix = prefix(alloc, name_of(&document.names, leader.name))?;
    add_lines(text, document, safe, place, leader, &prefix)
}

/// A name and a space.
fn prefix(alloc: Global, name: &[u8]) -> Result<Vec<u8>, NoMemory>
    ensures { IfOk result (λ prefix. prefix.items ≡ name.now ++ codes " ") }
{
    let mut prefix = Vec::new(alloc);
    add(&mut prefix, name)?;
    add(&mut prefix, b" ")?;
    Ok(prefix)
}

#[tactic(auto, unfolding(crate::specs::Documents::leader_text))]
fn add_lines(
    text: &mut Vec<u8>,
    document: &Document,
    safe: bool,
    place: usize,
    leader: Proc,
    prefix: &[u8],
) -> Result<(), NoMemory>
    requires lawful { IsLawfulDoc (doc_of document.now) }
    requires prefix { prefix.now ≡ text_of document.now.names leader.name ++ codes " " }
    ensures { OnOk result (text.new.items ≡ text.old.items ++ spec.leader_text document.now safe place leader) }
{
    let controllers = document.controllers.as_slice();
    let election = election_of(calm_of(document), place, leader, controllers);
    add_election(text, prefix, safe, election)
}

#[tactic(auto, unfolding(crate::specs::Documents::nodes_text))]
fn add_nodes(text: &mut Vec<u8>, o: Outage, times: &[u64]) -> Result<(), NoMemory>
    requires { IsOutage o }
    ensures { OnOk result (text.new.items ≡ text.old.items ++ spec.nodes_text o times.now) }
{
    add_unknown(text, until_unknown(o))?;
    add_tainted(text, 0, until_tainted(o))?;
    add_times(text, o, times)
}

fn add_times(text: &mut Vec<u8>, o: Outage, times: &[u64]) -> Result<(), NoMemory>
    requires { IsOutage o }
    ensures { OnOk result (text.new.items ≡ text.old.items ++ spec.gone_lines o times.now) }
{
    for seconds in times {
        add_gone(text, *seconds, until_gone(o, *seconds))?;
    }
    Ok(())
}
