// The line on a document that was read.
ghost use Rattle.std.specs.Prelude.{◌≡◌, ◌++◌, OnOk, decimal, length};
ghost use Rattle.script_reader.specs.Documents.{doc_of};
ghost use Rattle.script_reader.specs.Lawful.{IsLawfulDoc};
ghost use Rattle.replay_top.specs.Summary.{count_of as how_many, objects_text, processes_text, events_text, summary};

use kube_base::NoMemory;
use kube_objects::{Key, Kind, Object, Procs};
use manifest_json::Objects;
use script_reader::{Document, lease_premise};
use trace_writer::{add, add_number, premise_end};

/// Adds the line: how many processes, objects, skipped items and events the document has, and whether its lease premise
/// holds.
#[tactic(auto, unfolding(crate::specs::Summary::summary))]
pub(crate) fn add_summary(text: &mut Vec<u8>, document: &Document) -> Result<(), NoMemory>
    requires { IsLawfulDoc (doc_of document.now) }
    ensures { OnOk result (text.new.items ≡ text.old.items ++ summary document.now) }
{
    add(text, b"ok ")?;
    add_processes(text, document)?;
    add_objects(text, &document.objects)?;
    add_events(text, document)?;
    add(text, premise_end(lease_premise(document)))
}

#[tactic(auto, unfolding(crate::specs::Summary::processes_text))]
fn add_processes(text: &mut Vec<u8>, document: &Document) -> Result<(), NoMemory>
    ensures { OnOk result (text.new.items ≡ text.old.items ++ processes_text (doc_of document.now)) }
{
    add_length(text, b"controllers=", &document.controllers)?;
    add_length(text, b" kubelets=", &document.kubelets)?;
    Ok(())
}

fn add_length(text: &mut Vec<u8>, label: &[u8], processes: &Procs) -> Result<(), NoMemory>
    ensures { OnOk result (text.new.items ≡ text.old.items ++ (label.now ++ decimal (length processes.now))) }
{
    add_count(text, label, processes.as_slice().len())
}

#[tactic(auto, unfolding(crate::specs::Summary::events_text))]
fn add_events(text: &mut Vec<u8>, document: &Document) -> Result<(), NoMemory>
    ensures { OnOk result (text.new.items ≡ text.old.items ++ events_text (doc_of document.now)) }
{
    add_count(text, b" events=", document.events.as_slice().len())
}

#[tactic(auto, unfolding(crate::specs::Summary::objects_text))]
fn add_objects(text: &mut Vec<u8>, objects: &Objects) -> Result<(), NoMemory>
    ensures { OnOk result (text.new.items ≡ text.old.items ++ objects_text objects.now) }
{
    let items = objects.items.as_slice();
    add_count(text, b" nodes=", count_of(items, Kind::Node))?;
    add_count(text, b" leases=", count_of(items, Kind::Lease))?;
    add_count(text, b" pods=", count_of(items, Kind::Pod))?;
    add(text, b" skipped=")?;
    add_number(text, objects.skipped)
}

fn add_count(text: &mut Vec<u8>, label: &[u8], count: usize) -> Result<(), NoMemory>
    ensures { OnOk result (text.new.items ≡ text.old.items ++ (label.now ++ decimal count)) }
{
    add(text, label)?;
    add_number(text, count as u64)
}

/// How many objects are of a kind.
#[tactic(auto, unfolding(crate::specs::Summary::count_of))]
fn count_of(items: &[(Key, Object)], kind: Kind) -> usize
    ensures { result ≡ how_many kind items.now }
{
    items.iter().filter(|item| item.0.kind == kind).count()
}
