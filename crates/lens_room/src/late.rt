// The reply that may come too late, as where it is lost.
ghost use Rattle.std.specs.Prelude.{◌≡◌, ◌++◌, ◌<◌, IfSome, OnOk, is_none, length};
ghost use Rattle.history.specs.Premise.{answers_come};
ghost use Rattle.kube_objects.specs.Document.{Doc};
ghost use Rattle.script_reader.specs.Documents.{doc_of};
ghost use Rattle.script_reader.specs.Lawful.{IsLawfulDoc, IsWellNamed};
ghost use Rattle.lens_room.specs.Late as spec;

use kube_base::{Beat, NoMemory, ProcId};
use kube_objects::{Event, ReleaseActing, What};
use script_reader::Document;
use trace_writer::{add, add_number, name_of};

/// An event by which a reply to a controller may come later than a takeover takes, or not at all.
#[derive(Clone, Copy)]
pub struct Late {
    /// Its place among the events.
    pub place: usize,
    pub beat: Beat,
    /// The controller.
    pub who: ProcId,
}

/// The first such event, if leaders act in their releases. Takes no memory.
pub fn late_reply(document: &Document) -> Option<Late>
    ensures is { result ≡ spec.late_reply (doc_of document.now) }
    ensures controller { IfSome result (λ late. late.who.0 < length document.now.controllers) }

    // There is one exactly where the lease premise asks in vain that answers come.
    ensures law { answers_come document.now.settings.rules.in_release (doc_of document.now) ≡ is_none result }
{
    match document.settings.rules.in_release {
        ReleaseActing::Still => None,
        ReleaseActing::Acts => first_late(
            document.events.as_slice(),
            document.controllers.as_slice().len(),
        ),
    }
}

fn first_late(events: &[Event], controllers: usize) -> Option<Late>
    ensures is { (doc : Doc) → length doc.controllers ≡ controllers → result ≡ spec.first_late doc 0 events.now }
    ensures controller { IfSome result (λ late. late.who.0 < controllers) }
{
    for (place, event) in events.iter().enumerate() {
        if let Some(late) = late_in(place, event, controllers) {
            return Some(late);
        }
    }
    None
}

// What an event of a place delays, if it is a controller's.
fn late_in(place: usize, event: &Event, controllers: usize) -> Option<Late>
    ensures is { (doc : Doc) → length doc.controllers ≡ controllers → result ≡ spec.late_in doc place event.now.beat event.now.what }
    ensures controller { IfSome result (λ late. late.who.0 < controllers) }
{
    match &event.what {
        What::Loss(who, _, replies) => if *replies {
            late_of(place, event.beat, *who, controllers)
        } else {
            None
        },
        What::Delay(who, _, replies) => if *replies > 3 {
            late_of(place, event.beat, *who, controllers)
        } else {
            None
        },
        _ => None,
    }
}

fn late_of(place: usize, beat: Beat, who: ProcId, controllers: usize) -> Option<Late>
    ensures is { (doc : Doc) → length doc.controllers ≡ controllers → result ≡ spec.late_of doc place beat who }
    ensures controller { IfSome result (λ late. late.who.0 < controllers) }
{
    if (who.0 as usize) < controllers {
        Some(Late { place, beat, who })
    } else {
        None
    }
}

/// Adds the line that says why no lease is enough, if none is.
pub(crate) fn add_late(text: &mut Vec<u8>, document: &Document) -> Result<(), NoMemory>
    requires lawful { IsLawfulDoc (doc_of document.now) }
    requires named { IsWellNamed document.now.names (doc_of document.now) }
    ensures { OnOk result (text.new.items ≡ text.old.items ++ spec.late_text document.now) }
{
    match late_reply(document) {
        None => Ok(()),
        Some(late) => {
            let name = document.controllers.as_slice()[late.who.0 as usize].name;
            add_line(text, late, name_of(&document.names, name))
        }
    }
}

#[tactic(auto, unfolding(crate::specs::Late::line_text))]
fn add_line(text: &mut Vec<u8>, late: Late, name: &[u8]) -> Result<(), NoMemory>
    ensures { OnOk result (text.new.items ≡ text.old.items ++ spec.line_text late name.now) }
{
    add_place(text, late)?;
    add_why(text, name)
}

#[tactic(auto, unfolding(crate::specs::Late::place_text))]
fn add_place(text: &mut Vec<u8>, late: Late) -> Result<(), NoMemory>
    ensures { OnOk result (text.new.items ≡ text.old.items ++ spec.place_text late) }
{
    add(text, b"late-reply=/events/")?;
    add_number(text, late.place as u64)?;
    add(text, b" beat=")?;
    add_number(text, u64::from(late.beat.0))?;
    add(text, b" controller=")
}

#[tactic(auto, unfolding(crate::specs::Late::why_text))]
fn add_why(text: &mut Vec<u8>, name: &[u8]) -> Result<(), NoMemory>
    ensures { OnOk result (text.new.items ≡ text.old.items ++ spec.why_text name.now) }
{
    add(text, name)?;
    add(text, b": no lease is enough, since ")?;
    add(text, name)?;
    add(text, b" acts in its release until it has the answer\n")
}
