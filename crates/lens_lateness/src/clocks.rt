// The clocks of a document's controllers, and whose clock an identity acts by.
ghost use Rattle.std.specs.Prelude.{◌≡◌, ◌<◌, ◌==◌, length, position, IfOk, IfSome};
ghost use Rattle.kube_objects.specs.Clocks.{store_wall};
ghost use Rattle.script_reader.specs.Documents.{doc_of};
ghost use Rattle.script_reader.specs.Lawful.{AreLawful, IsLawfulDoc};
ghost use Rattle.lens_lateness.specs.Clocks as spec;
ghost use Rattle.lens_lateness.specs.Clocks.{AreClocks};

use kube_base::{Beat, NoMemory, ProcId};
use script_reader::Document;
use skew_clock::Clock;
use std::alloc::Global;
use trace_lines::cut;
use world_process::{Controller, waits_at};

/// The clock of each controller, in the document's order, with the rates that the events set.
pub(crate) fn clocks_of(alloc: Global, document: &Document) -> Result<Vec<Clock>, NoMemory>
    requires { IsLawfulDoc (doc_of document.now) }
    ensures { IfOk result (λ clocks. AreClocks (doc_of document.now) clocks.items) }
{
    let mut clocks = Vec::new(alloc);
    let events = document.events.as_slice();
    for process in document.controllers.as_slice() {
        let place = clocks.len();
        let me = ProcId(place as u32);
        let waits = waits_at(&document.waits, place);
        let controller = Controller::new(alloc, me, &document.settings, process, waits, events)?;
        clocks.push(controller.clock)?;
    }
    Ok(clocks)
}

/// The controller that an identity is of, by its place among the document's.
#[tactic(auto, unfolding(crate::specs::Clocks::controller_of))]
fn controller_of(document: &Document, actor: &[u8]) -> Option<usize>
    ensures place { result ≡ spec.controller_of document.now actor.now }
    ensures within { IfSome result (λ place. place < length document.now.controllers) }
{
    let (name, _) = cut(actor, b'_')?;
    let number = document.names.find(name)?;
    named(document, number)
}

/// The controller whose name has this number, by its place among the document's.
fn named(document: &Document, number: u32) -> Option<usize>
    ensures place { result ≡ position (λ process. process.name == number) document.now.controllers }
    ensures within { IfSome result (λ place. place < length document.now.controllers) }
{
    let controllers = document.controllers.as_slice();
    controllers
        .iter()
        .position(|process| process.name == number)
}

/// The time of day at a beat, in microseconds, on the clock by which an identity acts.
#[tactic(auto, unfolding(crate::specs::Clocks::own_time))]
pub(crate) fn own_time(
    document: &Document,
    clocks: &[Clock],
    actor: &[u8],
    beat: u32,
) -> Option<u64>
    requires { AreClocks (doc_of document.now) clocks.now }
    ensures { result ≡ spec.own_time document.now actor.now beat }
{
    let controller = controller_of(document, actor)?;
    if beat <= document.settings.end_beat.0 {
        Some(clocks[controller].wall(Beat(beat)).0)
    } else {
        None
    }
}

/// The true time of day at a beat, in microseconds.
pub(crate) fn true_time(document: &Document, beat: u32) -> u64
    requires { AreLawful document.now.settings }
    ensures { result ≡ store_wall (doc_of document.now) beat }
{
    let settings = &document.settings;
    settings.epoch.0 + u64::from(beat) * (u64::from(settings.beat_millis) * 1000)
}
