// A world is made of a document.
ghost use Rattle.std.specs.Prelude.{◌≡◌, ◌+◌, ◌≤◌, [], length, All, IfOk};
ghost use Rattle.kube_objects.specs.Document.{Doc, processes};
ghost use Rattle.kube_objects.specs.Kinds.{IsOfKind};
ghost use Rattle.object_store.specs.Stands.{StoreStands};
ghost use Rattle.history.specs.History.{history, put_all};
ghost use Rattle.history.specs.Sound.{AreApart};
ghost use Rattle.script_reader.specs.Documents.{doc_of};
ghost use Rattle.script_reader.specs.Lawful.{AreLawful, AreWaits, IsLawful, IsLawfulDoc};
ghost use Rattle.world_process.specs.Clocked.{AreEventsFrom};
ghost use Rattle.world_core.specs.Worlds.{at_of, end_of, names_of, GoOnTo, IsReady, AreKept, AreMadeOf, AreNoted, EachStands, WorldStands};

use crate::world::World;
use beat_tree::BeatTree;
use controller_core::picoseconds;
use kube_base::{Beat, NoMemory, ProcId, Wall};
use kube_objects::{Event, Items, Procs, Settings, WaitLists};
use object_store::Store;
use pause_times::Stalls;
use script_reader::Document;
use std::alloc::Global;
use wire_calls::Wire;
use world_process::{Controller, InForce, Kubelet, Process, waits_at};

impl World {
    /// The world of a document before beat 0, with the document's objects in its store.
    pub fn new(alloc: Global, document: Document) -> Result<World, NoMemory>
        requires lawful { IsLawfulDoc (doc_of document) }
        ensures ready { IfOk result (λ w. IsReady w × (at_of w ≡ 0) × (end_of w ≡ document.settings.end_beat.0)) }
        ensures names { IfOk result (λ w. names_of w ≡ document.names) }
        ensures stands { IfOk result (WorldStands (doc_of document) 0 (history (doc_of document) 0)) }
    {
        let settings = document.settings;
        let processes = processes_of(
            alloc,
            &settings,
            &document.controllers,
            &document.kubelets,
            &document.waits,
            document.events.as_slice(),
        )?;
        let controllers = document.controllers.as_slice().len();
        let turn_beats = turn_beats_of(alloc, processes.as_slice())?;
        let in_force = InForce::new(alloc, &document.controllers, &document.kubelets)?;
        let wire = Wire::new(alloc, processes.len() as u32)?;
        let store = store_of(alloc, &document.objects.items, settings.epoch)?;
        let stalls = Stalls::of(alloc, document.events.as_slice())?;
        Ok(World {
            alloc,
            beat: Beat(0),
            end: settings.end_beat,
            restart: picoseconds(settings.restart_millis),
            epoch: settings.epoch,
            micros: settings.beat_millis * 1000,
            store,
            wire,
            processes,
            controllers,
            turn_beats,
            in_force,
            place: 0,
            events: document.events,
            names: document.names,
            stalls,
        })
    }
}

// The processes of a document, in order.
fn processes_of(
    alloc: Global,
    settings: &Settings,
    controllers: &Procs,
    kubelets: &Procs,
    waits: &WaitLists,
    events: &[Event],
) -> Result<Vec<Process>, NoMemory>
    requires settings { AreLawful settings.now }
    requires controllers { All IsLawful controllers.now }
    requires kubelets { All IsLawful kubelets.now }
    requires waits { All AreWaits waits.now }
    requires waits_each { length waits.now ≡ length controllers.now }
    requires events { AreEventsFrom settings.now.end_beat.0 0 events.now }
    requires apart { AreApart events.now }
    requires few { (length controllers.now ≤ 16) × (length kubelets.now ≤ 15000) }
    ensures count { IfOk result (λ xs. length xs.items ≡ length controllers.now + length kubelets.now) }
    ensures clocks { IfOk result (λ xs. GoOnTo settings.now.end_beat.0 xs.items) }
    ensures kept { IfOk result (λ xs. AreKept xs.items) }
    ensures stands { (doc : Doc) → AreMadeOf doc settings.now controllers.now kubelets.now waits.now events.now
        → IfOk result (λ xs. EachStands doc [] xs.items) }
{
    let mut processes = Vec::new(alloc);
    for process in controllers.as_slice() {
        let place = processes.len();
        let me = ProcId(place as u32);
        let own = waits_at(waits, place);
        let controller = Controller::new(alloc, me, settings, process, own, events)?;
        let mut made = Process::Controller(controller);
        made.keep_turn_beat();
        processes.push(made)?;
    }
    for process in kubelets.as_slice() {
        let me = ProcId(processes.len() as u32);
        let kubelet = Kubelet::new(alloc, me, settings, process, events)?;
        let mut made = Process::Kubelet(kubelet);
        made.keep_turn_beat();
        processes.push(made)?;
    }
    Ok(processes)
}

// A leaf a process, with the beat of its next turn.
fn turn_beats_of(alloc: Global, processes: &[Process]) -> Result<BeatTree, NoMemory>
    requires { length processes.now ≤ 15016 }
    ensures { IfOk result (AreNoted processes.now) }
{
    let mut turn_beats = BeatTree::new(alloc, processes.len())?;
    for i in 0..processes.len() {
        turn_beats.set(i, processes[i].kept_beat());
    }
    Ok(turn_beats)
}

// The store with a document's objects, put in order.
fn store_of(alloc: Global, items: &Items, epoch: Wall) -> Result<Store, NoMemory>
    requires { All (λ item. IsOfKind item.0 item.1) items.now }
    ensures { (doc : Doc) → doc.settings.epoch ≡ epoch → IfOk result (StoreStands (put_all doc items.now [])) }
{
    let mut store = Store::new(alloc);
    for item in items.as_slice() {
        store.put(item.0, item.1.copy()?, epoch)?;
    }
    Ok(store)
}
