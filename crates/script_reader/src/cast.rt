// Processes by the numbers of their names.
ghost use Rattle.std.specs.Prelude.{◌≡◌, ◌<◌, ◌≤◌, ◌+◌, ◌==◌, ◌++◌, ◌∷◌, [], false, length, position, IfSome, OnOk};
ghost use Rattle.std.specs.Option.{option_map};
ghost use Rattle.script_reader.specs.Cast.{Stands, AreNamed, seen};
ghost use Rattle.manifest_json.specs.Walk as manifests;
ghost use Rattle.script_reader.specs.Walk as walk;

use kube_base::{Names, NoMemory, ProcId};
use kube_objects::{NumberList, Proc, Procs, WaitLists};
use std::alloc::Global;
use std::collections::BTreeMap;

/// Processes in order, with the place of each name's number.
#[derive(Drop)]
pub(crate) struct Named {
    pub(crate) procs: Procs,
    numbers: NumberList,
    places: BTreeMap<u32, u32>,
}

/// The controllers, and the waits of each.
#[derive(Drop)]
pub(crate) struct Team {
    pub(crate) named: Named,
    pub(crate) waits: WaitLists,
}

/// The sorts of processes that an event may name.
#[derive(Clone, Copy, Debug)]
pub(crate) enum Sort {
    Any,
    Controller,
    Kubelet,
}

/// The processes that events may name.
#[derive(Drop)]
pub(crate) struct Players {
    pub(crate) controllers: Named,
    pub(crate) kubelets: Named,
}

impl Named {
    pub(crate) fn new(alloc: Global) -> Named
        ensures procs { result.procs ≡ [] }
        ensures stands { Stands result }
    {
        Named {
            procs: Procs::new(alloc),
            numbers: NumberList::new(alloc),
            places: BTreeMap::new(alloc),
        }
    }

    /// Whether a process has this name.
    pub(crate) fn has(&self, name: u32) -> bool
        requires { Stands self.now }
        ensures { result ≡ walk.has_name name self.now.procs }
    {
        self.places.contains_key(&name)
    }

    /// Adds a process with a new name.
    pub(crate) fn push(&mut self, proc: Proc) -> Result<(), NoMemory>
        requires stands { Stands self.old }
        requires fresh { walk.has_name proc.name self.old.procs ≡ false }
        requires few { length self.old.procs < 15000 }
        ensures procs { OnOk result (self.new.procs ≡ self.old.procs ++ proc ∷ []) }
        ensures stands { OnOk result (Stands self.new) }
    {
        let place = self.procs.as_slice().len() as u32;
        self.places.insert(proc.name, place)?;
        self.numbers.push(proc.name)?;
        self.procs.push(proc)?;
        Ok(())
    }

    /// The place of the process with this name.
    fn place(&self, name: u32) -> Option<u32>
        requires { Stands self.now }
        ensures value { result ≡ position (λ other. name == other) (walk.numbers_of self.now.procs) }
        ensures within { IfSome result (λ place. place < 15000) }
    {
        match self.places.get(&name) {
            Some(place) => Some(*place),
            None => None,
        }
    }

    /// The numbers of the names in order.
    pub(crate) fn known(&self) -> &[u32]
        requires { Stands self.now }
        ensures value { result.now ≡ walk.numbers_of self.now.procs }
        ensures few { length result.now ≤ 15000 }
    {
        self.numbers.as_slice()
    }
}

/// A process by its name: its place among these.
fn process_of(named: &Named, names: &Names, name: &[u8]) -> Option<u32>
    requires { Stands named.now }
    ensures value { result ≡ manifests.process_of names.now (walk.numbers_of named.now.procs) name.now }
    ensures within { IfSome result (λ place. place < 15000) }
{
    let number = names.find(name)?;
    named.place(number)
}

/// A controller by its name.
fn find_controller(players: &Players, names: &Names, text: &str) -> Option<ProcId>
    requires { AreNamed players.now }
    ensures { result ≡ walk.controller_named (seen players.now) names.now text.now }
{
    let place = process_of(&players.controllers, names, text.as_bytes())?;
    Some(ProcId(place))
}

/// A kubelet by `kubelet/` and its node.
fn find_kubelet(players: &Players, names: &Names, text: &str) -> Option<ProcId>
    requires { AreNamed players.now }
    ensures { result ≡ walk.kubelet_named (seen players.now) names.now text.now }
{
    let node = text.as_bytes().strip_prefix(b"kubelet/")?;
    let place = process_of(&players.kubelets, names, node)?;
    let before = players.controllers.known().len() as u32;
    Some(ProcId(before + place))
}

/// A process of this sort by a text.
pub(crate) fn find_process(
    sort: Sort,
    players: &Players,
    names: &Names,
    text: &str,
) -> Option<ProcId>
    requires { AreNamed players.now }
    ensures { result ≡ walk.named_by sort (seen players.now) names.now text.now }
{
    match sort {
        Sort::Any => match find_controller(players, names, text) {
            Some(id) => Some(id),
            None => find_kubelet(players, names, text),
        },
        Sort::Controller => find_controller(players, names, text),
        Sort::Kubelet => find_kubelet(players, names, text),
    }
}
