// The lines of a trace, each at the end of a text.
ghost use Rattle.std.specs.Prelude.{◌≡◌, ◌<◌, ◌≤◌, ◌++◌, OnOk, codes, decimal, length};
ghost use Rattle.kube_base.specs.Times.{last_wall};
ghost use Rattle.kube_objects.specs.Writable.{IsOneOf, IsWritable, IsWritableAct};
ghost use Rattle.trace_writer.specs.Lines as spec;

use crate::texts::{add, add_number, add_time, name_of, process_of};
use crate::writing::FirstLine;
use kube_base::{NOT_READY, Name, Names, NoMemory, Version, Wall};
use kube_objects::{Act, Actor, Answer, Deed, Key, Kind, ReadyStatus, ZoneState};
use std::alloc::Global;

/// Adds the first line of a trace.
#[tactic(auto, unfolding(crate::specs::Lines::first_line))]
pub(crate) fn add_first(
    text: &mut Vec<u8>,
    settings: &FirstLine,
    premise: bool,
) -> Result<(), NoMemory>
    ensures { OnOk result (text.new.items ≡ text.old.items ++ spec.first_line settings.now premise) }
{
    add(text, b"trace 1 beat=")?;
    add_number(text, u64::from(settings.beat_millis))?;
    add(text, b" end=")?;
    add_number(text, u64::from(settings.end.0))?;
    add(text, premise_end(premise))
}

/// The end of a line: whether the lease premise holds.
pub fn premise_end(holds: bool) -> &'static [u8]
    ensures { result.now ≡ spec.premise_text holds }
{
    if holds {
        b" premise=yes\n"
    } else {
        b" premise=no\n"
    }
}

/// Adds the line of a deed. The names are those of its document, and the processes the names of its processes in order.
pub(crate) fn add_deed(
    alloc: Global,
    text: &mut Vec<u8>,
    names: &Names,
    processes: &[Name],
    deed: &Deed,
) -> Result<(), NoMemory>
    requires { IsWritable names.now (length processes.now) deed.now }
    ensures { OnOk result (text.new.items ≡ text.old.items ++ spec.line_of names.now processes.now deed.now) }
{
    add_number(text, u64::from(deed.beat.0))?;
    add(text, b" ")?;
    add_actor(text, processes, deed.actor)?;
    add(text, b" ")?;
    add_act(alloc, text, names, deed.act)?;
    add(text, b"\n")
}

fn add_actor(text: &mut Vec<u8>, processes: &[Name], actor: Actor) -> Result<(), NoMemory>
    requires { IsOneOf (length processes.now) actor }
    ensures { OnOk result (text.new.items ≡ text.old.items ++ spec.actor_text processes.now actor) }
{
    match actor {
        Actor::Script => add(text, b"script"),
        Actor::Proc(process, incarnation) => {
            add(text, process_of(processes, process.0))?;
            add(text, b"_")?;
            add_number(text, u64::from(incarnation))
        }
    }
}

#[tactic(auto, unfolding(crate::specs::Lines::act_text))]
fn add_act(alloc: Global, text: &mut Vec<u8>, names: &Names, act: Act) -> Result<(), NoMemory>
    requires { IsWritableAct names.now act }
    ensures { OnOk result (text.new.items ≡ text.old.items ++ spec.act_text names.now act) }
{
    match act {
        Act::Start => add(text, b"start"),
        Act::Crash => add(text, b"crash"),
        Act::Stop => add(text, b"stop"),
        Act::End => add(text, b"end"),
        Act::Pause(beats) => add_pause(text, beats),
        Act::Stall(beats) => add_stall(text, beats),
        Act::Lead(version) => add_version(text, b"lead v=", version),
        Act::Create(key, answer, changes) => add_lease(
            text, b"create ", names, &key, answer, changes,
        ),
        Act::Update(key, answer, changes) => add_lease(
            text, b"update ", names, &key, answer, changes,
        ),
        Act::Posted(node, status, answer) => add_status(text, names, node, status, answer),
        Act::Put(key, version) => add_key(text, b"put ", names, &key, version),
        Act::Removed(key, version) => add_key(text, b"remove ", names, &key, version),
        Act::Marked(node, reason, answer) => add_mark(text, names, node, reason, answer),
        Act::Mode(on) => add(text, mode_text(on)),
        Act::Zone(region, zone, state, rate) => add_zone(text, names, region, zone, state, rate),
        Act::Tainted(node, key, answer) => add_taint(text, b"taint ", names, node, key, answer),
        Act::Swapped(node, key, answer) => add_taint(text, b"swap ", names, node, key, answer),
        Act::Untainted(node, answer) => add_untaint(text, names, node, answer),
        Act::Evicted(key, due, answer) => add_eviction(alloc, text, names, &key, due, answer),
    }
}

/// Adds for how many beats a process stands still.
fn add_pause(text: &mut Vec<u8>, beats: u32) -> Result<(), NoMemory>
    ensures { OnOk result (text.new.items ≡ text.old.items ++ (codes "pause beats=" ++ decimal beats)) }
{
    add(text, b"pause beats=")?;
    add_number(text, u64::from(beats))
}

/// Adds for how many beats the store stands still.
fn add_stall(text: &mut Vec<u8>, beats: u32) -> Result<(), NoMemory>
    ensures { OnOk result (text.new.items ≡ text.old.items ++ (codes "stall beats=" ++ decimal beats)) }
{
    add(text, b"stall beats=")?;
    add_number(text, u64::from(beats))
}

/// Adds a word and a version behind it.
fn add_version(text: &mut Vec<u8>, word: &[u8], version: Version) -> Result<(), NoMemory>
    ensures { OnOk result (text.new.items ≡ text.old.items ++ (word.now ++ decimal version.0)) }
{
    add(text, word)?;
    add_number(text, version.0)
}

fn add_answer(text: &mut Vec<u8>, answer: Answer) -> Result<(), NoMemory>
    ensures { OnOk result (text.new.items ≡ text.old.items ++ spec.answer_text answer) }
{
    match answer {
        Answer::Done(version) => add_version(text, b"v=", version),
        Answer::Absent => add(text, b"absent"),
        Answer::Exists => add(text, b"exists"),
        Answer::Conflict(version) => add_version(text, b"conflict v=", version),
    }
}

/// Adds which Lease was written and how that was answered: the election Lease, or that of a node.
fn add_lease(
    text: &mut Vec<u8>,
    word: &[u8],
    names: &Names,
    key: &Key,
    answer: Answer,
    transitions: u32,
) -> Result<(), NoMemory>
    requires { key.now.name < length names.now }
    ensures { OnOk result (text.new.items ≡ text.old.items ++ (word.now ++ spec.lease_text names.now key.now answer transitions)) }
{
    add(text, word)?;
    if *key == Key::ELECTION {
        add_election(text, answer, transitions)
    } else {
        add_node_lease(text, name_of(names, key.name), answer)
    }
}

fn add_election(text: &mut Vec<u8>, answer: Answer, transitions: u32) -> Result<(), NoMemory>
    ensures { OnOk result (text.new.items ≡ text.old.items ++ spec.election_text answer transitions) }
{
    add(text, b"election ")?;
    add_answer(text, answer)?;
    match answer {
        Answer::Done(_) => {
            add(text, b" t=")?;
            add_number(text, u64::from(transitions))
        }
        _ => Ok(()),
    }
}

fn add_node_lease(text: &mut Vec<u8>, node: &[u8], answer: Answer) -> Result<(), NoMemory>
    ensures { OnOk result (text.new.items ≡ text.old.items ++ (codes "nodelease " ++ node.now ++ codes " " ++ spec.answer_text answer)) }
{
    add(text, b"nodelease ")?;
    add(text, node)?;
    add(text, b" ")?;
    add_answer(text, answer)
}

/// Adds an act on a node, the node, a word more on it, and how the write was answered.
fn add_node(
    text: &mut Vec<u8>,
    act: &[u8],
    node: &[u8],
    word: &[u8],
    answer: Answer,
) -> Result<(), NoMemory>
    ensures { OnOk result (text.new.items ≡ text.old.items ++ (act.now ++ spec.noted_text node.now word.now answer)) }
{
    add(text, act)?;
    add(text, node)?;
    add(text, b" ")?;
    add(text, word)?;
    add(text, b" ")?;
    add_answer(text, answer)
}

/// Adds a write of the script.
fn add_key(
    text: &mut Vec<u8>,
    word: &[u8],
    names: &Names,
    key: &Key,
    version: Version,
) -> Result<(), NoMemory>
    requires space { key.now.space < length names.now }
    requires name { key.now.name < length names.now }
    ensures { OnOk result (text.new.items ≡ text.old.items ++ spec.script_text word.now names.now key.now version) }
{
    add(text, word)?;
    match key.kind {
        Kind::Node => {
            add(text, b"node/")?;
            add(text, name_of(names, key.name))?;
        }
        Kind::Lease => {
            add(text, b"lease/")?;
            add_spaced(text, names, key)?;
        }
        Kind::Pod => {
            add(text, b"pod/")?;
            add_spaced(text, names, key)?;
        }
    }
    add_version(text, b" v=", version)
}

/// Adds a namespace and a name.
fn add_spaced(text: &mut Vec<u8>, names: &Names, key: &Key) -> Result<(), NoMemory>
    requires space { key.now.space < length names.now }
    requires name { key.now.name < length names.now }
    ensures { OnOk result (text.new.items ≡ text.old.items ++ spec.spaced_name names.now key.now) }
{
    add(text, name_of(names, key.space))?;
    add(text, b"/")?;
    add(text, name_of(names, key.name))
}

fn add_status(
    text: &mut Vec<u8>,
    names: &Names,
    node: u32,
    status: ReadyStatus,
    answer: Answer,
) -> Result<(), NoMemory>
    requires { node < length names.now }
    ensures { OnOk result (text.new.items ≡ text.old.items ++ spec.posted_text names.now node status answer) }
{
    add_node(
        text,
        b"status ",
        name_of(names, node),
        status_text(status),
        answer,
    )
}

fn add_mark(
    text: &mut Vec<u8>,
    names: &Names,
    node: u32,
    reason: u32,
    answer: Answer,
) -> Result<(), NoMemory>
    requires node { node < length names.now }
    requires reason { reason < length names.now }
    ensures { OnOk result (text.new.items ≡ text.old.items ++ spec.marked_text names.now node reason answer) }
{
    add_node(
        text,
        b"unknown ",
        name_of(names, node),
        name_of(names, reason),
        answer,
    )
}

/// Adds that a condition taint was put on a node, or put in the place of the other one.
fn add_taint(
    text: &mut Vec<u8>,
    act: &[u8],
    names: &Names,
    node: u32,
    key: u32,
    answer: Answer,
) -> Result<(), NoMemory>
    requires { node < length names.now }
    ensures { OnOk result (text.new.items ≡ text.old.items ++ (act.now ++ spec.node_text names.now node (spec.taint_text key) answer)) }
{
    add_node(text, act, name_of(names, node), taint_text(key), answer)
}

fn add_zone(
    text: &mut Vec<u8>,
    names: &Names,
    region: u32,
    zone: u32,
    state: ZoneState,
    rate: u32,
) -> Result<(), NoMemory>
    requires region { region < length names.now }
    requires zone { zone < length names.now }
    ensures { OnOk result (text.new.items ≡ text.old.items ++ (codes "zone " ++ spec.zone_text names.now region zone state rate)) }
{
    add(text, b"zone ")?;
    add(text, name_of(names, region))?;
    add(text, b"/")?;
    add(text, name_of(names, zone))?;
    add(text, b" ")?;
    add(text, state_text(state))?;
    add(text, b" rate=")?;
    add_number(text, u64::from(rate))
}

fn add_untaint(text: &mut Vec<u8>, names: &Names, node: u32, answer: Answer) -> Result<(), NoMemory>
    requires { node < length names.now }
    ensures { OnOk result (text.new.items ≡ text.old.items ++ spec.untaint_text names.now node answer) }
{
    add(text, b"untaint ")?;
    add(text, name_of(names, node))?;
    add(text, b" ")?;
    add_answer(text, answer)
}

fn add_eviction(
    alloc: Global,
    text: &mut Vec<u8>,
    names: &Names,
    pod: &Key,
    due: Wall,
    answer: Answer,
) -> Result<(), NoMemory>
    requires space { pod.now.space < length names.now }
    requires name { pod.now.name < length names.now }
    requires due { due.0 ≤ last_wall }
    ensures { OnOk result (text.new.items ≡ text.old.items ++ (codes "evict " ++ spec.eviction_text names.now pod.now due answer)) }
{
    add(text, b"evict ")?;
    add_spaced(text, names, pod)?;
    add(text, b" due=")?;
    add_time(alloc, text, due)?;
    add(text, b" ")?;
    add_answer(text, answer)
}

fn status_text(status: ReadyStatus) -> &'static [u8]
    ensures { result.now ≡ spec.status_text status }
{
    match status {
        ReadyStatus::True => b"True",
        ReadyStatus::False => b"False",
        ReadyStatus::Unknown => b"Unknown",
    }
}

fn state_text(state: ZoneState) -> &'static [u8]
    ensures { result.now ≡ spec.state_text state }
{
    match state {
        ZoneState::Normal => b"Normal",
        ZoneState::Partial => b"PartialDisruption",
        ZoneState::Full => b"FullDisruption",
    }
}

fn mode_text(on: bool) -> &'static [u8]
    ensures { result.now ≡ spec.mode_text on }
{
    if on { b"mode on" } else { b"mode off" }
}

/// The word for a condition taint, by the number of its key.
fn taint_text(key: u32) -> &'static [u8]
    ensures { result.now ≡ spec.taint_text key }
{
    if key == NOT_READY {
        b"not-ready"
    } else {
        b"unreachable"
    }
}
