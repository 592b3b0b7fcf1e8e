// The command by flags.
ghost use Rattle.std.specs.Prelude.{◌≡◌, ◌≢◌, ◌++◌, ℕ, List, Some, IfOk, OnOk, map, string_bytes};
ghost use Rattle.byte_edge.specs.Bytes.{Rose};
ghost use Rattle.run_edge.specs.Outcome.{Ends, Unread, reply_of};
ghost use Rattle.lens_json.specs.Parts.{part_of};
ghost use Rattle.lens_room.specs.Flags.{behind};
ghost use Rattle.lens_calm.specs.Answers.{answer_to};
ghost use Rattle.lens_calm.specs.Answers as spec;
ghost use Rattle.lens_calm.specs.Settings as given;
ghost use Rattle.lens_calm.specs.Settings.{AreGiven};

use crate::given::read_settings;
use crate::lines::{add_election, add_gone, add_tainted, add_taken, add_unknown, stays_line};
use crate::objects::{
    add_all, election_parts, end_parts, node_parts, pod_parts, taken_parts, timing_parts,
};
use crate::settings::Settings;
use byte_edge::Sink;
use kube_base::NoMemory;
use kube_objects::Proc;
use lens_bounds::{Election, election_of, stays, until_gone, until_tainted, until_unknown};
use lens_json::{Part, add_parts};
use lens_room::by_flags::{behind, is_safe, misused, slowest_controller, tell_answer};
use lens_room::verdict_by;
use run_edge::{Answer, Status};
use std::alloc::Global;
use trace_writer::add;

/// Writes how long nobody leads after a crash or a stop, how long a leader acts on that is cut off, by when somebody leads once the network is
/// well, and when a dead node is marked and tainted and its pods gone, at least and at most, by the settings that the words behind the first
/// one give, in lines or as one JSON object; or what is wrong with the words. It ends safe if a leader stays.
pub fn run<K: Sink>(alloc: Global, words: &Vec<String>, sink: &mut K) -> Status
    ensures text { (left : List ℕ) → Ends (Unread (answer_to (behind (map string_bytes words.now.items))) left) (Some left) (K.taken sink.old)
        (K.taken sink.new) result }
    ensures silent { result ≢ Status.SourceFault }
    ensures sink_fault { result ≡ Status.SinkFault → Rose (K.faults sink.old) (K.faults sink.new) }
{
    tell_answer(sink, answer(alloc, behind(words)))
}

fn answer(alloc: Global, words: &[String]) -> Result<Answer, NoMemory>
    ensures { IfOk result (λ answer. reply_of answer ≡ answer_to (map string_bytes words.now)) }
{
    match read_settings(words) {
        Ok(settings) => told(alloc, settings),
        Err(fault) => misused(alloc, words, fault),
    }
}

fn leader_of(s: Settings) -> Proc
    requires { AreGiven s }
    ensures { result ≡ given.leader_of s }
{
    slowest_controller(&s.flags)
}

fn stays_in(s: Settings) -> bool
    requires { AreGiven s }
    ensures { result ≡ spec.stays_in s }
{
    stays(s.calm(), &[leader_of(s), leader_of(s)])
}

fn election_in(s: Settings) -> Election
    requires { AreGiven s }
    ensures { result ≡ spec.election_in s }
{
    election_of(s.calm(), 0, leader_of(s), &[leader_of(s), leader_of(s)])
}

fn told(alloc: Global, s: Settings) -> Result<Answer, NoMemory>
    requires { AreGiven s }
    ensures { IfOk result (λ answer. reply_of answer ≡ spec.told s) }
{
    let stays = stays_in(s);
    let mut text = Vec::new(alloc);
    add_told(&mut text, alloc, s, stays)?;
    Ok(Answer {
        verdict: verdict_by(stays),
        text,
    })
}

/// Adds what settings come to, in the form that is wanted.
fn add_told(text: &mut Vec<u8>, alloc: Global, s: Settings, stays: bool) -> Result<(), NoMemory>
    requires given { AreGiven s }
    requires stays { stays ≡ spec.stays_in s }
    ensures { OnOk result (text.new.items ≡ text.old.items ++ spec.told_text s) }
{
    if s.flags.as_json {
        add_json(text, alloc, s, stays)
    } else {
        add_lines(text, s, stays)
    }
}

#[tactic(auto, unfolding(crate::specs::Answers::settings_text))]
fn add_lines(text: &mut Vec<u8>, s: Settings, stays: bool) -> Result<(), NoMemory>
    requires given { AreGiven s }
    requires stays { stays ≡ spec.stays_in s }
    ensures { OnOk result (text.new.items ≡ text.old.items ++ spec.settings_text s) }
{
    let outage = s.outage();
    let seconds = u64::from(s.toleration_seconds);
    add_taken(text, s)?;
    add_election(text, b"", is_safe(&s.flags), election_in(s))?;
    add_unknown(text, until_unknown(outage))?;
    add_tainted(text, s.ahead, until_tainted(outage))?;
    add_gone(text, seconds, until_gone(outage, seconds))?;
    add(text, stays_line(stays))
}

#[tactic(auto, unfolding(crate::specs::Answers::settings_json))]
fn add_json(text: &mut Vec<u8>, alloc: Global, s: Settings, stays: bool) -> Result<(), NoMemory>
    requires given { AreGiven s }
    requires stays { stays ≡ spec.stays_in s }
    ensures { OnOk result (text.new.items ≡ text.old.items ++ spec.settings_json s) }
{
    let parts = parts(alloc, s, stays)?;
    add_parts(text, &parts)?;
    add(text, b"\n")
}

fn parts<'a>(alloc: Global, s: Settings, stays: bool) -> Result<Vec<Part<'a>>, NoMemory>
    requires given { AreGiven s }
    requires stays { stays ≡ spec.stays_in s }
    ensures { IfOk result (λ parts. map part_of parts.items ≡ spec.settings_members s) }
{
    let outage = s.outage();
    let seconds = s.toleration_seconds;
    let mut parts = taken_parts(alloc, s)?;
    add_all(&mut parts, timing_parts(alloc, s)?)?;
    add_all(&mut parts, election_parts(alloc, election_in(s))?)?;
    let marked = until_unknown(outage);
    let tainted = until_tainted(outage);
    add_all(&mut parts, node_parts(alloc, s.ahead, marked, tainted)?)?;
    let gone = until_gone(outage, u64::from(seconds));
    add_all(&mut parts, pod_parts(alloc, seconds, gone)?)?;
    add_all(&mut parts, end_parts(alloc, stays, is_safe(&s.flags))?)?;
    Ok(parts)
}
