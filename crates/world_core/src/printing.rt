// What is printed of an entry.
ghost use Rattle.std.specs.Prelude.{◌≡◌, ◌++◌, OnOk, option_map};
ghost use Rattle.kube_objects.specs.declared.deed.Act.TheVariants as Act;
ghost use Rattle.kube_objects.specs.Newest.{when};
ghost use Rattle.kube_objects.specs.declared.script.What.TheVariants as What;
ghost use Rattle.history.specs.Printed.{answer_act as act_of_answer, if_told as told_of, deeds_of, event_act};
ghost use Rattle.kube_objects.specs.Tries.{as_answer as answer_of};

use kube_base::{Beat, NoMemory, Version};
use kube_objects::{Act, Actor, Answer, Deed, Deeds, Key, Reply, Request};

/// Adds the deed of an entry, if it has one.
pub fn tell(deeds: &mut Deeds, beat: Beat, actor: Actor, act: Option<Act>) -> Result<(), NoMemory>
    ensures { OnOk result (deeds.new ≡ deeds.old ++ deeds_of beat.0 actor act) }
{
    match act {
        None => Ok(()),
        Some(act) => deeds.push(Deed { beat, actor, act }),
    }
}

/// What is printed of a request that was answered.
pub fn answer_act(request: &Request, reply: &Reply) -> Option<Act>
    ensures { result ≡ act_of_answer request.now reply.now }
{
    match *request {
        Request::Get(_) => None,
        Request::Create(key, lease) => {
            let answer = as_answer(reply)?;
            Some(Act::Create(key, answer, lease.transitions.unwrap_or(0)))
        }
        Request::Update(key, _, lease) => {
            let answer = told_answer(&key, as_answer(reply)?)?;
            Some(Act::Update(key, answer, lease.transitions.unwrap_or(0)))
        }
        Request::PostStatus(name, status, _) => {
            let answer = as_answer(reply)?;
            Some(Act::Posted(name, status, answer))
        }
    }
}

fn as_answer(reply: &Reply) -> Option<Answer>
    ensures { result ≡ answer_of reply.now }
{
    match *reply {
        Reply::Found(_, _) => None,
        Reply::Done(version) => Some(Answer::Done(version)),
        Reply::Absent => Some(Answer::Absent),
        Reply::Exists => Some(Answer::Exists),
        Reply::Conflict(version) => Some(Answer::Conflict(version)),
        Reply::Unchanged => None,
    }
}

/// An accepted renewal of a node's Lease isn't printed.
fn told_answer(key: &Key, answer: Answer) -> Option<Answer>
    ensures { result ≡ told_of key.now answer }
{
    match answer {
        Answer::Done(version) => if *key == Key::ELECTION {
            Some(Answer::Done(version))
        } else {
            None
        },
        other => Some(other),
    }
}

/// What is printed of a start.
pub fn start_act(started: bool) -> Option<Act>
    ensures { result ≡ when started Act.Start }
{
    if started { Some(Act::Start) } else { None }
}

/// What is printed of a crash.
pub fn crash_act(crashed: bool) -> Option<Act>
    ensures { result ≡ when crashed Act.Crash }
{
    if crashed { Some(Act::Crash) } else { None }
}

/// What is printed of a stop.
pub fn stop_act(stopped: bool) -> Option<Act>
    ensures { result ≡ when stopped Act.Stop }
{
    if stopped { Some(Act::Stop) } else { None }
}

/// What is printed of a pause, of a process that is up.
pub fn pause_act(up: bool, beats: u32) -> Option<Act>
    ensures { result ≡ when up (Act.Pause beats) }
{
    if up { Some(Act::Pause(beats)) } else { None }
}

/// What is printed of an end.
pub fn end_act(ended: bool) -> Option<Act>
    ensures { result ≡ when ended Act.End }
{
    if ended { Some(Act::End) } else { None }
}

/// What is printed of a lead.
pub fn lead_act(lead: Option<Version>) -> Option<Act>
    ensures { result ≡ option_map Act.Lead lead }
{
    match lead {
        Some(version) => Some(Act::Lead(version)),
        None => None,
    }
}

/// What is printed of a removal, if something was removed.
pub fn remove_act(key: Key, version: Option<Version>) -> Option<Act>
    ensures { result ≡ event_act (What.Remove key) version }
{
    match version {
        Some(version) => Some(Act::Removed(key, version)),
        None => None,
    }
}
