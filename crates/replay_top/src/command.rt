// What the words after the program's name ask for.
ghost use Rattle.std.specs.Prelude.{◌≡◌, IfSome, map, string_bytes};
ghost use Rattle.replay_top.specs.Commands.{IsWithin, asked_of, by_word, command_of, run_of, state_by as state_of_word};

use crate::asked::Asked;
use crate::sizes::{Sizes, number_in, sizes_in};
use kube_base::Beat;

/// What a run does.
#[derive(Clone, Copy)]
pub enum Command {
    /// It answers this question on the source's bytes.
    Asks(Asked),
    /// It reads them as a document, with which it does this.
    Runs(Run),
    /// It leaves them alone: a document of these sizes is generated and run.
    Generates(Sizes),
}

/// What is done with a document.
#[derive(Clone, Copy)]
pub enum Run {
    /// Its trace is written.
    Replay,
    /// What is stored after this beat is written.
    State(Beat),
}

/// The command that the words after the program's name are, if any.
pub(crate) fn command_in(words: &Vec<String>) -> Option<Command>
    ensures command { result ≡ command_of (map string_bytes words.now.items) }
    ensures within { IfSome result IsWithin }
{
    if let Some(asked) = asked_in(words) {
        return Some(Command::Asks(asked));
    }
    if let Some(sizes) = sizes_in(words) {
        return Some(Command::Generates(sizes));
    }
    match run_in(words) {
        Some(run) => Some(Command::Runs(run)),
        None => None,
    }
}

/// The question that the words ask, if any: one word.
fn asked_in(words: &Vec<String>) -> Option<Asked>
    ensures { result ≡ asked_of (map string_bytes words.now.items) }
{
    match words.as_slice() {
        [word] => by_word(word.as_str()),
        _ => None,
    }
}

/// The question that a word asks, if any.
fn by_word(word: &str) -> Option<Asked>
    ensures { result ≡ by_word word.now }
{
    if word == "check" {
        Some(Asked::Check)
    } else if word == "audit" {
        Some(Asked::Audit)
    } else if word == "collect" {
        Some(Asked::Collect)
    } else if word == "place" {
        Some(Asked::Place)
    } else {
        None
    }
}

/// What the words have done with a document, if anything.
fn run_in(words: &Vec<String>) -> Option<Run>
    ensures { result ≡ run_of (map string_bytes words.now.items) }
{
    match words.as_slice() {
        [word] => if word.as_str() == "replay" {
            Some(Run::Replay)
        } else {
            None
        },
        [word, beat] => if word.as_str() == "state" {
            state_by(beat.as_str())
        } else {
            None
        },
        _ => None,
    }
}

/// The state after the beat that is written so.
fn state_by(word: &str) -> Option<Run>
    ensures { result ≡ state_of_word word.now }
{
    let beat = number_in(word, 0, 604_800_000)?;
    Some(Run::State(Beat(beat as u32)))
}
