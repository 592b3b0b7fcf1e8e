// The words behind a command.
ghost use Rattle.std.specs.Prelude.{◌≡◌, ◌≢◌, ◌++◌, ℕ, List, Some, Ok, None, IfOk, OnOk, map, string_bytes};
ghost use Rattle.byte_edge.specs.Bytes.{Rose};
ghost use Rattle.run_edge.specs.Outcome.{Ends, reply_of};
ghost use Rattle.lens_room.specs.Words as spec;

use crate::by_flags::flag::is;
use crate::by_flags::misread::Misread;
use crate::by_flags::misuse::Misuse;
use crate::by_flags::taking::{Named, Taking};
use byte_edge::Sink;
use kube_base::NoMemory;
use run_edge::{Answer, Status, Verdict, tell};
use std::alloc::Global;
use trace_lines::cut;
use trace_writer::add;

/// What words gave up to a place.
#[derive(Clone, Copy)]
pub struct Given<S, F> {
    pub settings: S,
    /// The flag whose value is the next word.
    pub waiting: Option<F>,
}

/// The settings that words give, beginning with some. Takes no memory.
#[tactic(auto, unfolding(crate::specs::Words::read_from))]
pub fn read_from<S: Taking>(start: S, words: &[String]) -> Result<S, Misread<S::Flag>>
    requires { S.IsFit start }
    ensures read { result ≡ spec.read_from S.command start (map string_bytes words.now) }
    ensures fit { IfOk result S.IsFit }
{
    let given = read_words(start, words)?;
    match given.waiting {
        None => Ok(given.settings),
        Some(flag) => Err(Misread::Alone(flag)),
    }
}

fn read_words<S: Taking>(start: S, words: &[String]) -> Result<Given<S, S::Flag>, Misread<S::Flag>>
    requires { S.IsFit start }
    ensures given { result ≡ spec.given_from S.command 0 (Ok (record { settings = start; waiting = None })) (map string_bytes words.now) }
    ensures fit { IfOk result (λ given. S.IsFit given.settings) }
{
    let mut given = Given {
        settings: start,
        waiting: None,
    };
    let mut place: usize = 0;
    for word in words {
        given = with_word(place, given, word.as_str().as_bytes())?;
        place += 1;
    }
    Ok(given)
}

#[tactic(auto, unfolding(crate::specs::Words::with_word))]
fn with_word<S: Taking>(
    place: usize,
    given: Given<S, S::Flag>,
    word: &[u8],
) -> Result<Given<S, S::Flag>, Misread<S::Flag>>
    requires { S.IsFit given.settings }
    ensures given { result ≡ spec.with_word S.command place given word.now }
    ensures fit { IfOk result (λ given. S.IsFit given.settings) }
{
    match given.waiting {
        Some(flag) => valued(place, given.settings, flag, word),
        None => begun(place, given.settings, word),
    }
}

/// The same with a word for which no flag waits.
fn begun<S: Taking>(
    place: usize,
    settings: S,
    word: &[u8],
) -> Result<Given<S, S::Flag>, Misread<S::Flag>>
    requires { S.IsFit settings }
    ensures given { result ≡ spec.begun S.command place settings word.now }
    ensures fit { IfOk result (λ given. S.IsFit given.settings) }
{
    if is(word, b"--json") {
        return Ok(Given {
            settings: settings.in_json(),
            waiting: None,
        });
    }
    match cut(word, b'=') {
        Some((name, value)) => valued(place, settings, named::<S>(place, name)?, value),
        None => Ok(Given {
            settings,
            waiting: Some(named::<S>(place, word)?),
        }),
    }
}

fn named<S: Taking>(place: usize, name: &[u8]) -> Result<S::Flag, Misread<S::Flag>>
    ensures { result ≡ spec.named place (S.command.by_name name.now) }
{
    match S::by_name(name) {
        Some(flag) => Ok(flag),
        None => Err(Misread::Unknown(place)),
    }
}

fn valued<S: Taking>(
    place: usize,
    settings: S,
    flag: S::Flag,
    text: &[u8],
) -> Result<Given<S, S::Flag>, Misread<S::Flag>>
    requires { S.IsFit settings }
    ensures given { result ≡ spec.valued S.command place settings flag text.now }
    ensures fit { IfOk result (λ given. S.IsFit given.settings) }
{
    match settings.with_text(flag, text) {
        Some(settings) => Ok(Given {
            settings,
            waiting: None,
        }),
        None => Err(Misread::Value(flag, place)),
    }
}

/// Adds which word can't be read.
pub fn add_misread<F: Named>(
    text: &mut Vec<u8>,
    words: &[String],
    misread: Misread<F>,
) -> Result<(), NoMemory>
    ensures { OnOk result (text.new.items
        ≡ text.old.items ++ spec.misread_text F.name_text F.takes_text (map string_bytes words.now) misread) }
{
    match misread {
        Misread::Unknown(place) => add_unknown(text, word_at(words, place)),
        Misread::Alone(flag) => {
            add(text, flag.name())?;
            add(text, b" stands without a value")
        }
        Misread::Value(flag, place) => {
            add(text, flag.name())?;
            add(text, flag.takes())?;
            add(text, word_at(words, place))
        }
    }
}

#[tactic(auto, unfolding(crate::specs::Words::unknown_text))]
fn add_unknown(text: &mut Vec<u8>, word: &[u8]) -> Result<(), NoMemory>
    ensures { OnOk result (text.new.items ≡ text.old.items ++ spec.unknown_text word.now) }
{
    add(text, b"no such flag: ")?;
    add(text, word)
}

/// The word at a place, and nothing if none is there.
fn word_at(words: &[String], place: usize) -> &[u8]
    ensures { result.now ≡ spec.word_at (map string_bytes words.now) place }
{
    match words.get(place) {
        Some(word) => word.as_str().as_bytes(),
        None => b"",
    }
}

/// The answer to words with which something is wrong: the line on the usage, and what it is.
pub fn misused<W: Misuse>(alloc: Global, words: &[String], wrong: W) -> Result<Answer, NoMemory>
    ensures { IfOk result (λ answer. reply_of answer ≡ spec.misused W.usage_line (W.wrong_text (map string_bytes words.now) wrong)) }
{
    let mut text = Vec::new(alloc);
    add(&mut text, W::usage())?;
    wrong.add_to(&mut text, words)?;
    add(&mut text, b"\n")?;
    Ok(Answer {
        verdict: Verdict::Usage,
        text,
    })
}

/// Writes an answer to words, if memory was enough for it.
pub fn tell_answer<K: Sink>(sink: &mut K, answer: Result<Answer, NoMemory>) -> Status
    ensures text { (left : List ℕ) → Ends (spec.Told answer left) (Some left) (K.taken sink.old) (K.taken sink.new) result }
    ensures silent { result ≢ Status.SourceFault }
    ensures sink_fault { result ≡ Status.SinkFault → Rose (K.faults sink.old) (K.faults sink.new) }
{
    match answer {
        Ok(answer) => tell(sink, answer.verdict, &answer.text),
        Err(NoMemory) => Status::OutOfMemory,
    }
}
