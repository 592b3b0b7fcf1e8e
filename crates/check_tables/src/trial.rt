// Runs over memory.
use crate::calm::ends_calmly;
use byte_edge::{MemSink, MemSource};
use kube_base::{NoMemory, Steps};
use replay_top::run;
use run_edge::{Status, Verdict};
use std::alloc::Global;
use std::sync::ledger::Blank;
use zone_state::{Policies, full, partial};

/// What is given to a run beside its words: the bytes of the source, how many it gives at once and its calls that fail;
/// the room of the sink, and how many bytes it takes at once.
#[derive(Clone, Copy)]
pub(crate) struct Trial<'a> {
    pub(crate) bytes: &'a [u8],
    pub(crate) source_chunk: usize,
    pub(crate) fails: &'a [u64],
    pub(crate) room: usize,
    pub(crate) sink_chunk: usize,
}

/// A source and a sink that don't fail, if so many bytes are to be written.
pub(crate) fn ample(bytes: &[u8], written: usize) -> Trial<'_> {
    Trial {
        bytes,
        source_chunk: 65_536,
        fails: &[],
        room: written.saturating_add(1),
        sink_chunk: 7,
    }
}

/// Whether a run ends with this status, and the sink then holds this text.
pub(crate) fn ends(
    alloc: Global,
    words: &Vec<String>,
    trial: &Trial<'_>,
    status: Status,
    text: &[u8],
) -> Result<bool, NoMemory> {
    let bytes = trial.bytes.to_vec(alloc)?;
    let fails = trial.fails.to_vec(alloc)?;
    let mut source = MemSource::new(bytes, trial.source_chunk.max(1), fails);
    let mut sink = MemSink::new(alloc, trial.room, trial.sink_chunk.max(1), Vec::new(alloc))?;
    let mut steps = Steps::new(Blank::new(1));
    let ended = run(
        alloc,
        words,
        &mut source,
        &mut sink,
        &Policies::new(partial, full),
        &mut steps,
    );
    Ok(ended == status && sink.held() == text)
}

/// Whether a run writes just this text and ends as the text says, and ends so too if nothing can fail.
fn ends_both(
    alloc: Global,
    words: &Vec<String>,
    trial: &Trial<'_>,
    text: &str,
) -> Result<bool, NoMemory> {
    let status = status_of(text);
    let written = ends(alloc, words, trial, status, text.as_bytes())?;
    let calm = ends_calmly(alloc, words, trial.bytes.to_vec(alloc)?);
    Ok(written && calm == status)
}

/// Whether a command writes just this text of a document, and ends as the text says.
pub(crate) fn writes(
    alloc: Global,
    word: &str,
    document: &[u8],
    text: &str,
) -> Result<bool, NoMemory> {
    let words = one_word(alloc, word)?;
    let trial = ample(document, text.len());
    ends_both(alloc, &words, &trial, text)
}

/// Whether `state` with this beat writes just this text of a document, and ends as the text says.
pub(crate) fn shows(
    alloc: Global,
    beat: &str,
    document: &[u8],
    text: &str,
) -> Result<bool, NoMemory> {
    let mut words = one_word(alloc, "state")?;
    words.push(String::from_str(alloc, beat)?)?;
    let trial = ample(document, text.len());
    ends_both(alloc, &words, &trial, text)
}

/// Whether both commands write just this text of a document.
pub(crate) fn both_write(alloc: Global, document: &[u8], text: &str) -> Result<bool, NoMemory> {
    let replayed = writes(alloc, "replay", document, text)?;
    let checked = writes(alloc, "check", document, text)?;
    Ok(replayed && checked)
}

/// The words of a line, each behind a blank but the first.
pub(crate) fn words_in(alloc: Global, line: &str) -> Result<Vec<String>, NoMemory> {
    let mut words = Vec::new(alloc);
    for word in line.split(' ') {
        words.push(String::from_str(alloc, word)?)?;
    }
    Ok(words)
}

fn one_word(alloc: Global, word: &str) -> Result<Vec<String>, NoMemory> {
    let mut words = Vec::new(alloc);
    words.push(String::from_str(alloc, word)?)?;
    Ok(words)
}

/// How a run ends that writes this.
pub(crate) fn status_of(text: &str) -> Status {
    if text.starts_with("refused ") {
        Status::Answered(Verdict::Refused)
    } else {
        Status::Answered(Verdict::Done)
    }
}
