// Where an input stops to be JSON.
ghost use Rattle.std.specs.Prelude.{◌≡◌, ◌<◌, ◌≤◌, ◌+◌, ◌++◌, true, false, IfOk, length, take};
ghost use Rattle.lens_explain.specs.Fronts as spec;
ghost use Rattle.lens_explain.specs.Fronts.{IsStop};

use crate::front::front_of;
use crate::place::cut_at;
use kube_base::NoMemory;
use manifest_json::ReadFault;
use script_reader::read_value;
use serde_json::Value;
use std::alloc::Global;
use trace_writer::add;

/// Where an input that isn't JSON stops to be. It is looked for by halving, from the place on that the JSON reader tells.
pub(crate) fn stop_of(alloc: Global, input: &[u8]) -> Result<usize, NoMemory>
    ensures { IfOk result (λ place. IsStop input.now place) }
{
    let last = input.len();
    if can_go_on(alloc, input, last)? {
        return stop_behind(alloc, input, last);
    }
    let told = told_of(alloc, input)?;
    let low = low_of(alloc, input, told)?;
    let turn = turn_of(alloc, input, low)?;
    stop_behind(alloc, input, turn)
}

/// How many bytes these are if all of them can be ended, or else where the text or word begins that isn't over behind them.
fn stop_behind(alloc: Global, input: &[u8], here: usize) -> Result<usize, NoMemory>
    ensures { IfOk result (λ place. place ≡ spec.stop_behind input.now here) }
{
    let (text, _) = cut_at(input, here);
    let front = front_of(alloc, text)?;
    let mut brackets = front.closing;
    brackets.reverse();
    if can_end(alloc, text, &brackets)? {
        Ok(here)
    } else {
        Ok(front.begin)
    }
}

/// How many bytes the JSON reader has read where it refuses a text. It counts lines and columns.
fn told_of(alloc: Global, input: &[u8]) -> Result<usize, NoMemory> {
    match Value::from_slice(alloc, input) {
        Ok(_) => Ok(0),
        Err(error) => {
            if error.is_memory() {
                Err(NoMemory)
            } else {
                Ok(place_of(input, error.line(), error.column()))
            }
        }
    }
}

/// How many bytes stand before a line and column, both counted from 1.
fn place_of(input: &[u8], line: usize, column: usize) -> usize {
    let mut begin = 0_usize;
    let mut here = 1_usize;
    for (place, byte) in input.iter().enumerate() {
        if here < line && *byte == b'\n' {
            here = here.saturating_add(1);
            begin = place.saturating_add(1);
        }
    }
    begin.saturating_add(column.saturating_sub(1))
}

/// A number of bytes that can be ended: so many, or one fewer, or none.
fn low_of(alloc: Global, input: &[u8], told: usize) -> Result<usize, NoMemory>
    requires { 0 < length input.now }
    ensures within { IfOk result (λ low. low < length input.now) }
    ensures goes_on { IfOk result (λ low. spec.can_go_on input.now low ≡ true) }
{
    let near = told.min(input.len() - 1);
    let nearer = near.saturating_sub(1);
    if can_go_on(alloc, input, near)? {
        Ok(near)
    } else if can_go_on(alloc, input, nearer)? {
        Ok(nearer)
    } else {
        Ok(0)
    }
}

/// A number of bytes that can be ended, and one byte more can't.
fn turn_of(alloc: Global, input: &[u8], low: usize) -> Result<usize, NoMemory>
    requires within { low < length input.now }
    requires low { spec.can_go_on input.now low ≡ true }
    requires high { spec.can_go_on input.now (length input.now) ≡ false }
    ensures within { IfOk result (λ turn. turn < length input.now) }
    ensures goes_on { IfOk result (λ turn. spec.can_go_on input.now turn ≡ true) }
    ensures ends { IfOk result (λ turn. spec.can_go_on input.now (turn + 1) ≡ false) }
{
    let mut low = low;
    let mut high = input.len();
    let mut step = 1_usize;
    'nearer: while high - low > 1 {
        let here = between(low, high, step);
        if can_go_on(alloc, input, here)? {
            low = here;
        } else {
            high = here;
        }
        step = step.saturating_mul(2);
    }
    Ok(low)
}

/// A place between two, so far above the lower one, but at most halfway.
fn between(low: usize, high: usize, step: usize) -> usize
    requires { low + 1 < high }
    ensures { (low < result) × (result < high) }
{
    low + step.max(1).min((high - low) / 2)
}

/// Whether so many bytes of an input can be ended, without the text or word that isn't over behind them.
fn can_go_on(alloc: Global, input: &[u8], here: usize) -> Result<bool, NoMemory>
    ensures { IfOk result (λ can. can ≡ spec.can_go_on input.now here) }
{
    let (text, _) = cut_at(input, here);
    let front = front_of(alloc, text)?;
    let (whole, _) = cut_at(input, front.begin);
    let mut brackets = front.closing;
    brackets.reverse();
    can_end(alloc, whole, &brackets)
}

/// Whether a text and these brackets are JSON with a value, nothing, the value of a key or a member of an object between.
fn can_end(alloc: Global, text: &[u8], brackets: &[u8]) -> Result<bool, NoMemory>
    ensures { IfOk result (λ can. can ≡ spec.can_end text.now brackets.now) }
{
    Ok(
        ends_by(alloc, text, b"0", brackets)?
            || ends_by(alloc, text, b"", brackets)?
            || ends_by(alloc, text, b":0", brackets)?
            || ends_by(alloc, text, b"\"\":0", brackets)?,
    )
}

fn ends_by(alloc: Global, text: &[u8], end: &[u8], brackets: &[u8]) -> Result<bool, NoMemory>
    ensures { IfOk result (λ is. is ≡ spec.is_json (text.now ++ (end.now ++ brackets.now))) }
{
    let mut whole = Vec::from_slice(alloc, text)?;
    add(&mut whole, end)?;
    add(&mut whole, brackets)?;
    is_json(alloc, &whole)
}

/// Whether a text is JSON, as a document has to be.
fn is_json(alloc: Global, text: &[u8]) -> Result<bool, NoMemory>
    ensures { IfOk result (λ is. is ≡ spec.is_json text.now) }
{
    match read_value(alloc, text) {
        Ok(_) => Ok(true),
        Err(ReadFault::Refused(_)) => Ok(false),
        Err(ReadFault::NoMemory) => Err(NoMemory),
    }
}
