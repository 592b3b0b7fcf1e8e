// The lines on calm spans.
ghost use Rattle.std.specs.Prelude.{◌≡◌, ◌++◌, OnOk, decimal};
ghost use Rattle.lens_calm.specs.Lines as spec;
ghost use Rattle.lens_calm.specs.Settings.{AreGiven};

use crate::settings::Settings;
use itoa::Buffer;
use kube_base::NoMemory;
use lens_bounds::{Election, Marked, Since, Span, Tainted};
use lens_room::by_flags::origin;
use trace_writer::add;

/// Adds a number in decimal.
pub(crate) fn add_decimal(text: &mut Vec<u8>, number: u128) -> Result<(), NoMemory>
    ensures { OnOk result (text.new.items ≡ text.old.items ++ decimal number) }
{
    let mut buffer = Buffer::new();
    add(text, buffer.format(number).as_bytes())
}

/// Adds a label and so many milliseconds.
#[tactic(auto, unfolding(crate::specs::Lines::millis_text))]
pub(crate) fn add_millis(text: &mut Vec<u8>, label: &[u8], millis: u128) -> Result<(), NoMemory>
    ensures { OnOk result (text.new.items ≡ text.old.items ++ spec.millis_text label.now millis) }
{
    add(text, label)?;
    add_decimal(text, millis)?;
    add(text, b"ms")
}

/// Adds a label and so many seconds.
#[tactic(auto, unfolding(crate::specs::Lines::seconds_text))]
fn add_seconds(text: &mut Vec<u8>, label: &[u8], seconds: u128) -> Result<(), NoMemory>
    ensures { OnOk result (text.new.items ≡ text.old.items ++ spec.seconds_text label.now seconds) }
{
    add(text, label)?;
    add_decimal(text, seconds)?;
    add(text, b"s")
}

fn add_most(text: &mut Vec<u8>, millis: Option<u128>) -> Result<(), NoMemory>
    ensures { OnOk result (text.new.items ≡ text.old.items ++ spec.most_if millis) }
{
    match millis {
        Some(millis) => add_millis(text, b" at-most=", millis),
        None => add(text, b" none"),
    }
}

fn add_acts_on(text: &mut Vec<u8>, millis: Option<u128>) -> Result<(), NoMemory>
    ensures { OnOk result (text.new.items ≡ text.old.items ++ spec.acts_if millis) }
{
    match millis {
        Some(millis) => add_millis(text, b" acts-on-at-most=", millis),
        None => add(text, b" none"),
    }
}

#[tactic(auto, unfolding(crate::specs::Lines::since_text))]
fn add_since(text: &mut Vec<u8>, since: Since) -> Result<(), NoMemory>
    ensures { OnOk result (text.new.items ≡ text.old.items ++ spec.since_text since) }
{
    if since.taken <= since.added {
        add_millis(text, b" at-least=", since.added - since.taken)
    } else {
        add_millis(text, b" at-least=-", since.taken - since.added)
    }
}

#[tactic(auto, unfolding(crate::specs::Lines::span_text))]
fn add_whole_span(text: &mut Vec<u8>, span: Span) -> Result<(), NoMemory>
    ensures { OnOk result (text.new.items ≡ text.old.items ++ spec.span_text span) }
{
    add_millis(text, b" at-least=", span.least)?;
    add_millis(text, b" at-most=", span.most)
}

fn add_span(text: &mut Vec<u8>, span: Option<Span>) -> Result<(), NoMemory>
    ensures { OnOk result (text.new.items ≡ text.old.items ++ spec.span_if span) }
{
    match span {
        Some(span) => add_whole_span(text, span),
        None => add(text, b" none"),
    }
}

#[tactic(auto, unfolding(crate::specs::Lines::marked_text))]
fn add_whole_mark(text: &mut Vec<u8>, marked: Marked) -> Result<(), NoMemory>
    ensures { OnOk result (text.new.items ≡ text.old.items ++ spec.marked_text marked) }
{
    add_since(text, marked.least)?;
    add_millis(text, b" at-most=", marked.most)
}

fn add_mark(text: &mut Vec<u8>, marked: Option<Marked>) -> Result<(), NoMemory>
    ensures { OnOk result (text.new.items ≡ text.old.items ++ spec.marked_if marked) }
{
    match marked {
        Some(marked) => add_whole_mark(text, marked),
        None => add(text, b" none"),
    }
}

#[tactic(auto, unfolding(crate::specs::Lines::latest_text))]
fn add_latest(text: &mut Vec<u8>, tainted: Tainted) -> Result<(), NoMemory>
    ensures { OnOk result (text.new.items ≡ text.old.items ++ spec.latest_text tainted) }
{
    add_millis(text, b" at-most=", tainted.most)?;
    add_millis(text, b" at-most-with-token=", tainted.with_token)
}

#[tactic(auto, unfolding(crate::specs::Lines::tainted_text))]
fn add_whole_taint(text: &mut Vec<u8>, tainted: Tainted) -> Result<(), NoMemory>
    ensures { OnOk result (text.new.items ≡ text.old.items ++ spec.tainted_text tainted) }
{
    add_since(text, tainted.least)?;
    add_latest(text, tainted)
}

fn add_taint(text: &mut Vec<u8>, tainted: Option<Tainted>) -> Result<(), NoMemory>
    ensures { OnOk result (text.new.items ≡ text.old.items ++ spec.tainted_if tainted) }
{
    match tainted {
        Some(tainted) => add_whole_taint(text, tainted),
        None => add(text, b" none"),
    }
}

fn crash_word(safe: bool) -> &'static [u8]
    ensures { result.now ≡ spec.crash_word safe }
{
    if safe {
        b"crash nobody-leads"
    } else {
        b"crash leads"
    }
}

fn stop_word(safe: bool) -> &'static [u8]
    ensures { result.now ≡ spec.stop_word safe }
{
    if safe {
        b"stop nobody-leads"
    } else {
        b"stop leads"
    }
}

#[tactic(auto, unfolding(crate::specs::Lines::crash_line))]
fn add_crash(
    text: &mut Vec<u8>,
    name: &[u8],
    safe: bool,
    crash: Option<Span>,
) -> Result<(), NoMemory>
    ensures { OnOk result (text.new.items ≡ text.old.items ++ spec.crash_line name.now safe crash) }
{
    add(text, name)?;
    add(text, crash_word(safe))?;
    add_span(text, crash)?;
    add(text, b"\n")
}

#[tactic(auto, unfolding(crate::specs::Lines::stop_line))]
fn add_stop(text: &mut Vec<u8>, name: &[u8], safe: bool, stop: Option<Span>) -> Result<(), NoMemory>
    ensures { OnOk result (text.new.items ≡ text.old.items ++ spec.stop_line name.now safe stop) }
{
    add(text, name)?;
    add(text, stop_word(safe))?;
    add_span(text, stop)?;
    add(text, b"\n")
}

#[tactic(auto, unfolding(crate::specs::Lines::cut_off_line))]
fn add_cut_off(text: &mut Vec<u8>, name: &[u8], acts_on: Option<u128>) -> Result<(), NoMemory>
    ensures { OnOk result (text.new.items ≡ text.old.items ++ spec.cut_off_line name.now acts_on) }
{
    add(text, name)?;
    add(text, b"cut-off")?;
    add_acts_on(text, acts_on)?;
    add(text, b"\n")
}

#[tactic(auto, unfolding(crate::specs::Lines::calm_line))]
fn add_calm(
    text: &mut Vec<u8>,
    name: &[u8],
    leads: Option<u128>,
    stays: Option<u128>,
) -> Result<(), NoMemory>
    ensures { OnOk result (text.new.items ≡ text.old.items ++ spec.calm_line name.now leads stays) }
{
    add(text, name)?;
    add(text, b"calm leads")?;
    add_most(text, leads)?;
    add(text, b" stays-from")?;
    add_most(text, stays)?;
    add(text, b"\n")
}

/// Adds the lines on a leader: its crash, its stop, that it is cut off, and a calm span. Each begins with this name.
#[tactic(auto, unfolding(crate::specs::Lines::election_text))]
pub(crate) fn add_election(
    text: &mut Vec<u8>,
    name: &[u8],
    safe: bool,
    election: Election,
) -> Result<(), NoMemory>
    ensures { OnOk result (text.new.items ≡ text.old.items ++ spec.election_text name.now safe election) }
{
    add_crash(text, name, safe, election.crash)?;
    add_stop(text, name, safe, election.stop)?;
    add_cut_off(text, name, election.acts_on)?;
    add_calm(text, name, election.leads, election.stays_from)
}

#[tactic(auto, unfolding(crate::specs::Lines::unknown_line))]
pub(crate) fn add_unknown(text: &mut Vec<u8>, marked: Option<Marked>) -> Result<(), NoMemory>
    ensures { OnOk result (text.new.items ≡ text.old.items ++ spec.unknown_line marked) }
{
    add(text, b"node unknown")?;
    add_mark(text, marked)?;
    add(text, b"\n")
}

#[tactic(auto, unfolding(crate::specs::Lines::tainted_line))]
pub(crate) fn add_tainted(
    text: &mut Vec<u8>,
    ahead: u32,
    tainted: Option<Tainted>,
) -> Result<(), NoMemory>
    ensures { OnOk result (text.new.items ≡ text.old.items ++ spec.tainted_line ahead tainted) }
{
    add(text, b"node tainted ahead=")?;
    add_decimal(text, u128::from(ahead))?;
    add_taint(text, tainted)?;
    add(text, b"\n")
}

#[tactic(auto, unfolding(crate::specs::Lines::gone_line))]
pub(crate) fn add_gone(
    text: &mut Vec<u8>,
    seconds: u64,
    gone: Option<Tainted>,
) -> Result<(), NoMemory>
    ensures { OnOk result (text.new.items ≡ text.old.items ++ spec.gone_line seconds gone) }
{
    add_seconds(text, b"pods gone toleration=", u128::from(seconds))?;
    add_taint(text, gone)?;
    add(text, b"\n")
}

/// The last line.
pub(crate) fn stays_line(stays: bool) -> &'static [u8]
    ensures { result.now ≡ spec.stays_text stays }
{
    if stays { b"stays\n" } else { b"may-end\n" }
}

#[tactic(auto, unfolding(crate::specs::Lines::delay_text))]
pub(crate) fn add_delay(text: &mut Vec<u8>, near: u64, far: u64) -> Result<(), NoMemory>
    ensures { OnOk result (text.new.items ≡ text.old.items ++ spec.delay_text near far) }
{
    add(text, b"delay=")?;
    add_decimal(text, u128::from(near))?;
    add(text, b"ms..")?;
    add_decimal(text, u128::from(far))?;
    add(text, b"ms")
}

/// Adds which settings were taken.
#[tactic(auto, unfolding(crate::specs::Lines::taken_text))]
pub(crate) fn add_taken(text: &mut Vec<u8>, s: Settings) -> Result<(), NoMemory>
    requires { AreGiven s }
    ensures { OnOk result (text.new.items ≡ text.old.items ++ spec.taken_text s) }
{
    let retry = s.flags.retry_millis;
    add_millis(text, b"timeout=", u128::from(s.flags.timeout()))?;
    add(text, origin(s.flags.timeout_millis))?;
    add_millis(text, b" wait=", u128::from(retry))?;
    add_millis(text, b"..", u128::from(s.wait_millis.unwrap_or(retry)))?;
    add(text, b" ")?;
    add_delay(text, s.near_millis(), s.far_millis())?;
    add(text, b" skew=")?;
    add_decimal(text, u128::from(s.flags.skew_ppm))?;
    add(text, b"ppm\n")
}
