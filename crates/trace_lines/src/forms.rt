// The lines of a trace behind the first, each of one form.
ghost use Rattle.std.specs.Prelude.{◌≡◌, ◌≤◌, IfSome, MatchOption, Some, None};
ghost use Rattle.trace_lines.specs.Forms as spec;
ghost use Rattle.trace_lines.specs.Grammar.{cut};
ghost use Rattle.trace_lines.specs.Reads.{Reads, said, seen};

use crate::grammar::{
    cut, is, is_key, is_name, is_second, is_spaced, is_zone, labelled_number, number,
};
use crate::header::{LAST_BEAT, behind};
use crate::line::{Answer, Line, Says, Verb};

/// Who may act.
#[derive(Clone, Copy)]
pub(crate) enum Sort {
    Script,
    Controller,
    Kubelet,
}

/// What a line behind the first says, without its line feed, if it is of a form.
#[tactic(auto, unfolding(crate::specs::Forms::line_of))]
pub fn read_line(text: &[u8]) -> Option<Line<&[u8]>>
    ensures line { Reads seen result (spec.line_of text.now) }
    ensures beat { IfSome result (λ line. line.beat ≤ 604800000) }
{
    let (beat, rest) = cut(text, b' ')?;
    let beat = number(beat, LAST_BEAT)?;
    let (actor, rest) = cut(rest, b' ')?;
    let sort = sort_of(actor)?;
    let says = says_of(sort, rest)?;
    Some(Line {
        beat: beat as u32,
        actor,
        says,
    })
}

#[tactic(auto, unfolding(crate::specs::Forms::sort_of))]
fn sort_of(actor: &[u8]) -> Option<Sort>
    ensures { result ≡ spec.sort_of actor.now }
{
    if is(actor, b"script") {
        Some(Sort::Script)
    } else {
        identity(actor)
    }
}

#[tactic(auto, unfolding(crate::specs::Forms::identity))]
fn identity(text: &[u8]) -> Option<Sort>
    ensures { result ≡ spec.identity text.now }
{
    let (name, start) = cut(text, b'_')?;
    let start = number(start, 4_294_967_295)?;
    if start == 0 { None } else { process(name) }
}

fn process(name: &[u8]) -> Option<Sort>
    ensures { result ≡ spec.process_from name.now (cut 47 name.now) }
{
    match cut(name, b'/') {
        Some((kind, node)) => if is(kind, b"kubelet") && is_name(node) {
            Some(Sort::Kubelet)
        } else {
            None
        },
        None => if is_name(name) {
            Some(Sort::Controller)
        } else {
            None
        },
    }
}

#[tactic(auto, unfolding(crate::specs::Forms::says_of))]
fn says_of(sort: Sort, text: &[u8]) -> Option<Says<&[u8]>>
    ensures { Reads said result (spec.says_of sort text.now) }
{
    match cut(text, b' ') {
        Some((word, rest)) => form(sort, word, rest),
        None => bare(sort, text),
    }
}

fn bare(sort: Sort, word: &[u8]) -> Option<Says<&[u8]>>
    ensures { Reads said result (spec.bare sort word.now) }
{
    match sort {
        Sort::Script => None,
        Sort::Kubelet => start_or_crash(word),
        Sort::Controller => if is(word, b"start") {
            Some(Says::Start)
        } else if is(word, b"crash") {
            Some(Says::Crash)
        } else if is(word, b"stop") {
            Some(Says::Stop)
        } else if is(word, b"end") {
            Some(Says::End)
        } else {
            None
        },
    }
}

fn start_or_crash(word: &[u8]) -> Option<Says<&[u8]>>
    ensures { Reads said result (spec.bare Sort.Kubelet word.now) }
{
    if is(word, b"start") {
        Some(Says::Start)
    } else if is(word, b"crash") {
        Some(Says::Crash)
    } else {
        None
    }
}

fn form<'a>(sort: Sort, word: &[u8], text: &'a [u8]) -> Option<Says<&'a [u8]>>
    ensures { Reads said result (spec.form sort word.now text.now) }
{
    match sort {
        Sort::Script => by_script(word, text),
        Sort::Kubelet => by_kubelet(word, text),
        Sort::Controller => by_controller(word, text),
    }
}

#[tactic(auto, unfolding(crate::specs::Forms::by_script))]
fn by_script<'a>(word: &[u8], text: &'a [u8]) -> Option<Says<&'a [u8]>>
    ensures { Reads said result (spec.by_script word.now text.now) }
{
    if is(word, b"put") {
        put(text)
    } else if is(word, b"remove") {
        remove(text)
    } else if is(word, b"stall") {
        stall(text)
    } else {
        None
    }
}

#[tactic(auto, unfolding(crate::specs::Forms::stall))]
fn stall(text: &[u8]) -> Option<Says<&[u8]>>
    ensures { Reads said result (spec.stall text.now) }
{
    let beats = some_beats(text)?;
    Some(Says::Stall(beats))
}

#[tactic(auto, unfolding(crate::specs::Forms::put))]
fn put(text: &[u8]) -> Option<Says<&[u8]>>
    ensures { Reads said result (spec.put text.now) }
{
    let (key, version) = script_write(text)?;
    Some(Says::Put(key, version))
}

#[tactic(auto, unfolding(crate::specs::Forms::remove))]
fn remove(text: &[u8]) -> Option<Says<&[u8]>>
    ensures { Reads said result (spec.remove text.now) }
{
    let (key, version) = script_write(text)?;
    Some(Says::Remove(key, version))
}

#[tactic(auto, unfolding(crate::specs::Forms::script_write))]
fn script_write(text: &[u8]) -> Option<(&[u8], u64)>
    ensures { Reads (λ w. (w.0.now, w.1)) result (spec.script_write text.now) }
{
    let (key, rest) = cut(text, b' ')?;
    let version = version(rest)?;
    if is_key(key) {
        Some((key, version))
    } else {
        None
    }
}

#[tactic(auto, unfolding(crate::specs::Forms::by_kubelet))]
fn by_kubelet<'a>(word: &[u8], text: &'a [u8]) -> Option<Says<&'a [u8]>>
    ensures { Reads said result (spec.by_kubelet word.now text.now) }
{
    if is(word, b"status") {
        status(text)
    } else if is(word, b"create") {
        node_lease(Verb::Create, text)
    } else if is(word, b"update") {
        node_lease(Verb::Update, text)
    } else if is(word, b"pause") {
        pause(text)
    } else {
        None
    }
}

#[tactic(auto, unfolding(crate::specs::Forms::pause))]
fn pause(text: &[u8]) -> Option<Says<&[u8]>>
    ensures { Reads said result (spec.pause text.now) }
{
    let beats = some_beats(text)?;
    Some(Says::Pause(beats))
}

/// `beats=N`, 1 to 604,800,000
#[tactic(auto, unfolding(crate::specs::Forms::some_beats))]
fn some_beats(text: &[u8]) -> Option<u32>
    ensures { result ≡ spec.some_beats text.now }
{
    let beats = labelled_number(text, b"beats", LAST_BEAT)?;
    if beats == 0 { None } else { Some(beats as u32) }
}

#[tactic(auto, unfolding(crate::specs::Forms::status))]
fn status(text: &[u8]) -> Option<Says<&[u8]>>
    ensures { Reads said result (spec.status text.now) }
{
    let (node, rest) = cut(text, b' ')?;
    let (word, rest) = cut(rest, b' ')?;
    let ready = truth(word)?;
    let answer = answer_of(rest)?;
    if is_name(node) && is_posted(answer) {
        Some(Says::Status(node, ready, answer))
    } else {
        None
    }
}

fn truth(text: &[u8]) -> Option<bool>
    ensures { result ≡ spec.truth text.now }
{
    if is(text, b"True") {
        Some(true)
    } else if is(text, b"False") {
        Some(false)
    } else {
        None
    }
}

fn is_posted(answer: Answer) -> bool
    ensures { result ≡ spec.is_posted answer }
{
    match answer {
        Answer::Done(_) => true,
        Answer::Absent => true,
        Answer::Conflict(_) => false,
        Answer::Exists => false,
    }
}

#[tactic(auto, unfolding(crate::specs::Forms::node_lease))]
fn node_lease(verb: Verb, text: &[u8]) -> Option<Says<&[u8]>>
    ensures { Reads said result (spec.node_lease verb text.now) }
{
    let rest = behind(text, b"nodelease")?;
    let (node, rest) = cut(rest, b' ')?;
    let answer = answer_of(rest)?;
    if is_name(node) && is_told(verb, answer) {
        Some(Says::NodeLease(verb, node, answer))
    } else {
        None
    }
}

fn is_told(verb: Verb, answer: Answer) -> bool
    ensures { result ≡ spec.is_told verb answer }
{
    match (verb, answer) {
        (Verb::Create, Answer::Done(_)) => true,
        (Verb::Create, Answer::Exists) => true,
        (Verb::Create, _) => false,
        (Verb::Update, _) => refuses(verb, answer),
    }
}

fn refuses(verb: Verb, answer: Answer) -> bool
    ensures { result ≡ spec.refuses verb answer }
{
    match answer {
        Answer::Done(_) => false,
        Answer::Exists => verb == Verb::Create,
        Answer::Conflict(_) => verb == Verb::Update,
        Answer::Absent => verb == Verb::Update,
    }
}

#[tactic(auto, unfolding(crate::specs::Forms::by_controller))]
fn by_controller<'a>(word: &[u8], text: &'a [u8]) -> Option<Says<&'a [u8]>>
    ensures { Reads said result (spec.by_controller word.now text.now) }
{
    if is(word, b"update") {
        election(Verb::Update, text)
    } else if is(word, b"create") {
        election(Verb::Create, text)
    } else if is(word, b"lead") {
        lead(text)
    } else if is(word, b"pause") {
        pause(text)
    } else {
        by_leader(word, text)
    }
}

#[tactic(auto, unfolding(crate::specs::Forms::election))]
fn election(verb: Verb, text: &[u8]) -> Option<Says<&[u8]>>
    ensures { Reads said result (spec.election verb text.now) }
{
    let rest = behind(text, b"election")?;
    match version_and_transitions(rest) {
        Some((version, transitions)) => Some(Says::Election(
            verb,
            Answer::Done(version),
            transitions,
        )),
        None => refused_election(verb, rest),
    }
}

#[tactic(auto, unfolding(crate::specs::Forms::refused_election))]
fn refused_election(verb: Verb, text: &[u8]) -> Option<Says<&[u8]>>
    ensures { Reads said result (spec.refused_election verb text.now) }
{
    let answer = answer_of(text)?;
    if refuses(verb, answer) {
        Some(Says::Election(verb, answer, 0))
    } else {
        None
    }
}

/// `v=N t=T`
#[tactic(auto, unfolding(crate::specs::Forms::version_and_transitions))]
fn version_and_transitions(text: &[u8]) -> Option<(u64, u32)>
    ensures { result ≡ spec.version_and_transitions text.now }
{
    let (word, rest) = cut(text, b' ')?;
    let version = version(word)?;
    let transitions = labelled_number(rest, b"t", 2_147_483_647)?;
    Some((version, transitions as u32))
}

#[tactic(auto, unfolding(crate::specs::Forms::lead))]
fn lead(text: &[u8]) -> Option<Says<&[u8]>>
    ensures { Reads said result (spec.lead text.now) }
{
    let version = version(text)?;
    Some(Says::Lead(version))
}

#[tactic(auto, unfolding(crate::specs::Forms::by_leader))]
fn by_leader<'a>(word: &[u8], text: &'a [u8]) -> Option<Says<&'a [u8]>>
    ensures { Reads said result (spec.by_leader word.now text.now) }
{
    if is(word, b"taint") {
        taint(text)
    } else if is(word, b"evict") {
        evict(text)
    } else if is(word, b"unknown") {
        unknown(text)
    } else if is(word, b"untaint") {
        untaint(text)
    } else if is(word, b"swap") {
        swap(text)
    } else if is(word, b"zone") {
        zone(text)
    } else if is(word, b"mode") {
        mode(text)
    } else {
        None
    }
}

#[tactic(auto, unfolding(crate::specs::Forms::taint))]
fn taint(text: &[u8]) -> Option<Says<&[u8]>>
    ensures { Reads said result (spec.taint text.now) }
{
    let (node, word, answer) = node_taint(text)?;
    Some(Says::Taint(node, word, answer))
}

#[tactic(auto, unfolding(crate::specs::Forms::swap))]
fn swap(text: &[u8]) -> Option<Says<&[u8]>>
    ensures { Reads said result (spec.swap text.now) }
{
    let (node, word, answer) = node_taint(text)?;
    Some(Says::Swap(node, word, answer))
}

#[tactic(auto, unfolding(crate::specs::Forms::unknown))]
fn unknown(text: &[u8]) -> Option<Says<&[u8]>>
    ensures { Reads said result (spec.unknown text.now) }
{
    let (node, word, answer) = node_word(text)?;
    if is_reason(word) {
        Some(Says::Unknown(node, word, answer))
    } else {
        None
    }
}

#[tactic(auto, unfolding(crate::specs::Forms::node_taint))]
fn node_taint(text: &[u8]) -> Option<(&[u8], &[u8], Answer)>
    ensures { Reads (λ p. (p.0.now, p.1.now, p.2)) result (spec.node_taint text.now) }
{
    let (node, word, answer) = node_word(text)?;
    if is_taint(word) {
        Some((node, word, answer))
    } else {
        None
    }
}

/// `NODE WORD A`
#[tactic(auto, unfolding(crate::specs::Forms::node_word))]
fn node_word(text: &[u8]) -> Option<(&[u8], &[u8], Answer)>
    ensures { Reads (λ p. (p.0.now, p.1.now, p.2)) result (spec.node_word text.now) }
{
    let (node, rest) = cut(text, b' ')?;
    let (word, rest) = cut(rest, b' ')?;
    let answer = change_of(rest)?;
    if is_name(node) {
        Some((node, word, answer))
    } else {
        None
    }
}

fn is_reason(text: &[u8]) -> bool
    ensures { result ≡ spec.is_reason text.now }
{
    is(text, b"NodeStatusUnknown") || is(text, b"NodeStatusNeverUpdated")
}

fn is_taint(text: &[u8]) -> bool
    ensures { result ≡ spec.is_taint text.now }
{
    is(text, b"not-ready") || is(text, b"unreachable")
}

fn is_state(text: &[u8]) -> bool
    ensures { result ≡ spec.is_state text.now }
{
    is(text, b"Normal") || is(text, b"PartialDisruption") || is(text, b"FullDisruption")
}

#[tactic(auto, unfolding(crate::specs::Forms::mode))]
fn mode(text: &[u8]) -> Option<Says<&[u8]>>
    ensures { Reads said result (spec.mode text.now) }
{
    if is(text, b"on") {
        Some(Says::Mode(true))
    } else if is(text, b"off") {
        Some(Says::Mode(false))
    } else {
        None
    }
}

#[tactic(auto, unfolding(crate::specs::Forms::zone))]
fn zone(text: &[u8]) -> Option<Says<&[u8]>>
    ensures { Reads said result (spec.zone text.now) }
{
    let (place, rest) = cut(text, b' ')?;
    let (state, rest) = cut(rest, b' ')?;
    let rate = labelled_number(rest, b"rate", 1_000_000)?;
    if is_zone(place) && is_state(state) {
        Some(Says::Zone(place, state, rate as u32))
    } else {
        None
    }
}

#[tactic(auto, unfolding(crate::specs::Forms::untaint))]
fn untaint(text: &[u8]) -> Option<Says<&[u8]>>
    ensures { Reads said result (spec.untaint text.now) }
{
    let (node, rest) = cut(text, b' ')?;
    let answer = change_of(rest)?;
    if is_name(node) {
        Some(Says::Untaint(node, answer))
    } else {
        None
    }
}

#[tactic(auto, unfolding(crate::specs::Forms::evict))]
fn evict(text: &[u8]) -> Option<Says<&[u8]>>
    ensures { Reads said result (spec.evict text.now) }
{
    let (pod, rest) = cut(text, b' ')?;
    let (word, rest) = cut(rest, b' ')?;
    let time = due(word)?;
    let answer = change_of(rest)?;
    if is_spaced(pod) {
        Some(Says::Evict(pod, time, answer))
    } else {
        None
    }
}

#[tactic(auto, unfolding(crate::specs::Forms::due))]
fn due(text: &[u8]) -> Option<&[u8]>
    ensures { Reads (λ t. t.now) result (spec.due text.now) }
{
    let (label, time) = cut(text, b'=')?;
    if is(label, b"due") && is_second(time) {
        Some(time)
    } else {
        None
    }
}

/// `v=N`
fn version(text: &[u8]) -> Option<u64>
    ensures { result ≡ spec.version text.now }
{
    labelled_number(text, b"v", u64::MAX)
}

/// An answer other than `exists`.
#[tactic(auto, unfolding(crate::specs::Forms::change_of))]
fn change_of(text: &[u8]) -> Option<Answer>
    ensures { result ≡ spec.change_of text.now }
{
    match answer_of(text)? {
        Answer::Exists => None,
        answer => Some(answer),
    }
}

/// `v=N`, `conflict v=N`, `absent` or `exists`
#[tactic(auto, unfolding(crate::specs::Forms::answer_of))]
fn answer_of(text: &[u8]) -> Option<Answer>
    ensures { result ≡ spec.answer_of text.now }
{
    match cut(text, b' ') {
        Some((word, rest)) => if is(word, b"conflict") {
            let version = version(rest)?;
            Some(Answer::Conflict(version))
        } else {
            None
        },
        None => one_word(text),
    }
}

fn one_word(text: &[u8]) -> Option<Answer>
    ensures { result ≡ spec.one_word text.now }
{
    if is(text, b"absent") {
        return Some(Answer::Absent);
    }
    if is(text, b"exists") {
        return Some(Answer::Exists);
    }
    let version = version(text)?;
    Some(Answer::Done(version))
}
