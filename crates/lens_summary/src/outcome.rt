// What a line is, and how what it writes was answered.
ghost use Rattle.std.specs.Prelude.{◌≡◌};
ghost use Rattle.trace_lines.specs.Reads.{said};
ghost use Rattle.lens_summary.specs.Outcomes as spec;

use lens_trace::lines::kind_word;
use trace_lines::{Answer, Says, Verb};

/// How what a line writes was answered.
#[derive(Clone, Copy)]
pub(crate) enum Outcome {
    /// It writes nothing.
    Unasked,
    /// It was taken.
    Written,
    /// Another version is stored.
    Conflict,
    /// Nothing is stored there.
    Absent,
    /// Something is stored there already.
    Exists,
}

pub(crate) fn by_answer(answer: Answer) -> Outcome
    ensures { result ≡ spec.by_answer answer }
{
    match answer {
        Answer::Done(_) => Outcome::Written,
        Answer::Conflict(_) => Outcome::Conflict,
        Answer::Absent => Outcome::Absent,
        Answer::Exists => Outcome::Exists,
    }
}

/// How what a line writes was answered.
pub(crate) fn outcome_of(says: &Says<&[u8]>) -> Outcome
    ensures { result ≡ spec.outcome_of (said says.now) }
{
    match says {
        Says::Start => Outcome::Unasked,
        Says::Crash => Outcome::Unasked,
        Says::Stop => Outcome::Unasked,
        Says::End => Outcome::Unasked,
        Says::Pause(_) => Outcome::Unasked,
        Says::Stall(_) => Outcome::Unasked,
        Says::Lead(_) => Outcome::Unasked,
        Says::Election(_, answer, _) => by_answer(*answer),
        Says::NodeLease(_, _, answer) => by_answer(*answer),
        Says::Status(_, _, answer) => by_answer(*answer),
        Says::Put(_, _) => Outcome::Written,
        Says::Remove(_, _) => Outcome::Written,
        Says::Unknown(_, _, answer) => by_answer(*answer),
        Says::Mode(_) => Outcome::Unasked,
        Says::Zone(_, _, _) => Outcome::Unasked,
        Says::Taint(_, _, answer) => by_answer(*answer),
        Says::Swap(_, _, answer) => by_answer(*answer),
        Says::Untaint(_, answer) => by_answer(*answer),
        Says::Evict(_, _, answer) => by_answer(*answer),
    }
}

/// The word for what a line is.
pub(crate) fn word_of(says: &Says<&[u8]>) -> &'static [u8]
    ensures { result.now ≡ spec.word_of (said says.now) }
{
    match says {
        Says::Election(Verb::Create, _, _) => b"create-election",
        Says::Election(Verb::Update, _, _) => b"update-election",
        Says::NodeLease(_, _, _) => b"nodelease",
        _ => kind_word(says),
    }
}

/// Whether two outcomes are the same answer to a write.
pub(crate) fn is_same(one: Outcome, other: Outcome) -> bool
    ensures { result ≡ spec.same one other }
{
    match one {
        Outcome::Unasked => false,
        Outcome::Written => matches!(other, Outcome::Written),
        Outcome::Conflict => matches!(other, Outcome::Conflict),
        Outcome::Absent => matches!(other, Outcome::Absent),
        Outcome::Exists => matches!(other, Outcome::Exists),
    }
}
