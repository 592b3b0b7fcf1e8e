// How a term ends.
ghost use Rattle.std.specs.Prelude.{◌≡◌};
ghost use Rattle.lens_terms.specs.Terms as spec;

/// How a term ends before the trace does.
#[derive(Clone, Copy)]
pub enum Ending {
    /// An `end` line: a leader gives up.
    End,
    /// A `stop` line: it is stopped in good order.
    Stop,
    /// A `crash` line: it is killed.
    Crash,
}

/// The line that ends a term: its beat, and how.
#[derive(Clone, Copy)]
pub struct Closing {
    pub beat: u32,
    pub how: Ending,
}

/// The word for how a term ends: that of the line that ends it, or `trace-end`.
pub fn ended(closing: Option<Closing>) -> &'static [u8]
    ensures { result.now ≡ spec.ended closing }
{
    match closing {
        None => b"trace-end",
        Some(closing) => ending_word(closing.how),
    }
}

fn ending_word(ending: Ending) -> &'static [u8]
    ensures { result.now ≡ spec.ending_word ending }
{
    match ending {
        Ending::End => b"end",
        Ending::Stop => b"stop",
        Ending::Crash => b"crash",
    }
}
