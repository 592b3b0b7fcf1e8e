// How a run ends.

/// What a finished answer comes to.
#[derive(Clone, Copy, PartialEq, Eq)]
pub enum Verdict {
    /// What was asked is told, and it is neither good nor bad.
    Done,
    /// What was asked holds, as that every lease is long enough.
    Safe,
    /// What was asked doesn't hold.
    Unsafe,
    /// The input was refused, and the line that says so was written.
    Refused,
    /// The words are no command, and the line that says so was written.
    Usage,
}

/// How a run ends.
#[derive(Clone, Copy, PartialEq, Eq)]
pub enum Status {
    /// The whole text of an answer was written.
    Answered(Verdict),
    /// The source failed. Nothing was written.
    SourceFault,
    /// The sink failed. A prefix of the text was written.
    SinkFault,
    /// Memory was wanted and not given. Nothing was written, or of what is written as it grows a prefix.
    OutOfMemory,
}
