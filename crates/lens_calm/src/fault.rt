// What is wrong with words.
use crate::setting::Setting;
use lens_room::by_flags::{Misread, Wrong};

/// What is wrong with the words behind the command.
#[derive(Clone, Copy)]
pub enum Fault {
    /// A word can't be read.
    Words(Misread<Setting>),
    /// The election's timings don't fit each other.
    Unruly(Wrong),
    /// The longest wait is shorter than the retry period.
    ShortWait,
    /// The greatest delay is shorter than the least.
    ShortDelay,
}
