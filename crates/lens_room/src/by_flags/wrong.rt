// What is wrong with words.
use crate::by_flags::misread::Misread;
use crate::by_flags::setting::Setting;

/// What is wrong with the words behind the command.
#[derive(Clone, Copy)]
pub enum Wrong {
    /// A word can't be read.
    Words(Misread<Setting>),
    /// The renew deadline isn't shorter than the lease.
    LongRenew,
    /// The retry period isn't shorter than five sixths of the renew deadline.
    LongRetry,
    /// The renew deadline, if it stands for the call timeout, is longer than ten minutes.
    LongTimeout,
    /// A leader acts in its release, and has none.
    NoRelease,
}
