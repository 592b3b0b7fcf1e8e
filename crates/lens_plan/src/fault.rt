// What is wrong with words.
use crate::setting::Setting;
use lens_room::by_flags::Misread;

/// What is wrong with the words behind the command.
#[derive(Clone, Copy)]
pub enum Fault {
    /// A word can't be read.
    Words(Misread<Setting>),
    /// No word says how soon somebody else has to lead.
    NoFailover,
}
