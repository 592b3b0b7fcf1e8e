// Why a look-up isn't answered.

/// The term has had no sync yet.
#[derive(Clone, Copy, Debug, PartialEq, Eq)]
pub struct NotSynced;

/// Why a list isn't given: the term has had no sync yet, or memory was wanting.
#[derive(Clone, Copy, Debug, PartialEq, Eq)]
pub enum ListFault {
    NotSynced,
    NoMemory,
}
