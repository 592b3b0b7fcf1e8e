// Why a document or a manifest is refused, as a number.

/// The bytes are no JSON text in UTF-8, or nest too deep.
pub const BAD_JSON: u32 = 1;

/// The value is no object, or has another version.
pub const TOP_SHAPE: u32 = 2;

/// An object has a key that its table lacks.
pub const UNKNOWN_KEY: u32 = 3;

/// A required key is missing.
pub const MISSING_KEY: u32 = 4;

/// A value has the wrong JSON type.
pub const WRONG_TYPE: u32 = 5;

/// A value is outside its range or grammar.
pub const OUT_OF_RANGE: u32 = 6;

/// Timings or rates that contradict one another.
pub const BAD_SETTINGS: u32 = 7;

/// An event names no process of the document, or one of the wrong sort.
pub const UNKNOWN_PROCESS: u32 = 8;

/// An event is before an earlier one, or after the end.
pub const EVENT_ORDER: u32 = 9;

/// A manifest's field has the wrong JSON type.
pub const WRONG_JSON: u32 = 10;

/// An object of no kind that is read.
pub const BAD_KIND: u32 = 11;

/// A name or namespace outside the grammar of names.
pub const BAD_NAME: u32 = 12;

/// A time outside the grammar of times.
pub const BAD_TIME: u32 = 13;

/// A number outside its range.
pub const BAD_NUMBER: u32 = 14;

/// An effect that there is not.
pub const BAD_EFFECT: u32 = 15;

/// An operator that there is not.
pub const BAD_OPERATOR: u32 = 16;

/// A toleration's parts contradict one another.
pub const BAD_TOLERATION: u32 = 17;

/// A status of Ready that there is not.
pub const BAD_READY_STATUS: u32 = 18;

/// A taint with the key and effect of an earlier one.
pub const DUPLICATE_TAINT: u32 = 19;

/// A label outside its grammar.
pub const BAD_LABEL: u32 = 20;

/// A taint's key is missing or empty.
pub const BAD_TAINT_KEY: u32 = 21;

/// An event puts or removes the election Lease.
pub const ELECTION_LEASE_EDIT: u32 = 30;

/// A name or a key that stands there already.
pub const DUPLICATE: u32 = 31;

/// An array or a kind with too many members.
pub const TOO_MANY: u32 = 32;

/// A form of a document that is named, and that nothing runs yet.
pub const NOT_BUILT: u32 = 99;
