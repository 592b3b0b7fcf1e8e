// The lines of a trace as JSON objects: the command `lines --json`, from bytes to text.

mod answering;
mod header;
mod line;
mod members;
mod said;

pub use answering::lines_in;
pub use header::premise_word;
pub use said::kind_word;
