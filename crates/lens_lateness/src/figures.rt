// The same as JSON: the command `summary --document --json`, from bytes to text.

mod answering;
mod objects;

pub use answering::figures_of;
