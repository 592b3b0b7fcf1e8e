// Who leads in a trace as JSON: the command `leaders --json`, from bytes to text.

mod answering;
mod lasting;
mod parts;

pub use answering::leaders_in;
pub use lasting::Lasting;
pub use parts::terms_in;
