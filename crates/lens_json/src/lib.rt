//! JSON on one line: texts in quotation marks, objects with their members in order, and a whole answer: one object, whose members are values,
//! objects and lists of objects.
#![tactic(auto)]

mod member;
mod object;
mod part;
mod parts;
mod quoting;
mod value;

pub use member::{Member, Value};
pub use object::add_object;
pub use part::{Object, Part, What};
pub use parts::add_parts;
pub use quoting::add_quoted;
pub use value::add_value;
