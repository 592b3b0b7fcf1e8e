// A member of a whole answer.
use crate::member::{Member, Value};

/// An object: its members in order.
#[derive(Drop)]
pub struct Object<'a> {
    pub members: Vec<Member<'a>>,
}

/// What a member of an answer has.
#[derive(Drop)]
pub enum What<'a> {
    Value(Value<'a>),
    Object(Object<'a>),
    List(Vec<Object<'a>>),
}

/// A member of an answer: its name, and what it has.
#[derive(Drop)]
pub struct Part<'a> {
    pub name: &'a [u8],
    pub what: What<'a>,
}
