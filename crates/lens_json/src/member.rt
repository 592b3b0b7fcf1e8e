// A member of an object.
ghost use Rattle.std.specs.Prelude.{◌≡◌};
ghost use Rattle.lens_json.specs.Members as spec;

/// What a member has.
#[derive(Clone, Copy)]
pub enum Value<'a> {
    Nothing,
    Truth(bool),
    Number(u64),
    /// A number that may have more than 64 bits.
    Large(u128),
    /// A number below 0, by how much.
    Below(u128),
    Text(&'a [u8]),
}

/// A member of an object: its name, and what it has.
#[derive(Clone, Copy)]
pub struct Member<'a> {
    pub name: &'a [u8],
    pub value: Value<'a>,
}

impl<'a> Member<'a> {
    /// A member that is a number.
    pub fn number(name: &'a [u8], number: u64) -> Member<'a>
        ensures { spec.named result ≡ spec.nat name.now number }
    {
        Member {
            name,
            value: Value::Number(number),
        }
    }

    /// A member that is a text.
    pub fn text(name: &'a [u8], text: &'a [u8]) -> Member<'a>
        ensures { spec.named result ≡ spec.text name.now text.now }
    {
        Member {
            name,
            value: Value::Text(text),
        }
    }
}
