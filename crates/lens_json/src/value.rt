// The text of what a member has.
ghost use Rattle.std.specs.Prelude.{◌≡◌, ◌++◌, OnOk, decimal, neg_ℤ, pos};
ghost use Rattle.std.specs.Fmt.{signed_decimal};
ghost use Rattle.serde_json.specs.Data.{boolean};
ghost use Rattle.serde_json.specs.Written.{compact_text};
ghost use Rattle.lens_json.specs.Members.{data_of};

use crate::member::Value;
use crate::quoting::add_quoted;
use itoa::Buffer;
use kube_base::NoMemory;
use trace_writer::{add, add_number};

/// Adds what a member has.
pub fn add_value(text: &mut Vec<u8>, value: Value<'_>) -> Result<(), NoMemory>
    ensures { OnOk result (text.new.items ≡ text.old.items ++ compact_text (data_of value.entry)) }
{
    match value {
        Value::Nothing => add(text, b"null"),
        Value::Truth(truth) => add(text, truth_word(truth)),
        Value::Number(number) => add_number(text, number),
        Value::Large(number) => add_large(text, number),
        Value::Below(amount) => add_below(text, amount),
        Value::Text(shown) => add_quoted(text, shown),
    }
}

fn truth_word(truth: bool) -> &'static [u8]
    ensures { result.now ≡ compact_text (boolean truth) }
{
    if truth { b"true" } else { b"false" }
}

/// Adds a number in decimal.
fn add_large(text: &mut Vec<u8>, number: u128) -> Result<(), NoMemory>
    ensures { OnOk result (text.new.items ≡ text.old.items ++ decimal number) }
{
    let mut buffer = Buffer::new();
    add(text, buffer.format(number).as_bytes())
}

/// Adds the number that is so much below 0. That of 0 is 0, without a sign.
#[tactic(auto, using(crate::proofs::Below::below_written, crate::proofs::Below::nothing_written))]
fn add_below(text: &mut Vec<u8>, amount: u128) -> Result<(), NoMemory>
    ensures { OnOk result (text.new.items ≡ text.old.items ++ signed_decimal (neg_ℤ (pos amount))) }
{
    if amount == 0 {
        return add_large(text, amount);
    }
    add(text, b"-")?;
    add_large(text, amount)
}
