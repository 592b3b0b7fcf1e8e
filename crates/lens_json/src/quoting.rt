// Texts in quotation marks.
ghost use Rattle.std.specs.Prelude.{◌≡◌, ◌<◌, ◌++◌, OnOk};
ghost use Rattle.std.specs.Char.{digit_char};
ghost use Rattle.json.specs.Print.{escape_byte, escape_letter, quoted};

use kube_base::NoMemory;
use trace_writer::add;

/// Adds a text in quotation marks. A mark, a backslash and a control byte are written as RFC 8259 has them in a string, all else as it is.
pub fn add_quoted(text: &mut Vec<u8>, shown: &[u8]) -> Result<(), NoMemory>
    ensures { OnOk result (text.new.items ≡ text.old.items ++ quoted shown.now) }
{
    text.push(b'"')?;
    for byte in shown {
        add_escaped(text, *byte)?;
    }
    text.push(b'"')?;
    Ok(())
}

/// Adds a byte of a string.
#[tactic(auto, unfolding(json::specs::Print::escape_byte))]
fn add_escaped(text: &mut Vec<u8>, byte: u8) -> Result<(), NoMemory>
    ensures { OnOk result (text.new.items ≡ text.old.items ++ escape_byte byte) }
{
    let letter = letter(byte);
    if letter > 0 {
        add(text, &[b'\\', letter])
    } else if byte < 0x20 {
        add(
            text,
            &[b'\\', b'u', b'0', b'0', hex(byte / 16), hex(byte % 16)],
        )
    } else {
        text.push(byte)?;
        Ok(())
    }
}

/// The letter of a byte's short form, 0 if it has none.
fn letter(byte: u8) -> u8
    ensures { result ≡ escape_letter byte }
{
    match byte {
        b'"' | b'\\' => byte,
        8 => b'b',
        12 => b'f',
        b'\n' => b'n',
        b'\r' => b'r',
        b'\t' => b't',
        _ => 0,
    }
}

fn hex(digit: u8) -> u8
    requires { digit < 16 }
    ensures { result ≡ digit_char digit }
{
    if digit < 10 {
        b'0' + digit
    } else {
        b'a' - 10 + digit
    }
}
