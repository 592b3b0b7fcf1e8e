// The grammars of names and of label values. `trace_lines` has a grammar of names too, and shares nothing with this one on purpose: the audit of a trace
// shares no code with what reads documents and writes traces, so that a fault here can't hide itself there.
ghost use Rattle.std.specs.Prelude.{◌≡◌};
ghost use Rattle.std.specs.List.{list_all};
ghost use Rattle.manifest_json.specs.Fields as spec;

/// Whether a text is an RFC 1123 subdomain of 1 to 253 bytes.
pub fn is_name(text: &str) -> bool
    ensures { result ≡ spec.is_name text.now }
{
    match text.as_bytes().split_first() {
        Some((first, rest)) => {
            rest.len() <= 252 && is_small_letter_or_digit(*first) && is_name_rest(*first, rest)
        }
        None => false,
    }
}

fn is_name_rest(first: u8, rest: &[u8]) -> bool
    ensures { result ≡ spec.is_name_rest first rest.now }
{
    let mut last = first;
    for byte in rest {
        if !may_follow(last, *byte) {
            return false;
        }
        last = *byte;
    }
    is_small_letter_or_digit(last)
}

fn may_follow(last: u8, byte: u8) -> bool
    ensures { result ≡ spec.may_follow last byte }
{
    let known = is_small_letter_or_digit(byte) || byte == b'-' || byte == b'.';
    known
        && (byte != b'.' || is_small_letter_or_digit(last))
        && (last != b'.' || is_small_letter_or_digit(byte))
}

fn is_small_letter_or_digit(byte: u8) -> bool
    ensures { result ≡ spec.is_small_letter_or_digit byte }
{
    byte.is_ascii_lowercase() || byte.is_ascii_digit()
}

/// Whether a text is empty or a label's value of at most 63 bytes.
pub(crate) fn is_label(text: &str) -> bool
    ensures { result ≡ spec.is_label text.now }
{
    let bytes = text.as_bytes();
    if bytes.len() == 0 {
        return true;
    }
    if bytes.len() > 63 {
        return false;
    }
    are_label_bytes(bytes)
        && is_letter_or_digit(bytes[0])
        && is_letter_or_digit(bytes[bytes.len() - 1])
}

fn are_label_bytes(bytes: &[u8]) -> bool
    ensures { result ≡ list_all spec.is_label_byte bytes.now }
{
    bytes.iter().all(|byte| is_label_byte(*byte))
}

fn is_label_byte(byte: u8) -> bool
    ensures { result ≡ spec.is_label_byte byte }
{
    is_letter_or_digit(byte) || byte == b'-' || byte == b'_' || byte == b'.'
}

fn is_letter_or_digit(byte: u8) -> bool
    ensures { result ≡ spec.is_letter_or_digit byte }
{
    byte.is_ascii_lowercase() || byte.is_ascii_uppercase() || byte.is_ascii_digit()
}
