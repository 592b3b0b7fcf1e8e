// The small parts of a trace's lines: words, numbers, names and labels. `manifest_json` has a grammar of names too, and this one shares nothing with it
// on purpose: the audit of a trace shares no code with what reads documents and writes traces, so that a fault there can't hide itself here.
ghost use Rattle.std.specs.Prelude.{◌≡◌, ◌<◌, ◌≤◌, ◌^◌, ◌+◌, ◌*◌, Some, None, MatchOption, IfSome, length, position, ◌==◌};
ghost use Rattle.std.specs.List.{list_all};
ghost use Rattle.std.specs.Str.{bytes_eq};
ghost use Rattle.trace_lines.specs.Grammar as spec;

use kube_base::read_time;

/// What stands before and behind the first byte that is this one.
pub fn cut(text: &[u8], byte: u8) -> Option<(&[u8], &[u8])>
    ensures { MatchOption result (spec.cut byte text.now ≡ None) (λ parts. spec.cut byte text.now ≡ Some (parts.0.now, parts.1.now)) }
{
    let place = place_of(text, byte)?;
    let (before, _) = text.split_at(place);
    let (_, behind) = text.split_at(place + 1);
    Some((before, behind))
}

fn place_of(text: &[u8], byte: u8) -> Option<usize>
    ensures place { result ≡ position (λ b. b == byte) text.now }
    ensures within { IfSome result (λ place. place < length text.now) }
{
    text.iter().position(|b| *b == byte)
}

/// Whether a text is this word.
pub(crate) fn is(text: &[u8], word: &[u8]) -> bool
    ensures { result ≡ bytes_eq text.now word.now }
{
    text == word
}

/// A decimal number of at most `most`, without leading zeros.
pub(crate) fn number(text: &[u8], most: u64) -> Option<u64>
    ensures number { result ≡ spec.number most text.now }
    ensures most { IfSome result (λ n. n ≤ most) }
{
    match text.split_first() {
        Some((first, rest)) => if *first == b'0' && rest.len() != 0 {
            None
        } else {
            digits(text, most)
        },
        None => None,
    }
}

fn digits(text: &[u8], most: u64) -> Option<u64>
    ensures number { result ≡ spec.number_onto most 0 text.now }
    ensures most { IfSome result (λ n. n ≤ most) }
{
    let mut number: u64 = 0;
    for byte in text {
        if !byte.is_ascii_digit() {
            return None;
        }
        number = number_and_digit(number, *byte - b'0', most)?;
    }
    Some(number)
}

/// The number with one more digit, if it is at most `most`.
fn number_and_digit(number: u64, digit: u8, most: u64) -> Option<u64>
    requires { digit < 10 }
    ensures { MatchOption result (most < 10 * number + digit) (λ next. (next ≡ 10 * number + digit) × (next ≤ most)) }
{
    let next = number.checked_mul(10)?.checked_add(u64::from(digit))?;
    if next <= most { Some(next) } else { None }
}

/// `LABEL=N`, with a number of at most `most`.
#[tactic(auto, unfolding(crate::specs::Grammar::labelled_number))]
pub(crate) fn labelled_number(text: &[u8], label: &[u8], most: u64) -> Option<u64>
    ensures number { result ≡ spec.labelled_number label.now most text.now }
    ensures most { IfSome result (λ n. n ≤ most) }
{
    let (before, behind) = cut(text, b'=')?;
    if is(before, label) {
        number(behind, most)
    } else {
        None
    }
}

/// Whether a text is an RFC 1123 subdomain of 1 to 253 bytes.
#[tactic(auto, unfolding(crate::specs::Grammar::is_name))]
pub(crate) fn is_name(text: &[u8]) -> bool
    ensures { result ≡ spec.is_name text.now }
{
    match text.split_first() {
        Some((first, rest)) => {
            rest.len() <= 252 && is_small_letter_or_digit(*first) && is_name_rest(*first, rest)
        }
        None => false,
    }
}

fn is_name_rest(first: u8, rest: &[u8]) -> bool
    ensures { result ≡ spec.is_name_rest first rest.now }
{
    let mut last = first;
    for byte in rest {
        if !may_follow(last, *byte) {
            return false;
        }
        last = *byte;
    }
    is_small_letter_or_digit(last)
}

fn may_follow(last: u8, byte: u8) -> bool
    ensures { result ≡ spec.may_follow last byte }
{
    let known = is_small_letter_or_digit(byte) || byte == b'-' || byte == b'.';
    known
        && (byte != b'.' || is_small_letter_or_digit(last))
        && (last != b'.' || is_small_letter_or_digit(byte))
}

fn is_small_letter_or_digit(byte: u8) -> bool
    ensures { result ≡ spec.is_small_letter_or_digit byte }
{
    byte.is_ascii_lowercase() || byte.is_ascii_digit()
}

/// Whether a text is empty or a label's value of at most 63 bytes.
#[tactic(auto, unfolding(crate::specs::Grammar::is_label))]
pub(crate) fn is_label(text: &[u8]) -> bool
    ensures { result ≡ spec.is_label text.now }
{
    if text.len() == 0 {
        return true;
    }
    if text.len() > 63 {
        return false;
    }
    are_label_bytes(text) && is_letter_or_digit(text[0]) && is_letter_or_digit(text[text.len() - 1])
}

fn are_label_bytes(text: &[u8]) -> bool
    ensures { result ≡ list_all spec.is_label_byte text.now }
{
    text.iter().all(|byte| is_label_byte(*byte))
}

fn is_label_byte(byte: u8) -> bool
    ensures { result ≡ spec.is_label_byte byte }
{
    is_letter_or_digit(byte) || byte == b'-' || byte == b'_' || byte == b'.'
}

fn is_letter_or_digit(byte: u8) -> bool
    ensures { result ≡ spec.is_letter_or_digit byte }
{
    byte.is_ascii_lowercase() || byte.is_ascii_uppercase() || byte.is_ascii_digit()
}

/// Whether a text is `NAMESPACE/NAME`.
#[tactic(auto, unfolding(crate::specs::Grammar::is_spaced))]
pub(crate) fn is_spaced(text: &[u8]) -> bool
    ensures { result ≡ spec.is_spaced text.now }
{
    match cut(text, b'/') {
        Some((namespace, name)) => is_name(namespace) && is_name(name),
        None => false,
    }
}

/// Whether a text is `REGION/ZONE`.
#[tactic(auto, unfolding(crate::specs::Grammar::is_zone))]
pub(crate) fn is_zone(text: &[u8]) -> bool
    ensures { result ≡ spec.is_zone text.now }
{
    match cut(text, b'/') {
        Some((region, zone)) => is_label(region) && is_label(zone),
        None => false,
    }
}

/// Whether a text is `node/NAME`, `lease/NAMESPACE/NAME` or `pod/NAMESPACE/NAME`.
#[tactic(auto, unfolding(crate::specs::Grammar::is_key))]
pub(crate) fn is_key(text: &[u8]) -> bool
    ensures { result ≡ spec.is_key text.now }
{
    match cut(text, b'/') {
        Some((kind, rest)) => if is(kind, b"node") {
            is_name(rest)
        } else {
            (is(kind, b"lease") || is(kind, b"pod")) && is_spaced(rest)
        },
        None => false,
    }
}

/// Whether a text is a time in the form `YYYY-MM-DDTHH:MM:SSZ`.
#[tactic(auto, unfolding(crate::specs::Grammar::is_second))]
pub(crate) fn is_second(text: &[u8]) -> bool
    ensures { result ≡ spec.is_second text.now }
{
    text.len() == 20 && read_time(text).is_some()
}
