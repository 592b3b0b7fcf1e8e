// Numbers with up to two decimals.
ghost use Rattle.std.specs.Prelude.{◌≡◌, ◌≤◌, IfSome};
ghost use Rattle.trace_lines.specs.Grammar.{number_onto};
ghost use Rattle.lens_plan.specs.Decimals as spec;

use trace_lines::cut;

/// The hundredths of a number of at most 100 with no decimals, or with one or two of them behind a point.
pub(crate) fn hundredths(text: &[u8]) -> Option<u32>
    ensures is { result ≡ spec.hundredths text.now }
    ensures most { IfSome result (λ n. n ≤ 10099) }
{
    match cut(text, b'.') {
        None => Some(100 * whole(text)?),
        Some((before, behind)) => Some(100 * whole(before)? + decimals(behind)?),
    }
}

fn whole(text: &[u8]) -> Option<u32>
    ensures is { result ≡ spec.whole text.now }
    ensures most { IfSome result (λ n. n ≤ 100) }
{
    if text.len() == 0 {
        return None;
    }
    digits(text)
}

fn decimals(text: &[u8]) -> Option<u32>
    ensures is { result ≡ spec.decimals text.now }
    ensures most { IfSome result (λ n. n ≤ 99) }
{
    match text {
        [tenths] => Some(10 * digit(*tenths)?),
        [tenths, more] => Some(10 * digit(*tenths)? + digit(*more)?),
        _ => None,
    }
}

fn digit(byte: u8) -> Option<u32>
    ensures is { result ≡ spec.digit byte }
    ensures most { IfSome result (λ n. n ≤ 9) }
{
    if byte.is_ascii_digit() {
        Some(u32::from(byte - b'0'))
    } else {
        None
    }
}

/// The number of these digits, of at most 100.
fn digits(text: &[u8]) -> Option<u32>
    ensures is { result ≡ number_onto 100 0 text.now }
    ensures most { IfSome result (λ n. n ≤ 100) }
{
    let mut number: u32 = 0;
    for byte in text {
        if !byte.is_ascii_digit() {
            return None;
        }
        number = 10 * number + u32::from(*byte - b'0');
        if number > 100 {
            return None;
        }
    }
    Some(number)
}
