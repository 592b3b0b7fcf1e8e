// Numbers in digits.

/// The number that the digits at the beginning of a text are, if there is one.
pub(crate) fn digits_of(text: &[u8]) -> Option<u64> {
    let mut number = None;
    for byte in text {
        match digit(*byte) {
            Some(digit) => number = Some(with_digit(number, digit)),
            None => return number,
        }
    }
    number
}

fn digit(byte: u8) -> Option<u64> {
    if byte.is_ascii_digit() {
        Some(u64::from(byte - b'0'))
    } else {
        None
    }
}

fn with_digit(number: Option<u64>, digit: u64) -> u64 {
    number.unwrap_or(0).saturating_mul(10).saturating_add(digit)
}
