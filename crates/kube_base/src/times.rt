// Times of day as texts of RFC 3339.
ghost use Rattle.std.specs.Char.{is_ascii_digit};
ghost use Rattle.std.specs.Prelude.{codes, position, not, ◌++◌, ◌≡◌, ◌+◌, ◌-◌, ◌*◌, ◌/◌, ◌%◌, ◌<◌, ◌≤◌, ◌==◌, ℕ};
ghost use Rattle.std.specs.Prelude.{ℤ, pos, neg_ℤ, ◌+ℤ◌, ◌-ℤ◌, ◌*ℤ◌, ◌≤ℤ◌, take, length, Some, None, Option, IfOk, IfSome};
ghost use Rattle.std.specs.Str.{IsUtf8};
ghost use Rattle.jiff_core.specs.Calendar.{IsEpochDay, IsWithin};
ghost use Rattle.kube_base.specs.Times as spec;
ghost use Rattle.kube_base.specs.Times.{day_at, day_number, second_at, fraction_digits, instant, micros_of, offset_at, wall_of, time_of};
ghost use Rattle.kube_base.specs.Times.{year_of, month_of, day_of, date_time_text, six_digits, seconds_text, micros_text, last_wall};

use crate::{Name, NoMemory, Wall};
use jiff_core::civil::Date;
use std::alloc::Global;

/// The time of a text `YYYY-MM-DDTHH:MM:SS`, with one to nine digits after a dot if there is one, then `Z` or an offset such as
/// `+05:30`. Digits after the sixth are dropped.
///
/// `None` exactly if the text has another form, the calendar has no such date, or the instant lies outside 1970 to 2261.
#[tactic(auto, unfolding(crate::specs::Times::time_of))]
pub fn read_time(text: &[u8]) -> Option<Wall>
    ensures { result ≡ time_of text.now }
{
    let day = read_day(text)?;
    let second = read_second(text)?;
    let digits = count_digits(text)?;
    let offset = read_offset(text, zone_place(digits))?;
    let micros = read_micros(text, digits);
    at_second(instant(day, second, offset), micros)
}

/// The form in seconds, as `2024-01-01T00:00:00Z`. What is below a second is dropped. It is read back as the whole second.
#[tactic(auto, using(crate::proofs::TimeTexts::written_texts), unfolding(crate::specs::Times::seconds_text))]
pub fn write_seconds(alloc: Global, at: Wall) -> Result<Name, NoMemory>
    requires { at.0 ≤ last_wall }
    ensures text { IfOk result (λ name. name ≡ seconds_text at) }
    ensures utf8 { IsUtf8 (seconds_text at) }
    ensures reads_back { time_of (seconds_text at) ≡ Some (record { 0 = at.0 / 1_000_000 * 1_000_000 }) }
{
    let mut text = date_time(alloc, at.0 / 1_000_000)?;
    text.push(b'Z')?;
    Name::from_bytes(alloc, text.as_slice())
}

/// The form in microseconds, as `2024-01-01T00:00:00.000000Z`. It is read back as the time.
#[tactic(auto, using(crate::proofs::TimeTexts::written_texts), unfolding(crate::specs::Times::micros_text))]
pub fn write_micros(alloc: Global, at: Wall) -> Result<Name, NoMemory>
    requires { at.0 ≤ last_wall }
    ensures text { IfOk result (λ name. name ≡ micros_text at) }
    ensures utf8 { IsUtf8 (micros_text at) }
    ensures reads_back { time_of (micros_text at) ≡ Some at }
{
    let mut text = date_time(alloc, at.0 / 1_000_000)?;
    text.extend_from_slice(&fraction((at.0 % 1_000_000) as u32))?;
    Name::from_bytes(alloc, text.as_slice())
}

/// The last whole second that isn't after the time.
pub fn whole_second(at: Wall) -> Wall
    ensures { result.0 ≡ at.0 / 1_000_000 * 1_000_000 }
{
    Wall(at.0 / 1_000_000 * 1_000_000)
}

/// A dot, six digits and `Z`.
fn fraction(micros: u32) -> [u8; 8]
    ensures { result ≡ codes "." ++ six_digits micros ++ codes "Z" }
{
    [
        b'.',
        digit(micros / 100_000),
        digit(micros / 10_000),
        digit(micros / 1_000),
        digit(micros / 100),
        digit(micros / 10),
        digit(micros),
        b'Z',
    ]
}

/// `YYYY-MM-DDTHH:MM:SS` of a second since 1970-01-01.
fn date_time(alloc: Global, second: u64) -> Result<Vec<u8>, NoMemory>
    requires { second ≤ 9_214_646_399 }
    ensures { IfOk result (λ text. text.items ≡ date_time_text second) }
{
    let date = date_of_day((second / 86_400) as u32);
    let clock = (second % 86_400) as u32;
    let (hour, minute, second) = (clock / 3600, clock / 60 % 60, clock % 60);
    let text = [
        digit(date.year / 1000),
        digit(date.year / 100),
        digit(date.year / 10),
        digit(date.year),
        b'-',
        digit(date.month / 10),
        digit(date.month),
        b'-',
        digit(date.day / 10),
        digit(date.day),
        b'T',
        digit(hour / 10),
        digit(hour),
        b':',
        digit(minute / 10),
        digit(minute),
        b':',
        digit(second / 10),
        digit(second),
    ];
    Ok(text.to_vec(alloc)?)
}

/// A date of the calendar.
#[derive(Clone, Copy)]
struct Calendar {
    year: u32,
    month: u32,
    day: u32,
}

/// The date of a day number.
fn date_of_day(day: u32) -> Calendar
    requires { day ≤ 106_650 }
    ensures year { result.year ≡ year_of day }
    ensures month { result.month ≡ month_of day }
    ensures day { result.day ≡ day_of day }
{
    match Date::from_unix_epoch_day(i64::from(day)) {
        Ok(date) => Calendar {
            year: date.year as u32,
            month: u32::from(date.month),
            day: u32::from(date.day),
        },
        Err(_) => {
            prove!(false);
            Calendar {
                year: 0,
                month: 0,
                day: 0,
            }
        }
    }
}

fn digit(n: u32) -> u8
    ensures { result ≡ spec.digit n }
{
    b'0' + (n % 10) as u8
}

/// The digit at a place.
fn digit_at(text: &[u8], place: usize) -> Option<u8>
    ensures value { result ≡ spec.digit_at text.now place }
    ensures small { IfSome result (λ digit. digit < 10) }
{
    match text.get(place) {
        Some(byte) => if byte.is_ascii_digit() {
            Some(*byte - b'0')
        } else {
            None
        },
        None => None,
    }
}

/// The number of two digits.
#[tactic(auto, unfolding(crate::specs::Times::two_at))]
fn two_at(text: &[u8], place: usize) -> Option<u32>
    requires { place ≤ 40 }
    ensures value { result ≡ spec.two_at text.now place }
    ensures small { IfSome result (λ n. n < 100) }
{
    let tens = digit_at(text, place)?;
    let ones = digit_at(text, place + 1)?;
    Some(10 * u32::from(tens) + u32::from(ones))
}

fn is_at(text: &[u8], place: usize, character: u8) -> bool
    requires { 0 < character }
    ensures { result ≡ spec.is_at text.now place character }
{
    match text.get(place) {
        Some(byte) => *byte == character,
        None => false,
    }
}

/// The day number of the date at the front.
#[tactic(auto, unfolding(crate::specs::Times::day_at))]
fn read_day(text: &[u8]) -> Option<i64>
    ensures value { result ≡ day_at text.now }
    ensures bound { IfSome result IsEpochDay }
{
    let century = two_at(text, 0)?;
    let year = two_at(text, 2)?;
    let month = two_at(text, 5)?;
    let day = two_at(text, 8)?;
    if !(is_at(text, 4, b'-') && is_at(text, 7, b'-')) {
        return None;
    }
    day_number(100 * century + year, month, day)
}

/// The day number of a date that the calendar has.
fn day_number(year: u32, month: u32, day: u32) -> Option<i64>
    requires year_in { year < 10_000 }
    requires month_in { month < 100 }
    requires day_in { day < 100 }
    ensures value { result ≡ day_number year month day }
    ensures bound { IfSome result IsEpochDay }
{
    match Date::new(year as i16, month as i8, day as i8) {
        Ok(date) => Some(i64::from(date.to_unix_epoch_day())),
        Err(_) => None,
    }
}

/// The second of the day that stands behind the date.
#[tactic(auto, unfolding(crate::specs::Times::second_at))]
fn read_second(text: &[u8]) -> Option<u32>
    ensures value { result ≡ second_at text.now }
    ensures bound { IfSome result (λ n. n < 86_400) }
{
    let hour = two_at(text, 11)?;
    let minute = two_at(text, 14)?;
    let second = two_at(text, 17)?;
    let marks = is_at(text, 10, b'T') && is_at(text, 13, b':') && is_at(text, 16, b':');
    if marks && hour < 24 && minute < 60 && second < 60 {
        Some(3600 * hour + 60 * minute + second)
    } else {
        None
    }
}

/// How many digits stand after the dot.
#[tactic(auto, unfolding(crate::specs::Times::fraction_digits))]
fn count_digits(text: &[u8]) -> Option<usize>
    ensures value { result ≡ fraction_digits text.now }
    ensures bound { IfSome result (λ n. n ≤ 9) }
{
    if !is_at(text, 19, b'.') {
        return Some(0);
    }
    few_digits(first_other(&text[20..]))
}

/// One to nine digits.
fn few_digits(digits: usize) -> Option<usize>
    ensures value { result ≡ spec.few_digits digits }
    ensures bound { IfSome result (λ n. n ≤ 9) }
{
    if 1 <= digits && digits <= 9 {
        Some(digits)
    } else {
        None
    }
}

/// The place of the first byte that is no digit, or the length.
fn first_other(text: &[u8]) -> usize
    ensures { result ≡ spec.first_other text.now }
{
    other(text).unwrap_or(text.len())
}

/// The place of the first byte that is no digit.
fn other(text: &[u8]) -> Option<usize>
    ensures { result ≡ position (λ byte. not (is_ascii_digit byte)) text.now }
{
    text.iter().position(|byte| !byte.is_ascii_digit())
}

/// A digit of the fraction, 0 if it is missing.
#[tactic(auto, unfolding(crate::specs::Times::fraction_digit))]
fn fraction_digit(text: &[u8], digits: usize, place: usize) -> u32
    requires { place < 6 }
    ensures value { result ≡ spec.fraction_digit text.now digits place }
    ensures small { result < 10 }
{
    if place < digits {
        u32::from(digit_at(text, 20 + place).unwrap_or(0))
    } else {
        0
    }
}

/// The fraction in microseconds.
#[tactic(auto, unfolding(crate::specs::Times::micros_of))]
fn read_micros(text: &[u8], digits: usize) -> u32
    ensures value { result ≡ micros_of text.now digits }
    ensures small { result < 1_000_000 }
{
    100_000 * fraction_digit(text, digits, 0)
        + 10_000 * fraction_digit(text, digits, 1)
        + 1_000 * fraction_digit(text, digits, 2)
        + 100 * fraction_digit(text, digits, 3)
        + 10 * fraction_digit(text, digits, 4)
        + fraction_digit(text, digits, 5)
}

/// The offset from UTC in seconds.
#[tactic(auto, unfolding(crate::specs::Times::offset_at))]
fn read_offset(text: &[u8], place: usize) -> Option<i64>
    requires { place ≤ 29 }
    ensures value { result ≡ offset_at text.now place }
    ensures bound { IfSome result (IsWithin 86_400) }
{
    if is_at(text, place, b'Z') {
        return if text.len() == place + 1 {
            Some(0)
        } else {
            None
        };
    }
    let hours = two_at(text, place + 1)?;
    let minutes = two_at(text, place + 4)?;
    let whole = is_at(text, place + 3, b':') && text.len() == place + 6;
    if !(whole && hours < 24 && minutes < 60) {
        return None;
    }
    let seconds = i64::from(3600 * hours + 60 * minutes);
    if is_at(text, place, b'+') {
        Some(seconds)
    } else if is_at(text, place, b'-') {
        Some(-seconds)
    } else {
        None
    }
}

/// Where the zone stands.
fn zone_place(digits: usize) -> usize
    requires { digits ≤ 9 }
    ensures value { result ≡ spec.zone_place digits }
    ensures bound { result ≤ 29 }
{
    if digits == 0 { 19 } else { 20 + digits }
}

/// The second since 1970-01-01T00:00:00Z.
fn instant(day: i64, second: u32, offset: i64) -> i64
    requires day_in { IsEpochDay day }
    requires second_in { second < 86_400 }
    requires offset_in { IsWithin 86_400 offset }
    ensures { result ≡ instant day second offset }
{
    day * 86_400 + i64::from(second) - offset
}

/// The time of a second and its microseconds.
fn at_second(second: i64, micros: u32) -> Option<Wall>
    requires { micros < 1_000_000 }
    ensures { result ≡ wall_of second micros }
{
    if 0 <= second && second <= 9_214_646_399 {
        Some(Wall(second as u64 * 1_000_000 + u64::from(micros)))
    } else {
        None
    }
}

#[cfg(test)]
mod tests {
    use super::*;
    use std::test::Fail;

    #[test]
    fn reads_times(rt: HostRuntime) -> Result<(), Fail> {
        for (text, micros) in [
            ("2024-01-01T05:30:00.123456789+05:30", 1_704_067_200_123_456),
            ("2024-01-01T00:00:00Z", 1_704_067_200_000_000),
            ("1970-01-01T00:00:00-00:00", 0),
            ("1969-12-31T00:01:00-23:59", 0),
            ("2000-02-29T23:59:59.5Z", 951_868_799_500_000),
            ("2262-01-01T00:00:00+01:00", 9_214_642_800_000_000),
            ("2261-12-31T23:59:59.9999999Z", 9_214_646_399_999_999),
        ] {
            assert_eq!(rt; read_time(text.as_bytes()), Some(Wall(micros)), "{text}");
        }
        for text in [
            "2023-02-29T00:00:00Z",
            "2024-01-01T24:00:00Z",
            "1969-12-31T23:59:59Z",
            "1970-01-01T00:00:00+00:01",
            "2261-12-31T23:59:00-00:01",
            "2024-13-01T00:00:00Z",
            "2024-01-01T00:60:00Z",
            "2024-01-01T00:00:60Z",
            "2024-01-01T00:00:00+24:00",
            "2024-01-01T00:00:00+00:60",
            "2024-01-01T00:00:00+0100",
            "2024-01-01t00:00:00Z",
            "2024-01-01T00:00:00z",
            "2024-01-01T00:00:00.Z",
            "2024-01-01T00:00:00.1234567890Z",
            "2024-01-01T00:00:00",
            "2262-01-01T00:00:00Z",
            "",
        ] {
            assert_eq!(rt; read_time(text.as_bytes()), None, "{text}");
        }
        Ok(())
    }

    #[test]
    fn writes_times(rt: HostRuntime) -> Result<(), Fail> {
        let at = Wall(1_704_067_200_123_456);
        let micros = write_micros(rt.alloc(), at).ok().ok_or("memory")?;
        assert_eq!(rt; micros.bytes(), b"2024-01-01T00:00:00.123456Z".as_slice());
        let seconds = write_seconds(rt.alloc(), at).ok().ok_or("memory")?;
        assert_eq!(rt; seconds.bytes(), b"2024-01-01T00:00:00Z".as_slice());
        assert_eq!(rt; whole_second(at), Wall(1_704_067_200_000_000));
        Ok(())
    }
}
