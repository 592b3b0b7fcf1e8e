// Durations as Go writes them.
ghost use Rattle.std.specs.Prelude.{◌≡◌, ◌≤◌, IfSome};
ghost use Rattle.lens_room.specs.Amounts.{DurationsAreSums};
ghost use Rattle.lens_room.specs.Durations as spec;

/// The most milliseconds that a duration, and a number in one, may have.
const DAY: u64 = 86_400_000;

/// Where the reading of a duration stands.
#[derive(Clone, Copy)]
pub enum Stage {
    /// Behind whole amounts, or at the start.
    Whole,
    /// In the digits of an amount.
    Digits,
    /// Behind the `m` of an amount: minutes, if no `s` follows.
    Minutes,
}

/// What was read of a duration.
#[derive(Clone, Copy)]
pub struct Reading {
    /// The milliseconds of the whole amounts.
    pub millis: u64,
    /// The number of the amount that is being read.
    pub number: u64,
    pub stage: Stage,
}

/// The milliseconds of a duration of amounts with the units `h`, `m`, `s` and `ms`, such as `15s`, `1m30s` or `500ms`: of at most a day,
/// without sign and fraction.
#[tactic(auto, unfolding(crate::specs::Durations::duration))]
pub fn millis_of(text: &[u8]) -> Option<u64>
    ensures millis { result ≡ spec.duration text.now }
    ensures most { IfSome result (λ millis. millis ≤ 86400000) }
{
    let mut reading = Reading {
        millis: 0,
        number: 0,
        stage: Stage::Whole,
    };
    for byte in text {
        reading = step(reading, *byte)?;
    }
    total(reading)
}

/// What was read with one more byte.
fn step(reading: Reading, byte: u8) -> Option<Reading>
    requires { reading.millis ≤ 86400000 }
    ensures next { result ≡ spec.step reading.stage reading.millis reading.number byte }
    ensures most { IfSome result (λ next. next.millis ≤ 86400000) }
{
    let Reading {
        millis,
        number,
        stage,
    } = reading;
    match stage {
        Stage::Whole => with_digit(millis, 0, byte),
        Stage::Digits => unit_or_digit(millis, number, byte),
        Stage::Minutes => if byte == b's' {
            behind(millis, number, 1)
        } else {
            with_digit(with_amount(millis, number, 60_000)?, 0, byte)
        },
    }
}

fn unit_or_digit(millis: u64, number: u64, byte: u8) -> Option<Reading>
    requires { millis ≤ 86400000 }
    ensures next { result ≡ spec.step Stage.Digits millis number byte }
    ensures most { IfSome result (λ next. next.millis ≤ 86400000) }
{
    match byte {
        b'h' => behind(millis, number, 3_600_000),
        b's' => behind(millis, number, 1000),
        b'm' => Some(Reading {
            millis,
            number,
            stage: Stage::Minutes,
        }),
        _ => with_digit(millis, number, byte),
    }
}

/// Behind one more amount.
fn behind(millis: u64, number: u64, unit: u64) -> Option<Reading>
    ensures next { result ≡ spec.behind (spec.with_amount millis number unit) }
    ensures most { IfSome result (λ next. next.millis ≤ 86400000) }
{
    Some(Reading {
        millis: with_amount(millis, number, unit)?,
        number: 0,
        stage: Stage::Whole,
    })
}

/// The milliseconds with those of one more amount.
fn with_amount(millis: u64, number: u64, unit: u64) -> Option<u64>
    ensures sum { result ≡ spec.with_amount millis number unit }
    ensures most { IfSome result (λ sum. sum ≤ 86400000) }
{
    let sum = number.checked_mul(unit)?.checked_add(millis)?;
    if sum <= DAY { Some(sum) } else { None }
}

/// In the digits of an amount, with one more of them.
fn with_digit(millis: u64, number: u64, byte: u8) -> Option<Reading>
    requires { millis ≤ 86400000 }
    ensures next { result ≡ spec.with_digit millis number byte }
    ensures most { IfSome result (λ next. next.millis ≤ 86400000) }
{
    if !byte.is_ascii_digit() {
        return None;
    }
    Some(Reading {
        millis,
        number: with_amount(u64::from(byte - b'0'), number, 10)?,
        stage: Stage::Digits,
    })
}

/// The milliseconds of all that was read, if it is whole.
fn total(reading: Reading) -> Option<u64>
    requires { reading.millis ≤ 86400000 }
    ensures millis { result ≡ spec.total reading.stage reading.millis reading.number }
    ensures most { IfSome result (λ millis. millis ≤ 86400000) }
{
    match reading.stage {
        Stage::Whole => Some(reading.millis),
        Stage::Digits => None,
        Stage::Minutes => with_amount(reading.millis, reading.number, 60_000),
    }
}

/// Whatever amounts of at most a day are written one behind the other are read as their sum.
pub fn durations_are_sums()
    ensures { DurationsAreSums }
{}
