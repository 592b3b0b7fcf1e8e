// The first number of which something is so.
ghost use Rattle.std.specs.Prelude.{◌≡◌, ◌≤◌, true};
ghost use Rattle.lens_margin.specs.Laws.{IsLeast};
ghost use Rattle.lens_tune.specs.Searches as spec;
ghost use Rattle.lens_tune.specs.Wishes.{IsWish};

use crate::fitting::{is_enough, is_outlasted};
use crate::plan::Plan;
use crate::wish::Wish;

/// What is asked of a number. From some number on it is so.
#[derive(Clone, Copy)]
pub(crate) enum Question {
    /// Whether a renew deadline is too long for a lease and a retry period.
    TooLong(u32, u32),
    /// Whether it is long enough for a retry period.
    Enough(u32),
    /// Whether a lease is long enough for a retry period and a renew deadline.
    Outlasting(u32, u32),
}

fn asked(w: Wish, question: Question, n: u32) -> bool
    requires wish { IsWish w }
    requires small { spec.IsSmallQuestion question }
    requires number { n ≤ spec.most question }
    ensures { result ≡ spec.asked w question n }
{
    match question {
        Question::TooLong(lease, retry) => !is_outlasted(
            w,
            Plan {
                lease_seconds: lease,
                renew_tenths: n,
                retry_tenths: retry,
            },
        ),
        Question::Enough(retry) => is_enough(
            w,
            Plan {
                lease_seconds: 0,
                renew_tenths: n,
                retry_tenths: retry,
            },
        ),
        Question::Outlasting(retry, renew) => is_outlasted(
            w,
            Plan {
                lease_seconds: n,
                renew_tenths: renew,
                retry_tenths: retry,
            },
        ),
    }
}

/// The first number of which it is so, up to one of which it is.
pub(crate) fn first(w: Wish, question: Question, most: u32) -> u32
    requires wish { IsWish w }
    requires small { spec.IsSmallQuestion question }
    requires number { most ≤ spec.most question }
    requires so { spec.asked w question most ≡ true }
    ensures first { IsLeast (λ n. spec.asked w question n ≡ true) result }
    ensures within { result ≤ most }
{
    let mut from = 0;
    let mut so = most;
    while from < so {
        let middle = from + (so - from) / 2;
        if asked(w, question, middle) {
            so = middle;
        } else {
            from = middle + 1;
        }
    }
    so
}
