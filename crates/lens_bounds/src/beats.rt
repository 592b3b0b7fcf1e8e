// Times in beats.
ghost use Rattle.std.specs.Prelude.{◌≡◌, ◌+◌, ◌*◌, ◌/◌, ◌≤◌};
ghost use Rattle.std.specs.Int.{div_ceil};
ghost use Rattle.kube_objects.specs.Document.{of_millis, of_seconds};
ghost use Rattle.span_laws.specs.Quotients as looks;

/// So many milliseconds in units of 10^-12 s.
#[tactic(auto, unfolding(kube_objects::specs::Document::of_millis))]
pub(crate) fn of_millis(millis: u64) -> u128
    ensures is { result ≡ of_millis millis }
    ensures few { result ≡ millis * 1000000000 }
{
    u128::from(millis) * 1_000_000_000
}

/// So many seconds in units of 10^-12 s.
#[tactic(auto, unfolding(kube_objects::specs::Document::of_seconds))]
pub(crate) fn of_seconds(seconds: u64) -> u128
    ensures is { result ≡ of_seconds seconds }
    ensures few { result ≡ seconds * 1000000000000 }
{
    u128::from(seconds) * 1_000_000_000_000
}

/// How many beats are enough for a time on a clock that goes so far in each.
pub(crate) fn beats_of(time: u128, speed: u64) -> u128
    requires { 1000 ≤ speed }
    ensures is { result ≡ div_ceil time speed }
    ensures few { result * 1000 ≤ time + 1000 }
    ensures some { 1 ≤ time → 1 ≤ result }
{
    time.div_ceil(u128::from(speed))
}

/// How many whole beats a time takes on such a clock.
pub(crate) fn whole_beats(time: u128, speed: u64) -> u128
    requires { 1000 ≤ speed }
    ensures is { result ≡ time / speed }
    ensures few { result * 1000 ≤ time }
{
    time / u128::from(speed)
}

/// The most beats from the first of some looks to the one that finds a time over.
pub(crate) fn most_beats(near: u128, far: u128, enough: u128) -> u128
    requires near { 1 ≤ near }
    requires far { far ≤ 10000000000000000 }
    requires enough { enough ≤ 5000000000000000000 }
    ensures is { result ≡ looks.most_beats near far enough }
    ensures few { result ≤ enough + far }
{
    if enough == 0 {
        return 0;
    }
    let last = enough - 1;
    ((last / near + 1) * far).min(last + far)
}

/// And the least.
pub(crate) fn least_beats(near: u128, far: u128, needed: u128) -> u128
    requires near { near ≤ 10000000000000000 }
    requires far { 1 ≤ far }
    requires needed { needed ≤ 5000000000000000000 }
    ensures is { result ≡ looks.least_beats near far needed }
    ensures few { result ≤ 60000000000000000000000000000000000 }
{
    (needed.div_ceil(far) * near).max(needed)
}
