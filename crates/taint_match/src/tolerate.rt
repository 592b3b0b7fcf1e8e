// Which toleration tolerates a taint.
ghost use Rattle.std.specs.Prelude.{◌≡◌, position};
ghost use Rattle.kube_objects.specs.Tolerations.{effect_fits, value_fits, tolerates};

use kube_objects::{Effect, Operator, Taint, Toleration, Tolerations};

fn effect_fits(wanted: Option<Effect>, effect: Effect) -> bool
    ensures { result ≡ effect_fits wanted effect }
{
    match (wanted, effect) {
        (None, _) => true,
        (Some(Effect::NoSchedule), Effect::NoSchedule) => true,
        (Some(Effect::PreferNoSchedule), Effect::PreferNoSchedule) => true,
        (Some(Effect::NoExecute), Effect::NoExecute) => true,
        _ => false,
    }
}

fn value_fits(operator: Operator, wanted: u32, value: u32) -> bool
    ensures { result ≡ value_fits operator wanted value }
{
    match operator {
        Operator::Exists => true,
        Operator::Equal => wanted == value,
    }
}

/// Whether the toleration tolerates the taint: its effect is missing or equal, its key is empty or equal, and its
/// operator is Exists, or Equal with equal values. The empty key is number 0.
pub fn tolerates(toleration: &Toleration, taint: &Taint) -> bool
    ensures { result ≡ tolerates toleration.now taint.now }
{
    effect_fits(toleration.effect, taint.effect)
        && (toleration.key == 0 || toleration.key == taint.key)
        && value_fits(toleration.operator, toleration.value, taint.value)
}

/// The place of the first toleration that tolerates the taint; none exactly if none tolerates it.
pub fn first_match(tolerations: &Tolerations, taint: &Taint) -> Option<usize>
    ensures { result ≡ position (λ t. tolerates t taint.now) tolerations.now }
{
    tolerations
        .as_slice()
        .iter()
        .position(|toleration| tolerates(toleration, taint))
}
