// Default tolerations.
ghost use Rattle.std.specs.Prelude.{◌≡◌, ◌++◌, IfOk, OnOk};
ghost use Rattle.std.specs.List.{list_any};
ghost use Rattle.pod_tools.specs.Feasible as spec;

use kube_base::{NOT_READY, NoMemory, UNREACHABLE};
use kube_objects::{Effect, Operator, Toleration, TolerationList, Tolerations};

/// The tolerations with the defaults at their end: five minutes for NoExecute taints with the key `node.kubernetes.io/not-ready`,
/// then `node.kubernetes.io/unreachable`, each unless a given toleration for that effect has that key or an empty one.
pub fn defaulted(tolerations: &Tolerations) -> Result<Tolerations, NoMemory>
    ensures { IfOk result (λ all. all ≡ spec.defaulted tolerations.now) }
{
    let mut all = tolerations.to_list()?;
    add_default(&mut all, NOT_READY, tolerations.as_slice())?;
    add_default(&mut all, UNREACHABLE, tolerations.as_slice())?;
    Tolerations::of(all)
}

fn add_default(all: &mut TolerationList, key: u32, given: &[Toleration]) -> Result<(), NoMemory>
    ensures { OnOk result (all.new ≡ all.old ++ spec.default_for key given.now) }
{
    if is_spoken_of(key, given) {
        Ok(())
    } else {
        all.push(Toleration {
            key,
            operator: Operator::Exists,
            value: 0,
            effect: Some(Effect::NoExecute),
            seconds: Some(300),
        })
    }
}

/// Whether one of the tolerations speaks of NoExecute taints with this key.
fn is_spoken_of(key: u32, given: &[Toleration]) -> bool
    ensures { result ≡ list_any (spec.speaks_of key) given.now }
{
    given.iter().any(|toleration| speaks_of(key, toleration))
}

fn speaks_of(key: u32, toleration: &Toleration) -> bool
    ensures { result ≡ spec.speaks_of key toleration.now }
{
    is_for_no_execute(toleration.effect) && (toleration.key == 0 || toleration.key == key)
}

fn is_for_no_execute(effect: Option<Effect>) -> bool
    ensures { result ≡ spec.is_for_no_execute effect }
{
    match effect {
        None => true,
        Some(Effect::NoExecute) => true,
        Some(Effect::NoSchedule) => false,
        Some(Effect::PreferNoSchedule) => false,
    }
}
