// Settings, controllers and kubelets.
ghost use Rattle.std.specs.Prelude.{◌≡◌, ◌≤◌, IfOk};
ghost use Rattle.kube_objects.specs.Document.{own_waits_each};
ghost use Rattle.kube_objects.specs.Rules.{own_waits};
ghost use Rattle.world_gen.specs.Generated as spec;

use crate::names::{controller_number, node_number};
use kube_base::{Beat, NoMemory, Wall};
use kube_objects::{NumberList, Proc, Procs, RatePolicy, ReadyStatus, Rules, Settings, WaitLists};
use std::alloc::Global;

/// 2024-01-01T00:00:00Z
pub(crate) const EPOCH: Wall = Wall(1_704_067_200_000_000);

pub(crate) fn settings(beats: u32) -> Settings
    ensures { result ≡ spec.settings beats }
{
    Settings {
        beat_millis: 1_000,
        end_beat: Beat(beats),
        epoch: EPOCH,
        lease_duration_seconds: 20,
        renew_deadline_millis: 10_000,
        retry_period_millis: 2_000,
        call_timeout_millis: 3_000,
        restart_millis: 1_000,
        monitor_period_millis: 5_000,
        grace_period_millis: 40_000,
        startup_grace_millis: 60_000,
        node_lease_duration_seconds: 40,
        primary_rate: 100,
        secondary_rate: 10,
        large_zone: 50,
        unhealthy_percent: 55,
        fast_renew: false,
        rate_policy: RatePolicy::Standard,
        rules: Rules::own(),
    }
}

/// A process with the timings of the settings.
fn process(name: u32, rate_ppm: u32) -> Proc
    ensures { result ≡ spec.process name rate_ppm }
{
    Proc {
        name,
        rate_ppm,
        offset_millis: 0,
        up: true,
        watch: true,
        ready: ReadyStatus::True,
        lease_seconds: 20,
        renew_millis: 10_000,
        retry_millis: 2_000,
        timeout_millis: 3_000,
    }
}

/// Three controllers, whose clocks go at different rates.
pub(crate) fn controllers(alloc: Global) -> Result<Procs, NoMemory>
    ensures { IfOk result (λ procs. procs ≡ spec.controllers) }
{
    let mut procs = Procs::new(alloc);
    procs.push(process(controller_number(0), 1_000_000))?;
    procs.push(process(controller_number(1), 1_010_000))?;
    procs.push(process(controller_number(2), 990_000))?;
    Ok(procs)
}

/// The waits of each controller: a whole retry period.
pub(crate) fn waits(alloc: Global) -> Result<WaitLists, NoMemory>
    ensures { IfOk result (λ lists. lists ≡ own_waits_each spec.controllers) }
{
    let mut lists = WaitLists::new(alloc);
    lists.push(own(alloc)?)?;
    lists.push(own(alloc)?)?;
    lists.push(own(alloc)?)?;
    Ok(lists)
}

fn own(alloc: Global) -> Result<NumberList, NoMemory>
    ensures { IfOk result (λ waits. waits ≡ own_waits) }
{
    let mut waits = NumberList::new(alloc);
    waits.push(1_000)?;
    Ok(waits)
}

/// The kubelets in the order of their nodes.
pub(crate) fn kubelets(alloc: Global, nodes: u32) -> Result<Procs, NoMemory>
    requires { nodes ≤ 1000 }
    ensures { IfOk result (λ procs. procs ≡ spec.kubelets nodes) }
{
    let mut procs = Procs::new(alloc);
    for i in 0..nodes {
        procs.push(process(node_number(i), 1_000_000))?;
    }
    Ok(procs)
}
