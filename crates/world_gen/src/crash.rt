// Crashes, in the order of their beats.
ghost use Rattle.std.specs.Prelude.{◌≡◌, ◌<◌, ◌≤◌, ◌+◌, ◌++◌, All, map, IfOk, OnOk};
ghost use Rattle.world_gen.specs.Draws as draws;
ghost use Rattle.world_gen.specs.Generated as spec;

use crate::draw::draw;
use kube_base::{Beat, NoMemory, ProcId};
use kube_objects::{Event, Events, What};
use rand_pcg::Lcg64Xsh32;
use std::alloc::Global;

/// A process crashes at a beat.
#[derive(Clone, Copy)]
pub(crate) struct Crash {
    pub(crate) beat: u32,
    pub(crate) process: u32,
}

/// All crashes in the order of their beats: those of the kubelets that are drawn, and that of the first controller.
pub(crate) fn events(
    alloc: Global,
    rng: &mut Lcg64Xsh32,
    nodes: u32,
    beats: u32,
) -> Result<Events, NoMemory>
    requires nodes { nodes ≤ 1000 }
    requires beats { beats ≤ 100000 }
    ensures events { IfOk result (λ events. events ≡ spec.events beats (draws.crashes beats nodes rng.old).value) }
    ensures rest { OnOk result (rng.new ≡ (draws.crashes beats nodes rng.old).rest) }
{
    let mut all = crashes(alloc, rng, nodes, beats)?;
    let middle = Crash {
        beat: beats / 2,
        process: 0,
    };
    all.push(middle)?;
    sort(&mut all, beats)?;
    events_of(alloc, &all)
}

/// The crashes of kubelets, in the order of nodes.
fn crashes(
    alloc: Global,
    rng: &mut Lcg64Xsh32,
    nodes: u32,
    beats: u32,
) -> Result<Vec<Crash>, NoMemory>
    requires nodes { nodes ≤ 1000 }
    requires beats { beats ≤ 100000 }
    ensures value { IfOk result (λ all. all.items ≡ (draws.crashes beats nodes rng.old).value) }
    ensures rest { OnOk result (rng.new ≡ (draws.crashes beats nodes rng.old).rest) }
    ensures within { IfOk result (λ all. All (λ crash. crash.beat ≤ beats) all.items) }
{
    let mut all = Vec::new(alloc);
    for i in 0..nodes {
        add_crash(&mut all, rng, i, beats)?;
    }
    Ok(all)
}

/// Adds the crash of node `i`'s kubelet, if it has one.
#[tactic(auto, unfolding(crate::specs::Draws::crash_of))]
fn add_crash(all: &mut Vec<Crash>, rng: &mut Lcg64Xsh32, i: u32, beats: u32) -> Result<(), NoMemory>
    requires node { i < 1000 }
    requires beats { beats ≤ 100000 }
    ensures crash { OnOk result (all.new.items ≡ all.old.items ++ (draws.crash_of beats i rng.old).value) }
    ensures rest { OnOk result (rng.new ≡ (draws.crash_of beats i rng.old).rest) }
    ensures within { OnOk result (All (λ crash. crash.beat ≤ beats) all.old.items → All (λ crash. crash.beat ≤ beats) all.new.items) }
{
    let chance = draw(rng, 4);
    if chance == 0 {
        let beat = draw(rng, beats + 1);
        all.push(Crash {
            beat,
            process: 3 + i,
        })?;
    }
    Ok(())
}

/// Sorts crashes by their beats, of which none is after the last. At one beat they stay in their order.
fn sort(all: &mut Vec<Crash>, last: u32) -> Result<(), NoMemory>
    requires { All (λ crash. crash.beat ≤ last) all.old.items }
    ensures { OnOk result (all.new.items ≡ spec.by_beat (last + 1) all.old.items) }
{
    all.sort_by_key(|crash| crash.beat)?;
    Ok(())
}

fn events_of(alloc: Global, all: &[Crash]) -> Result<Events, NoMemory>
    ensures { IfOk result (λ events. events ≡ map spec.event all.now) }
{
    let mut events = Events::new(alloc);
    for crash in all {
        events.push(Event {
            beat: Beat(crash.beat),
            what: What::Crash(ProcId(crash.process)),
        })?;
    }
    Ok(events)
}
