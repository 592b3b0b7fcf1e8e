// A scene, beat by beat.
ghost use Rattle.std.specs.Prelude.{◌≤◌};
ghost use Rattle.kube_base.specs.Bounds.{most_local};

use crate::change::{Change, EPOCH, write};
use crate::rows::{Pace, Renewals, Row, Span};
use controller_core::Term;
use kube_base::{Beat, Local, NoMemory, ProcId, Steps, Version, Wall};
use kube_objects::{
    ReleaseActing, ReleaseRule, Reply, RespectRule, RetryRule, Rules, TickSettings,
};
use leader_elector::{Candidate, CandidateNext, Leading, Timing};
use object_store::Store;
use std::alloc::Global;
use std::io::{self, ErrorKind};
use std::sync::ledger::Blank;
use term_state::View;
use zone_state::{Policies, full, partial};

const TIMING: Timing = Timing {
    lease_seconds: 2_000,
    renew: 900_000_000_000_000,
    retry: 600_000_000_000_000,
    timeout: 2_000_000_000_000,
    fast: false,
    retries: RetryRule::After,
    respect: RespectRule::Record,
    release: ReleaseRule::Stop,
    in_release: ReleaseActing::Still,
};

// Milliseconds from the first beat to this one.
fn millis(pace: Pace, beat: u16) -> u64
    ensures { result ≤ 65_535_000 }
{
    match pace {
        Pace::Tenth => u64::from(beat) * 100,
        Pace::Second => u64::from(beat) * 1_000,
    }
}

fn reading(pace: Pace, beat: u16) -> Local
    ensures { result.0 ≤ most_local }
{
    Local(millis(pace, beat) * 1_000_000_000)
}

fn time(pace: Pace, beat: u16) -> Wall {
    Wall(EPOCH + millis(pace, beat) * 1_000)
}

fn settings(row: &Row) -> TickSettings
    ensures { result.secondary_rate ≤ result.primary_rate }
{
    let rules = Rules::own();
    TickSettings {
        first_sync_millis: rules.first_sync_millis,
        probe: rules.probe,
        monitor_period_millis: 5_000,
        grace_period_millis: row.grace_millis,
        startup_grace_millis: 60_000,
        node_lease_duration_seconds: 40,
        primary_rate: 100,
        secondary_rate: 10,
        large_zone: 50,
        unhealthy_percent: 55,
        rate_policy: row.policy,
        judge: rules.judge,
        first_sight: rules.first_sight,
        queue: rules.queue,
        bucket: rules.bucket,
        evict_from: rules.evict_from,
        evict_burst: rules.evict_burst,
        evict_rate: rules.evict_rate,
        ready_millis: rules.ready_millis,
        ready_burst: rules.ready_burst,
    }
}

// A candidate that finds no Lease, creates it and leads.
fn leader(at: Local, wall: Wall) -> Option<Leading>
    requires { at.0 ≤ most_local }
{
    let candidate = Candidate::start(ProcId(0), 1, TIMING, at);
    let CandidateNext::Ask(candidate, get) = candidate.on_timer(&[1_000], at, wall) else {
        return None;
    };
    let CandidateNext::Ask(candidate, create) = candidate.on_reply(
        &[1_000],
        get.number,
        Reply::Absent,
        at,
        wall,
    ) else {
        return None;
    };
    match candidate.on_reply(&[1_000], create.number, Reply::Done(Version(1)), at, wall) {
        CandidateNext::Lead(leading) => Some(leading),
        _ => None,
    }
}

fn out_of_memory(_: NoMemory) -> io::Error {
    io::Error::from(ErrorKind::OutOfMemory)
}

// The store, with the watch and the losses that are in force.
#[derive(Drop)]
struct Scene {
    store: Store,
    watch: bool,
    passes: bool,
}

impl Scene {
    fn change(&mut self, alloc: Global, row: &Row, beat: u16) -> Result<(), NoMemory> {
        let now = time(row.pace, beat);
        if beat == 0 {
            for change in row.at_first {
                self.make(alloc, *change, now)?;
            }
        }
        for renewals in row.renewals {
            self.renew(alloc, row, *renewals, beat)?;
        }
        for at in row.lease_beats {
            if *at == beat {
                self.make(alloc, Change::Renewal, now)?;
            }
        }
        for change in row.changes {
            let (at, change) = *change;
            if at == beat {
                self.make(alloc, change, now)?;
            }
        }
        Ok(())
    }

    // The Leases of nodes are renewed, where it is a beat for that.
    fn renew(
        &mut self,
        alloc: Global,
        row: &Row,
        renewals: Renewals,
        beat: u16,
    ) -> Result<(), NoMemory> {
        let Some(past) = beat.checked_sub(renewals.from) else {
            return Ok(());
        };
        if past % 10 != 0 || beat > renewals.to {
            return Ok(());
        }
        let at = millis(row.pace, beat).cast_signed();
        for node in renewals.nodes {
            let change = Change::NodeLease(*node, at);
            write(alloc, &mut self.store, change, time(row.pace, beat))?;
        }
        Ok(())
    }

    fn make(&mut self, alloc: Global, change: Change, now: Wall) -> Result<(), NoMemory> {
        match change {
            Change::Watch(on) => {
                self.watch = on;
                Ok(())
            }
            Change::Passes(on) => {
                self.passes = on;
                Ok(())
            }
            change => write(alloc, &mut self.store, change, now),
        }
    }

    fn view(&self, pace: Pace, beat: u16) -> View
        ensures { result.now.0 ≤ most_local }
    {
        View {
            watch: self.watch,
            passes: self.passes,
            beat: Beat(u32::from(beat)),
            now: reading(pace, beat),
            wall: time(pace, beat),
        }
    }
}

/// Plays a scene, and prints each deed with its beat.
pub(crate) fn play(rt: &HostRuntime, row: &Row) -> io::Result<()> {
    let alloc = rt.alloc();
    let mut scene = Scene {
        store: Store::new(alloc),
        watch: true,
        passes: true,
    };
    let mut next = 0;
    for span in row.terms {
        for beat in next..span.from {
            scene.change(alloc, row, beat).map_err(out_of_memory)?;
        }
        lead(rt, row, *span, &mut scene)?;
        next = span.to.saturating_add(1);
    }
    Ok(())
}

// One term, from its first beat to its last.
fn lead(rt: &HostRuntime, row: &Row, span: Span, scene: &mut Scene) -> io::Result<()> {
    let alloc = rt.alloc();
    let policies = Policies::new(partial, full);
    let mut term = Term::new(alloc, &settings(row));
    let Some(leading) = leader(reading(row.pace, span.from), time(row.pace, span.from)) else {
        return Ok(());
    };
    term.lead(reading(row.pace, span.from));
    for beat in span.from..span.to.saturating_add(1) {
        scene.change(alloc, row, beat).map_err(out_of_memory)?;
        let Some(acting) = leading.acting(reading(row.pace, beat)) else {
            return Ok(());
        };
        let view = scene.view(row.pace, beat);
        let mut steps = Steps::new(Blank::new(1));
        let deeds = term
            .tick(&acting, &mut scene.store, &view, &policies, &mut steps)
            .map_err(out_of_memory)?;
        for deed in deeds.as_slice() {
            println!(rt; "{beat} {:?}", deed.act)?;
        }
        tell_steps(rt, row, beat, steps.count())?;
    }
    Ok(())
}

// Whether a tick counted no more than it may, where that is asked.
fn tell_steps(rt: &HostRuntime, row: &Row, beat: u16, count: u64) -> io::Result<()> {
    for most in row.steps {
        let (at, most) = *most;
        if at == beat {
            println!(rt; "{beat} at most {most} steps: {}", count <= most)?;
        }
    }
    Ok(())
}
