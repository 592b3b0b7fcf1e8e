// The stretches in which a leader acts, gathered from the first line to the last.
ghost use Rattle.std.specs.Prelude.{◌≡◌, ◌++◌, IfOk, OnOk, map};
ghost use Rattle.trace_lines.specs.Reads.{seen};
ghost use Rattle.lens_terms.specs.Acting as spec;
ghost use Rattle.lens_terms.specs.Gathered.{AreBelow, AreHeld};
ghost use Rattle.lens_terms.specs.Terms.{turn_of as turn_in};

use crate::interruptions::ends_of;
use crate::standing::Standing;
use crate::standings::Standings;
use crate::stretch::Stretch;
use crate::turn::{Turn, turn_of};
use kube_base::NoMemory;
use std::alloc::Global;
use trace_lines::Line;

/// What is known behind the lines so far: how each identity stands, and the stretches that they begin.
#[derive(Drop)]
pub(crate) struct Acting<'a> {
    pub(crate) standings: Standings<'a>,
    pub(crate) found: Vec<Stretch<&'a [u8]>>,
}

impl<'a> Acting<'a> {
    /// Takes the next line, which has this number and whose actor is interrupted at the beat `end` behind it.
    fn take(
        &mut self,
        stop: u32,
        number: u64,
        end: u32,
        line: &Line<&'a [u8]>,
    ) -> Result<(), NoMemory>
        ensures { (known : spec.Standings) → AreHeld known self.old.standings → OnOk result (
            AreHeld (spec.with_line stop (seen line.now) known) self.new.standings
            × (map spec.shown self.new.found.items ≡ map spec.shown self.old.found.items
            ++ spec.stretch number line.now.actor.now end
            (spec.begins_by stop line.now.beat (turn_in (seen line.now).says) (known line.now.actor.now)))) }
    {
        let turn = turn_of(&line.says);
        if let Turn::Keeps = turn {
            return Ok(());
        }
        let standing = Standing::known(self.standings.get(line.actor));
        let begins = standing.begins(stop, line.beat, turn);
        add(&mut self.found, number, line.actor, end, begins)?;
        self.standings
            .insert(line.actor, standing.behind(stop, line.beat, turn))
    }
}

/// Adds the stretch between two beats, if there is a beat in it.
fn add<'a>(
    found: &mut Vec<Stretch<&'a [u8]>>,
    line: u64,
    actor: &'a [u8],
    until: u32,
    begins: Option<u32>,
) -> Result<(), NoMemory>
    ensures { OnOk result (map spec.shown found.new.items ≡ map spec.shown found.old.items ++ spec.stretch line actor.now until begins) }
{
    let Some(from) = begins else {
        return Ok(());
    };
    if from < until {
        found.push(Stretch {
            line,
            actor,
            from,
            until,
        })?;
    }
    Ok(())
}

/// The stretches in which a leader acts, by the lines behind the first of a trace that ends before the beat `stop`; in the order in which they
/// begin. Two passes over the lines.
#[tactic(auto, unfolding(crate::specs::Acting::acting))]
pub fn stretches_of<'a>(
    alloc: Global,
    stop: u32,
    lines: &[Line<&'a [u8]>],
) -> Result<Vec<Stretch<&'a [u8]>>, NoMemory>
    ensures { IfOk result (λ found. map spec.shown found.items ≡ spec.acting stop (map seen lines.now)) }
{
    let mut found = by_line(alloc, stop, lines)?;
    sort(&mut found, stop)?;
    Ok(found)
}

/// The same stretches in the order of the lines that begin them.
fn by_line<'a>(
    alloc: Global,
    stop: u32,
    lines: &[Line<&'a [u8]>],
) -> Result<Vec<Stretch<&'a [u8]>>, NoMemory>
    ensures { IfOk result (λ found. map spec.shown found.items ≡ spec.stretches stop 2 spec.nothing_known (map seen lines.now)) }
{
    let mut ends = ends_of(alloc, stop, lines)?;
    let mut acting = Acting {
        standings: Standings::new(alloc),
        found: Vec::new(alloc),
    };
    let mut at = 0;
    'lines: while let Some(end) = ends.pop() {
        acting.take(stop, at as u64 + 2, end, &lines[at])?;
        at += 1;
    }
    Ok(acting.found)
}

/// Sorts stretches by the beats in which they begin. At one beat they stay in their order.
fn sort(found: &mut Vec<Stretch<&[u8]>>, stop: u32) -> Result<(), NoMemory>
    requires { AreBelow stop (map spec.shown found.old.items) }
    ensures { OnOk result (map spec.shown found.new.items ≡ spec.by_beat stop (map spec.shown found.old.items)) }
{
    found.sort_by_key(|stretch| stretch.from)?;
    Ok(())
}
