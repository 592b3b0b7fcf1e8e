// The lines that interrupt who acts, by their actors.
ghost use Rattle.std.specs.Prelude.{◌≡◌, ◌∷◌, ℕ, List, IfOk, OnOk, map, reverse, if◌then◌else◌};
ghost use Rattle.std.specs.Str.{bytes_eq};
ghost use denote.Ref.{Bor};
ghost use Rattle.trace_lines.specs.Reads.{seen};
ghost use Rattle.lens_terms.specs.Acting as spec;
ghost use Rattle.lens_terms.specs.Gathered.{ends, interruption};

use crate::turn::{Turn, turn_of};
use kube_base::NoMemory;
use std::alloc::Global;
use std::collections::HashMap;
use trace_lines::Line;

/// By its actor, the beat of the first line of those so far that ends the terms of that identity or pauses it. The lines are taken from the
/// last one back.
#[derive(Drop)]
pub(crate) struct Interruptions<'a> {
    by_actor: HashMap<&'a [u8], u32>,
}

impl<'a> Interruptions<'a> {
    /// No lines so far.
    fn new(alloc: Global) -> Interruptions<'a>
        ensures { (stop : ℕ) (who : Bor (List ℕ)) → interruption stop result who ≡ stop }
    {
        Interruptions {
            by_actor: HashMap::new(alloc),
        }
    }

    /// The beat of the first line so far that interrupts an identity, or the one behind the last beat.
    fn get(&self, stop: u32, who: &'a [u8]) -> u32
        ensures { result ≡ interruption stop self.now who.entry }
    {
        match self.by_actor.get(&who) {
            Some(beat) => *beat,
            None => stop,
        }
    }

    /// Takes the line before those so far.
    fn take(&mut self, stop: u32, line: &Line<&'a [u8]>) -> Result<(), NoMemory>
        ensures { (ls : List (Line (List ℕ))) → ((who : Bor (List ℕ)) → interruption stop self.old who ≡ spec.interrupted stop who.now ls)
            → OnOk result ((who : Bor (List ℕ)) → interruption stop self.new who ≡ spec.interrupted stop who.now (seen line.now ∷ ls)) }
    {
        match turn_of(&line.says) {
            Turn::Ends(_) => self.insert(line.actor, line.beat.min(stop)),
            Turn::Pauses(_) => self.insert(line.actor, line.beat.min(stop)),
            Turn::Leads => Ok(()),
            Turn::Keeps => Ok(()),
        }
    }

    /// A line that interrupts an identity comes before those so far.
    fn insert(&mut self, who: &'a [u8], beat: u32) -> Result<(), NoMemory>
        ensures { (stop : ℕ) → OnOk result ((other : Bor (List ℕ))
            → interruption stop self.new other ≡ (if bytes_eq who.now other.now then beat else interruption stop self.old other)) }
    {
        self.by_actor.insert(who, beat)?;
        Ok(())
    }
}

/// Of each line the beat in which its actor is interrupted behind it, in a trace that ends before the beat `stop`; that of the last line first.
/// One pass over the lines.
pub(crate) fn ends_of(alloc: Global, stop: u32, lines: &[Line<&[u8]>]) -> Result<Vec<u32>, NoMemory>
    ensures { IfOk result (λ found. found.items ≡ reverse (ends stop (map seen lines.now))) }
{
    let mut interruptions = Interruptions::new(alloc);
    let mut found = Vec::new(alloc);
    let mut at = lines.len();
    'lines: while at > 0 {
        at -= 1;
        let line = &lines[at];
        found.push(interruptions.get(stop, line.actor))?;
        interruptions.take(stop, line)?;
    }
    Ok(found)
}
