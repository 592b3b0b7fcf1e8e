// What follows a place of the trace, for one identity.
ghost use Rattle.std.specs.Prelude.{◌≡◌, length, OnOk};
ghost use Rattle.trace_terms.specs.Findings.{least, breaking};
ghost use Rattle.trace_terms.specs.Entries.{played};
ghost use Rattle.trace_terms.specs.Seats as spec;

use crate::earlier::earlier;
use crate::mark::Mark;
use crate::role::Role;
use crate::roll::Roll;
use crate::spacing::first_breaking;
use kube_base::{ListOf, NameHash, NoMemory};
use std::alloc::Global;

/// What follows a place of the trace, for one identity: where its span ends, and its acting lines up to its next lead.
#[derive(Drop)]
pub struct Seat {
    /// The beat of its next `end`, `crash` or `stop` line, or the one behind the last beat.
    pub to: u32,
    /// The first acting line.
    pub first: Option<u64>,
    /// The first acting line that isn't before the beat `to`.
    pub late: Option<u64>,
    /// The different zones.
    pub zones: Roll,
    /// The greatest rate of a zone, or 0.
    pub rate: u32,
    /// The beat of the first zone line.
    pub start: Option<u32>,
    /// The taint lines, the last one first.
    pub taints: ListOf<Mark>,
}

impl Seat {
    /// Nothing follows up to before this beat.
    pub fn new(alloc: Global, hash: NameHash, to: u32) -> Seat
        ensures { result ≡ spec.blank to }
    {
        Seat {
            to,
            first: None,
            late: None,
            zones: Roll::new(alloc, hash),
            rate: 0,
            start: None,
            taints: ListOf::new(alloc),
        }
    }

    /// A line of the identity comes before, which is no lead.
    pub fn take(&mut self, role: Role<&[u8]>, beat: u32, line: u64) -> Result<(), NoMemory>
        ensures { OnOk result (self.new ≡ spec.after (played role.entry) beat line self.old) }
    {
        match role {
            Role::Ends => {
                self.to = beat;
                self.late = self.first;
                Ok(())
            }
            Role::Acts => {
                self.act(beat, line);
                Ok(())
            }
            Role::Zones(zone, rate) => {
                self.act(beat, line);
                self.zone(beat, zone, rate)
            }
            Role::Taints => {
                self.act(beat, line);
                self.taints.push(Mark { beat, line })
            }
            Role::Leads => Ok(()),
            Role::Idles => Ok(()),
        }
    }

    /// An acting line comes before.
    fn act(&mut self, beat: u32, line: u64)
        ensures { self.new ≡ spec.acted beat line self.old }
    {
        self.first = earlier(Some(line), self.first);
        if self.to <= beat {
            self.late = earlier(Some(line), self.late);
        }
    }

    /// So does what a zone line says.
    fn zone(&mut self, beat: u32, zone: &[u8], rate: u32) -> Result<(), NoMemory>
        ensures { OnOk result (self.new ≡ spec.zoned beat zone.now rate self.old) }
    {
        self.zones.place(zone)?;
        self.rate = self.rate.max(rate);
        self.start = Some(beat);
        Ok(())
    }

    /// The first taint line that breaks the spacing.
    pub fn spacing_fault(&self, millis: u32) -> Option<u64>
        ensures { result ≡ least (breaking millis self.now.rate (length self.now.zones) self.now.start self.now.taints) }
    {
        first_breaking(
            millis,
            self.rate,
            self.zones.len(),
            self.start,
            self.taints.as_slice(),
        )
    }
}
