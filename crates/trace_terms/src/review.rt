// The terms of a trace, looked at from its last line to its first.
//
//     line 1 .. line k          lines that were not taken yet
//     line k+1 .. last line     Review: what was found in these
//                                 actors: Roll       host-a_1, host-b_1, ..: each identity once, the last one of the trace first
//                                 seats: Vec<Seat>   for the identity at the same place of `actors`: where a span that begins now would end,
//                                                    its acting lines up to its next lead, its zones (a Roll too) and its taints
//                                 nearest            the first span that follows, and the first of another identity
//                                 findings           the first line at fault of each sort
//
// A line fills its identity's seat. A `lead` empties it, but for the span's end: what stood in it belongs to the term that begins there.
ghost use Rattle.std.specs.Prelude.{◌≡◌, ℕ, ◌+◌, ◌<◌, ◌≤◌, ◌^◌, List, [], ◌∷◌, length, slice_get, Some, OnOk, IfOk};
ghost use Rattle.trace_terms.specs.Entries.{Entry, played};
ghost use Rattle.trace_terms.specs.Findings.{least, outside};
ghost use Rattle.trace_terms.specs.Terms.{terms};
ghost use Rattle.trace_terms.specs.Seats.{AreAfter, first_acting};
ghost use Rattle.trace_terms.specs.declared.seat.Seat.{Seat};
ghost use Rattle.trace_terms.specs.Reviews.{ReviewStands, IsCounted, Led, Played, crossed_with, findings_with, nearest_with};

use crate::earlier::earlier;
use crate::nearest::{Nearest, Span};
use crate::role::Role;
use crate::roll::Roll;
use crate::seat::Seat;
use kube_base::{NameHash, NoMemory};
use std::alloc::Global;

/// The first line at fault so far, for each of three faults.
#[derive(Clone, Copy)]
pub struct Findings {
    /// A lead whose span shares a beat with an earlier one of another identity.
    pub crossed: Option<u64>,
    /// An acting line outside its actor's term.
    pub outside: Option<u64>,
    /// A taint line that breaks the spacing.
    pub unspaced: Option<u64>,
}

/// What was found in the lines so far, from the last one back.
#[derive(Drop)]
pub struct Review {
    alloc: Global,
    hash: NameHash,
    pub millis: u32,
    pub end: u32,
    pub actors: Roll,
    pub seats: Vec<Seat>,
    pub nearest: Nearest,
    pub findings: Findings,
    pub leads: u64,
    pub taints: u64,
}

impl Review {
    /// No lines so far. Identities and zones are hashed by the key of the trace.
    pub fn new(alloc: Global, hash: NameHash, millis: u32, end: u32) -> Review
        ensures { ReviewStands millis end [] result }
    {
        Review {
            alloc,
            hash,
            millis,
            end,
            actors: Roll::new(alloc, hash),
            seats: Vec::new(alloc),
            nearest: Nearest {
                first: None,
                other: None,
            },
            findings: Findings {
                crossed: None,
                outside: None,
                unspaced: None,
            },
            leads: 0,
            taints: 0,
        }
    }

    /// Takes the line before those so far.
    pub fn take(
        &mut self,
        number: u64,
        beat: u32,
        actor: &[u8],
        role: Role<&[u8]>,
    ) -> Result<(), NoMemory>
        requires end { self.old.end ≤ 604800000 }
        requires even { length self.old.seats.items ≡ length self.old.actors }
        requires leads { self.old.leads + 1 < 2 ^ 64 }
        requires taints { self.old.taints + 1 < 2 ^ 64 }
        ensures stands { (millis end : ℕ) (es : List Entry) → ReviewStands millis end es self.old → AreAfter beat number es
            → OnOk result (ReviewStands millis end
            (record { line = number; beat = beat; actor = actor.now; role = played role.entry } ∷ es) self.new) }
        ensures even { OnOk result (length self.new.seats.items ≡ length self.new.actors) }
        ensures end { self.new.end ≡ self.old.end }
        ensures leads { self.new.leads ≤ self.old.leads + 1 }
        ensures taints { self.new.taints ≤ self.old.taints + 1 }
    {
        match role {
            Role::Idles => Ok(()),
            Role::Leads => {
                let place = self.place(actor)?;
                self.lead(place, beat, number);
                Ok(())
            }
            Role::Taints => {
                let place = self.place(actor)?;
                self.play(place, beat, number, Role::Taints)?;
                self.taints += 1;
                Ok(())
            }
            Role::Ends => {
                let place = self.place(actor)?;
                self.play(place, beat, number, Role::Ends)
            }
            Role::Acts => {
                let place = self.place(actor)?;
                self.play(place, beat, number, Role::Acts)
            }
            Role::Zones(zone, rate) => {
                let place = self.place(actor)?;
                self.play(place, beat, number, Role::Zones(zone, rate))
            }
        }
    }

    /// A line of the identity at a place comes before, which is no lead. A taint isn't counted here.
    fn play(
        &mut self,
        place: usize,
        beat: u32,
        line: u64,
        role: Role<&[u8]>,
    ) -> Result<(), NoMemory>
        requires { place < length self.old.seats.items }
        ensures played { OnOk result (Played place beat line (played role.entry) self.old self.new) }
        ensures even { length self.new.seats.items ≡ length self.old.seats.items }
        ensures same { IsCounted self.old self.new }
        ensures actors { self.new.actors ≡ self.old.actors }
    {
        self.seats[place].take(role, beat, line)
    }

    /// The place of an actor among the seats.
    fn place(&mut self, actor: &[u8]) -> Result<usize, NoMemory>
        requires end { self.old.end ≤ 604800000 }
        requires even { length self.old.seats.items ≡ length self.old.actors }
        ensures stands { (millis end : ℕ) (es : List Entry) → ReviewStands millis end es self.old
            → OnOk result (ReviewStands millis end es self.new) }
        ensures at { IfOk result (λ place. slice_get self.new.actors place ≡ Some actor.now) }
        ensures within { IfOk result (λ place. place < length self.new.seats.items) }
        ensures even { OnOk result (length self.new.seats.items ≡ length self.new.actors) }
        ensures same { IsCounted self.old self.new }
    {
        let place = self.actors.place(actor)?;
        if self.seats.len() < self.actors.len() {
            self.seats
                .push(Seat::new(self.alloc, self.hash, self.end + 1))?;
        }
        Ok(place)
    }

    /// A lead comes before: what was kept for its term is looked at.
    fn lead(&mut self, place: usize, beat: u32, line: u64)
        requires within { place < length self.old.seats.items }
        requires leads { self.old.leads + 1 < 2 ^ 64 }
        ensures led { Led place beat line self.old self.new }
        ensures even { length self.new.seats.items ≡ length self.old.seats.items }
    {
        let to = self.seats[place].to;
        let findings = self.findings_at(place, beat);
        let nearest = self.nearest_at(place, beat, line);
        self.findings = findings;
        self.nearest = nearest;
        self.seats[place] = Seat::new(self.alloc, self.hash, to);
        self.leads += 1;
    }

    /// The first lines at fault with those of the term whose lead comes before.
    fn findings_at(&self, place: usize, beat: u32) -> Findings
        requires { place < length self.now.seats.items }
        ensures { (s : Seat) → slice_get self.now.seats.items place ≡ Some s → result ≡ findings_with place beat s self.now }
    {
        let seat = &self.seats[place];
        Findings {
            crossed: self.overlap_at(place, beat, seat.to),
            outside: earlier(seat.late, self.findings.outside),
            unspaced: earlier(seat.spacing_fault(self.millis), self.findings.unspaced),
        }
    }

    fn overlap_at(&self, place: usize, beat: u32, to: u32) -> Option<u64>
        ensures { result ≡ crossed_with place beat to self.now }
    {
        if beat < to {
            earlier(self.nearest.overlap(place, to), self.findings.crossed)
        } else {
            self.findings.crossed
        }
    }

    /// The nearest spans with that of the term whose lead comes before.
    fn nearest_at(&self, place: usize, beat: u32, line: u64) -> Nearest
        requires { place < length self.now.seats.items }
        ensures { (s : Seat) → slice_get self.now.seats.items place ≡ Some s
            → result ≡ nearest_with place beat line s.to self.now }
    {
        if beat < self.seats[place].to {
            self.nearest.with(Span {
                who: place,
                from: beat,
                line,
            })
        } else {
            self.nearest
        }
    }

    /// The first acting line that lies outside: in a term, or before its actor's first lead.
    pub fn outside(&self) -> Option<u64>
        ensures { (millis end : ℕ) (es : List Entry) → ReviewStands millis end es self.now
            → result ≡ least (outside es (terms (end + 1) es)) }
    {
        earlier(self.findings.outside, first_of(&self.seats))
    }
}

/// The first acting line of all seats.
fn first_of(seats: &[Seat]) -> Option<u64>
    ensures { result ≡ first_acting seats.now }
{
    let mut found = None;
    for seat in seats {
        found = earlier(found, seat.first);
    }
    found
}
