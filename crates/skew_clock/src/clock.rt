// A clock whose rate changes at beats.
ghost use Rattle.std.specs.Prelude.{◌≡◌, ℕ, pos, ◌+ℤ◌, ◌+◌, ◌*◌, ◌/◌, ◌^◌, ◌<◌, ◌≤◌, [], ◌∷◌, IfOk, IfSome, IfNone, OnOk, OnErr};
ghost use Rattle.kube_base.specs.Bounds.{most_local};
ghost use Rattle.skew_clock.specs.Clocking.{rate_at, last_set, reading, wall_of, wall_when, IsFirst, IsRate, IsEpoch, IsOffset, IsSpan};

use kube_base::{Beat, Local, NoMemory, Wall};
use std::alloc::Global;
use std::marker::Model;

// A reading counts units of 10^-12 s.
const UNITS_PER_MICRO: u64 = 1_000_000;

// From its beat on the clock runs at its rate, on from its reading.
#[derive(Clone, Copy, Debug)]
struct Segment {
    beat: Beat,
    reading: Local,
    ppm: u32,
}

impl Segment {
    // What the clock runs in a beat.
    fn step(&self, beat_micros: u32) -> u64
        ensures { result ≡ beat_micros * self.now.ppm }
    {
        u64::from(beat_micros) * u64::from(self.ppm)
    }
}

/// A process's clock up to the end of a script, under the rates set so far. Contracts see it as a `Clocking`.
#[derive(Debug, Drop)]
pub struct Clock {
    epoch: Wall,
    offset_micros: i64,
    beat_micros: u32,
    end: Beat,
    segments: Vec<Segment>,
    // The last of them: most looks want it, and needn't read the list.
    last: Segment,
}

impl Model for Clock {
    ghost use Rattle.skew_clock.specs.Clocking.{Clocking};

    ghost Value = { Clocking };

    ghost use Rattle.skew_clock.specs.Segments.{clocking_of, IsKept};

    ghost view = { clocking_of };

    ghost invariant = { IsKept };
}

impl Clock {
    /// A clock that reads 0 at beat 0 and runs at `ppm` parts per million of the true rate. Times and the length of a beat are in
    /// microseconds.
    pub fn new(
        alloc: Global,
        epoch: Wall,
        offset_micros: i64,
        beat_micros: u32,
        end: Beat,
        ppm: u32,
    ) -> Result<Clock, NoMemory>
        requires epoch { IsEpoch epoch.0 }
        requires offset { IsOffset offset_micros }
        requires span { IsSpan beat_micros end.0 }
        requires rate { IsRate ppm }
        ensures { IfOk result (λ clock. clock
            ≡ record { epoch = epoch.0; offset = offset_micros; beat_micros = beat_micros; end = end.0; sets = (0, ppm) ∷ [] }) }
    {
        let last = Segment {
            beat: Beat(0),
            reading: Local(0),
            ppm,
        };
        let mut segments = Vec::new(alloc);
        segments.push(last)?;
        Ok(Clock {
            epoch,
            offset_micros,
            beat_micros,
            end,
            segments,
            last,
        })
    }

    /// From this beat on the clock runs at `ppm` parts per million, until the next set. If memory runs out the clock stays as it was.
    pub fn set_rate(&mut self, beat: Beat, ppm: u32) -> Result<(), NoMemory>
        requires later { last_set self.old.sets ≤ beat.0 }
        requires within { beat.0 ≤ self.old.end }
        requires rate { IsRate ppm }
        ensures ok { OnOk result (self.new ≡ record self.old { sets = (beat.0, ppm) ∷ self.old.sets }) }
        ensures err { OnErr result (self.new ≡ self.old) }
    {
        let reading = self.local(beat);
        let last = Segment { beat, reading, ppm };
        self.segments.push(last)?;
        self.last = last;
        Ok(())
    }

    /// The last beat that it knows of.
    pub fn end(&self) -> Beat
        ensures { result.0 ≡ self.now.end }
    {
        self.end
    }

    /// The reading at a beat, in units of 10^-12 s.
    pub fn local(&self, beat: Beat) -> Local
        requires { beat.0 ≤ self.now.end }
        ensures value { result.0 ≡ reading self.now beat.0 }
        ensures range { result.0 ≤ most_local }
    {
        let segment = self.segment_at(beat);
        let beats = u64::from(beat.0 - segment.beat.0);
        Local(segment.reading.0 + beats * segment.step(self.beat_micros))
    }

    /// The time of day at a beat, in microseconds.
    pub fn wall(&self, beat: Beat) -> Wall
        requires { beat.0 ≤ self.now.end }
        ensures value { result.0 ≡ wall_of self.now beat.0 }
        ensures exact { pos result.0 ≡ pos (self.now.epoch + reading self.now beat.0 / 1000000) +ℤ self.now.offset }
        ensures range { result.0 ≤ 10 ^ 16 }
    {
        self.wall_at(self.local(beat))
    }

    /// The time of day when the clock reads this, in microseconds.
    pub fn wall_at(&self, reading: Local) -> Wall
        requires { reading.0 ≤ most_local }
        ensures value { result.0 ≡ wall_when self.now reading.0 }
        ensures exact { pos result.0 ≡ pos (self.now.epoch + reading.0 / 1000000) +ℤ self.now.offset }
        ensures range { result.0 ≤ 10 ^ 16 }
    {
        let micros = reading.0 / UNITS_PER_MICRO;
        Wall((self.epoch.0 + micros).saturating_add_signed(self.offset_micros))
    }

    /// The first beat, up to the end, at which the clock reads at least this, under the rates set so far. Takes no memory.
    pub fn first_beat(&self, at: Local) -> Option<Beat>
        ensures first { IfSome result (λ beat. IsFirst (reading self.now) self.now.end at.0 beat.0) }
        ensures none { IfNone result ((k : ℕ) → k ≤ self.now.end → reading self.now k < at.0) }
    {
        if at.0 == 0 {
            return Some(Beat(0));
        }
        let segment = self.segment_before(at);
        let beats = (at.0 - segment.reading.0).div_ceil(segment.step(self.beat_micros));
        if beats <= u64::from(self.end.0 - segment.beat.0) {
            Some(Beat(segment.beat.0 + beats as u32))
        } else {
            None
        }
    }

    /// The first beat, up to the end, at which the time of day is at least this, under the rates set so far. Takes no memory.
    pub fn first_wall(&self, at: Wall) -> Option<Beat>
        ensures first { IfSome result (λ beat. IsFirst (wall_of self.now) self.now.end at.0 beat.0) }
        ensures none { IfNone result ((k : ℕ) → k ≤ self.now.end → wall_of self.now k < at.0) }
    {
        let start = self.epoch.0.saturating_add_signed(self.offset_micros);
        let units = at.0.saturating_sub(start).checked_mul(UNITS_PER_MICRO)?;
        self.first_beat(Local(units))
    }

    // The segment that the clock is in at a beat: mostly the last one.
    fn segment_at(&self, beat: Beat) -> Segment
        ensures begins { result.reading.0 ≡ reading self.now result.beat.0 }
        ensures begun { result.beat.0 ≤ beat.0 }
        ensures rate { (j : ℕ) → result.beat.0 ≤ j → j ≤ beat.0 → rate_at self.now.sets j ≡ result.ppm }
    {
        if self.last.beat.0 <= beat.0 {
            return self.last;
        }
        let begun = self.segments.partition_point(|s| s.beat.0 <= beat.0);
        self.segments[begun - 1]
    }

    // The last segment that begins below a reading: mostly the last one.
    fn segment_before(&self, at: Local) -> Segment
        requires { 0 < at.0 }
        ensures begins { result.reading.0 ≡ reading self.now result.beat.0 }
        ensures before { result.reading.0 < at.0 }
        ensures within { result.beat.0 ≤ self.now.end }
        ensures runs { 0 < result.ppm }
        ensures rate { (j : ℕ) → result.beat.0 ≤ j → reading self.now j < at.0 → rate_at self.now.sets j ≡ result.ppm }
    {
        if self.last.reading.0 < at.0 {
            return self.last;
        }
        let below = self.segments.partition_point(|s| s.reading.0 < at.0);
        self.segments[below - 1]
    }
}

#[cfg(test)]
mod tests;
