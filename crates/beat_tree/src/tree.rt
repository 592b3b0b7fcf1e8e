// A tournament tree of least beats.
ghost use Rattle.std.specs.Prelude.{◌≡◌, ◌==◌, ◌+◌, ◌*◌, ◌<◌, ◌≤◌, ◌/◌, ℕ, Option, None, true, false, ◌↔◌, IfOk, IfSome, IfNone, IsTrue, vec_len, length, if◌then◌else◌};
ghost use Rattle.beat_tree.specs.Tidy.{IsAcross, IsTidy, IsTidyBut, beat_at, comes_before, doubled, earlier};

use kube_base::{Beat, NoMemory};
use std::alloc::Global;

/// A fixed number of leaves, each with a beat or none.
///
/// Slot 1 is the root, the slots 2 * i and 2 * i + 1 stand below slot i, and the second half of the slots are the leaves, so many steps
/// below the root as the tree is deep. Each slot above them has the earlier beat of the two below it. So a change and a search cost the
/// logarithm of the leaves, and a change less if slots above keep their beats.
#[derive(Debug, Drop)]
pub struct BeatTree {
    slots: Vec<Option<Beat>>,
    width: usize,
    depth: usize,
    ghost long: { vec_len slots ≡ 2 * width },
    ghost power: { width ≡ doubled depth },
    ghost some: { 1 ≤ width },
    ghost narrow: { width ≤ 131072 },
    ghost tidy: { IsTidy slots.items },
}

// Whether a beat comes before another. One that isn't there never comes, and comes after all others.
fn comes_before(one: Option<Beat>, other: Option<Beat>) -> bool
    ensures { result ≡ comes_before one other }
{
    match (one, other) {
        (None, _) => false,
        (Some(_), None) => true,
        (Some(one), Some(other)) => one.0 < other.0,
    }
}

// The earlier of two beats.
fn earlier(one: Option<Beat>, other: Option<Beat>) -> Option<Beat>
    ensures { result ≡ earlier one other }
{
    if comes_before(other, one) { other } else { one }
}

// Whether two beats are one, or none is there.
fn are_same(one: Option<Beat>, other: Option<Beat>) -> bool
    ensures { IsTrue result ↔ (one ≡ other) }
{
    match (one, other) {
        (None, None) => true,
        (Some(one), Some(other)) => one.0 == other.0,
        _ => false,
    }
}

// Finds the earlier beat below each slot above this one anew, up to one that keeps its beat: so do all above that.
fn refresh(slots: &mut [Option<Beat>], from: usize)
    requires within { (1 ≤ from) × (from < length slots.old) }
    requires even { (n : ℕ) × (length slots.old ≡ 2 * n) }
    requires tidy { IsTidyBut slots.old (from / 2) }
    ensures long { length slots.new ≡ length slots.old }
    ensures tidy { IsTidy slots.new }
    ensures same { (i : ℕ) → length slots.old ≤ 2 * i → beat_at slots.new i ≡ beat_at slots.old i }
{
    let mut slot = from;
    while slot > 1 {
        slot /= 2;
        let beat = earlier(slots[2 * slot], slots[2 * slot + 1]);
        if are_same(slots[slot], beat) {
            return;
        }
        slots[slot] = beat;
    }
}

impl BeatTree {
    ghost use Rattle.beat_tree.specs.Leaves.{IsFirst, leaf, room};

    /// At least as many leaves as asked for, none of which has a beat.
    pub fn new(alloc: Global, leaves: usize) -> Result<BeatTree, NoMemory>
        requires { leaves ≤ 65536 }
        ensures room { IfOk result (λ tree. leaves ≤ room tree) }
        ensures empty { IfOk result (λ tree. (i : ℕ) → leaf tree i ≡ None) }
    {
        let mut width = 1;
        let mut depth = 0;
        'deeper: while width < leaves {
            width *= 2;
            depth += 1;
        }
        let mut slots = Vec::new(alloc);
        for _slot in 0..2 * width {
            slots.push(None)?;
        }
        Ok(BeatTree {
            slots,
            width,
            depth,
        })
    }

    /// A leaf has this beat from now on.
    pub fn set(&mut self, i: usize, beat: Option<Beat>)
        requires { i < room self.old }
        ensures room { room self.new ≡ room self.old }
        ensures leaves { (j : ℕ) → leaf self.new j ≡ (if i == j then beat else leaf self.old j) }
    {
        let slot = self.width + i;
        self.slots[slot] = beat;
        refresh(self.slots.as_mut_slice(), slot);
    }

    /// A leaf than whose beat no other's comes before. None exactly if no leaf has a beat.
    pub fn least(&self) -> Option<usize>
        ensures there { IfSome result (λ i. comes_before (leaf self.now i) None ≡ true) }
        ensures least { IfSome result (λ i. (j : ℕ) → comes_before (leaf self.now j) (leaf self.now i) ≡ false) }
        ensures none { IfNone result ((j : ℕ) → leaf self.now j ≡ None) }
    {
        if self.slots[1].is_none() {
            return None;
        }
        let mut slot = 1;
        while slot < self.width {
            slot *= 2;
            if comes_before(self.slots[slot + 1], self.slots[slot]) {
                slot += 1;
            }
        }
        Some(slot - self.width)
    }

    /// The first leaf from one on whose beat comes before another. None exactly if there is none.
    pub fn first_before(&self, from: usize, before: Option<Beat>) -> Option<usize>
        ensures { IsFirst self.now from before result }
    {
        if from >= self.width || !comes_before(self.slots[1], before) {
            return None;
        }
        let mut slot = self.width + from;
        'across: while !comes_before(self.slots[slot], before) {
            slot = next_across(slot);
            if slot == 1 {
                return None;
            }
        }
        'down: while slot < self.width {
            slot *= 2;
            if !comes_before(self.slots[slot], before) {
                slot += 1;
            }
        }
        Some(slot - self.width)
    }
}

// The uppermost slot whose leaves begin where those below a slot end; the root where these are the last ones.
fn next_across(slot: usize) -> usize
    requires { slot < 262144 }
    ensures { IsAcross slot result }
{
    let mut next = slot + 1;
    while next % 2 == 0 {
        next /= 2;
    }
    next
}
