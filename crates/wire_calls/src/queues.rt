// Queues of messages by beats.
ghost use Rattle.std.specs.Prelude.{◌≡◌, ◌==◌, ◌∷◌, ◌++◌, [], ℕ, false, cond, OnOk, OnErr};
ghost use Rattle.std.specs.VecDeque.{deque_items};
ghost use Rattle.wire_calls.specs.InFlight.{queued, HasNoEmpty, IsLeast, first_of, has_any, rest_of};

use kube_base::{Beat, NoMemory};
use std::alloc::Global;
use std::collections::{BTreeMap, VecDeque};
use std::mem;

/// For each beat at which something arrives, what arrives, the oldest first. The queue that was emptied last is kept, with
/// its memory, for the next beat.
#[derive(Drop)]
pub(crate) struct Queues<T> {
    alloc: Global,
    beats: BTreeMap<Beat, VecDeque<T>>,
    spare: Option<VecDeque<T>>,
}

impl<T: Copy + Drop> Queues<T> {
    pub(crate) fn new(alloc: Global) -> Queues<T>
        ensures nothing { (j : ℕ) → queued result j ≡ [] }
        ensures live { HasNoEmpty result }
    {
        Queues {
            alloc,
            beats: BTreeMap::new(alloc),
            spare: None,
        }
    }

    /// Adds a message behind the others of its beat.
    pub(crate) fn push(&mut self, beat: Beat, message: T) -> Result<(), NoMemory>
        ensures ok { OnOk result ((j : ℕ) → queued self.new j
            ≡ cond (beat.0 == j) (queued self.old j ++ message ∷ []) (queued self.old j)) }
        ensures err { OnErr result ((j : ℕ) → queued self.new j ≡ queued self.old j) }
        ensures live { HasNoEmpty self.old → HasNoEmpty self.new }
    {
        if let Some(queue) = self.beats.get_mut(&beat) {
            queue.push_back(message)?;
            return Ok(());
        }
        let mut queue = self.empty_queue();
        queue.push_back(message)?;
        self.beats.insert(beat, queue)?;
        Ok(())
    }

    fn empty_queue(&mut self) -> VecDeque<T>
        ensures empty { deque_items result ≡ [] }
        ensures same { self.new.beats ≡ self.old.beats }
    {
        match self.spare.take() {
            Some(mut queue) => {
                queue.clear();
                begin_anew(&mut queue);
                queue
            }
            None => VecDeque::new(self.alloc),
        }
    }

    /// Takes out the first message of a beat.
    pub(crate) fn take(&mut self, beat: Beat) -> Option<T>
        ensures first { result ≡ first_of (queued self.old beat.0) }
        ensures rest { (j : ℕ) → queued self.new j ≡ cond (beat.0 == j) (rest_of (queued self.old j)) (queued self.old j) }
        ensures live { HasNoEmpty self.old → HasNoEmpty self.new }
    {
        let queue = self.beats.get_mut(&beat)?;
        let first = take_first(queue);
        if queue.is_empty() {
            self.spare = self.beats.remove(&beat);
        }
        first
    }

    /// Whether a beat has a queue. If it has none, nothing arrives at it.
    pub(crate) fn has(&self, beat: Beat) -> bool
        ensures none { result ≡ false → queued self.now beat.0 ≡ [] }
        ensures some { HasNoEmpty self.now → result ≡ has_any (queued self.now beat.0) }
    {
        self.beats.contains_key(&beat)
    }

    /// The least beat at which something arrives.
    pub(crate) fn least(&self) -> Option<Beat>
        ensures { HasNoEmpty self.now → IsLeast (queued self.now) result }
    {
        match self.beats.first_key_value() {
            Some(entry) => Some(*entry.0),
            None => None,
        }
    }
}

/// Takes out the first message of a queue.
pub(crate) fn take_first<T: Drop>(queue: &mut VecDeque<T>) -> Option<T>
    ensures first { result ≡ first_of (deque_items queue.old) }
    ensures rest { deque_items queue.new ≡ rest_of (deque_items queue.old) }
{
    queue.pop_front()
}

/// A queue goes on at the start of its memory, so that few messages at a time take the same few places of it. It costs nothing if the
/// queue is empty.
pub(crate) fn begin_anew<T: Drop>(queue: &mut VecDeque<T>)
    ensures { deque_items queue.new ≡ deque_items queue.old }
{
    let empty = VecDeque::new(*queue.allocator());
    let messages = Vec::from(mem::replace(queue, empty));
    *queue = VecDeque::from(messages);
}
