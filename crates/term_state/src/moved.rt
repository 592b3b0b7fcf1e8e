// The nodes that may begin or end to wait.
ghost use Rattle.std.specs.Prelude.{◌≡◌, ℕ, Bool, false, List};
ghost use Rattle.kube_objects.specs.Entry.{Entry, Identity};

use crate::Cluster;
use std::ops::Bound;

impl Cluster {
    ghost use Rattle.kube_objects.specs.declared.key.Key.{Key};
    ghost use Rattle.term_state.specs.ClusterStands.{ClusterBut, has_moved};
    ghost use Rattle.term_state.specs.Queues.{IsNextAfter};
    ghost use Rattle.term_state.specs.Sights.{IsRetained, has_touched, touched_len};

    /// The first of the nodes that may begin or end to wait that comes after this one; none is before all.
    pub fn next_moved(&self, after: Option<u32>) -> Option<u32>
        ensures { IsNextAfter (has_moved self.now) after result }
    {
        match after {
            None => self.moved.first().copied(),
            Some(name) => self
                .moved
                .range((Bound::Excluded(name), Bound::Unbounded))
                .next()
                .copied(),
        }
    }

    /// Forgets which nodes may begin or end to wait: a tick has ended. Takes no memory.
    pub fn forget_moved(&mut self)
        ensures stands { (q : Identity) (h : List Entry) (nodes : ℕ → Bool) (pods : Key → Bool) → ClusterBut q h nodes pods self.old
            → ClusterBut q h nodes pods self.new }
        ensures moved { (n : ℕ) → has_moved self.new n ≡ false }
        ensures retained { IsRetained self.old self.new }
        ensures touched { (key : Key) → has_touched self.new key ≡ has_touched self.old key }
        ensures untouched { touched_len self.new ≡ touched_len self.old }
    {
        self.moved.clear();
    }
}
