// The printed deeds of a tick.
ghost use Rattle.std.specs.Prelude.{◌≡◌, ℕ, List, [], Some, None, OnOk};
ghost use Rattle.kube_objects.specs.Entry.{Entry, Identity, Tick, actor_of};
ghost use Rattle.kube_objects.specs.Tick.{add};
ghost use Rattle.kube_objects.specs.declared.deed.Deed.{Deed};
ghost use Rattle.history.specs.Printed.{printed, tick_act};
ghost use Rattle.term_state.specs.MidTick.{IsTold};

use kube_base::{Beat, ListOf, NoMemory};
use kube_objects::{Act, Actor, Deed, Deeds};
use std::alloc::Global;

/// The printed deeds of a tick in order, each by its actor at its beat.
#[derive(Debug, Drop)]
pub struct Told {
    who: Actor,
    beat: Beat,
    deeds: Deeds,
}

impl Told {
    ghost use Rattle.term_state.specs.MidTick.{deeds_in};

    /// No deed. Takes no memory.
    pub fn new(alloc: Global, who: Actor, beat: Beat) -> Told
        ensures stands { (q : Identity) (h : List Entry) → who ≡ actor_of q → IsTold q beat.0 (printed h) h result }
        ensures none { deeds_in result ≡ [] }
    {
        Told {
            who,
            beat,
            deeds: ListOf::new(alloc),
        }
    }

    /// Adds a deed at the end.
    pub fn add(&mut self, act: Act) -> Result<(), NoMemory>
        ensures { (q : Identity) (k : ℕ) (before : List Deed) (h : List Entry) (tick : Tick) → IsTold q k before h self.old
            → tick_act tick ≡ Some act → OnOk result (IsTold q k before (add k q tick h) self.new) }
    {
        self.deeds.push(Deed {
            beat: self.beat,
            actor: self.who,
            act,
        })
    }

    /// The deeds.
    pub fn into_deeds(self) -> Deeds
        ensures { result ≡ deeds_in self }
    {
        self.deeds
    }
}
