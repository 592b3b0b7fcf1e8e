// All beats of a document, one after the other.
ghost use Rattle.std.specs.Prelude.{◌≡◌, IfOk};
ghost use Rattle.history.specs.History.{whole_history};
ghost use Rattle.history.specs.Printed.{printed};
ghost use Rattle.script_reader.specs.Documents.{doc_of};
ghost use Rattle.script_reader.specs.Lawful.{IsLawfulDoc};

use crate::world::World;
use kube_base::{NoMemory, Steps};
use kube_objects::Deeds;
use script_reader::Document;
use std::alloc::Global;
use std::sync::ledger::Blank;
use zone_state::Policies;

/// Does all beats of a document, and returns their printed entries.
pub fn deeds_of(alloc: Global, document: Document, policies: &Policies) -> Result<Deeds, NoMemory>
    requires lawful { IsLawfulDoc (doc_of document) }
    ensures { IfOk result (λ deeds. deeds ≡ printed (whole_history (doc_of document))) }
{
    let mut deeds = Deeds::new(alloc);
    let mut steps = Steps::new(Blank::new(1));
    let mut world = World::new(alloc, document)?;
    'beats: while !world.finished() {
        let printed = world.beat(policies, &mut steps)?;
        deeds.append(&printed)?;
    }
    Ok(deeds)
}
