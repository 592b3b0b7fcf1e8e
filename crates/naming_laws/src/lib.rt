//! What a history prints can be written with its document's names, and so can what it stores.
#![tactic(auto)]

ghost use Rattle.naming_laws.specs.Laws.{DeedsAreWritable, ItemsAreWellFormed, StatesAreReadable, ItemsAreWritable, ItemsAreTimely};

/// Each printed deed of a document's history has a line in the trace with the document's names, and each object that is stored can be
/// written as a manifest, and is read back if no limit is passed: at every beat of every document that can be read.
pub fn deeds_are_writable()
    ensures deeds { DeedsAreWritable }
    ensures well_formed { ItemsAreWellFormed }
    ensures readable { StatesAreReadable }
    ensures items { ItemsAreWritable }
    ensures timely { ItemsAreTimely }
{}
