//! What is read of manifests can be written, and is read back as it is.
#![tactic(auto)]

ghost use Rattle.manifest_laws.specs.Laws.{ListsAreReadable, ObjectsAreReadable, ReadableIsWritable, FittingAreApart};

/// Objects that the walk gives are readable, so they can be written, and are read back as they are. No two of them have the same key.
///
/// It does nothing: it carries laws on its contract.
pub fn objects_are_readable()
    ensures lists { ListsAreReadable }
    ensures objects { ObjectsAreReadable }
    ensures writable { ReadableIsWritable }
    ensures apart { FittingAreApart }
{}
