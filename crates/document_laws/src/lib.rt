//! What holds of every document that is read. The functions do nothing: each carries a law on its contract.
#![tactic(auto)]

ghost use Rattle.document_laws.specs.Laws.{DocumentsAreLawful, DocumentsAreWellNamed, DocumentsAreWithin, EarlierGoByOwn, UnsaidReleasesAreByStop, LawfulIsSound};
ghost use Rattle.document_laws.specs.WrittenOut.{SetsAreWrittenOut};

/// Every document that the walk gives keeps its ranges, own rules and limits, the order of its events, and what they name. Its names hold
/// its numbers, and its objects are those that a manifest can give. Its limits are those of the version that it says.
pub fn documents_are_lawful()
    ensures lawful { DocumentsAreLawful }
    ensures named { DocumentsAreWellNamed }
    ensures within { DocumentsAreWithin }
{}

/// A document with sets of pods reads as the one written out: its objects are those of `objects`, as they are read without any set, and
/// behind them, set by set, the Pods that its sets say.
pub fn sets_are_written_out()
    ensures { SetsAreWrittenOut }
{}

/// Every document of version 1, 2 or 3 has the project's own rules of elections: when failed attempts are made again, what each controller
/// waits after them, and whose lease duration is respected; of releases, and of evictions. Its terms sync at once, its passes take no time,
/// and its script never stops the store.
pub fn earlier_documents_go_by_own()
    ensures { EarlierGoByOwn }
{}

/// A document whose settings say nothing of releases, and whose rules aren't those of Kubernetes 1.36, has releases at stops alone.
pub fn unsaid_releases_are_by_stop()
    ensures { UnsaidReleasesAreByStop }
{}

/// A lawful document leaves the election Lease alone, stops controllers only, has delays of at least one beat, and a beat between two
/// pauses of a process.
pub fn lawful_documents_are_sound()
    ensures { LawfulIsSound }
{}
