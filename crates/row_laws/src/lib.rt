//! What is read as "the newest entry at which it began" is where the longest row of entries up to now began.
#![tactic(auto)]

ghost use Rattle.row_laws.specs.Bases.{BasesAreOfRows};
ghost use Rattle.row_laws.specs.Keys.{WaitsStay, KeysAreOfRows};
ghost use Rattle.row_laws.specs.Probes.{ProbesAreOfRows};

/// A node was last heard of at the first pass of the longest row of passes up to the last one that all find it, or at the latest news
/// of it since.
pub fn probes_are_of_rows()
    ensures { ProbesAreOfRows }
{}

/// A node that waits has its place in its zone's queue by the first beat of the longest row of ticks up to now at which it waits, or by
/// that of its last queued taint in the row. Only the term's own ticks change who waits.
pub fn keys_are_of_rows()
    ensures stay { WaitsStay }
    ensures keys { KeysAreOfRows }
{}

/// A zone's token grows since the first entry of the longest row of entries up to now that leave the zone its rate, or since the latest
/// queued taint of it.
pub fn bases_are_of_rows()
    ensures { BasesAreOfRows }
{}
