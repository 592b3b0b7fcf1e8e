//! The claims on queued taints, over every history: within a row of a term's passes they keep their zone's interval, and under the lease
//! premise also over changes of the leader.
#![tactic(auto)]

ghost use Rattle.std.specs.Prelude.{◌≡◌, ◌≤◌, true};
ghost use Rattle.kube_objects.specs.Document.{Doc};
ghost use Rattle.history.specs.Premise.{lease_premise};
ghost use Rattle.history.specs.Sound.{IsSound};
ghost use Rattle.history.specs.Spacing.{Spacing, SpacingInRows};

/// If the lease premise holds, and buckets start empty, from each queued taint of a zone to each in a later beat a token of the zone grows,
/// by whichever controllers and whatever the answers. If they start full, one grows so within a row of one term's passes at which the zone
/// is one, and in any span of beats there is one queued taint for each such row and one for each token that grows in it, and no more: for every
/// document that can be read, whatever its clocks, delays, losses and crashes.
pub fn taints_are_spaced()
    ensures { (doc : Doc) → lease_premise doc ≡ true → IsSound doc → doc.settings.secondary_rate ≤ doc.settings.primary_rate → Spacing doc }
{}

/// Always, and however buckets start, from each turn of a zone's queued nodes to each in a later beat of the row a token grows, at the greatest
/// rate that the zone had meanwhile.
pub fn turns_are_spaced_in_rows()
    ensures { (doc : Doc) → IsSound doc → doc.settings.secondary_rate ≤ doc.settings.primary_rate → SpacingInRows doc }
{}
