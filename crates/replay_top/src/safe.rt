// What is claimed of every lawful document.
ghost use Rattle.replay_top.specs.Claims.{LawfulAreSafe};

use calm_laws::takeovers_are_bounded;
use document_laws::lawful_documents_are_sound;
use eviction_laws::evictions_are_timely;
use gap_laws::{gaps_last, others_wait};
use lease_laws::{acting_is_alike, lease_is_safe};
use release_laws::releases_are_followed;
use settle_laws::calm_spans_settle;
use silence_laws::{releases_last, silences_last};
use spacing_laws::{taints_are_spaced, turns_are_spaced_in_rows};
use stay_laws::leaders_stay;
use succession_laws::{leaders_act_on, successors_lead};

/// What was proved of every lawful document, for which nothing is done.
pub(crate) fn lawful_documents_are_safe()
    ensures { LawfulAreSafe }
{
    lawful_documents_are_sound();
    lease_is_safe();
    acting_is_alike();
    taints_are_spaced();
    turns_are_spaced_in_rows();
    evictions_are_timely();
    takeovers_are_bounded();
    leaders_stay();
    gaps_last();
    others_wait();
    calm_spans_settle();
    silences_last();
    releases_last();
    successors_lead();
    releases_are_followed();
    leaders_act_on();
}
