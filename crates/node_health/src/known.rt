// What is kept of a node.
ghost use Rattle.std.specs.Prelude.{◌≡◌, ◌+◌, nat_lt, Some, None};
ghost use Rattle.kube_objects.specs.Health as model;
ghost use Rattle.node_health.specs.Kept.{after_look, at_reading};
ghost use Rattle.node_health.specs.Recorded as recorded;
ghost use Rattle.node_health.specs.Recorded.{after_record, marked_known, left_in, lease_in};

use kube_base::{Local, Wall};
use kube_objects::{Lease, Ready};

/// The times that told of a node last, each as its writer's clock had it, and the reading of the controller's own clock at
/// which the node was last heard of. By the record it is said too whether Ready was there, and whether a Lease is kept.
#[derive(Clone, Copy, Debug)]
pub(crate) struct Known {
    pub(crate) heartbeat: Option<Wall>,
    pub(crate) renewal: Option<Wall>,
    pub(crate) probe: Local,
    pub(crate) has_ready: bool,
    pub(crate) has_lease: bool,
}

impl Known {
    /// A node that is looked at for the first time.
    pub(crate) fn new(heartbeat: Option<Wall>, renewed: Option<Wall>, now: Local) -> Known
        ensures { result ≡ after_look None heartbeat renewed now.0 }
    {
        Known {
            heartbeat,
            renewal: renewed,
            probe: now,
            has_ready: false,
            has_lease: false,
        }
    }

    /// A further look. What is missing leaves what was kept.
    pub(crate) fn heard(self, heartbeat: Option<Wall>, renewed: Option<Wall>, now: Local) -> Known
        ensures { result ≡ after_look (Some self) heartbeat renewed now.0 }
    {
        let news = is_news(heartbeat, self.heartbeat) || is_later(renewed, self.renewal);
        Known {
            heartbeat: heartbeat.or(self.heartbeat),
            renewal: renewed.or(self.renewal),
            probe: if news { now } else { self.probe },
            has_ready: false,
            has_lease: false,
        }
    }

    /// It is heard of at this reading.
    pub(crate) fn at(self, now: Local) -> Known
        ensures { result ≡ at_reading now.0 self }
    {
        Known { probe: now, ..self }
    }
}

impl Known {
    /// A look by the record: it renews a node whose Ready or heartbeat changed, and counts a Lease that is renewed later than the kept one. A
    /// renewal that counts no Lease keeps none.
    pub(crate) fn recorded(self, ready: Option<Ready>, lease: Option<Lease>, now: Local) -> Known
        ensures { result ≡ after_record (Some self) ready lease now.0 }
    {
        let renews = is_changed(self.left(), ready);
        let counts = is_counted(self.kept_lease(), lease);
        Known {
            heartbeat: heartbeat_of(ready),
            renewal: lease_after(counts, renews, self.renewal, renewed_of(lease)),
            probe: if renews || counts { now } else { self.probe },
            has_ready: ready.is_some(),
            has_lease: counts || (self.has_lease && !renews),
        }
    }

    /// A first look by the record.
    pub(crate) fn first(ready: Option<Ready>, lease: Option<Lease>, now: Local) -> Known
        ensures { result ≡ after_record None ready lease now.0 }
    {
        Known {
            heartbeat: heartbeat_of(ready),
            renewal: renewed_of(lease),
            probe: now,
            has_ready: ready.is_some(),
            has_lease: lease.is_some(),
        }
    }

    /// After an accepted mark: Ready is there, and the Lease that is seen is kept.
    pub(crate) fn marked(self, lease: Option<Lease>) -> Known
        ensures { result ≡ marked_known lease self }
    {
        Known {
            has_ready: true,
            has_lease: lease.is_some(),
            renewal: renewed_of(lease),
            ..self
        }
    }

    // The heartbeat of Ready as it was left, where it was there.
    fn left(self) -> Option<Option<Wall>>
        ensures { result ≡ left_in self }
    {
        if self.has_ready {
            return Some(self.heartbeat);
        }
        None
    }

    // The renew time of the kept Lease, where one is kept.
    fn kept_lease(self) -> Option<Option<Wall>>
        ensures { result ≡ lease_in self }
    {
        if self.has_lease {
            return Some(self.renewal);
        }
        None
    }
}

/// Whether more than the grace has gone since a reading.
pub(crate) fn is_silent(probe: Local, grace: u64, now: Local) -> bool
    ensures { result ≡ nat_lt (probe.0 + grace) now.0 }
{
    grace < now.0.saturating_sub(probe.0)
}

/// The heartbeat of a Ready condition, if it has one.
pub(crate) fn heartbeat_of(ready: Option<Ready>) -> Option<Wall>
    ensures { result ≡ model.ready_heartbeat ready }
{
    match ready {
        Some(ready) => ready.heartbeat,
        None => None,
    }
}

/// Whether a heartbeat is there and isn't the kept one.
fn is_news(heartbeat: Option<Wall>, kept: Option<Wall>) -> bool
    ensures { result ≡ model.is_news heartbeat kept }
{
    match (heartbeat, kept) {
        (None, _) => false,
        (Some(_), None) => true,
        (Some(at), Some(kept)) => at.0 != kept.0,
    }
}

/// Whether a renew time is there, and none is kept or it is later than the kept one.
fn is_later(renewed: Option<Wall>, kept: Option<Wall>) -> bool
    ensures { result ≡ model.is_later renewed kept }
{
    match (renewed, kept) {
        (None, _) => false,
        (Some(_), None) => true,
        (Some(at), Some(kept)) => kept.0 < at.0,
    }
}

/// The renew time of a Lease, if it has one.
pub(crate) fn renewed_of(lease: Option<Lease>) -> Option<Wall>
    ensures { result ≡ recorded.renewed_of lease }
{
    match lease {
        Some(lease) => lease.renewed,
        None => None,
    }
}

/// Whether Ready is there and wasn't, or was and isn't, or its heartbeat isn't what it was.
fn is_changed(left: Option<Option<Wall>>, ready: Option<Ready>) -> bool
    ensures { result ≡ recorded.is_changed left ready }
{
    match (left, ready) {
        (None, None) => false,
        (None, Some(_)) => true,
        (Some(_), None) => true,
        (Some(was), Some(ready)) => !is_same_time(was, ready.heartbeat),
    }
}

/// Whether two times are both missing, or the same.
fn is_same_time(was: Option<Wall>, is: Option<Wall>) -> bool
    ensures { result ≡ model.is_same_time was is }
{
    match (was, is) {
        (None, None) => true,
        (None, Some(_)) => false,
        (Some(_), None) => false,
        (Some(was), Some(is)) => is.0 == was.0,
    }
}

/// Whether a pass counts the Lease that it sees: if none is kept, or it is renewed later than the kept one.
fn is_counted(kept: Option<Option<Wall>>, lease: Option<Lease>) -> bool
    ensures { result ≡ recorded.is_counted kept lease }
{
    match (kept, lease) {
        (_, None) => false,
        (None, Some(_)) => true,
        (Some(kept), Some(lease)) => is_later_renewal(kept, lease.renewed),
    }
}

/// Whether both times are there, and the second one is later.
fn is_later_renewal(kept: Option<Wall>, renewed: Option<Wall>) -> bool
    ensures { result ≡ model.is_later_renewal kept renewed }
{
    match (kept, renewed) {
        (Some(kept), Some(at)) => kept.0 < at.0,
        _ => false,
    }
}

/// The renew time that is kept after a look.
fn lease_after(counts: bool, renews: bool, kept: Option<Wall>, seen: Option<Wall>) -> Option<Wall>
    ensures { result ≡ recorded.lease_after counts renews kept seen }
{
    if counts {
        return seen;
    }
    if renews {
        return None;
    }
    kept
}
