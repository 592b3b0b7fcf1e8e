// What a process did.
ghost use Rattle.std.specs.Prelude.{◌≡◌, true, false, Some, None};
ghost use Rattle.kube_base.specs.declared.numbers.Version.{Version};
ghost use Rattle.kube_objects.specs.declared.call.Reply.TheVariants as Reply;

use kube_base::Version;
use kube_objects::{Ask, Reply};

/// What a process did in its turn: started, no longer acts as a leader, asked.
#[derive(Clone, Copy, Debug)]
pub struct Turn {
    pub started: bool,
    pub ended: bool,
    pub ask: Option<Ask>,
}

/// What a stop did: whether it stopped the process, and the release that it asks.
#[derive(Clone, Copy, Debug)]
pub struct Stopped {
    pub stopped: bool,
    pub ask: Option<Ask>,
}

/// What a reply to a process caused: a lead, or that a leader no longer acts, and a request.
#[derive(Clone, Copy, Debug)]
pub struct Received {
    pub lead: Option<Version>,
    pub ended: bool,
    pub ask: Option<Ask>,
}

/// A stop of this kind.
pub fn stop_with(stopped: bool, ask: Option<Ask>) -> Stopped
    ensures { result ≡ record { stopped = stopped; ask = ask } }
{
    Stopped { stopped, ask }
}

/// A turn that asks this and does no more.
pub fn turn_with(ask: Option<Ask>) -> Turn
    ensures { result ≡ record { started = false; ended = false; ask = ask } }
{
    Turn {
        started: false,
        ended: false,
        ask,
    }
}

/// A turn that ends a term or a release, by whether one that acts until then no longer acts.
pub fn ends_with(ended: bool) -> Turn
    ensures { result ≡ record { started = false; ended = ended; ask = None } }
{
    Turn {
        started: false,
        ended,
        ask: None,
    }
}

/// A turn that begins a release, by whether its leader no longer acts.
pub fn begins_release(ended: bool, ask: Ask) -> Turn
    ensures { result ≡ record { started = false; ended = ended; ask = Some ask } }
{
    Turn {
        started: false,
        ended,
        ask: Some(ask),
    }
}

/// A reply that causes nothing.
pub fn stays() -> Received
    ensures { result ≡ record { lead = None; ended = false; ask = None } }
{
    Received {
        lead: None,
        ended: false,
        ask: None,
    }
}

/// A reply that ends a release, by whether its leader acted until then.
pub fn ends(ended: bool) -> Received
    ensures { result ≡ record { lead = None; ended = ended; ask = None } }
{
    Received {
        lead: None,
        ended,
        ask: None,
    }
}

/// A reply that causes a request.
pub fn asks(ask: Ask) -> Received
    ensures { result ≡ record { lead = None; ended = false; ask = Some ask } }
{
    effect_with(Some(ask))
}

/// A reply that causes this.
pub fn effect_with(ask: Option<Ask>) -> Received
    ensures { result ≡ record { lead = None; ended = false; ask = ask } }
{
    Received {
        lead: None,
        ended: false,
        ask,
    }
}

/// A reply after which a controller leads.
pub fn leads(reply: &Reply) -> Received
    ensures none { result.ask ≡ None }
    ensures goes_on { result.ended ≡ false }
    ensures lead { (version : Version) → reply.now ≡ Reply.Done version → result.lead ≡ Some version }
{
    Received {
        lead: version_of(reply),
        ended: false,
        ask: None,
    }
}

fn version_of(reply: &Reply) -> Option<Version>
    ensures { (version : Version) → reply.now ≡ Reply.Done version → result ≡ Some version }
{
    match *reply {
        Reply::Done(version) => Some(version),
        _ => None,
    }
}
