// What a reply is followed by.
ghost use Rattle.std.specs.Prelude.{◌≡◌, true};
ghost use Rattle.kube_objects.specs.Elector.{done_shows, follow_write, told};
ghost use Rattle.leader_elector.specs.Plain.{follow_keeps_kind};
ghost use Rattle.leader_elector.specs.Stands.{follow_of, kind_of};

use kube_base::Version;
use kube_objects::{Key, Lease, Reply, Request};

/// An attempt fails, asks on, or succeeds with the version that was written.
#[derive(Clone, Copy)]
pub(crate) enum Follow {
    Fails,
    Asks(Request),
    Succeeds(Version),
}

/// The version and record that a reply to this request shows.
pub(crate) fn record_of(request: &Request, reply: &Reply) -> Option<(Version, Lease)>
    ensures { result ≡ told request.now reply.now }
{
    match *request {
        Request::Get(_) => match *reply {
            Reply::Found(version, lease) => Some((version, lease)),
            _ => None,
        },
        Request::Create(_, lease) => record_of_write(lease, reply),
        Request::Update(_, _, lease) => record_of_write(lease, reply),
        Request::PostStatus(..) => None,
    }
}

/// What an accepted write shows.
fn record_of_write(lease: Lease, reply: &Reply) -> Option<(Version, Lease)>
    ensures { result ≡ done_shows lease reply.now }
{
    match *reply {
        Reply::Done(version) => Some((version, lease)),
        _ => None,
    }
}

/// What a reply to a write is followed by: an update without a Get falls back to the Get.
pub(crate) fn follow_write(fast: bool, reply: &Reply) -> Follow
    ensures kind { follow_keeps_kind (follow_of result) ≡ true }
    ensures follow { follow_of result ≡ follow_write (kind_of fast) reply.now }
{
    match *reply {
        Reply::Done(version) => Follow::Succeeds(version),
        _ if fast => Follow::Asks(Request::Get(Key::ELECTION)),
        _ => Follow::Fails,
    }
}
