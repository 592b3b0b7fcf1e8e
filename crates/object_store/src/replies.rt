// Results of the store's calls as replies.
ghost use Rattle.std.specs.Prelude.{◌≡◌};
ghost use Rattle.kube_objects.specs.Answers.{answer_get};
ghost use Rattle.kube_objects.specs.Feeds.{shown_pair};
ghost use Rattle.object_store.specs.StoreAnswers.{lease_pair, reply_of, reply_of_post};

use crate::{Posted, StoreFault};
use kube_base::{NoMemory, Version};
use kube_objects::{Object, Reply};

/// The reply to a Get.
pub(crate) fn get_reply(stored: Option<(Version, &Object)>) -> Reply
    ensures { result ≡ answer_get (lease_pair (shown_pair stored.entry)) }
{
    match stored {
        Some((version, Object::Lease(lease))) => Reply::Found(version, *lease),
        _ => Reply::Absent,
    }
}

/// The reply to a Create or an Update.
pub(crate) fn write_reply(outcome: Result<Version, StoreFault>) -> Result<Reply, NoMemory>
    ensures { result ≡ reply_of outcome }
{
    match outcome {
        Ok(version) => Ok(Reply::Done(version)),
        Err(StoreFault::Absent) => Ok(Reply::Absent),
        Err(StoreFault::Exists) => Ok(Reply::Exists),
        Err(StoreFault::Conflict(version)) => Ok(Reply::Conflict(version)),
        Err(StoreFault::NoMemory) => Err(NoMemory),
    }
}

/// The reply to a posted status.
pub(crate) fn post_reply(outcome: Result<Posted, StoreFault>) -> Result<Reply, NoMemory>
    ensures { result ≡ reply_of_post outcome }
{
    match outcome {
        Ok(Posted::Done(version)) => Ok(Reply::Done(version)),
        Ok(Posted::Unchanged) => Ok(Reply::Unchanged),
        Err(StoreFault::Absent) => Ok(Reply::Absent),
        Err(StoreFault::Exists) => Ok(Reply::Exists),
        Err(StoreFault::Conflict(version)) => Ok(Reply::Conflict(version)),
        Err(StoreFault::NoMemory) => Err(NoMemory),
    }
}
