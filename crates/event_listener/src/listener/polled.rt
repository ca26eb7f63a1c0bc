//! What a poll returns.
ghost use Rattle.std.specs.Prelude.{◌≡◌};
ghost use Rattle.event_listener.specs.Polling.{poll_of};

use event_queue::RegisterResult;
use futures::task::Poll;

/// Returns the answer of a poll whose registration found this. `absent` is the error for a listener that is not in the queue,
/// which the kinds of listeners name differently.
#[inline(always)]
pub(crate) fn poll_of<T, E: Copy>(found: RegisterResult<T>, absent: E) -> Result<Poll<T>, E>
    ensures { result ≡ poll_of found absent }
{
    match found {
        RegisterResult::Notified(tag) => Ok(Poll::Ready(tag)),
        RegisterResult::Registered => Ok(Poll::Pending),
        RegisterResult::NeverInserted => Err(absent),
    }
}
