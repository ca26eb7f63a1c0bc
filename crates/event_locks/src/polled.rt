//! Making a guard of what a poll obtained.
ghost use Rattle.std.specs.Prelude.{◌≡◌, IfOk};
ghost use Rattle.futures.specs.Poll.{IfReady, OnPending};
ghost use Rattle.futures.specs.declared.task.Poll.TheVariants.{Pending};

use event_wait::LockError;
use futures::task::Poll;

/// Makes the guard of the hold and of the output, if the poll returned both. Else returns the error of the poll, or `Pending`.
#[inline(always)]
pub(crate) fn guarded<H, O, G, F: FnOnce(H, O) -> G>(
    polled: Poll<Result<(H, O), LockError>>,
    new: F,
) -> Poll<Result<G, LockError>>
    requires { IfReady polled (λ answer. IfOk answer (λ got. F.pre new got.0 got.1)) }
    ensures { OnPending result (polled ≡ Pending) }
{
    match polled {
        Poll::Ready(Ok((hold, output))) => Poll::Ready(Ok(new(hold, output))),
        Poll::Ready(Err(error)) => Poll::Ready(Err(error)),
        Poll::Pending => Poll::Pending,
    }
}
