//! Notifications with tags: a notification that never refuses a tag, and a notification that may.
ghost use Rattle.std.specs.Prelude.{◌≡◌, ◌<◌, min, length, IfOk, IfErr};
ghost use Rattle.event_queue.specs.Queue.{order_of};

use event_queue::{IntoNotification, IntoTagged, List, NotifyError, Woken};

/// Calls the first waiter to this desk. Returns how many waiters were called: 1, or 0 if nobody waits.
///
/// A clone of a number never fails, so no tag is refused.
pub fn call_to_desk(line: &mut List<u32, u64>, desk: u32, called: &mut Woken<u64>) -> usize
    ensures { result ≡ min 1 (length line.old.waiting) }
{
    line.notify_uncounted(&mut 1.additional().tag(desk), called)
        .unwrap()
}

/// Calls the first `n` waiters, and gives each a copy of the text. Returns how many waiters were called.
///
/// If there is no memory for a copy, the waiters that were called before keep their copies, and the error says how many these
/// are.
pub fn announce(
    line: &mut List<String, u64>,
    n: usize,
    text: String,
    called: &mut Woken<u64>,
) -> Result<usize, NotifyError>
    ensures all { IfOk result (λ told. told ≡ min n (length line.old.waiting)) }
    ensures some { IfErr result (λ error. error.told < min n (length line.old.waiting)) }
    ensures order { order_of line.new ≡ order_of line.old }
{
    line.notify_uncounted(&mut n.additional().tag(text), called)
}
