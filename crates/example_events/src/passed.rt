//! A listener that is notified and dropped, and the next one, which hears it.
ghost use Rattle.std.specs.Prelude.{◌≡◌, true, IfOk, IfSome};

use crate::heard::HeardError;
use event_history::passes_on;
use event_listener::{Event, Task};
use std::alloc::Global;
use std::sync::Wait;
use std::time::Clock;

/// Makes two listeners, notifies one of them, and drops the first. Returns whether the second was notified then, if the first
/// was: it was, whatever other threads do with the event meanwhile. Returns `None` if a third listener listens too when the
/// listeners are counted, or if the first was not notified.
///
/// A third listener that listened before the second would be the next; a listener that listens later is behind the second. The
/// order of the calls is known because each hand knows which calls were made before: `hand` hears that both listen before it
/// counts the listeners, the first listener learns of that count before it is dropped, and the second learns of that drop
/// before it is removed.
///
/// Returns an error if memory runs out or the event has given out all serial numbers: then no listener is left. The call
/// allocates, and may wait for the lock of the event.
pub fn pass_on<R>(rt: &R, alloc: Global, event: &Event) -> Result<Option<bool>, HeardError>
where
    R: Wait + Clock + Clone,
    ensures { IfOk result (λ answer. IfSome answer (λ heard. heard ≡ true)) }
{
    let mut hand = event.hand(rt, alloc)?;
    let mut first = hand.listen(rt, alloc)?;
    hand.observe(&mut first);
    let mut second = hand.listen(rt, alloc)?;
    hand.observe(&mut second);
    let (_, listeners) = hand.counts(rt);
    if listeners != 2 {
        return Ok(None);
    }
    let _ = hand.notify(rt, 1);
    first.join(hand.fork()?);
    if !hand.drop_listener(first) {
        return Ok(None);
    }
    second.join(hand.fork()?);
    passes_on::<(), Task>();
    Ok(Some(hand.discard(second)))
}
