//! How an event is printed for debugging.
use super::Event;
use event_history::steps::Counts;
use std::fmt;

/// Writes how many listeners are notified and how many are in the queue.
///
/// Writes `<uninitialized>` in place of the numbers if there is no queue yet, and `<locked>` if the lock can't be taken at
/// once. Takes no memory, never blocks, and holds no lock while it writes.
impl<T> fmt::Debug for Event<T> {
    fn fmt<W: fmt::Write>(&self, f: &mut fmt::Formatter<W>) -> fmt::Result {
        let Some(shared) = self.shared.get() else {
            return f
                .debug_tuple("Event")
                .field(&format_args!("<uninitialized>"))
                .finish();
        };
        let lock = shared.lock();
        let mut hand = lock.hand();
        let counted = lock.try_perform(&mut hand, Counts, &mut ());
        hand.end();
        let Ok((told, total)) = counted else {
            return f
                .debug_tuple("Event")
                .field(&format_args!("<locked>"))
                .finish();
        };
        f.debug_struct("Event")
            .field("listeners_notified", &told)
            .field("listeners_total", &total)
            .finish()
    }
}
