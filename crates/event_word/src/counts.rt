//! The counts of a lock for which threads compete.

/// The counts of a semaphore or a mutex, all at one moment: how many permits are free, and how many waiters are notified, waiting
/// and starving.
#[derive(Clone, Copy, Debug, PartialEq, Eq)]
pub struct Counts {
    /// How many permits are free; of a mutex one, while no thread has the value.
    pub free: u64,
    /// How many waiters are notified and have not tried again yet.
    pub notified: usize,
    /// How many waiters are not notified.
    pub waiting: usize,
    /// How many of the notified and the waiting were notified twice before, and found nothing each time: they *starve*.
    pub starving: usize,
    /// Whether newcomers are shut out, since a waiter starves.
    pub is_shut: bool,
    /// Whether the semaphore is closed. A mutex is never closed.
    pub is_closed: bool,
}
