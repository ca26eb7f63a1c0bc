//! Requests of waits for the value of a mutex, or for a permit of a semaphore.
use event_word::Contender;

/// The request of a wait for the value of a mutex, or for a permit: how often the wait lost, and its place in the queue, if it
/// has one. Only a wait of this crate makes a request, so no caller attempts or leaves in the place of another.
#[derive(Drop)]
pub(crate) struct Taker {
    pub(crate) contender: Contender,
}

impl Default for Taker {
    // Makes the request of a wait that has lost nothing yet, and has no place in the queue.
    #[inline(always)]
    fn default() -> Self {
        Taker {
            contender: Contender::new(),
        }
    }
}

impl Taker {
    /// Returns whether the wait has a place in the queue.
    #[inline(always)]
    pub(crate) fn is_waiting(&self) -> bool {
        self.contender.is_waiting()
    }
}
