//! The queue as a value.
ghost use Rattle.std.specs.Prelude.{◌≡◌};

use super::Queue;
use event_listener::RegisterResult::Notified;
use event_listener::{IntoNotification, Key, List, WakeSink};
use futures::task::Context;
use std::alloc::Global;

/// A queue whose tasks are numbers.
#[derive(Drop)]
pub struct OnList {
    list: List<(), u64>,
}

impl OnList {
    pub fn new(alloc: Global) -> Self {
        OnList {
            list: List::new(alloc),
        }
    }
}

// Wakes nobody.
#[derive(Drop)]
struct Unheard;

impl WakeSink<u64> for Unheard {
    ghost woke = { λ before _ after. after ≡ before };

    #[inline(always)]
    fn wake(&mut self, _task: u64) {}
}

impl Queue for OnList {
    type Listener = Key;

    #[inline(always)]
    fn listen(&mut self) -> Option<Key> {
        self.list.insert_uncounted().ok()
    }

    #[inline(always)]
    fn poll(&mut self, listener: &mut Key, _cx: &mut Context<'_>) -> bool {
        matches!(self.list.register_uncounted(*listener, 7), Notified(()))
    }

    #[inline(always)]
    fn notify(&mut self, count: usize) -> usize {
        let mut notification = count.into_notification();
        self.list
            .notify_uncounted(&mut notification, &mut Unheard)
            .unwrap_or(0)
    }

    #[inline(always)]
    fn leave(&mut self, listener: Key) {
        self.list.remove_uncounted(listener, true, &mut Unheard);
    }
}
