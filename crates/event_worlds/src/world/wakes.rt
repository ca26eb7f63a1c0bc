//! The wake-ups of a world's clients.
ghost use Rattle.std.specs.Prelude.{◌≡◌, ◌<◌, true, false, length, get_or, set, replicate, IfOk};

use event_queue::WakeSink;
use std::alloc::{AllocError, Global};
use std::marker::Model;

/// Whether each client has a wake-up. As a sink this type takes the numbers of clients for tasks.
#[derive(Drop)]
pub(super) struct Wakes {
    awake: Vec<bool>,
}

impl Model for Wakes {
    ghost use Rattle.std.specs.Prelude.{List, Bool};

    ghost Value = { List Bool };

    ghost view = { λ wakes. wakes.awake.items };
}

impl Wakes {
    pub(super) fn new(alloc: Global, clients: usize) -> Result<Self, AllocError>
        ensures none { IfOk result (λ wakes. wakes ≡ replicate clients false) }
    {
        Ok(Wakes {
            awake: vec![in alloc; false; clients]?,
        })
    }

    pub(super) fn has(&self, client: usize) -> bool
        requires client { client < length self.now }
        ensures value { result ≡ get_or self.now client false }
    {
        self.awake[client]
    }

    pub(super) fn clear(&mut self, client: usize)
        requires client { client < length self.old }
        ensures cleared { self.new ≡ set self.old client false }
    {
        self.awake[client] = false;
    }
}

impl WakeSink<usize> for Wakes {
    ghost woke = { λ before client after. after ≡ set before client true };

    fn wake(&mut self, client: usize) {
        if client < self.awake.len() {
            self.awake[client] = true;
        }
    }
}
