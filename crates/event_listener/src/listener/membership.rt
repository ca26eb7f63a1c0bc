//! A listener's membership in the queue of its event.
ghost use Rattle.std.specs.Prelude.{◌≡◌, ◌≢◌, ◌+◌, ◌<◌, ◌^◌, true, false};
ghost use Rattle.event_queue.specs.declared.reply.RegisterResult.TheVariants as register;

use super::place::Place;
use event_queue::{Key, RegisterResult};
use std::marker::Model;

/// A listener's key in the queue of its event, and whether the listener has left the queue by a call of its own.
///
/// The note is in the key itself: a finished listener has the greatest `u64` for its serial number, which no queue gives. A
/// `bool` beside the key would be seven bytes of padding in each listener, and a listener is moved often.
#[derive(Drop)]
pub(super) struct Membership {
    key: Key,
}

impl Model for Membership {
    ghost use Rattle.std.specs.Bool.{◌==◌};
    ghost use Rattle.std.specs.Prelude.{◌-◌, ◌^◌};
    ghost use Rattle.event_listener.specs.Listening.{Member};

    ghost Value = { Member };

    ghost view = { λ membership. record {
      key = membership.key;
      is_finished = membership.key.serial == 2 ^ 64 - 1;
    } };
}

impl Membership {
    /// Makes the membership of a listener that has just been inserted under this key.
    #[inline(always)]
    pub(super) fn new(key: Key) -> Self
        requires given { key.serial + 1 < 2 ^ 64 }
        ensures key { result.key ≡ key }
        ensures unfinished { result.is_finished ≡ false }
    {
        Membership { key }
    }

    /// Returns the key of a listener that has not left the queue.
    #[inline(always)]
    pub(super) fn key(&self) -> Key
        ensures { result ≡ self.now.key }
    {
        self.key
    }

    /// Returns the place in the queue of a listener that has not left the queue.
    #[inline(always)]
    pub(super) fn place(&self) -> Place
        ensures { result.key ≡ self.now.key }
    {
        Place { key: self.key }
    }

    /// Returns whether the listener has left the queue.
    #[inline(always)]
    pub(super) fn is_finished(&self) -> bool
        ensures { result ≡ self.now.is_finished }
    {
        self.key.serial == u64::MAX
    }

    /// Notes that the listener has left the queue.
    #[inline(always)]
    pub(super) fn finish(&mut self)
        ensures { self.new.is_finished ≡ true }
    {
        self.key.serial = u64::MAX;
    }

    /// Notes what a registration found: unless the registration stored the task, the listener has left the queue.
    #[inline(always)]
    pub(super) fn note<T>(&mut self, found: &RegisterResult<T>)
        ensures stays { found.now ≡ register.Registered → self.new ≡ self.old }
        ensures leaves { found.now ≢ register.Registered → self.new.is_finished ≡ true }
    {
        if !matches!(found, RegisterResult::Registered) {
            self.finish();
        }
    }
}
