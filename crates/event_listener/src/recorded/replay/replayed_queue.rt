//! A queue as a record knows it, in two vectors.
ghost use Rattle.std.specs.Prelude.{◌≡◌, ◌≤◌, ◌<◌, ◌+◌, min, length, take, drop, map, ◌++◌, IfOk, OnOk, vec_len, vec_capacity};
ghost use Rattle.event_queue.specs.declared.notice.Notice.{Notice};
ghost use Rattle.event_listener.specs.declared.recorded.call.RecordedCall.TheVariants.{Listen};
ghost use Rattle.event_listener.specs.declared.recorded.reply.RecordedReply.TheVariants.{Listened};
ghost use Rattle.event_listener.specs.recording.Replay.{empty_shape, tells, after_notice, told_at, waiting_at, registered, after_register, removed};
ghost use Rattle.event_listener.specs.recording.Replay.{passed, told_by_passing_at, after_removal, answer_at, after_call};

use super::entries::{set_entry, take_entry};
use crate::recorded::call::RecordedCall;
use crate::recorded::reply::{Former, RecordedReply};
use event_queue::{Key, ListenError, Notice, RegisterResult};
use std::alloc::{AllocError, Global};
use std::marker::Model;

/// A queue as a record knows it: the notified listeners with their notices, the waiting listeners with whether each has a
/// task, and the next serial number.
#[derive(Drop)]
pub(super) struct ReplayedQueue<T> {
    told: Vec<(Key, Notice<T>)>,
    waiting: Vec<(Key, bool)>,
    next_serial: u64,
}

impl<T> Model for ReplayedQueue<T> {
    ghost use Rattle.std.specs.Prelude.{◌≤◌, ◌+◌, length};
    ghost use Rattle.event_listener.specs.recording.Replay.{Shape};

    ghost Value = { Shape T };

    ghost view = { λ queue. record {
      told = queue.told.items;
      waiting = queue.waiting.items;
      next_serial = queue.next_serial;
    } };

    // So a `usize` holds the number of listeners.
    ghost invariant = { λ queue. length queue.told.items + length queue.waiting.items
        ≤ queue.next_serial };
}

impl<T: Copy> ReplayedQueue<T> {
    /// Makes an empty queue, whose first listener gets the serial number 0. Takes no memory.
    pub(super) fn new(alloc: Global) -> Self
        ensures { result ≡ empty_shape }
    {
        ReplayedQueue {
            told: Vec::new(alloc),
            waiting: Vec::new(alloc),
            next_serial: 0,
        }
    }

    /// Performs the call, and returns its reply if a new listener gets this slot. The error is that memory ran out, after
    /// which the queue is of no use.
    pub(super) fn perform_call(
        &mut self,
        call: RecordedCall<T>,
        slot: u32,
    ) -> Result<RecordedReply<T>, AllocError>
        ensures answer { IfOk result (λ reply. reply ≡ answer_at self.old slot call) }
        ensures shape { OnOk result (self.new ≡ after_call self.old slot call) }
    {
        Ok(match call {
            RecordedCall::Listen => RecordedReply::Listened(self.listen(slot)?),
            RecordedCall::Register { key } => RecordedReply::Registered(self.register(key)),
            RecordedCall::Remove { key, propagate } => {
                RecordedReply::Removed(self.remove(key, propagate)?)
            }
            RecordedCall::Notify {
                count,
                additional,
                tag,
            } => RecordedReply::Notified(self.notify(count, additional, tag)?),
            RecordedCall::TotalListeners => RecordedReply::TotalListeners(self.total_listeners()),
            RecordedCall::IsNotified => RecordedReply::IsNotified(!self.told.is_empty()),
        })
    }

    fn listen(&mut self, slot: u32) -> Result<Result<Key, ListenError>, AllocError>
        ensures answer { IfOk result (λ answer. Listened answer ≡ answer_at self.old slot Listen) }
        ensures shape { OnOk result (self.new ≡ after_call self.old slot Listen) }
    {
        if self.next_serial == u64::MAX {
            return Ok(Err(ListenError::SerialsUsedUp));
        }
        let key = Key {
            slot,
            serial: self.next_serial,
        };
        self.waiting.push((key, false))?;
        self.next_serial += 1;
        Ok(Ok(key))
    }

    fn register(&mut self, key: Key) -> RegisterResult<T>
        ensures answer { result ≡ registered (told_at key self.old) (waiting_at key self.old) }
        ensures shape { self.new ≡ after_register key (told_at key self.old) self.old }
    {
        if let Some(notice) = take_entry(&mut self.told, key) {
            let Notice { additional: _, tag } = notice;
            return RegisterResult::Notified(tag);
        }
        match set_entry(&mut self.waiting, key, true) {
            Some(_) => RegisterResult::Registered,
            None => RegisterResult::NeverInserted,
        }
    }

    fn remove(&mut self, key: Key, propagate: bool) -> Result<Option<Former<T>>, AllocError>
        ensures answer { IfOk result (λ answer.
            answer ≡ removed key propagate (told_at key self.old)
            (waiting_at key self.old) self.old) }
        ensures shape { OnOk result (self.new
            ≡ after_removal key propagate (told_at key self.old) self.old) }
    {
        if let Some(notice) = take_entry(&mut self.told, key) {
            let Notice { additional, tag } = notice;
            if !propagate {
                return Ok(Some(Former::Notified { additional, tag }));
            }
            return Ok(Some(self.pass_on(additional, tag)?));
        }
        Ok(match take_entry(&mut self.waiting, key) {
            Some(true) => Some(Former::Task),
            Some(false) => Some(Former::Created),
            None => None,
        })
    }

    // Propagates a notification, and returns which listener was notified by it, if any.
    fn pass_on(&mut self, additional: bool, tag: T) -> Result<Former<T>, AllocError>
        ensures answer { IfOk result (λ former.
            former ≡ passed (record { additional = additional; tag = tag })
            (told_by_passing_at (record { additional = additional; tag = tag }) self.old)) }
        ensures shape { OnOk result (self.new ≡ after_notice (tells 1 additional self.old)
            (record { additional = additional; tag = tag }) self.old) }
    {
        let first = self.waiting.first().copied();
        let told = self.notify(1, additional, tag)?;
        Ok(match first {
            Some((to, _)) if told == 1 => Former::Passed { to },
            _ => Former::Lost { additional, tag },
        })
    }

    // Notifies the first waiting listeners, as many as the notification is for, and returns how many were notified.
    fn notify(&mut self, count: usize, additional: bool, tag: T) -> Result<usize, AllocError>
        ensures answer { IfOk result (λ told. told ≡ tells count additional self.old) }
        ensures shape { OnOk result (self.new ≡ after_notice (tells count additional self.old)
            (record { additional = additional; tag = tag }) self.old) }
    {
        let wanted = if additional {
            count
        } else {
            count.saturating_sub(self.told.len())
        };
        let count = wanted.min(self.waiting.len());
        self.told.reserve(count)?;
        tell_first(&mut self.told, &mut self.waiting, count, additional, tag);
        Ok(count)
    }

    fn total_listeners(&self) -> usize
        ensures { result ≡ length self.now.told + length self.now.waiting }
    {
        self.told.len() + self.waiting.len()
    }
}

// Moves the first `count` waiting listeners to the end of the notified ones, where there is room for them.
fn tell_first<T: Copy>(
    told: &mut Vec<(Key, Notice<T>)>,
    waiting: &mut Vec<(Key, bool)>,
    count: usize,
    additional: bool,
    tag: T,
)
    requires within { count ≤ vec_len waiting.old }
    requires room { vec_len told.old + count ≤ vec_capacity told.old }
    ensures told { told.new.items
        ≡ told.old.items ++ map (λ entry. (entry.0, record { additional = additional; tag = tag }))
        (take count waiting.old.items) }
    ensures waiting { waiting.new.items ≡ drop count waiting.old.items }
{
    for (key, _) in &waiting.as_slice()[..count] {
        told.push_reserved((*key, Notice { additional, tag }));
    }
    waiting.drain(..count);
}
