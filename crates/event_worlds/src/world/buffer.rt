//! The messages that wait in a channel.
ghost use Rattle.std.specs.Prelude.{◌≡◌, ◌+◌, ◌<◌, ◌≤◌, nat_lt, [], ◌++◌, drop, length, option_to_list, slice_get, Some, IfOk};
ghost use Rattle.event_worlds.specs.Buffer.{Buffer, IsBuffer};

use std::alloc::{AllocError, Global};
use std::collections::VecDeque;
use std::marker::Model;

/// At most `capacity` messages, the oldest first. After [`new`](Buffer::new) no call allocates.
#[derive(Drop)]
pub(super) struct Buffer {
    capacity: usize,
    messages: VecDeque<usize>,
}

impl Model for Buffer {
    ghost use Rattle.std.specs.Prelude.{◌≤◌, length};
    ghost use Rattle.std.specs.VecDeque.{deque_capacity};
    ghost use Rattle.event_worlds.specs.Buffer.{Buffer};

    ghost Value = { Buffer };

    ghost view = { λ buffer. record {
      capacity = buffer.capacity;
      messages = buffer.messages.items;
    } };

    ghost invariant = { λ buffer. (length buffer.messages.items ≤ buffer.capacity)
        × (buffer.capacity ≤ deque_capacity buffer.messages) };
}

impl Buffer {
    /// Makes an empty buffer with room for `capacity` messages.
    pub(super) fn new(alloc: Global, capacity: usize) -> Result<Self, AllocError>
        ensures empty { IfOk result (λ buffer. buffer ≡ record {
          capacity = capacity;
          messages = [];
        }) }
    {
        Ok(Buffer {
            capacity,
            messages: VecDeque::with_capacity(alloc, capacity)?,
        })
    }

    /// Returns how many messages there may be.
    pub(super) fn capacity(&self) -> usize
        ensures value { result ≡ self.now.capacity }
    {
        self.capacity
    }

    /// Returns how many messages there are.
    pub(super) fn len(&self) -> usize
        ensures value { result ≡ length self.now.messages }
        ensures buffer { IsBuffer self.now }
    {
        self.messages.len()
    }

    /// Returns the message at `index`, the oldest first, or `None` past the last.
    pub(super) fn message(&self, index: usize) -> Option<usize>
        ensures value { result ≡ slice_get self.now.messages index }
    {
        self.messages.get(index).copied()
    }

    /// Puts a message, if there is one, behind all others.
    pub(super) fn push(&mut self, message: Option<usize>)
        requires fits { length self.old.messages + length (option_to_list message)
            ≤ self.old.capacity }
        ensures pushed { self.new ≡ record {
          capacity = self.old.capacity;
          messages = self.old.messages ++ option_to_list message;
        } }
    {
        if let Some(message) = message {
            self.messages.push_back_reserved(message);
        }
    }

    /// Removes the first message, if there is one and a message was received.
    pub(super) fn pop(&mut self, received: Option<usize>)
        ensures popped { self.new ≡ record {
          capacity = self.old.capacity;
          messages = drop (length (option_to_list received)) self.old.messages;
        } }
    {
        if received.is_some() {
            let _first = self.messages.pop_front();
        }
    }
}
