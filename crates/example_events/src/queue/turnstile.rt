//! A line of visitors, which are admitted in order, `n` at a time.
ghost use Rattle.std.specs.Prelude.{◌≡◌, ◌+◌, ◌≤◌, ◌↔◌, min, true, ◌∷◌, ◌++◌, [], Some, length, slice_get, IsTrue, IsFalse, IsSome, IfOk, OnOk, OnErr};
ghost use Rattle.std.specs.Map.{lookup};
ghost use Rattle.event_queue.specs.Key.{is_key, without};
ghost use Rattle.event_queue.specs.Queue.{listeners_of, order_of, tasks_of, told_leaves};
ghost use Rattle.event_queue.specs.Remove.{woken_by_removal};

use event_queue::{IntoNotification, Key, List, ListenError, WakeSink, Woken};
use std::alloc::{AllocError, Global};
use std::marker::Model;

/// A line of visitors. Each has a ticket, which is its key, and a number of the caller's own, which is its task.
///
/// The notified are the visitors that are admitted and have not entered; the others wait. A contract sees the queue.
#[derive(Drop)]
pub struct Turnstile {
    line: List<(), u64>,
}

impl Model for Turnstile {
    ghost use Rattle.std.specs.Prelude.{ℕ};
    ghost use Rattle.event_queue.specs.Queue.{Queue};

    ghost Value = { Queue (Unit {0}) ℕ };

    ghost view = { λ turnstile. turnstile.line };
}

impl Turnstile {
    /// Makes an empty line with room for `n` visitors: as many join without allocating.
    pub fn with_room(alloc: Global, n: usize) -> Result<Self, AllocError>
        ensures empty { IfOk result (λ turnstile. listeners_of turnstile ≡ 0) }
        ensures room { IfOk result (λ turnstile. n ≤ turnstile.spare) }
    {
        let mut line = List::new(alloc);
        line.reserve(n)?;
        Ok(Turnstile { line })
    }

    /// Makes an empty line whose first ticket has the serial `first`. The call allocates nothing.
    ///
    /// A line that goes on where the serials of another line ended knows no ticket of that line.
    pub fn starting_at(alloc: Global, first: u64) -> Self
        ensures empty { listeners_of result ≡ 0 }
        ensures serial { result.next_serial ≡ first }
    {
        Turnstile {
            line: List::starting_at(alloc, first),
        }
    }

    /// Puts a visitor at the end of the line, and returns the visitor's ticket.
    pub fn join(&mut self, visitor: u64) -> Result<Key, ListenError>
        ensures last { IfOk result (λ ticket.
            self.new.waiting ≡ self.old.waiting ++ (ticket, Some visitor) ∷ []) }
        ensures told { self.new.told ≡ self.old.told }
        ensures refused { OnErr result (self.new ≡ self.old) }
    {
        let ticket = self.line.insert_uncounted()?;
        self.line.register_uncounted(ticket, visitor);
        Ok(ticket)
    }

    /// Admits the first `n` waiting visitors, or all if fewer wait, and returns their numbers in order.
    ///
    /// Room for the numbers is made first, so a call that fails admits no visitor.
    pub fn admit(&mut self, alloc: Global, n: usize) -> Result<Woken<u64>, AllocError>
        ensures numbers { IfOk result (λ admitted. admitted.tasks ≡ tasks_of n self.old) }
        ensures told { OnOk result (length self.new.told
            ≡ length self.old.told + min n (length self.old.waiting)) }
        ensures order { order_of self.new ≡ order_of self.old }
        ensures refused { OnErr result (self.new ≡ self.old) }
    {
        let room = n.min(self.line.total_listeners());
        let mut admitted = Woken::with_room(alloc, room)?;
        self.line
            .notify_uncounted(&mut n.additional(), &mut admitted)
            .unwrap();
        Ok(admitted)
    }

    /// Lets an admitted visitor in, which then leaves the line, and returns whether the visitor was admitted. Any other visitor
    /// in the line waits on, under this number.
    pub fn enter(&mut self, ticket: Key, visitor: u64) -> bool
        ensures admitted { IsTrue result ↔ IsSome (lookup (is_key ticket) self.old.told) }
        ensures entered { IsTrue result → self.new ≡ told_leaves ticket self.old }
        ensures waits { IsFalse result → order_of self.new ≡ order_of self.old }
    {
        let is_admitted = self.line.is_told_uncounted(ticket);
        self.line.register_uncounted(ticket, visitor);
        is_admitted
    }

    /// Takes a visitor out of the line. If that visitor was admitted, the first waiting visitor is admitted in its place: the
    /// result is the number of the newly admitted visitor.
    pub fn leave(&mut self, ticket: Key) -> Option<u64>
        ensures instead { result ≡ slice_get (woken_by_removal ticket true self.old) 0 }
        ensures others { order_of self.new ≡ without ticket (order_of self.old) }
    {
        let mut next = LastWoken { task: None };
        self.line.remove_uncounted(ticket, true, &mut next);
        next.task
    }
}

/// Keeps the task that was woken last. That is enough for a removal, which wakes one task at most, and needs no memory.
#[derive(Drop)]
struct LastWoken {
    task: Option<u64>,
}

impl WakeSink<u64> for LastWoken {
    ghost woke = { λ before task after. after.task ≡ Some task };

    fn wake(&mut self, task: u64) {
        self.task = Some(task);
    }
}
