//! The queues of a read-write lock.
ghost use Rattle.std.specs.Prelude.{◌≡◌, ◌+◌, ◌<◌, ◌^◌, ◌↔◌, length, IsTrue, IsFalse};
ghost use Rattle.event_word.specs.Count.{readers_of, writers_of};
ghost use Rattle.event_word.specs.Queues.{Admits, HasNoRoom, IsAWriterThere, IsExclusive, IsNext, IsQuiet, LetsNextIn, LetsReadersIn, MayUpgrade, NoWriterIsThere, NobodyWaitsInVain, reading, writing};

use super::counts::RwLockCounts;
use super::number;
use crate::wakes::Room;
use crate::word::Kept;
use event_queue::{List, WakeSink};
use event_wait::Task;
use event_wait::waiters::{hand_all, hand_out, somebody_waits};
use std::alloc::{AllocError, Global};
use std::mem;

// The number of one reader.
const ONE_READER: u64 = 2;

/// The queues of a read-write lock: one of the readers that wait, and one of the writers that wait.
///
/// The number of the lock's word counts the readers and the writer that have the value. A waiter that was *let in* is notified in
/// its queue, and has the value as well, though the number counts it only once it has noticed. No new reader is admitted while a
/// writer waits, and a writer that leaves lets in all readers that wait.
#[derive(Drop)]
pub struct Queues<W> {
    pub(super) read_line: List<(), W>,
    pub(super) write_line: List<(), W>,
    // Whether the readers are let in first where both wait: a writer has the value, or had it last.
    readers_first: bool,
    // Room for the tasks of all readers that wait.
    room: Room,
    alloc: Global,
}

// Which waiters are let in next.
#[derive(Clone, Copy)]
pub enum Next {
    Nobody,
    Readers,
    Writer,
}

// Returns how many waiters of a queue are not notified.
fn waiting<W>(line: &List<(), W>) -> usize
    ensures { result ≡ length line.now.waiting }
{
    line.total_listeners() - line.listeners_notified()
}

impl<W> Queues<W> {
    /// Makes queues in which no thread waits. Takes no memory.
    pub fn new(alloc: Global) -> Self
        ensures quiet { IsQuiet result }
        ensures stands { NobodyWaitsInVain 0 result }
    {
        Queues {
            read_line: List::new(alloc),
            write_line: List::new(alloc),
            readers_first: false,
            room: Room::new(),
            alloc,
        }
    }

    /// Returns whether both queues are empty: no thread waits, and none was let in that has not noticed yet.
    pub fn is_quiet(&self) -> bool
        ensures { IsTrue result ↔ IsQuiet self.now }
    {
        self.read_line.total_listeners() == 0 && self.write_line.total_listeners() == 0
    }

    /// Returns the counts of the lock by this number.
    pub fn counts(&self, number: u64) -> RwLockCounts
        ensures readers { (result.readers ≡ readers_of number)
            × (result.writers ≡ writers_of number) }
        ensures let_in { (result.readers_let_in ≡ length self.now.read_line.told)
            × (result.writers_let_in ≡ length self.now.write_line.told) }
        ensures waiting { (result.readers_waiting ≡ length self.now.read_line.waiting)
            × (result.writers_waiting ≡ length self.now.write_line.waiting) }
    {
        RwLockCounts {
            readers: number::readers(number),
            writers: number::writers(number),
            readers_let_in: self.read_line.listeners_notified(),
            writers_let_in: self.write_line.listeners_notified(),
            readers_waiting: waiting(&self.read_line),
            writers_waiting: waiting(&self.write_line),
        }
    }

    // Returns whether one more reader can be counted.
    pub(super) fn has_room(&self, number: u64) -> bool
        ensures room { IsTrue result
            → reading number self.now + length self.now.read_line.waiting + 2 < 2 ^ 29 }
        ensures none { IsFalse result → HasNoRoom number self.now }
    {
        let waiting = self.read_line.total_listeners() as u64;
        number::readers(number).saturating_add(waiting) < number::TOO_MANY - 2
    }

    // Makes room for the task of one more reader that waits.
    pub(super) fn make_room(&mut self) -> Result<(), AllocError>
        ensures { self.new ≡ self.old }
    {
        let waiting = waiting(&self.read_line);
        self.room.make(self.alloc, waiting.saturating_add(1))
    }

    // Returns whether a writer writes or was let in.
    fn is_written(&self, number: u64) -> bool
        ensures { IsTrue result ↔ (0 < writing number self.now) }
    {
        if number::is_written(number) {
            return true;
        }
        self.write_line.is_notified()
    }

    // Returns whether a reader reads or was let in.
    fn is_read(&self, number: u64) -> bool
        ensures { IsTrue result ↔ (0 < reading number self.now) }
    {
        if number::readers(number) > 0 {
            return true;
        }
        self.read_line.is_notified()
    }

    // Returns whether a writer writes, was let in, or waits.
    pub(super) fn is_wanted(&self, number: u64) -> bool
        ensures wanted { IsTrue result → IsAWriterThere number self.now }
        ensures unwanted { IsFalse result → NoWriterIsThere number self.now }
    {
        if number::is_written(number) {
            return true;
        }
        self.write_line.total_listeners() > 0
    }

    /// Returns whether the reader that asks may write from here on: it is the only reader, no other reader was let in, and no
    /// writer waits.
    pub fn may_upgrade(&self, number: u64) -> bool
        ensures yes { IsTrue result ↔ MayUpgrade number self.now }
        ensures counted { IsTrue result → IsExclusive number self.now → IsExclusive 1 self.now }
    {
        number == ONE_READER && !self.read_line.is_notified() && !somebody_waits(&self.write_line)
    }

    /// Lets in all readers that wait, because the writer reads from here on. The tasks go to `sink`.
    pub fn downgrade<S: WakeSink<W>>(&mut self, sink: &mut S)
        ensures step { LetsReadersIn S.woke self.old self.new sink.old sink.new }
        ensures nobody_waits { length self.new.read_line.waiting ≡ 0 }
        ensures told { length self.new.read_line.told
            ≡ length self.old.read_line.told + length self.old.read_line.waiting }
        ensures turn { self.new.readers_first ≡ self.old.readers_first }
        ensures counted { IsExclusive 1 self.old → IsExclusive 2 self.new }
    {
        hand_all(&mut self.read_line, sink);
    }

    // Returns which waiters are let in next.
    fn next(&self, number: u64) -> Next
        ensures { IsNext result number self.now }
    {
        if self.is_written(number) {
            return Next::Nobody;
        }
        if !somebody_waits(&self.write_line) {
            return Next::Readers;
        }
        if self.is_read(number) {
            return Next::Nobody;
        }
        if self.readers_first && somebody_waits(&self.read_line) {
            return Next::Readers;
        }
        Next::Writer
    }

    /// Lets in the waiters that are next by this number, and returns whether a queue is not empty still.
    ///
    /// All readers that wait are let in where no writer writes or waits. Where no thread has the value, and both readers and
    /// writers wait, the readers are let in if a writer had the value last, and else the first writer. The tasks go to `sink`.
    pub fn let_in<S: WakeSink<W>>(&mut self, number: u64, sink: &mut S) -> bool
        requires { IsExclusive number self.old }
        ensures stands { NobodyWaitsInVain number self.new }
        ensures still { IsTrue result ↔ ¬ IsQuiet self.new }
        ensures step { LetsNextIn S.woke number self.old self.new sink.old sink.new }
        ensures turn { IsTrue self.new.readers_first ↔ (0 < writing number self.new) }
    {
        self.let_next_in(number, sink);
        self.readers_first = self.is_written(number);
        !self.is_quiet()
    }

    // Lets in the waiters that are next, but does not note whose turn is next.
    fn let_next_in<S: WakeSink<W>>(&mut self, number: u64, sink: &mut S)
        requires { IsExclusive number self.old }
        ensures alone { IsExclusive number self.new }
        ensures reader_waits { 0 < length self.new.read_line.waiting
            → IsAWriterThere number self.new }
        ensures writer_waits { 0 < length self.new.write_line.waiting
            → 0 < reading number self.new + writing number self.new }
        ensures step { LetsNextIn S.woke number self.old self.new sink.old sink.new }
    {
        match self.next(number) {
            Next::Nobody => {}
            Next::Readers => {
                hand_all(&mut self.read_line, sink);
            }
            Next::Writer => {
                hand_out(&mut self.write_line, 1, sink);
            }
        }
    }
}

impl Kept for Queues<Task> {
    ghost use Rattle.event_word.specs.Queues.{lock_rules};

    ghost rules = { lock_rules };

    // The number shows nothing of the queues.
    fn number(&self, number: u64) -> u64 {
        number
    }

    fn settle<K: WakeSink<Task>>(&mut self, number: u64, sink: &mut K) -> bool {
        self.let_in(number, sink)
    }

    fn swap_room(&mut self, room: &mut Room)
        ensures { self.new ≡ self.old }
    {
        mem::swap(&mut self.room, room);
    }

    ghost promises = { λ _ _ stands. stands.alone };
}
