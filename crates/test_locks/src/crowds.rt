//! More waiters than a thread wakes before other threads may have the queues: no waiter is woken while the thread has the
//! queues out, and all are woken.
ghost use Rattle.event_word.specs.Rules.{Rules};

use crate::support::{check, new_lock, new_semaphore, new_task};
use crate::tasks::Polled;
use event_locks::{RwLock, Semaphore};
use event_queue::{TaskExchange, WakeSink};
use event_wait::{Task, WakerSource};
use event_word::{Kept, Room, Word};
use futures::test::MockTask;
use std::alloc::Global;
use std::mem;
use std::sync::atomic::{AtomicU64, Ordering};
use std::sync::{Arc, Wait};
use test_kinds::Waits;
use test_support::Runtime;

const CROWD: usize = 20;

/// A state for which a crowd of tasks waits, all of which are notified at once. Whenever a task is to be notified, the state
/// notes how many tasks are woken.
#[derive(Drop)]
struct Crowd<'a> {
    waiting: Vec<Task, Global>,
    room: Room,
    tasks: &'a [MockTask],
    noted: &'a AtomicU64,
}

impl Kept for Crowd<'_> {
    ghost rules = { record {
      fits = λ _. Unit {0};
      stands = λ _ _. Unit {0};
      quiet = λ _. Unit {0};
      promised = λ _ _. Unit {0};
      tells = λ _ _. Unit {0};
      counts = λ _. 0;
    } };

    fn number(&self, number: u64) -> u64 {
        number
    }

    fn settle<K: WakeSink<Task>>(&mut self, _number: u64, sink: &mut K) -> bool {
        let none = Vec::new(*self.waiting.allocator());
        for task in mem::replace(&mut self.waiting, none) {
            sink.wake(task);
        }
        let woken = self.tasks.iter().filter(|task| task.is_woken()).count();
        let before = self.noted.load(Ordering::SeqCst);
        let noted = before.wrapping_mul(100).wrapping_add(woken as u64);
        self.noted.store(noted, Ordering::SeqCst);
        false
    }

    fn swap_room(&mut self, room: &mut Room) {
        mem::swap(&mut self.room, room);
    }

    ghost promises = { λ _ _ _. tt };
}

// Takes the state out and puts it back, which wakes the crowd.
fn take_and_put_back<R: Wait>(rt: &R, word: &Word<Crowd<'_>, ()>) {
    let (_, held) = word.take(rt);
    held.put_back(rt);
}

// The state is out three times, with none, eight and sixteen tasks woken.
#[test]
fn a_few_are_woken_at_a_time(rt: HostRuntime) {
    let (alloc, source, noted) = (rt.alloc(), WakerSource::new(), AtomicU64::new(0));
    let (mut tasks, mut waiting, mut room) = (Vec::new(alloc), Vec::new(alloc), Room::new());
    for _ in 0..CROWD {
        let task = new_task(&rt);
        let is_stored = waiting
            .push(task.enter(|cx| source.exchange(cx, None)))
            .is_ok();
        let is_kept = tasks.push(task).is_ok();
        check(&rt, "whether it waits", is_stored && is_kept, true);
    }
    check(&rt, "room", room.make(alloc, CROWD).is_ok(), true);
    let crowd = Crowd {
        waiting,
        room,
        tasks: &tasks,
        noted: &noted,
    };
    let word = Word::new(0, crowd, ());
    take_and_put_back(&rt, &word);
    check(
        &rt,
        "woken each time that it was out",
        noted.load(Ordering::SeqCst),
        816,
    );
    let woken = tasks.iter().filter(|task| task.is_woken()).count();
    check(&rt, "woken at last", woken, CROWD);
}

// Checks that all waiters are woken, and that each is granted what it waits for.
fn are_granted<R: Runtime, W: Waits>(rt: &R, crowd: Vec<Polled<W>>) {
    let mut crowd = crowd;
    let woken = crowd.iter().filter(|one| one.is_woken()).count();
    check(rt, "how many are woken", woken, CROWD);
    for one in crowd.iter_mut() {
        check(rt, "whether it is granted", one.is_ready(), true);
    }
}

#[test]
fn a_writer_that_goes_wakes_a_crowd(rt: HostRuntime) {
    let lock = &Arc::new(rt.alloc(), new_lock(&rt, 7u64)).expect(&rt, "memory");
    let writer = lock.try_write(&rt);
    let mut crowd = Vec::new(rt.alloc());
    for _ in 0..CROWD {
        let reads = RwLock::read_arc(lock, rt, rt.alloc()).expect(&rt, "a share");
        let is_kept = crowd.push(Polled::new(&rt, reads)).is_ok();
        check(&rt, "whether it waits", is_kept, true);
    }
    drop(writer);
    are_granted(&rt, crowd);
}

// Has a crowd wait at a semaphore without free permits. Then all permits are added at once, or the semaphore is closed.
fn crowd_at_a_semaphore<R: Runtime + Clone + Drop>(rt: &R, closes: bool)
where
    R: Copy,
{
    let semaphore = &Arc::new(rt.alloc(), new_semaphore(rt, 0)).expect(rt, "memory");
    let mut crowd = Vec::new(rt.alloc());
    for _ in 0..CROWD {
        let acquires = Semaphore::acquire_arc(semaphore, *rt, rt.alloc()).expect(rt, "a share");
        let is_kept = crowd.push(Polled::new(rt, acquires)).is_ok();
        check(rt, "whether it waits", is_kept, true);
    }
    if closes {
        semaphore.close(rt);
    } else {
        semaphore.add_permits(rt, CROWD);
    }
    are_granted(rt, crowd);
}

#[test]
fn many_permits_wake_a_crowd(rt: HostRuntime) {
    crowd_at_a_semaphore(&rt, false);
}

#[test]
fn a_close_wakes_a_crowd(rt: HostRuntime) {
    crowd_at_a_semaphore(&rt, true);
}
