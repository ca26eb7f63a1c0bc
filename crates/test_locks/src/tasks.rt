//! Tasks that wait in each way, and are woken once they are let in. A task that gives up hands on what it was handed, and lets
//! in the waiters that waited for it alone.
use crate::support::{check, new_lock, new_semaphore, new_task};
use event_locks::{
    Barrier, LockError, Mutex, OnceCell, PollError, RwLock, RwLockCounts, RwLockWriteGuardArc,
    Semaphore, TryAcquireError,
};
use futures::task::Poll;
use futures::test::MockTask;
use std::sync::Arc;
use std::thread;
use std::time::Duration;
use test_kinds::{Case, Kind, Refusal, Sharing, Waits, each, numbers};
use test_support::{Runtime, deadline_after};

/// A wait that a task of its own polls.
#[derive(Drop)]
pub struct Polled<W> {
    task: MockTask,
    waits: W,
}

impl<W: Waits> Polled<W> {
    /// Polls this wait, and checks that it is not granted at once, and that its task is not woken.
    pub fn new<R: Runtime>(rt: &R, waits: W) -> Self {
        let task = new_task(rt);
        let mut polled = Polled { task, waits };
        polled.waits_on(rt);
        polled
    }

    /// Returns whether the task of the wait was woken since its last poll.
    pub fn is_woken(&self) -> bool {
        self.task.is_woken()
    }

    /// Polls the wait, and returns the answer.
    pub fn poll(&mut self) -> Poll<Result<W::Granted, W::Refusal>> {
        self.waits.can_be_polled();
        self.task.poll(&mut self.waits)
    }

    /// Returns whether the wait is granted at this poll. What was granted is dropped at once.
    pub fn is_ready(&mut self) -> bool {
        self.poll().is_ready()
    }

    /// Polls in vain. The poll does not wake the task: the task is registered.
    pub fn waits_on<R: Runtime>(&mut self, rt: &R) {
        check(rt, "whether it is granted", self.is_ready(), false);
        check(rt, "whether it is woken", self.is_woken(), false);
    }

    /// Checks that the task was woken, and that the wait is granted at the next poll.
    pub fn is_granted<R: Runtime>(&mut self, rt: &R) {
        check(rt, "whether it is woken", self.is_woken(), true);
        check(rt, "whether it is granted", self.is_ready(), true);
    }

    /// Returns the wait, which no task polls any more.
    pub fn into_waits(self) -> W {
        let Polled { task: _, waits } = self;
        waits
    }

    /// Returns whether the wait answers at this poll that it is over.
    pub fn is_over(&mut self) -> bool {
        match self.poll() {
            Poll::Ready(Err(refusal)) => refusal.reason() == Some(LockError::Finished),
            Poll::Ready(Ok(_granted)) => false,
            Poll::Pending => false,
        }
    }

    /// Drops the wait. Its task is left, and counts as not woken.
    pub fn give_up(self) -> MockTask {
        let Polled { task, waits } = self;
        drop(waits);
        task.enter(|_| ());
        task
    }

    /// Checks that the task is let in once `held` is dropped, and not before.
    pub fn let_in<R: Runtime, G: Drop>(self, rt: &R, held: G) {
        let mut polled = self;
        check(rt, "whether it is woken", polled.is_woken(), false);
        drop(held);
        polled.is_granted(rt);
    }
}

// Four tasks wait, and all are woken once they are let in, or one after the other. A notified task that is dropped passes its
// notification on; waits that gave up before count for nothing. A poll before changes nothing, and threads go on in the places
// of two tasks, without a limit and at a limit that has passed. A wait that was granted is over.
#[derive(Drop)]
struct AllAreWoken;

impl<R: Runtime> Case<R> for AllAreWoken {
    fn waiters(&self) -> usize {
        4
    }

    fn run<K: Kind>(&self, rt: &R, kind: &K) {
        let held = kind.hold();
        let gave_up = Polled::new(rt, kind.waits().expect(rt, "a share")).give_up();
        let first = Polled::new(rt, kind.waits().expect(rt, "a share"));
        let second = Polled::new(rt, kind.waits().expect(rt, "a share"));
        let third = Polled::new(rt, kind.waits().expect(rt, "a share"));
        let mut last = Polled::new(rt, kind.waits().expect(rt, "a share"));
        last.waits_on(rt);
        drop(held);
        let woken = [first.is_woken(), second.is_woken(), third.is_woken()];
        let all = kind.sharing() != Sharing::One;
        check(rt, "who is woken", woken, [true, all, all]);
        drop(first);
        check(rt, "whether it is woken", second.is_woken(), true);
        let given = second.into_waits().wait();
        check(rt, "whether it is granted", given.is_ok(), true);
        drop(given);
        check(rt, "whether it is woken", third.is_woken(), true);
        let now = deadline_after(rt, Duration::ZERO).expect(rt, "a moment");
        let given = third.into_waits().wait_deadline(now);
        let given = given.expect(rt, "an answer").is_some();
        check(rt, "whether it is granted", given, true);
        last.is_granted(rt);
        check(rt, "whether it is over", last.is_over(), true);
        check(rt, "who gave up", gave_up.is_woken(), false);
        if matches!(kind.sharing(), Sharing::One | Sharing::All) {
            // No waiter is left in the queue that could be notified in the place of this one.
            let held = kind.hold();
            Polled::new(rt, kind.waits().expect(rt, "a share")).let_in(rt, held);
        }
    }
}

#[test]
fn all_tasks_are_woken_in_their_turn(rt: HostRuntime) {
    each(&rt, &rt, &AllAreWoken).expect(&rt, "memory");
}

// The value of a cell is at hand: a caller that asks for it waits in no queue.
#[test]
fn one_that_gave_a_value_at_hand_is_over(rt: HostRuntime) {
    let (cell, task) = (OnceCell::new(rt.alloc()), new_task(&rt));
    let set = cell.set(&rt, rt.alloc(), 7u64).is_ok();
    check(&rt, "whether it is set", set, true);
    let mut claims = cell.claim(&rt, rt.alloc());
    let mut sees = cell.wait(&rt, rt.alloc());
    let is_ready = [
        task.poll(&mut claims).is_ready(),
        task.poll(&mut sees).is_ready(),
    ];
    check(&rt, "whether it is there", is_ready, [true, true]);
    let claimed = matches!(
        task.poll(&mut claims),
        Poll::Ready(Err(PollError::Finished))
    );
    let seen = matches!(task.poll(&mut sees), Poll::Ready(Err(PollError::Finished)));
    check(&rt, "whether both are over", [claimed, seen], [true, true]);
}

// The first task is notified of a permit. The second task, which polls before the first, is not notified, and leaves no place
// behind.
#[test]
fn one_that_is_not_notified_waits_at_its_place(rt: HostRuntime) {
    let semaphore = new_semaphore(&rt, 1);
    let held = semaphore.try_acquire(&rt);
    let first = Polled::new(&rt, semaphore.acquire(&rt, rt.alloc()));
    let mut second = Polled::new(&rt, semaphore.acquire(&rt, rt.alloc()));
    drop(held);
    check(&rt, "whether it is woken", first.is_woken(), true);
    second.waits_on(&rt);
    drop(first);
    check(&rt, "whether it is woken", second.is_woken(), true);
    drop(second);
    let counts = numbers(semaphore.counts(&rt));
    check(&rt, "free, and nobody waits", counts, [1, 0, 0, 0]);
}

// A caller that tries for a permit and is given none, or none in time, keeps no share. A guard that is forgotten keeps no share
// either, and its permit is gone.
#[test]
fn permits_that_share_their_semaphore_are_given_up(rt: HostRuntime) {
    let semaphore = Arc::new(rt.alloc(), new_semaphore(&rt, 1)).expect(&rt, "memory");
    let owned = Semaphore::try_acquire_arc(&semaphore, rt).expect(&rt, "a share");
    let other = Semaphore::try_acquire_arc(&semaphore, rt).expect(&rt, "a share");
    check(
        &rt,
        "another",
        other.err(),
        Some(TryAcquireError::NoPermits),
    );
    let late = Semaphore::acquire_arc(&semaphore, rt, rt.alloc()).expect(&rt, "a share");
    let late = late.wait_timeout(Duration::ZERO).expect(&rt, "an answer");
    check(&rt, "a late one", late.is_none(), true);
    check(&rt, "shares", Arc::strong_count(&semaphore), 2);
    owned.expect(&rt, "a permit").forget();
    check(&rt, "shares", Arc::strong_count(&semaphore), 1);
    check(&rt, "free", semaphore.available(), 0);
}

#[test]
fn added_permits_wake_as_many(rt: HostRuntime) {
    let semaphore = new_semaphore(&rt, 0);
    let first = Polled::new(&rt, semaphore.acquire(&rt, rt.alloc()));
    let second = Polled::new(&rt, semaphore.acquire(&rt, rt.alloc()));
    let third = Polled::new(&rt, semaphore.acquire(&rt, rt.alloc()));
    semaphore.add_permits(&rt, 2);
    let woken = [first.is_woken(), second.is_woken(), third.is_woken()];
    check(&rt, "who is woken", woken, [true, true, false]);
    check(&rt, "free", semaphore.available(), 2);
}

#[test]
fn a_task_that_comes_last_wakes_all(rt: HostRuntime) {
    let barrier = Barrier::new(rt.alloc(), 3);
    let mut first = Polled::new(&rt, barrier.wait(&rt, rt.alloc()));
    let mut second = Polled::new(&rt, barrier.wait(&rt, rt.alloc()));
    let mut last = barrier.wait(&rt, rt.alloc());
    let has_ended = new_task(&rt).poll(&mut last).is_ready();
    check(&rt, "whether the round has ended", has_ended, true);
    first.is_granted(&rt);
    second.is_granted(&rt);
}

// Where nobody waits, a writer that became a reader becomes a writer again. A writer that becomes a reader lets in all waiting
// readers; it does not become a writer again beside one of them, nor alone while a writer waits, which is let in after it.
macro_rules! reads_and_writes {
    ($rt:expr, $lock:expr, $writer:expr) => {{
        let writer = $writer.downgrade().try_upgrade();
        let writer = writer.ok().expect($rt, "the writer");
        let mut first = Polled::new($rt, $lock.read($rt, $rt.alloc()));
        let mut second = Polled::new($rt, $lock.read($rt, $rt.alloc()));
        let behind = Polled::new($rt, $lock.write($rt, $rt.alloc()));
        let reader = writer.downgrade();
        first.is_granted($rt);
        check($rt, "the value", *reader, 7);
        let reader = reader.try_upgrade().err().expect($rt, "the reader");
        second.is_granted($rt);
        let reader = reader.try_upgrade().err().expect($rt, "the reader");
        behind.let_in($rt, reader);
    }};
}

#[test]
fn a_guard_downgrades_and_upgrades(rt: HostRuntime) {
    let lock = new_lock(&rt, 7u64);
    let writer = lock.try_write(&rt).expect(&rt, "the value");
    reads_and_writes!(&rt, lock, writer);
}

#[test]
fn an_owned_guard_downgrades_and_upgrades(rt: HostRuntime) {
    let lock = Arc::new(rt.alloc(), new_lock(&rt, 7u64)).expect(&rt, "memory");
    let writer = RwLock::try_write_arc(&lock, rt).expect(&rt, "a share");
    let writer = writer.expect(&rt, "the value");
    reads_and_writes!(&rt, lock, writer);
}

// Writes this value, and drops the guard.
fn write_by<R: Runtime>(mut writer: RwLockWriteGuardArc<u64, R>, value: u64) {
    *writer = value;
}

// A guard that shares its lock writes in another thread, and is dropped there, which lets in a reader that shares the lock,
// too.
#[test]
fn an_owned_guard_goes_to_another_thread(rt: HostRuntime) {
    let lock = Arc::new(rt.alloc(), new_lock(&rt, 7u64)).expect(&rt, "memory");
    let writer = RwLock::try_write_arc(&lock, rt).expect(&rt, "a share");
    let writer = writer.expect(&rt, "the value");
    let reads = RwLock::read_arc(&lock, rt, rt.alloc()).expect(&rt, "a share");
    let reads = Polled::new(&rt, reads);
    let child = thread::spawn(&rt, move || write_by(writer, 8));
    child.ok().expect(&rt, "a thread").join(&rt);
    check(&rt, "whether it is woken", reads.is_woken(), true);
    let reader = reads.into_waits().wait().expect(&rt, "the value");
    check(&rt, "the value", *reader, 8);
}

// Readers and writers that have the value, that were let in and that wait, as the lock counts them.
#[test]
fn a_lock_counts_who_has_it_and_who_waits(rt: HostRuntime) {
    let nobody = RwLockCounts {
        readers: 0,
        writers: 0,
        readers_let_in: 0,
        writers_let_in: 0,
        readers_waiting: 0,
        writers_waiting: 0,
    };
    let lock = new_lock(&rt, 7u64);
    check(&rt, "counts", lock.counts(&rt), nobody);
    let readers = [lock.try_read(&rt), lock.try_read(&rt)];
    let writes = Polled::new(&rt, lock.write(&rt, rt.alloc()));
    let reads = Polled::new(&rt, lock.read(&rt, rt.alloc()));
    let wait = RwLockCounts {
        readers_waiting: 1,
        writers_waiting: 1,
        ..nobody
    };
    let read = RwLockCounts { readers: 2, ..wait };
    check(&rt, "counts", lock.counts(&rt), read);
    drop(readers);
    let let_in = RwLockCounts {
        writers_let_in: 1,
        readers_waiting: 1,
        ..nobody
    };
    check(&rt, "counts", lock.counts(&rt), let_in);
    let writer = writes.into_waits().wait().expect(&rt, "the value");
    let written = RwLockCounts {
        writers: 1,
        readers_waiting: 1,
        ..nobody
    };
    check(&rt, "counts", lock.counts(&rt), written);
    drop(writer);
    let let_in = RwLockCounts {
        readers_let_in: 1,
        ..nobody
    };
    check(&rt, "counts", lock.counts(&rt), let_in);
    drop(reads);
    check(&rt, "counts", lock.counts(&rt), nobody);
}

// Readers that share their lock read at once, also while a writer waits, and are counted as long as their guards are there.
#[test]
fn owned_readers_read_while_a_writer_waits(rt: HostRuntime) {
    let lock = Arc::new(rt.alloc(), new_lock(&rt, 7u64)).expect(&rt, "memory");
    let reader = RwLock::try_read_arc(&lock, rt).expect(&rt, "a share");
    let reader = reader.expect(&rt, "the value");
    let other = RwLock::try_read_arc(&lock, rt).expect(&rt, "a share");
    let other = other.expect(&rt, "the value");
    let behind = Polled::new(&rt, lock.write(&rt, rt.alloc()));
    check(&rt, "what was read", (*reader, *other), (7, 7));
    check(&rt, "readers", lock.counts(&rt).readers, 2);
    let child = thread::spawn(&rt, move || *other);
    let read = child.ok().expect(&rt, "a thread").join(&rt);
    check(&rt, "what was read", read, 7);
    check(&rt, "readers", lock.counts(&rt).readers, 1);
    behind.let_in(&rt, reader);
    check(&rt, "readers", lock.counts(&rt).readers, 0);
}

// A reader that was let in, and not polled yet, lets any other reader read beside it.
#[test]
fn one_reads_beside_a_reader_that_was_let_in(rt: HostRuntime) {
    let shared = new_lock(&rt, 7u64);
    let writer = shared.try_write(&rt);
    let let_in = Polled::new(&rt, shared.read(&rt, rt.alloc()));
    drop(writer);
    check(&rt, "whether it is woken", let_in.is_woken(), true);
    check(
        &rt,
        "whether another one reads",
        shared.try_read(&rt).is_some(),
        true,
    );
}

#[test]
fn a_reader_that_is_told_and_dropped_gives_way_to_a_writer(rt: HostRuntime) {
    let shared = new_lock(&rt, 7u64);
    let held = shared.try_write(&rt).expect(&rt, "the value");
    let reader = Polled::new(&rt, shared.read(&rt, rt.alloc()));
    let writer = Polled::new(&rt, shared.write(&rt, rt.alloc()));
    drop(held);
    check(&rt, "whether the reader is woken", reader.is_woken(), true);
    writer.let_in(&rt, reader);
}

// The only writer that waits gives up, and is dropped or comes to its limit. Readers that stood behind it are let in.
#[test]
fn readers_come_in_once_no_writer_waits(rt: HostRuntime) {
    for is_dropped in [true, false] {
        let shared = new_lock(&rt, 7u64);
        let reader = shared.try_read(&rt).expect(&rt, "the value");
        let writer = Polled::new(&rt, shared.write(&rt, rt.alloc())).into_waits();
        let mut first = Polled::new(&rt, shared.read(&rt, rt.alloc()));
        let mut second = Polled::new(&rt, shared.read(&rt, rt.alloc()));
        if is_dropped {
            drop(writer);
        } else {
            let given = writer.wait_timeout(Duration::ZERO);
            let given = given.expect(&rt, "an answer").is_some();
            check(&rt, "whether it is granted", given, false);
        }
        first.is_granted(&rt);
        second.is_granted(&rt);
        drop(reader);
    }
}

// Only the notified wait has a share of the mutex still. With that share the mutex and its value are dropped.
#[test]
fn a_value_is_dropped_with_the_last_one_that_was_told(rt: HostRuntime) {
    let value = Arc::new(rt.alloc(), 7u64).expect(&rt, "memory");
    let kept = Arc::try_clone(&value).expect(&rt, "a share");
    let mutex = Mutex::new(rt.alloc(), kept);
    let mutex = Arc::new(rt.alloc(), mutex).expect(&rt, "memory");
    let held = Mutex::try_lock_arc(&mutex, rt).expect(&rt, "a share");
    let told = Mutex::lock_arc(&mutex, rt, rt.alloc()).expect(&rt, "a share");
    let told = Polled::new(&rt, told);
    drop(mutex);
    drop(held);
    check(&rt, "whether it is woken", told.is_woken(), true);
    drop(told);
    check(&rt, "shares", Arc::strong_count(&value), 1);
}
