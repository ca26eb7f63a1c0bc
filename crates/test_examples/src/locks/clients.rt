//! What the types of a client's way leave open: which notification is owed, that a listener is dropped, and until when a
//! client that is told waits on.
use super::{Polled, hold, new_mutex};
use crate::support::{check, is_woken};
use example_events::locks::Mutex;
use example_events::locks::contended::{Clients, Contended, Owed, Taken, take, try_once};
use std::cell::Cell;
use std::io;
use std::sync::{self, Wait};
use std::time::{Clock, Duration};
use test_support::{Change, Changed, NoClock, Runtime};

// Something that a lock's clients are notified of, that is always free, and that owes them so many notifications more.
#[derive(Clone, Copy)]
struct Owes<'a> {
    mutex: &'a Mutex<u64>,
    count: usize,
}

impl Taken for Owes<'_> {
    ghost use Rattle.example_events.specs.declared.locks.contended.held.Owed.TheVariants.{Additional};

    ghost owed = { λ owes. Additional owes.count };

    fn free(self) -> Owed {
        Owed::Additional(self.count)
    }
}

impl<'a> Contended<'a> for Owes<'a> {
    type Taken = Self;

    ghost is_new = { λ _. Unit {0} };

    fn clients(self) -> &'a Clients {
        self.mutex.clients()
    }

    fn try_take(self) -> Option<Self> {
        Some(self)
    }
}

// Tells so many clients of the lock more, which is not free.
fn tell<R: Runtime>(rt: &R, mutex: &Mutex<u64>, count: usize) {
    let held = try_once(Owes { mutex, count });
    held.expect(rt, "what is always free").free().notify(rt);
}

#[test]
fn additional_notifications_tell_so_many_more(rt: HostRuntime) {
    let (rt, mutex) = (&rt, &new_mutex(&rt));
    let _held = hold(rt, mutex);
    let wait = || Polled::new(rt, mutex);
    let clients = [wait(), wait(), wait(), wait()];
    for (count, woken) in [(1usize, 1usize), (2, 3)] {
        tell(rt, mutex, count);
        let told = clients.iter().filter(|client| client.task.is_woken());
        check(rt, "how many are woken", told.count(), woken);
    }
}

// What is taken at the second try. Right before that another client waits behind the client that tries, and that other client
// is notified.
#[derive(Drop)]
struct ToldMeanwhile<'a, R: Wait + Clock + Clone> {
    rt: &'a R,
    mutex: &'a Mutex<u64>,
    tries: sync::Mutex<u32>,
    behind: sync::Mutex<Option<Polled<'a, R>>>,
}

impl<'a, R: Runtime> ToldMeanwhile<'a, R> {
    fn is_first_try(&self) -> bool {
        let mut tries = self.tries.lock(self.rt);
        *tries = tries.saturating_add(1);
        *tries == 1
    }
}

impl<'f, 'a, R: Runtime> Contended<'a> for &'f ToldMeanwhile<'a, R> {
    type Taken = Owes<'a>;

    ghost is_new = { λ _. Unit {0} };

    fn clients(self) -> &'a Clients {
        self.mutex.clients()
    }

    fn try_take(self) -> Option<Owes<'a>> {
        if self.is_first_try() {
            return None;
        }
        let mutex = self.mutex;
        let behind = Polled::new(self.rt, mutex);
        tell(self.rt, mutex, 1);
        is_woken(self.rt, &behind.task, false);
        *self.behind.lock(self.rt) = Some(behind);
        Some(Owes { mutex, count: 0 })
    }
}

#[test]
fn a_told_client_whose_second_try_takes_the_lock_tells_another_one(rt: HostRuntime) {
    let (rt, mutex) = (&rt, &new_mutex(&rt));
    let _held = hold(rt, mutex);
    let told = ToldMeanwhile {
        rt,
        mutex,
        tries: sync::Mutex::new(0),
        behind: sync::Mutex::new(None),
    };
    let taken = take(&told, rt, rt.alloc()).expect(rt, "the second try");
    check(rt, "tries", *told.tries.lock(rt), 2);
    let behind = told.behind.lock(rt).take().expect(rt, "the other client");
    is_woken(rt, &behind.task, true);
    taken.free().notify(rt);
}

// How many readings are before the deadline. The first of them is that from which it is reckoned.
const BEFORE: u32 = 5;

// A clock that goes on by a second at each reading. Before the deadline it also tells a client that waits.
#[derive(Drop)]
struct Tells<'a, R> {
    rt: &'a R,
    mutex: &'a Mutex<u64>,
    reads: Cell<u32>,
}

impl<R: Runtime> Change for Tells<'_, R> {
    fn read<C: Clock>(&self, _rt: &C) -> io::Result<Duration> {
        let reads = self.reads.get();
        self.reads.set(reads.saturating_add(1));
        if reads < BEFORE {
            tell(self.rt, self.mutex, 1);
        }
        Ok(Duration::from_secs(u64::from(reads)))
    }
}

// A client is told again and again, and finds the lock taken each time. It gives up at the first reading that shows the
// deadline that it began with.
#[test]
fn a_timed_lock_keeps_the_deadline_that_it_began_with(rt: HostRuntime) {
    let (rt, mutex) = (&rt, &new_mutex(&rt));
    let _held = hold(rt, mutex);
    let tells = Tells {
        rt,
        mutex,
        reads: Cell::new(0),
    };
    let clock = Changed { rt, by: &tells };
    let limit = Duration::from_secs(u64::from(BEFORE));
    let given = mutex.lock_timeout(&clock, rt.alloc(), limit);
    let is_given = given.expect(rt, "an answer").is_some();
    check(rt, "whether it is given", is_given, false);
    check(rt, "readings", tells.reads.get(), BEFORE + 1);
}

#[test]
fn a_timed_lock_gives_up_where_its_clock_cannot_be_read(rt: HostRuntime) {
    let (rt, mutex) = (&rt, &new_mutex(&rt));
    let _held = hold(rt, mutex);
    let blind = Changed { rt, by: &NoClock };
    let given = mutex.lock_timeout(&blind, rt.alloc(), Duration::MAX);
    let is_given = given.expect(rt, "an answer").is_some();
    check(rt, "whether it is given", is_given, false);
}
