//! How often a task is polled that awaits listeners which another thread tells. The limits are those of a task that rests
//! until it is told, with room for a wake or two; a task that spins is polled some hundred thousand times.
ghost use Rattle.std.specs.Prelude.{All};

use crate::support::{check, new_id};
use event_listener::{
    Event, EventListener, IntoNotification, IntoTagged, NeverInserted, StackListener,
};
use futures::Future;
use futures::executor::{TaskSet, block_on};
use futures::future::{Either, join_all, select};
use futures::task::{Context, Doorbell, Poll};
use std::process::Abort;
use std::sync::Wait;
use std::sync::atomic::{AtomicU32, Ordering};
use std::thread::{self, Threads};
use std::time::{Clock, Duration};
use test_support::{Borrowing, ListenerKind, Runtime, Sharing};

// A listener that can be awaited at any time.
trait Awaited: Future<Output = Result<u32, NeverInserted>> {
    // It may be polled now.
    fn can_be_polled(&self)
        ensures { Self.can_poll self.now };
}

impl<R: Wait + Clock + Clone> Awaited for EventListener<u32, R> {
    fn can_be_polled(&self) {}
}

impl<R: Wait + Clock + Clone> Awaited for StackListener<'_, u32, R> {
    fn can_be_polled(&self) {}
}

// A listener that counts its polls.
#[derive(Drop)]
struct Counted<'a, L> {
    listener: L,
    polls: &'a AtomicU32,
}

impl<L: Awaited> Future for Counted<'_, L> {
    type Output = Result<u32, NeverInserted>;

    fn poll(&mut self, cx: &mut Context<'_>) -> Poll<Result<u32, NeverInserted>> {
        self.polls.fetch_add(1, Ordering::SeqCst);
        self.listener.can_be_polled();
        Future::poll(&mut self.listener, cx)
    }
}

// A new event.
fn new_event<R: Abort>(rt: &R) -> Event<u32> {
    Event::with_tag(new_id(rt))
}

// A new listener of this kind.
fn listen_as<'ev, K, L, R>(rt: &R, event: &'ev Event<u32>) -> L
where
    K: ListenerKind<'ev, u32, R, Listener = L>,
    R: Runtime,
{
    K::listen(rt, rt.alloc(), event).expect(rt, "a listener")
}

fn counting<L>(listener: L, polls: &AtomicU32) -> Counted<'_, L> {
    Counted { listener, polls }
}

// There were no more polls than that.
fn at_most<R: Abort>(rt: &R, polls: &AtomicU32, most: u32) {
    let polls = polls.load(Ordering::SeqCst);
    check(rt, "at most so many polls", polls.max(most), most);
}

// Tells one listener more, with this tag.
fn tell<R: Abort + Wait>(rt: &R, event: &Event<u32>, tag: u32) {
    let told = event.notify(rt, 1.additional().tag(tag));
    check(rt, "listeners told", told, Ok(1));
}

fn awaits_one<L: Awaited, R: Runtime>(rt: &R, listener: L) {
    let polls = AtomicU32::new(0);
    let tag = block_on(rt, counting(listener, &polls)).expect(rt, "an executor");
    check(rt, "what was awaited", tag, Ok(7));
    at_most(rt, &polls, 3);
}

fn add<F: Future, R: Abort>(rt: &R, futures: &mut Vec<F>, future: F)
    requires old { All F.can_poll futures.old.items }
    requires new { F.can_poll future }
    ensures { All F.can_poll futures.new.items }
{
    futures.push(future).expect(rt, "room for a future");
}

// Each is told after the one before.
fn joins_three<L: Awaited, R: Runtime>(rt: &R, first: L, second: L, third: L) {
    let polls = AtomicU32::new(0);
    let mut futures = Vec::new(rt.alloc());
    add(rt, &mut futures, counting(first, &polls));
    add(rt, &mut futures, counting(second, &polls));
    add(rt, &mut futures, counting(third, &polls));
    let all = join_all(rt.alloc(), futures).expect(rt, "a join");
    let tags = block_on(rt, all).expect(rt, "an executor");
    let tags = tags.expect(rt, "a list");
    let expected = [Ok(1), Ok(2), Ok(3)];
    check(rt, "what was joined", tags.as_slice(), expected.as_slice());
    at_most(rt, &polls, 9);
}

// The first is told, so each poll of the task polls it. The other one waits on.
fn selects_one<'a, L, R>(rt: &R, told: L, waiting: Counted<'a, L>) -> Counted<'a, L>
where
    L: Awaited,
    R: Runtime,
{
    let polls = AtomicU32::new(0);
    match block_on(rt, select(counting(told, &polls), waiting)).expect(rt, "an executor") {
        Either::Left((tag, waiting)) => {
            check(rt, "what was selected", tag, Ok(7));
            at_most(rt, &polls, 4);
            waiting
        }
        Either::Right(_) => panic!(rt; "the other one was not told"),
    }
}

// Awaits one listener, three that are joined, and one of two again and again.
fn awaits<'ev, K, L, R>(rt: &R, first: &'ev Event<u32>, second: &'ev Event<u32>)
where
    K: ListenerKind<'ev, u32, R, Listener = L>,
    L: Awaited,
    R: Runtime,
{
    let next = || listen_as::<K, L, R>(rt, first);
    awaits_one(rt, next());
    joins_three(rt, next(), next(), next());
    let polls = AtomicU32::new(0);
    let mut waiting = counting(listen_as::<K, L, R>(rt, second), &polls);
    for _ in 0..10 {
        waiting = selects_one(rt, next(), waiting);
    }
}

// Tells one listener of the event, 100 milliseconds after one waits there and none is told.
fn tell_later<R: Abort + Wait + Clock>(rt: &R, event: &Event<u32>, tag: u32) {
    for _ in rt.forever() {
        if !event.is_notified(rt) && event.total_listeners(rt) > 0 {
            break;
        }
        thread::yield_now();
    }
    thread::sleep(rt, Duration::from_millis(100));
    tell(rt, event, tag);
}

// Tells each that is awaited, in order.
fn tell_each<R: Abort + Wait + Clock>(rt: &R, event: &Event<u32>) {
    for tag in [7, 1, 2, 3] {
        tell_later(rt, event, tag);
    }
    for _ in 0..10 {
        tell_later(rt, event, 7);
    }
}

fn are_awaited<R: Runtime + Threads + Sync>(rt: &R, first: &Event<u32>, second: &Event<u32>) {
    let telling = || tell_each(rt, first);
    thread::join(rt, telling, || awaits::<Sharing, _, R>(rt, first, second));
    let telling = || tell_each(rt, first);
    thread::join(rt, telling, || awaits::<Borrowing, _, R>(rt, first, second));
}

#[test]
fn a_task_is_polled_a_few_times_for_each_listener_that_it_awaits(rt: HostRuntime) {
    are_awaited(&rt, &new_event(&rt), &new_event(&rt));
}

const TASKS: u32 = 100;

// A task that counts the tags that it gets.
#[derive(Drop)]
struct Noting<'a, L> {
    listener: Counted<'a, L>,
    told: &'a AtomicU32,
}

impl<L: Awaited> Future for Noting<'_, L> {
    type Output = ();

    fn poll(&mut self, cx: &mut Context<'_>) -> Poll<()> {
        match self.listener.poll(cx) {
            Poll::Ready(tag) => {
                let is_told = u32::from(tag.is_ok());
                self.told.fetch_add(is_told, Ordering::SeqCst);
                Poll::Ready(())
            }
            Poll::Pending => Poll::Pending,
        }
    }
}

// Two threads poll the tasks, and each may take those of the other.
fn two_workers<R, F>(rt: &R, tasks: &TaskSet<F>)
where
    R: Wait + Threads + Sync,
    F: Future<Output = ()> + Send,
{
    thread::join(rt, || tasks.work(rt, 0), || tasks.work(rt, 1));
}

// The tasks are told one after another, once most of them wait.
fn tell_all<R: Abort + Wait + Clock>(rt: &R, event: &Event<u32>) {
    thread::sleep(rt, Duration::from_millis(100));
    for tag in 0..TASKS {
        tell(rt, event, tag);
    }
}

fn all_are_told<L, R>(rt: &R, event: &Event<u32>, listeners: Vec<L>)
where
    L: Awaited + Send,
    R: Runtime + Threads + Sync,
{
    let (polls, told) = (AtomicU32::new(0), AtomicU32::new(0));
    let tasks = TaskSet::new(rt, Doorbell::parking(), 2).expect(rt, "a pool");
    for listener in listeners {
        let noting = Noting {
            listener: counting(listener, &polls),
            told: &told,
        };
        let is_spawned = tasks.spawn(noting).is_ok();
        check(rt, "whether there is a task", is_spawned, true);
    }
    thread::join(rt, || two_workers(rt, &tasks), || tell_all(rt, event));
    check(rt, "tags", told.load(Ordering::SeqCst), TASKS);
    at_most(rt, &polls, 3 * TASKS);
}

fn listeners<'ev, K, L, R>(rt: &R, event: &'ev Event<u32>) -> Vec<L>
where
    K: ListenerKind<'ev, u32, R, Listener = L>,
    R: Runtime,
{
    let mut listeners = Vec::new(rt.alloc());
    for _ in 0..TASKS {
        let room = listeners.push(listen_as::<K, L, R>(rt, event));
        room.expect(rt, "room for a listener");
    }
    listeners
}

#[test]
fn tasks_that_move_between_threads_are_woken(rt: HostRuntime) {
    let event = new_event(&rt);
    all_are_told(&rt, &event, listeners::<Sharing, _, _>(&rt, &event));
    all_are_told(&rt, &event, listeners::<Borrowing, _, _>(&rt, &event));
}
