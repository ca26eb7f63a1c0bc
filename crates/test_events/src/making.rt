//! How listeners are made by the macro and by slots, and what events, slots, listeners and refusals show of themselves.
use crate::support::{
    Runtime, check, discard, has_listeners, new_event, new_task, reads, sharing, shows,
};
use event_listener::{
    CloseError, Event, EventIds, IntoTagged, ListenError, Listener, NeverInserted, NotifyError,
    RecordError, RecordedPollError, StackSlot, WaitError, WaitReason, listener,
};
use futures::task::Poll;
use std::alloc::{AllocError, AllocGlobal, Global};
use std::cell::Cell;
use std::fmt::{self, Write};
use std::mem;
use std::sync::{Arc, Wait};
use test_support::{Change, Changed, any_waker};

// An error of the tests' own, that a refused listening turns into.
#[derive(Debug, Drop, PartialEq, Eq)]
struct Refused;

impl From<ListenError> for Refused {
    fn from(_refusal: ListenError) -> Self {
        Refused
    }
}

fn counted<T>(times: &Cell<u32>, value: T) -> T {
    times.set(times.get().saturating_add(1));
    value
}

// A place, a reference and an `Arc`: each is a listener of that event, and is polled by the name that it got. Two of them
// have the names of variables in the macro's own body, and keep them. The first leaves the block of its slot. How often the
// macro evaluates what it is given there is counted.
fn of_each<R: Runtime>(
    runtime: &R,
    alloc: Global,
    times: &Cell<u32>,
) -> Result<[bool; 3], Refused> {
    let event: Event<u32> = new_event(runtime);
    let rt = &event;
    let slot = Arc::new(alloc, new_event::<u32, R>(runtime)).expect(runtime, "an event");
    let of_place = {
        listener!(counted(times, runtime), counted(times, alloc); *counted(times, rt) => made);
        made
    };
    listener!(runtime, alloc; rt => mut of_reference);
    listener!(runtime, alloc; slot => of_shared);
    let task = new_task(runtime);
    check(runtime, "one", task.poll(&mut of_reference), Poll::Pending);
    check(runtime, "another", task.poll(&mut of_shared), Poll::Pending);
    let of_reference = of_reference.listens_to(rt);
    let of_shared = of_shared.listens_to(&slot);
    Ok([of_place.listens_to(&event), of_reference, of_shared])
}

#[test]
fn an_event_is_a_place_a_reference_or_an_arc_and_evaluated_once(rt: HostRuntime) {
    let times = Cell::new(0);
    let listens = of_each(&rt, rt.alloc(), &times);
    check(&rt, "whether they listen", listens, Ok([true; 3]));
    check(&rt, "evaluations of three", times.get(), 3);
}

fn new_slot<'ev, T: Drop, R: Runtime>(rt: &R, event: &'ev Event<T>) -> StackSlot<'ev, T> {
    StackSlot::new(rt, rt.alloc(), event).expect(rt, "a slot")
}

// A runtime value can't be cloned.
#[derive(Drop)]
struct Unshared;

impl Change for Unshared {
    fn before_clone<R: Wait>(&self, _rt: &R) -> Result<(), AllocError> {
        Err(AllocError)
    }
}

#[test]
fn nobody_listens_where_the_runtime_value_is_not_cloned(rt: HostRuntime) {
    let (rt, event) = (&rt, &new_event::<u32, _>(&rt));
    let unshared = Changed { rt, by: &Unshared };
    let refused = event.listen(&unshared, rt.alloc()).err();
    check(rt, "one that shares", refused, Some(ListenError::Memory));
    let refused = new_slot(rt, event).listen(&unshared).err();
    check(rt, "one that borrows", refused, Some(ListenError::Memory));
    has_listeners(rt, event, 0, false);
}

// A writer that takes the lock of the event each time it is written to.
#[derive(Drop)]
struct Asking<'a, T, R> {
    rt: &'a R,
    event: &'a Event<T>,
    found: usize,
}

impl<T, R: Wait> fmt::Write for Asking<'_, T, R> {
    fn write_str(&mut self, _: &str) -> fmt::Result {
        self.found = self.event.total_listeners(self.rt);
        Ok(())
    }
}

// A tag that shows nothing of itself. It may be sent and not shared, and tags need no more.
#[derive(Drop)]
struct Silent(Cell<u8>);

fn is_shared_by_threads<T: Send + Sync>(_: &T) {}

fn show_no_queue<R: Runtime + Send + Sync>(rt: &R, event: &Event<Silent>) {
    shows(rt, event, "Event(<uninitialized>)");
    let text = "Event(\n    <uninitialized>,\n)";
    reads(rt, format!(in rt.alloc(); "{event:#?}"), text);
    is_shared_by_threads(event);
}

// A slot changes nothing until it listens.
fn show_slots<R: Runtime + Send + Sync>(rt: &R, event: &Event<Silent>) {
    let (slot, unused) = (new_slot(rt, event), new_slot(rt, event));
    shows(rt, &slot, "StackSlot { .. }");
    is_shared_by_threads(&slot);
    let text = "Event { listeners_notified: 0, listeners_total: 0 }";
    shows(rt, event, text);
    let tag = || Silent(Cell::new(0));
    check(rt, "told", event.notify(rt, 1.tag_with(tag)), Ok(0));
    let stacked = slot.listen(rt).expect(rt, "a listener");
    drop(unused);
    has_listeners(rt, event, 1, false);
    shows(rt, &stacked, "StackListener { .. }");
    is_shared_by_threads(&stacked);
}

fn show_counts<R: Runtime + Send + Sync>(rt: &R, event: &Event<Silent>) {
    let (first, second) = (sharing(rt, event), sharing(rt, event));
    let _third = sharing(rt, event);
    shows(rt, &second, "EventListener { .. }");
    is_shared_by_threads(&first);
    let tag = || Silent(Cell::new(0));
    check(rt, "told", event.notify(rt, 2.tag_with(tag)), Ok(2));
    let text = "Event { listeners_notified: 2, listeners_total: 3 }";
    shows(rt, event, text);
    let text = "Event {\n    listeners_notified: 2,\n    listeners_total: 3,\n}";
    reads(rt, format!(in rt.alloc(); "{event:#?}"), text);
    // An event is written with its lock free.
    let found = 0;
    let mut writer = Asking { rt, event, found };
    write!(writer, "{event:?}").expect(rt, "a text");
    check(rt, "listeners", writer.found, 3);
}

#[test]
fn events_slots_and_listeners_are_shared_and_show_their_names(rt: HostRuntime) {
    show_no_queue(&rt, &new_event(&rt));
    show_slots(&rt, &new_event(&rt));
    show_counts(&rt, &new_event(&rt));
}

#[test]
fn refusals_say_what_was_refused(rt: HostRuntime) {
    let used_up = EventIds::starting_at(u64::MAX).next();
    let used_up = used_up.expect_err(&rt, "a source at its end gives an identity");
    let absent: WaitError<u8> = WaitError::NeverInserted;
    let shown = format!(in rt.alloc();
        "{used_up}; {}; {}; {absent}; {}",
        NeverInserted,
        NotifyError { told: 2 },
        WaitError::Memory(7u8),
    );
    let text = "event identities are used up; listener is not in the queue; \
        a tag was refused after 2 listeners; listener is not in the queue; no memory for a parker";
    reads(&rt, shown, text);
}

#[test]
fn refusals_of_records_say_what_was_refused(rt: HostRuntime) {
    let shown = format!(in rt.alloc();
        "{}; {}; {}; {}; {}; {}",
        RecordError::Memory,
        RecordError::SerialsUsedUp,
        RecordedPollError::NeverInserted,
        RecordedPollError::Memory,
        CloseError::HandsMissing,
        CloseError::Differs,
    );
    let text =
        "no memory for the record; serial numbers are used up; listener is not in the queue; \
        no memory for the record; hands are missing; notes differ from the record";
    reads(&rt, shown, text);
}

// The event is dropped while listeners stand in its queue. One that borrowed it is forgotten, and its task is woken as the
// queue is dropped.
fn outlive<R: Runtime>(rt: &R, event: Event<u32>) {
    let (first, mut second) = (sharing(rt, &event), sharing(rt, &event));
    let mut third = sharing(rt, &event);
    let mut forgotten = new_slot(rt, &event).listen(rt).expect(rt, "a listener");
    let task = new_task(rt);
    check(rt, "the last", task.poll(&mut forgotten), Poll::Pending);
    mem::forget(forgotten);
    check(rt, "told", event.notify(rt, 1.tag(7)), Ok(1));
    drop(event);
    let polled = third.poll(any_waker(rt).expect(rt, "a waker"));
    check(rt, "the third", polled, Ok(Poll::Pending));
    // The reason of a refused wait drops the listener that came back, and the next one gets its notification.
    let reason = WaitReason::from(WaitError::Memory(first));
    check(rt, "the reason", reason, WaitReason::Memory);
    let polled = second.poll(any_waker(rt).expect(rt, "a waker"));
    check(rt, "the second", polled, Ok(Poll::Ready(7)));
    discard(rt, third, false);
    check(rt, "with the second", task.is_woken(), false);
    drop(second);
    check(rt, "with the last share", task.is_woken(), true);
}

#[test]
fn listeners_that_share_the_queue_outlive_their_event(rt: HostRuntime) {
    outlive(&rt, new_event(&rt));
}
