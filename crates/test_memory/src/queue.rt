//! What no clause says of a queue: when tags and tasks are dropped, that a refused `reserve` keeps what it made, that many
//! listeners come and leave in any order, that a dropped queue gives its memory back, and texts; and that a key is that of a
//! listener by its slot and serial alone, whatever queue gave it.
use crate::budget::Budget;
use crate::support::{all_memory, check, leave, new_budget};
use event_queue::{
    Call, IntoNotification, IntoTagged, Key, List, ListenError, NotifyError, RegisterResult, State,
    Woken,
};
use std::alloc::AllocGlobal;
use std::cell::Cell;
use std::process::Abort;

// A tag or a task that counts its drops.
struct Counted<'c>(&'c Cell<usize>);

impl Drop for Counted<'_> {
    fn drop(self) {
        self.0.set(self.0.get().wrapping_add(1));
        let Counted(_) = self;
    }
}

// So many were dropped since the last look.
fn dropped<R: Abort>(rt: &R, what: &str, drops: &Cell<usize>, expected: usize) {
    check(rt, what, drops.replace(0), expected);
}

#[test]
fn what_is_not_kept_is_dropped_within_the_call(rt: HostRuntime) {
    let drops = &Cell::new(0);
    let mut woken = Woken::with_room(rt.alloc(), 1).expect(&rt, "a sink");
    let mut list: List<Counted<'_>, Counted<'_>> = List::new(rt.alloc());
    let key = list.insert_uncounted().expect(&rt, "a listener");
    list.register_uncounted(key, Counted(drops));
    dropped(&rt, "a task that is stored", drops, 0);
    list.register_uncounted(key, Counted(drops));
    dropped(&rt, "one that is replaced", drops, 1);
    let told = list.notify_uncounted(&mut 1.tag_with(|| Counted(drops)), &mut woken);
    check(&rt, "told", told, Ok(1));
    dropped(&rt, "one that is woken, and a tag", drops, 0);
    let told = list.register_uncounted(key, Counted(drops));
    dropped(&rt, "the task of a told listener", drops, 1);
    drop(told);
    dropped(&rt, "its tag", drops, 1);
    list.register_uncounted(key, Counted(drops));
    dropped(&rt, "the task of nobody", drops, 1);
    drop(woken);
    dropped(&rt, "the woken task", drops, 1);
}

#[test]
fn tags_that_a_run_leaves_over_are_dropped_with_it(rt: HostRuntime) {
    let drops = &Cell::new(0);
    let mut woken = Woken::with_room(rt.alloc(), 0).expect(&rt, "a sink");
    let mut list: List<Counted<'_>, Counted<'_>> = List::new(rt.alloc());
    let tags = vec![in rt.alloc(); Counted(drops), Counted(drops), Counted(drops)];
    let tags = tags.expect(&rt, "tags");
    let (count, additional) = (3, true);
    let notify = Call::Notify {
        count,
        additional,
        tags,
    };
    let calls = vec![in rt.alloc(); Call::Insert, notify].expect(&rt, "calls");
    let run = list.run(calls, &mut Vec::new(rt.alloc()), &mut woken);
    run.expect(&rt, "replies");
    dropped(&rt, "the second tag and the third", drops, 2);
    let last = list.insert_uncounted().expect(&rt, "a listener");
    list.register_uncounted(last, Counted(drops));
    drop(list);
    dropped(&rt, "the tag of the first, the task of the last", drops, 2);
}

const HALF: usize = 500;

// Half of them are told, and their tasks stay with the sink until that is dropped. As many nodes are spare.
#[test]
fn a_queue_is_dropped_with_its_tags_and_tasks_without_memory(rt: HostRuntime) {
    let drops = &Cell::new(0);
    let mut woken = Woken::with_room(rt.alloc(), HALF).expect(&rt, "room for tasks");
    let mut list: List<Counted<'_>, Counted<'_>> = List::new(rt.alloc());
    for _ in 0..2 * HALF {
        let key = list.insert_uncounted().expect(&rt, "a listener");
        list.register_uncounted(key, Counted(drops));
    }
    list.reserve(HALF).expect(&rt, "room");
    let hog = all_memory(&rt);
    let told = list.notify_uncounted(&mut HALF.tag_with(|| Counted(drops)), &mut woken);
    check(&rt, "told", told, Ok(HALF));
    dropped(&rt, "those that are kept", drops, 0);
    drop(list);
    dropped(&rt, "tags, and tasks of those that wait", drops, 2 * HALF);
    drop(woken);
    dropped(&rt, "tasks of the told", drops, HALF);
    drop(hog);
}

// Far more queues than there is memory for at once, one after another: each gives back the node of its listener and those
// that nobody took.
#[test]
fn a_dropped_queue_gives_every_node_back(rt: HostRuntime) {
    let mut budget = new_budget(&rt);
    leave(&rt, &mut budget, Budget::MOST);
    for _ in 0..500 {
        let mut list: List<(), u32> = List::new(rt.alloc());
        list.reserve(3).expect(&rt, "room");
        let key = list.insert_uncounted().expect(&rt, "a listener");
        list.register_uncounted(key, 7);
        drop(list);
    }
}

const ROOM: usize = 3;

// Makes room for three in a queue of so many listeners, which has no other room, with so many bytes. After that without
// memory each place of the room takes a listener, and then none comes. Answers how much room that was, if it was refused.
fn refused_room<R: Abort + AllocGlobal>(
    rt: &R,
    budget: &mut Budget,
    listeners: usize,
    bytes: usize,
) -> Option<usize> {
    let mut list: List<(), u32> = List::new(rt.alloc());
    for _ in 0..listeners {
        list.insert_uncounted().expect(rt, "a listener");
    }
    leave(rt, budget, bytes);
    let is_granted = list.reserve(ROOM).is_ok();
    leave(rt, budget, 0);
    let room = list.spare();
    check(rt, (bytes, room), room >= ROOM, is_granted);
    for left in (0..room).rev() {
        list.insert_uncounted()
            .expect(rt, "a listener without memory");
        check(rt, "spare", list.spare(), left);
    }
    let refused = list.insert_uncounted().err();
    check(rt, "one more", refused, Some(ListenError::Memory));
    let total = listeners.saturating_add(room);
    check(rt, "listeners", list.total_listeners(), total);
    budget.give_back();
    if is_granted {
        return None;
    }
    list.reserve(ROOM).expect(rt, "room, with memory");
    Some(room)
}

// The most room that there is after a refusal, with more and more bytes until there is none. The bytes lie so close that
// each place is the first to be refused once.
fn most_refused_room<R: Abort + AllocGlobal>(
    rt: &R,
    budget: &mut Budget,
    listeners: usize,
) -> usize {
    let mut most = 0;
    for bytes in (0..Budget::MOST).step_by(Budget::STEP) {
        let Some(room) = refused_room(rt, budget, listeners, bytes) else {
            return most;
        };
        let is_next = room == most || most.checked_add(1) == Some(room);
        check(rt, (bytes, room, "after", most), is_next, true);
        most = room;
    }
    panic!(rt; "no budget serves")
}

// Room that was granted is that of worked row 45: three listeners take it without memory, and then it is three less.
#[test]
fn a_reserve_refused_in_the_middle_keeps_what_was_made(rt: HostRuntime) {
    let mut budget = new_budget(&rt);
    for listeners in [0, 2] {
        let most = most_refused_room(&rt, &mut budget, listeners);
        check(&rt, listeners, most, ROOM - 1);
    }
}

// Inserts a listener that stores this task.
fn insert<R: Abort>(rt: &R, list: &mut List<u32, usize>, task: usize) -> Key {
    let key = list.insert_uncounted().expect(rt, "a listener");
    list.register_uncounted(key, task);
    key
}

// What the listener of that place was, when it is removed.
fn was(place: usize) -> State<u32, usize> {
    let (additional, tag) = (false, 7);
    match place {
        0 => State::Notified { additional, tag },
        _ => State::Task(place),
    }
}

// What the queue answers to that key when it registers a listener with the task 9.
fn registers(place: usize) -> RegisterResult<u32> {
    match place {
        0 => RegisterResult::Notified(7),
        _ => RegisterResult::Registered,
    }
}

// Four listeners, each with its place as its task. The first is told, and the last is in the slot of one that has left. One
// more has left its slot spare.
fn four<R: Abort + AllocGlobal>(
    rt: &R,
    list: &mut List<u32, usize>,
    woken: &mut Woken<usize>,
) -> [Key; 4] {
    let gone = insert(rt, list, 9);
    let first = insert(rt, list, 0);
    let second = insert(rt, list, 1);
    let third = insert(rt, list, 2);
    let spare = insert(rt, list, 9);
    for key in [spare, gone] {
        let left = list.remove_uncounted(key, false, woken);
        check(rt, "one that leaves", left, Some(State::Task(9)));
    }
    let last = insert(rt, list, 3);
    check(rt, "its slot", last.slot, gone.slot);
    let told = list.notify_uncounted(&mut 1.tag(7), woken);
    check(rt, "told", told, Ok(1));
    [first, second, third, last]
}

// By that key a registration or a removal finds the listener that has its slot and serial, if there is one, and no other.
// Answers whether there is one.
fn finds_by<R: Abort + AllocGlobal>(rt: &R, key: Key, is_removed: bool) -> bool {
    let mut woken = Woken::with_room(rt.alloc(), 1).expect(rt, "a sink");
    let mut list = List::new(rt.alloc());
    let keys = four(rt, &mut list, &mut woken);
    let same = |own: &Key| own.slot == key.slot && own.serial == key.serial;
    let found = keys.iter().position(same);
    check(rt, key, list.is_told_uncounted(key), found == Some(0));
    if is_removed {
        let left = list.remove_uncounted(key, false, &mut woken);
        check(rt, key, left, found.map(was));
    } else {
        let registered = list.register_uncounted(key, 9);
        let expected = found.map_or(RegisterResult::NeverInserted, registers);
        check(rt, key, registered, expected);
    }
    for (place, own) in keys.iter().enumerate() {
        let expected = match found {
            Some(0) if place == 0 => None,
            Some(_) if found == Some(place) && is_removed => None,
            Some(_) if found == Some(place) => Some(State::Task(9)),
            _ => Some(was(place)),
        };
        let left = list.remove_uncounted(*own, false, &mut woken);
        check(rt, (key, place), left, expected);
    }
    check(rt, "listeners", list.total_listeners(), 0);
    found.is_some()
}

// The same, in a queue each. Answers how many listeners have that key: one or none.
fn finds<R: Abort + AllocGlobal>(rt: &R, key: Key) -> usize {
    let is_found = finds_by(rt, key, false);
    check(rt, key, finds_by(rt, key, true), is_found);
    usize::from(is_found)
}

#[test]
fn a_key_of_another_list_is_that_of_the_listener_with_its_slot_and_serial(rt: HostRuntime) {
    let mut other: List<(), ()> = List::new(rt.alloc());
    let mut equal = 0usize;
    for _ in 0..6 {
        let key = other.insert_uncounted().expect(&rt, "a listener");
        equal = equal.wrapping_add(finds(&rt, key));
    }
    check(&rt, ("equal", equal), equal > 0, true);
    let mut equal = 0usize;
    for slot in [0, 1, 2, 3, 4, 5, (1 << 16) + 1, u32::MAX - 1, u32::MAX] {
        for serial in [0, 1, 2, 3, 4, 5, 6, (1 << 32) + 1, u64::MAX - 1, u64::MAX] {
            equal = equal.wrapping_add(finds(&rt, Key { slot, serial }));
        }
    }
    check(&rt, "equal", equal, 4);
}

const MANY: usize = 300_000;

// Many listeners come, and leave in this order of their places. Then as many come again, into the slots that were left.
fn many_leave<F: Fn(usize) -> usize, R: Abort + AllocGlobal>(rt: &R, place_of: F)
    requires { F.IsAlwaysCallable place_of }
{
    let mut list: List<(), usize> = List::new(rt.alloc());
    let mut woken = Woken::with_room(rt.alloc(), 0).expect(rt, "a sink");
    let mut keys = Vec::new(rt.alloc());
    for task in 0..MANY {
        let key = list.insert_uncounted().expect(rt, "a listener");
        list.register_uncounted(key, task);
        keys.push(key).expect(rt, "room");
    }
    let slots = list.spare().saturating_add(MANY);
    for step in 0..MANY {
        let place = place_of(step);
        let key = keys.get(place).copied().expect(rt, "a key");
        let left = list.remove_uncounted(key, false, &mut woken);
        check(rt, step, left, Some(State::Task(place)));
    }
    check(rt, "slots", list.spare(), slots);
    for step in 0..slots {
        let key = list.insert_uncounted().expect(rt, "a listener");
        check(rt, step, (key.slot as usize) < slots, true);
    }
}

// Those that leave are first in, first out; last in, first out; from the middle outwards; from everywhere.
#[test]
fn many_listeners_leave_in_any_order_and_their_slots_are_used_again(rt: HostRuntime) {
    many_leave(&rt, |step| step);
    many_leave(&rt, |step| (MANY - 1).wrapping_sub(step));
    many_leave(&rt, |step| match step % 2 {
        0 => (MANY / 2).wrapping_add(step / 2),
        _ => (MANY / 2 - 1).wrapping_sub(step / 2),
    });
    many_leave(&rt, |step| step.wrapping_mul(185_411) % MANY);
}

// A function that makes tags.
fn seven() -> u32 {
    7
}

#[test]
fn each_has_its_text(rt: HostRuntime) {
    let shown = format!(in rt.alloc();
        "{:?}, {:?}, {:?}, {:?}, {:?}; {}, {}, {}",
        1.into_notification(),
        1.additional(),
        1.tag(7),
        1.tag_with(seven),
        2.additional().relaxed().tag("go"),
        ListenError::Memory,
        ListenError::SerialsUsedUp,
        NotifyError { told: 2 },
    );
    let expected = "Notify(1), Additional(Notify(1)), Tag { tag: 7, inner: Notify(1) }, \
        TagWith { tag: .., inner: Notify(1) }, \
        Tag { tag: \"go\", inner: Relaxed(Additional(Notify(2))) }; \
        no memory for a listener, serial numbers are used up, a tag was refused after 2 listeners";
    assert_eq!(rt; shown.expect(&rt, "a text").as_str(), expected);
}
