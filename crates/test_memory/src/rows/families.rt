//! Each text.
use crate::hooks::{Calls, Refusing, Starving};
use crate::rows::printed::print_refused;
use crate::support::{Runtime, check, new_budget};
use calls::worlds::WORLDS;
use calls::{Request, Row};
use calls_events::{EVENTS, QUEUE, RECORDS, run_row};

// What no worked row has.
const OTHERS: &str = "
A run begins with any serial.
row 1 list tags
start 5 -> ok
run listen; listen; tagged 3 d 7 -> listener 0; listener 1; refused after 1
serial 1 -> number 6

A sink has room for the tasks of several calls.
row 2 list
room 2 -> ok
listen -> listener 0
poll 0 1 -> pending
listen -> listener 1
poll 1 2 -> pending
listen -> listener 2
poll 2 3 -> pending
notify 1 a -> told 1 wakes 1
notify 1 a -> told 1 wakes 2
notify 1 a -> told 1 missed 1
";

// Rows on queues in which a call is starved: it has no memory at all.
const RESERVED: &str = "
Room that was made in advance serves.
row 45 list
reserve 3 -> ok
has_room 3 -> true
starved listen -> listener 0
starved listen -> listener 1
starved listen -> listener 2
serial 0 -> number 0
serial 1 -> number 1
serial 2 -> number 2

Used-up serials are refused before memory, and take no room.
row 49 list
start 18446744073709551615 -> ok
starved listen -> used up
has_room 1 -> false
starved reserve 1 -> no memory
reserve 1 -> ok
has_room 2 -> false
starved listen -> used up
has_room 1 -> true
starved reserve 1 -> ok

Each call but a growth, with all memory taken.
row 0 list tags
room 8 -> ok
reserve 4 -> ok
starved listen -> listener 0
starved remove 0 1 -> removed created
starved listen -> listener 1
serial 1 -> number 1
starved poll 1 1 -> pending
starved listen -> listener 2
serial 2 -> number 2
starved poll 2 2 -> pending
starved listen -> listener 3
serial 3 -> number 3
starved poll 3 3 -> pending
starved notify 2 d 7 -> told 2 wakes 1 2
starved remove 1 1 -> removed lost d 7
starved listen -> listener 4
serial 4 -> number 4
starved poll 4 4 -> pending
starved notify 1 a 7 -> told 1 wakes 3
starved poll 2 5 -> ready 7
starved remove 3 1 -> removed passed 4 wakes 4
starved told 4 -> true
starved poll 3 5 -> finished
starved total -> total 1
starved isnotified -> isnotified true
";

// Each call is the first of its hand, which has no room for a note, and those of the first three rows are the first of their
// event, whose record has no room for an entry. What a refused call leaves shows in its answer with memory, and in the record.
const RECORDED: &str = "
A notification is the first call.
row 1 recorded by 1
notify 1 d 5 -> told 0
close 1 -> 0 notify 1 d 5: told 0

A question is.
row 2 recorded by 1
isnotified -> isnotified false
close 1 -> 0 isnotified: isnotified false

The other question is.
row 3 recorded by 1
total -> total 0
close 1 -> 0 total: total 0

A listening is, and each other call is made by a hand of its own.
row 4 recorded by 6
listen -> listener 0
listen -> listener 1
at 1 -> ok
poll 1 0 -> pending
at 2 -> ok
notify 1 a 7 -> told 1
at 3 -> ok
wait 0 -> ready 7
at 4 -> ok
discard 1 -> discarded false wakes 0
at 5 -> ok
isnotified -> isnotified false
close 6 -> 0 listen: listener 0; 0 listen: listener 1; 1 poll 1: pending; 2 notify 1 a 7: told 1; 3 poll 0: ready 7; \
4 remove 1 0: removed task; 5 isnotified: isnotified false
";

// A text, and what is counted of it by hand: its rows; the calls that they make, with each kind of listener, and with those
// that make an event, close it, and replay its record; how many of these allocate nothing, or more; and how often a request
// is refused, or more often. How many requests a call makes, and of which sizes, follows from the layout of a queue, and is
// not counted.
#[derive(Clone, Copy)]
struct Family<'a> {
    text: &'static str,
    rows: usize,
    calls: usize,
    starved: usize,
    requests: &'a [(Request, usize)],
}

// A row.
#[derive(Drop)]
struct OneRow<'r, R> {
    rt: &'r R,
    row: Row<'static>,
}

impl<'r, R: Runtime> Calls for OneRow<'r, R> {
    fn make(&self, hook: &mut Refusing) -> bool {
        run_row(self.row, self.rt, hook).is_ok()
    }
}

// Makes each row of the text with its requests for memory refused in turn, and answers how many calls may make any.
fn refuse_each<R: Runtime>(rt: &R, hook: &mut Refusing, text: &'static str) -> usize {
    let mut asking = 0usize;
    for place in 0..usize::MAX {
        let Some(row) = Row::nth(text, place) else {
            break;
        };
        match hook.each(&OneRow { rt, row }) {
            Ok(calls) => asking = asking.wrapping_add(calls),
            Err(wrong) => panic!(rt; "row {}: {wrong:?}", row.number),
        }
    }
    asking
}

// Makes the rows of the text with no memory during the calls that are to take none.
fn starve_each<R: Runtime>(rt: &R, family: Family<'_>) {
    let mut hook = Starving::new(new_budget(rt));
    let mut rows = 0usize;
    for place in 0..usize::MAX {
        let Some(row) = Row::nth(family.text, place) else {
            break;
        };
        if let Err(difference) = run_row(row, rt, &mut hook) {
            panic!(rt; "{difference}");
        }
        rows = rows.wrapping_add(1);
    }
    let calls = hook.starved.wrapping_add(hook.served);
    check(rt, "rows", rows, family.rows);
    check(rt, "calls", calls, family.calls);
    check(rt, hook.starved, hook.starved >= family.starved, true);
}

// Answers how many calls may ask for memory.
fn check_family<R: Runtime>(rt: &R, family: Family<'_>) -> usize {
    let mut hook = Refusing::new(new_budget(rt));
    let asking = refuse_each(rt, &mut hook, family.text);
    for (request, least) in family.requests.iter() {
        let refused = hook.refusals_of(*request);
        check(rt, (*request, refused, *least), refused >= *least, true);
    }
    drop(hook);
    starve_each(rt, family);
    asking
}

// Each call that asks for memory is refused where the rows are printed, too.
fn check_printed<R: Runtime>(rt: &R, family: Family<'_>) {
    let asking = check_family(rt, family);
    check(rt, "printed", print_refused(rt, family.text), Ok(asking));
}

// Thirteen queues get a first listener that comes alone. Six runs are made, and five of them insert. Four sinks have room.
#[test]
fn rows_on_a_queue(rt: HostRuntime) {
    let requests = [
        (Request::Slot, 13),
        (Request::SlotInRun, 5),
        (Request::Replies, 6),
        (Request::Sink, 4),
    ];
    let family = Family {
        text: QUEUE,
        rows: 16,
        calls: 117,
        starved: 78,
        requests: &requests,
    };
    check_printed(&rt, family);
}

// With two kinds of listeners: 23 rows make one, and three have two waits.
#[test]
fn rows_on_an_event(rt: HostRuntime) {
    let family = Family {
        text: EVENTS,
        rows: 24,
        calls: 412,
        starved: 296,
        requests: &[(Request::Listener, 46), (Request::Parker, 12)],
    };
    check_printed(&rt, family);
}

// Three rows make an event. Two of them make calls, and ask of their record whether it replays. Three records that were
// written by hand begin with a listener.
#[test]
fn rows_on_a_recorded_event(rt: HostRuntime) {
    let family = Family {
        text: RECORDS,
        rows: 4,
        calls: 22,
        starved: 5,
        requests: &[
            (Request::Hands, 3),
            (Request::Entry, 2),
            (Request::Replay, 5),
        ],
    };
    check_printed(&rt, family);
}

#[test]
fn other_rows(rt: HostRuntime) {
    let family = Family {
        text: OTHERS,
        rows: 2,
        calls: 13,
        starved: 8,
        requests: &[(Request::SlotInRun, 1), (Request::Slot, 1)],
    };
    check_printed(&rt, family);
}

// Each row makes a world, and each schedule of its lines takes no memory.
#[test]
fn rows_on_worlds(rt: HostRuntime) {
    let family = Family {
        text: WORLDS,
        rows: 22,
        calls: 82,
        starved: 60,
        requests: &[(Request::World, 22)],
    };
    check_printed(&rt, family);
}

// Four calls may ask for memory: the reservations that are not starved, and the room of a sink.
#[test]
fn rows_on_a_queue_with_room(rt: HostRuntime) {
    let family = Family {
        text: RESERVED,
        rows: 3,
        calls: 42,
        starved: 38,
        requests: &[(Request::Slot, 3), (Request::Sink, 1)],
    };
    check_family(&rt, family);
}

// Nothing is done where the note or the entry has no room: all of the nine first calls of a hand are refused the note, and the
// four first ones of an event the entry, too.
#[test]
fn rows_of_first_calls(rt: HostRuntime) {
    let mut hook = Refusing::new(new_budget(&rt));
    refuse_each(&rt, &mut hook, RECORDED);
    let refusals = hook.refusals_of(Request::Entry);
    check(&rt, refusals, refusals >= 13, true);
}
