//! What each call answers, which tasks wake, and what the record of an event has of it.
//!
//! A waker wakes its task when it is dropped, too. So these rows show that a call gives each task up before it returns,
//! but not that it wakes one: those of `waits`, in which threads wait, show that.
use crate::support::{Runtime, check, reads};
use calls::{Difference, Row, Undisturbed};
use calls_events::run_row;

const ROWS: &str = "
A poll in a task keeps a waker of that task, however it came. Any other is replaced, which wakes its task; so is even one \
of the same task where a waker is handed over.
row 1 event tags
listen -> listener 0
listen -> listener 1
hand 0 0 -> pending
await 0 0 -> pending
hand 0 1 -> pending awake 0
hand 0 1 -> pending awake 0 1
await 0 0 -> pending awake 1
await 0 1 -> pending awake 0
notify 1 d 7 -> told 1 awake 0 1
await 0 0 -> ready 7 awake 1
discard 1 -> discarded false awake 1

Two listeners get the last serial numbers, and are told as ever.
row 2 event tags from 18446744073709551613
listen -> listener 0
listen -> listener 1
listen -> used up
total -> total 2
isnotified -> isnotified false
notify 3 d 7 -> told 2
isnotified -> isnotified true
await 0 0 -> ready 7
await 1 0 -> ready 7
listen -> used up

An event without hands has an empty record.
row 3 recorded by 0
close 0

An event is notified as long as some listener is, whether that is one or several and whoever waits.
row 4 event
listen -> listener 0
listen -> listener 1
listen -> listener 2
notify 2 d -> told 2
isnotified -> isnotified true
discard 0 -> discarded true
isnotified -> isnotified true
discard 1 -> discarded true
isnotified -> isnotified false
total -> total 1

A listener that is discarded has left, told or not, and passes nothing on.
row 6 event tags
listen -> listener 0
listen -> listener 1
listen -> listener 2
discard 0 -> discarded false
total -> total 2
notify 1 d 7 -> told 1
discard 1 -> discarded true
isnotified -> isnotified false
total -> total 1
poll 2 0 -> pending";

// Worked row 5 on an event, whose tasks note their order; then drops of told listeners.
const IN_ORDER: &str = "
Tasks wake in order of listening. An additional notification wakes the next in order where its listener is dropped, though \
another stays told; a default one does not.
row 5 event
listen -> listener 0
poll 0 1 -> pending
listen -> listener 1
poll 1 2 -> pending
listen -> listener 2
poll 2 3 -> pending
notify max d -> told 3 wakes 1 2 3
poll 0 1 -> ready wakes 1
poll 1 2 -> ready wakes 2
poll 2 3 -> ready wakes 3
listen -> listener 3
poll 3 4 -> pending
listen -> listener 4
poll 4 5 -> pending
listen -> listener 5
poll 5 6 -> pending
listen -> listener 6
poll 6 7 -> pending
notify 1 a -> told 1 wakes 4
notify 2 d -> told 1 wakes 5
drop 3 -> dropped wakes 6
drop 4 -> dropped
drop 5 -> dropped wakes 7
poll 6 8 -> ready wakes 8
total -> total 0";

/// How a row differs on its subject, with each kind of listener where that is an event.
pub fn made<'t, R: Runtime>(rt: &R, row: Row<'t>) -> Result<(), Difference<'t>> {
    run_row(row, rt, &mut Undisturbed)
}

/// The rows of the text hold, and there are so many.
pub fn hold<R: Runtime>(rt: &R, text: &str, rows: usize) {
    for place in 0..rows {
        let row = Row::nth(text, place).expect(rt, "a row");
        if let Err(difference) = made(rt, row) {
            panic!(rt; "{difference}");
        }
    }
    check(rt, "more rows", Row::nth(text, rows).is_some(), false);
}

/// All rows hold.
pub fn all_hold<R: Runtime>(rt: &R) {
    hold(rt, ROWS, 5);
}

#[test]
fn each_row_holds(rt: HostRuntime) {
    all_hold(&rt);
}

#[test]
fn a_dropped_additional_listener_wakes_the_next_in_order(rt: HostRuntime) {
    hold(&rt, IN_ORDER, 1);
}

const WRONG: &str = "
The record has what was answered.
row 2 recorded by 1
total -> total 0
close 1 -> 0 total: total 1
";

#[test]
fn a_wrong_record_is_shown_with_its_line(rt: HostRuntime) {
    let row = Row::numbered(WRONG, 2).expect(&rt, "a row");
    let difference = made(&rt, row).expect_err(&rt, "a difference");
    let text = "row 2, line 2: close 1 -> 0 total: total 1: but it answers 0 total: total 0";
    reads(&rt, format!(in rt.alloc(); "{difference}"), text);
}
