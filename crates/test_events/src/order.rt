//! In which order tasks wake: on a recorded event, as `rows` has it of others; and where many listen to one event, of each kind. There
//! a notification tells as many as it says, and the event counts them all. The lines for many are made, some for each listener; the
//! answers follow from the rules of the queue.
use crate::rows::made;
use crate::support::Runtime;
use calls::Row;
use std::alloc::{AllocError, Global};

// Worked row 5 on a recorded event, and drops of told listeners.
const RECORDED: &str = "
Tasks wake in order of listening. An additional notification wakes the next in order where its listener is dropped, though \
another stays told; a default one does not.
row 1 recorded by 1
listen -> listener 0
poll 0 1 -> pending
listen -> listener 1
poll 1 2 -> pending
listen -> listener 2
poll 2 3 -> pending
notify max d 7 -> told 3 wakes 1 2 3
poll 0 1 -> ready 7 wakes 1
poll 1 2 -> ready 7 wakes 2
poll 2 3 -> ready 7 wakes 3
listen -> listener 3
poll 3 4 -> pending
listen -> listener 4
poll 4 5 -> pending
listen -> listener 5
poll 5 6 -> pending
listen -> listener 6
poll 6 7 -> pending
notify 1 a 8 -> told 1 wakes 4
notify 2 d 9 -> told 1 wakes 5
drop 3 -> dropped wakes 6
drop 4 -> dropped
drop 5 -> dropped wakes 7
poll 6 8 -> ready 8 wakes 8
total -> total 0";

const CROWD: usize = 2_000;

// As many listen, from this number on, and are polled, each in a task of its number.
fn come(lines: &mut String, first: usize) -> Result<(), AllocError> {
    for number in first..first.saturating_add(CROWD) {
        write!(lines, "listen -> listener {number}\n")?;
        write!(lines, "poll {number} {number} -> pending\n")?;
    }
    write!(
        lines,
        "total -> total {CROWD}\nisnotified -> isnotified false\n"
    )
}

// So many are told by this call, from this number on. Their tasks wake in order of listening.
fn told(lines: &mut String, call: &str, first: usize, count: usize) -> Result<(), AllocError> {
    write!(lines, "notify {call} -> told {count}")?;
    for number in first..first.saturating_add(count) {
        let word = if number == first { " wakes" } else { "" };
        write!(lines, "{word} {number}")?;
    }
    write!(
        lines,
        "\ntotal -> total {CROWD}\nisnotified -> isnotified true\n"
    )
}

// As many were told, from this number on, and leave.
fn leave(lines: &mut String, first: usize) -> Result<(), AllocError> {
    for number in first..first.saturating_add(CROWD) {
        write!(lines, "poll {number} {number} -> ready 7 wakes {number}\n")?;
    }
    write!(lines, "total -> total 0\nisnotified -> isnotified false\n")
}

// A default notification counts those that are told already, an additional one tells as many more.
fn told_by_and_by(lines: &mut String) -> Result<(), AllocError> {
    come(lines, 0)?;
    told(lines, "700 d 7", 0, 700)?;
    told(lines, "700 d 7", 700, 0)?;
    told(lines, "1500 d 7", 700, 800)?;
    told(lines, "300 a 7", 1_500, 300)?;
    told(lines, "max a 7", 1_800, 200)?;
    told(lines, "max d 7", 2_000, 0)?;
    leave(lines, 0)
}

fn told_at_once(lines: &mut String, call: &str, first: usize) -> Result<(), AllocError> {
    come(lines, first)?;
    told(lines, call, first, CROWD)?;
    leave(lines, first)
}

// Three crowds, one after another.
fn crowds(alloc: Global) -> Result<String, AllocError> {
    let mut lines = String::new(alloc);
    told_by_and_by(&mut lines)?;
    told_at_once(&mut lines, "max d 7", CROWD)?;
    told_at_once(&mut lines, "max a 7", CROWD * 2)?;
    Ok(lines)
}

fn holds<R: Runtime>(rt: &R, row: Row<'_>) {
    if let Err(difference) = made(rt, row) {
        panic!(rt; "{difference}");
    }
}

fn crowds_hold_on<R: Runtime>(rt: &R, subject: &str) {
    let lines = crowds(rt.alloc()).expect(rt, "room for the lines");
    let row = Row {
        number: 2,
        title: "",
        subject,
        kind: "",
        lines: lines.as_str(),
    };
    holds(rt, row);
}

#[test]
fn a_dropped_additional_recorded_listener_wakes_the_next_in_order(rt: HostRuntime) {
    holds(&rt, Row::nth(RECORDED, 0).expect(&rt, "a row"));
}

// With each kind of listener of an event.
#[test]
fn crowds_are_told_in_order_and_counted(rt: HostRuntime) {
    crowds_hold_on(&rt, "event tags");
}

#[test]
fn crowds_are_told_in_order_and_counted_by_a_recorded_event(rt: HostRuntime) {
    crowds_hold_on(&rt, "recorded by 1");
}
