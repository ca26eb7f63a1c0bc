//! Rows in which a call meets a refusal.
use crate::hooks::Starving;
use crate::support::{check, new_budget};
use calls::Row;
use calls_events::run_row;

const STARVED: &str = "
A listener whose wait was refused its parker stands where it was.
row 46 event
listen -> listener 0
starved timeout 0 1000 -> no memory
total -> total 1
notify 1 d -> told 1
poll 0 1 -> ready wakes 1

An event whose queue was refused memory is as new.
row 47 event
starved listen -> no memory
total -> total 0
notify 1 d -> told 0
listen -> listener 0
total -> total 1

A source whose identities are used up gives none.
row 52 event
ids 18446744073709551615 -> ok
id -> used up
id -> used up

The greatest reservation is refused, and leaves the queue as it was.
row 52 list
reserve max -> no memory
has_room 1 -> false
total -> total 0

A listener takes the slot that another one left, and needs no memory.
row 101 event
listen -> listener 0
listen -> listener 1
drop 0 -> dropped
starved listen -> listener 2
drop 1 -> dropped
starved slisten -> listener 3
notify max d -> told 2
discard 2 -> discarded true
discard 3 -> discarded true
total -> total 0

A wait that is refused what its thread parks on hands the listener back as it was, told or not. One that comes back passes \
its notification on where it is dropped. Memory is looked at first, and then whether a listener is finished.
row 102 event tags
listen -> listener 0
listen -> listener 1
starved wait 0 -> no memory
starved timeout 0 0 -> no memory
starved timeout 0 1000 -> no memory
starved timeout 0 max -> no memory
starved expire 0 -> no memory
total -> total 2
isnotified -> isnotified false
notify 1 d 7 -> told 1
starved wait 0 -> no memory
starved timeout 0 0 -> no memory
starved timeout 0 1000 -> no memory
starved timeout 0 max -> no memory
starved expire 0 -> no memory
total -> total 2
isnotified -> isnotified true
drop 0 -> dropped
poll 1 1 -> ready 7 wakes 1
starved wait 1 -> no memory
starved timeout 1 0 -> no memory
starved timeout 1 1000 -> no memory
starved timeout 1 max -> no memory
starved expire 1 -> no memory
wait 1 -> finished
";

#[test]
fn rows_that_meet_a_refusal(rt: HostRuntime) {
    let mut rows = 0usize;
    for place in 0..usize::MAX {
        let Some(row) = Row::nth(STARVED, place) else {
            break;
        };
        if let Err(difference) = run_row(row, &rt, &mut Starving::new(new_budget(&rt))) {
            panic!(&rt; "{difference}");
        }
        rows = rows.wrapping_add(1);
    }
    check(&rt, "rows", rows, 6);
}
