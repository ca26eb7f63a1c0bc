//! The worked rows on recorded events, whose calls are made by the event's hands and stand in its record, and on records
//! that were written by hand.

pub const RECORDS: &str = "
What the call of one hand did, another hand reads, and both find it in the record.
row 18 recorded by 2
listen -> listener 0
notify 1 d 5 -> told 1
at 1 -> ok
total -> total 1
drop 0 -> dropped
close 2 -> \
0 listen: listener 0; 0 notify 1 d 5: told 1; 1 total: total 1; - remove 0 1: removed lost d 5

An event is not closed without all of its hands.
row 37 recorded by 2
close 1 -> hands missing

The discard of a listener that gave its tag is recorded as a call on nobody.
row 41 recorded by 1
listen -> listener 0
notify 1 a 7 -> told 1
poll 0 1 -> ready 7 wakes 1
discard 0 -> discarded false
close 1 -> \
0 listen: listener 0; 0 notify 1 a 7: told 1; 0 poll 0: ready 7; 0 remove 0 0: removed none

A record replays where each reply is that of a queue which began empty.
row 42 written records
replays -> true
replays 0 listen: listener 0 -> true
replays 0 listen: listener 0; 0 notify 1 d 5: told 1 -> true
replays 0 listen: listener 0; 0 notify 1 d 5: told 0 -> false
replays 0 listen: no memory -> false
";
