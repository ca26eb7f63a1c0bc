//! The worked rows on a queue: its serials and keys, which listeners are notified, where a notification goes that is
//! propagated, the tasks that a sink gets, runs of calls, and which integers can be a notification.

pub const QUEUE: &str = "
A notification of all wakes their tasks in order of listening.
row 5 list
room 3 -> ok
listen -> listener 0
poll 0 1 -> pending
listen -> listener 1
poll 1 2 -> pending
listen -> listener 2
poll 2 3 -> pending
notify max d -> told 3 wakes 1 2 3
poll 0 1 -> ready
poll 1 2 -> ready
poll 2 3 -> ready

A refused tag skips nobody.
row 10 list tags
run listen; listen; listen; tagged 3 d 5; tagged 2 d 6 -> \
listener 0; listener 1; listener 2; refused after 1; told 1
serial 0 -> number 0
serial 1 -> number 1
serial 2 -> number 2
remove 0 0 -> removed notified d 5
remove 1 0 -> removed notified d 6
remove 2 0 -> removed created

The last serial is given, and none after it.
row 13 list
start 18446744073709551614 -> ok
listen -> listener 0
serial 0 -> number 18446744073709551614
listen -> used up
total -> total 1

A key says nothing of the listener that came after its own, whatever slot that one has.
row 14 list
listen -> listener 0
remove 0 0 -> removed created
listen -> listener 1
poll 0 1 -> finished
total -> total 1
told 1 -> false
remove 1 0 -> removed created

The total falls by one with each removal.
row 25 list
listen -> listener 0
listen -> listener 1
listen -> listener 2
total -> total 3
remove 1 0 -> removed created
total -> total 2
remove 0 0 -> removed created
total -> total 1

Which integers are the number of a notification.
row 29 list
fits i32 -1 -> false
fits u8 0 -> true
fits u128 340282366920938463463374607431768211455 -> false

The task that was stored last is woken, and no earlier one.
row 33 list
room 2 -> ok
listen -> listener 0
poll 0 1 -> pending
poll 0 2 -> pending
notify 1 d -> told 1 wakes 2

A sink keeps as many tasks as it has room for, and counts the others.
row 38 list
room 1 -> ok
listen -> listener 0
poll 0 1 -> pending
listen -> listener 1
poll 1 2 -> pending
notify 2 d -> told 2 wakes 1 missed 1

A key finds nobody in a queue that did not give it.
row 48 two lists
at 1 -> ok
start 5 -> ok
listen -> listener 0
serial 0 -> number 5
at 0 -> ok
poll 0 1 -> finished
remove 0 1 -> removed none
total -> total 0
at 1 -> ok
total -> total 1
told 0 -> false
remove 0 0 -> removed created

A notification is refused the tag after its last one.
row 50 list tags
run listen; listen; listen; tagged 3 d; tagged 3 d -> \
listener 0; listener 1; listener 2; refused after 0; refused after 0
start 0 -> ok
run listen; listen; listen; tagged 3 d 7; tagged 3 d -> \
listener 0; listener 1; listener 2; refused after 1; refused after 0
start 0 -> ok
run listen; listen; listen; tagged 3 d 7 7; tagged 3 d -> \
listener 0; listener 1; listener 2; refused after 2; refused after 0
start 0 -> ok
run listen; listen; listen; tagged 3 d 7 7 7; tagged 3 d -> \
listener 0; listener 1; listener 2; told 3; told 0

The least and the greatest count, and the integers round them.
row 51 list tags
listen -> listener 0
listen -> listener 1
run tagged 0 d; tagged max a 1 -> told 0; refused after 1
fits usize 18446744073709551615 -> true
fits u128 18446744073709551615 -> true
fits u128 18446744073709551616 -> false
fits i128 -170141183460469231731687303715884105728 -> false

A notification is passed on to the listener that is named.
row 53 list tags
listen -> listener 0
listen -> listener 1
notify 1 d 7 -> told 1
remove 0 1 -> removed passed 1
poll 1 2 -> ready 7

A default notification is lost while another listener stays told.
row 54 list tags
listen -> listener 0
listen -> listener 1
listen -> listener 2
notify 2 d 7 -> told 2
remove 0 1 -> removed lost d 7
told 1 -> true
told 2 -> false
total -> total 2

An additional notification is lost where nobody waits.
row 55 list tags
listen -> listener 0
notify 1 a 7 -> told 1
remove 0 1 -> removed lost a 7
total -> total 0

Notifications of both kinds are passed on and lost, whoever of the told leaves first.
row 56 list tags
listen -> listener 0
listen -> listener 1
listen -> listener 2
notify 1 a 7 -> told 1
notify 2 d 8 -> told 1
remove 1 1 -> removed lost d 8
remove 0 1 -> removed passed 2
remove 2 1 -> removed lost a 7
listen -> listener 3
remove 3 1 -> removed created

A default notification counts the listeners that were told before.
row 62 list
room 3 -> ok
listen -> listener 0
listen -> listener 1
listen -> listener 2
poll 0 1 -> pending
poll 1 2 -> pending
poll 2 3 -> pending
notify 2 d -> told 2 wakes 1 2
notify 1 d -> told 0
poll 0 4 -> ready
poll 1 5 -> ready
poll 2 6 -> pending
";
