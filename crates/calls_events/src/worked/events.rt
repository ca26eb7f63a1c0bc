//! The worked rows on events without tags and with, on listeners that wait, and on identities. A listener that waits was
//! notified before, or has no time left, so no thread parks.

pub const EVENTS: &str = "
A default notification counts the listeners that were told before, polled or not.
row 1 event
listen -> listener 0
listen -> listener 1
listen -> listener 2
poll 0 1 -> pending
poll 1 2 -> pending
poll 2 3 -> pending
notify 2 d -> told 2 wakes 1 2
notify 1 d -> told 0
poll 0 4 -> ready wakes 4
poll 1 5 -> ready wakes 5
poll 2 6 -> pending wakes 3

An additional notification counts nobody, whatever came before it.
row 2 event
listen -> listener 0
listen -> listener 1
listen -> listener 2
notify 1 a by name -> told 1
notify 1 d -> told 0
notify 1 a by name -> told 1
poll 0 1 -> ready wakes 1
poll 1 2 -> ready wakes 2
poll 2 3 -> pending

A default notification is lost with its listener while another stays told.
row 3 event
listen -> listener 0
listen -> listener 1
listen -> listener 2
notify 2 d -> told 2
drop 0 -> dropped
poll 1 1 -> ready wakes 1
poll 2 2 -> pending

An additional notification is passed on, whoever stays told.
row 4 event
listen -> listener 0
listen -> listener 1
listen -> listener 2
listen -> listener 3
notify 1 a by name -> told 1
notify 2 d -> told 1
drop 0 -> dropped
poll 1 1 -> ready wakes 1
poll 2 2 -> ready wakes 2
poll 3 3 -> pending

A notification that finds nobody is not kept for the next.
row 6 event
notify 1 d -> told 0
listen -> listener 0
poll 0 1 -> pending

A default notification that is lost loses its tag.
row 7 event tags
listen -> listener 0
listen -> listener 1
notify 1 d 7 -> told 1
notify 1 a 8 -> told 1
drop 0 -> dropped
poll 1 1 -> ready 8 wakes 1

A notification that is passed on takes its tag along.
row 8 event tags
listen -> listener 0
listen -> listener 1
notify 1 a 7 -> told 1
drop 0 -> dropped
poll 1 1 -> ready 7 wakes 1

An event without listeners is not notified.
row 9 event
listen -> listener 0
drop 0 -> dropped
isnotified -> isnotified false

A listener that was told gives its tag though its deadline has passed; any other leaves without one.
row 11 event tags
listen -> listener 0
notify 1 d 7 -> told 1
expire 0 -> ready 7
listen -> listener 1
total -> total 1
expire 1 -> timeout
total -> total 0

A listener that gave its tag is not in the queue any more.
row 12 event
listen -> listener 0
notify 1 d -> told 1
poll 0 1 -> ready wakes 1
poll 0 2 -> finished wakes 2
discard 0 -> discarded false

The greatest count tells all who wait.
row 15 event
listen -> listener 0
listen -> listener 1
listen -> listener 2
notify 1 a by name -> told 1
notify max d -> told 2

Once the told listener has taken its tag, the next is told.
row 22 event
listen -> listener 0
listen -> listener 1
poll 0 1 -> pending
poll 1 2 -> pending
notify 1 d -> told 1 wakes 1
poll 0 3 -> ready wakes 3
poll 1 4 -> pending wakes 2
notify 1 d -> told 1 wakes 4
poll 1 5 -> ready wakes 5

A waiting listener leaves without a trace.
row 23 event
listen -> listener 0
listen -> listener 1
listen -> listener 2
notify 1 d -> told 1
drop 2 -> dropped
poll 0 1 -> ready wakes 1
poll 1 2 -> pending

Each of the listeners that were told waits for its own tag.
row 24 event bits
listen -> listener 0
listen -> listener 1
notify 1 a 1 -> told 1
notify 1 a 0 -> told 1
wait 0 -> ready 1
wait 1 -> ready 0

A discard answers whether the listener was told, and passes nothing on.
row 26 event
listen -> listener 0
listen -> listener 1
notify 1 d -> told 1
discard 0 -> discarded true
discard 1 -> discarded false

A notification may be passed on to a listener that came after it.
row 27 event
listen -> listener 0
notify 1 d -> told 1
listen -> listener 1
drop 0 -> dropped
poll 1 1 -> ready wakes 1

The last identity of a source has the number below the greatest, and none is given after it.
row 28 event
ids 18446744073709551614 -> ok
id -> number 18446744073709551614
id -> used up

Listeners know which event they listen to, and whether it is the same.
row 30 two events
listen -> listener 0
listen -> listener 1
listens 0 0 -> true
listens 0 1 -> false
same 0 1 -> true

The total follows listeners that come and go.
row 31 event
total -> total 0
listen -> listener 0
total -> total 1
listen -> listener 1
total -> total 2
drop 0 -> dropped
drop 1 -> dropped
total -> total 0

A tag function is called once for each listener told, in order.
row 32 event tags
listen -> listener 0
listen -> listener 1
listen -> listener 2
notifyf 5 a 10 -> told 3 asked 3
poll 0 1 -> ready 10 wakes 1
poll 1 2 -> ready 11 wakes 2
poll 2 3 -> ready 12 wakes 3

An event is notified once a listener is told.
row 39 event
listen -> listener 0
isnotified -> isnotified false
notify 1 d -> told 1
isnotified -> isnotified true

The greatest timeout and the least.
row 40 event tags
listen -> listener 0
notify 1 d 7 -> told 1
timeout 0 max -> ready 7
listen -> listener 1
total -> total 1
timeout 1 0 -> timeout
total -> total 0

The relaxed forms mean what the others mean.
row 60 event
listen -> listener 0
listen -> listener 1
listen -> listener 2
notify 1 dr -> told 1
notify 1 dr -> told 0
notify 1 ar by name -> told 1
notify 2 dr by name -> told 0
notify 9 dr by name -> told 1
notify 1 ar -> told 0
poll 0 1 -> ready wakes 1
poll 1 2 -> ready wakes 2
poll 2 3 -> ready wakes 3

A default notification is passed on where nobody else is told.
row 61 event
listen -> listener 0
listen -> listener 1
listen -> listener 2
notify 1 d -> told 1
drop 0 -> dropped
poll 1 1 -> ready wakes 1
poll 2 2 -> pending
";
