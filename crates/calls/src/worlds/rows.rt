/// The worked rows over worlds. The answers follow, by hand, from the places and acts in `docs/DEFINITIONS.md`.
pub const WORLDS: &str = "
A client that is told and then times out tries once more.
row 16 mutex 2
0:2 1:5 -> 7: 0 Holding, 1 Parked, lock 0
0:2 1:TimeOut 1:1 -> 4: 0 Idle, 1 Holding wake, lock 1

A told client that is cancelled passes its notification on.
row 17 mutex 3
0:2 1:5 -> 7: 0 Holding, 1 Parked, lock 0
2:5 0:2 1:Cancel -> 8: 0 Idle, 1 Idle wake, 2 Parked told wake, lock free
2:3 -> 3: 2 Holding, lock 2

Two releases of a semaphore tell two.
row 19 semaphore 4 2
0:2 1:2 2:5 3:5 -> 14: 0 Holding has 1, 1 Holding has 1, 2 Parked, 3 Parked, free 0/2
0:1 1:1 0:1 1:1 -> 4: 0 Idle, 1 Idle, 2 Parked told wake, 3 Parked told wake, free 2/2

A client parks between the set of the flag and its notification, another comes between them; the setter is actor 2.
row 20 flag 2 1
0:3 2:1 1:1 0:1 2:1 0:3 -> 10: 0 Done, 1 Done, 2 Done, flag true

Where the serials are used up, nobody listens.
row 34 mutex 2 from 18446744073709551615
0:2 1:3 -> 5: 0 Holding, lock 0
state -> 0 Holding, 1 Idle, lock 0

A client that is told before its second try drops its listener while it has the lock.
row 35 mutex 2
0:2 1:3 0:2 1:1 -> 8: 1 Ending told, lock 1
1:1 -> 1: 1 Holding

What is no step changes nothing, alone and in a run.
row 36 mutex 2
7:Go -> 0
0:TimeOut -> 0
7:Go 0:TimeOut -> 0
state -> 0 Idle, 1 Idle, lock free

A client that finds the flag set at its second look drops its listener; the setter is actor 1.
row 43 flag 1 1
0:2 1:1 0:2 1:1 -> 6: 0 Done, 1 Done, flag true

Without a serial, a client of a flag waits no longer.
row 44 flag 1 1 from 18446744073709551615
0:2 -> 2: 0 Done
state -> 0 Done, 1 ToSet, flag false

A release of two permits tells two; there are no more than two, so the second `More` is no step. Behind the cancelled client nobody waits.
row 57 semaphore 3 2
0:2 -> 2: 0 Holding has 1, free 1/2
0:More 0:More -> 1: 0 Holding has 2, free 0/2
1:5 2:5 0:2 -> 12: 0 Idle, 1 Parked told wake, 2 Parked told wake, free 2/2
1:Cancel -> 1: 1 Idle wake

A told client of a semaphore that is cancelled passes its notification on to one.
row 58 semaphore 4 1
0:2 1:5 2:5 3:5 -> 17: 0 Holding has 1, 1 Parked, 2 Parked, 3 Parked, free 0/1
0:2 1:Cancel -> 3: 0 Idle, 1 Idle wake, 2 Parked told wake, free 1/1
2:3 -> 3: 2 Holding has 1, free 0/1

A lock is polled without a wake-up, and the one that comes later stays.
row 59 mutex 2
0:2 1:5 -> 7: 0 Holding, 1 Parked, lock 0
1:Poll 0:2 1:2 -> 5: 0 Idle, 1 Holding wake, lock 1

A receiver that waits is notified by a send, not before it, and receives. Without a wake-up it takes no step.
row 63 channel 1 1 1
r0:5 -> 5: r0 Parked
s0:Send7 s0:1 r0:1 -> 2: s0 Holding has 7 owes 1, messages 1/1 7
s0:1 -> 1: s0 Idle has 7, r0 Parked told wake
r0:3 -> 3: r0 Holding has 7 owes 1, messages 0/1

The sender of a full channel waits until a receive notifies it, and sends.
row 64 channel 2 1 1
s0:Send5 s0:2 s1:Send6 s1:4 -> 8: s0 Idle has 5, s1 Parked has 6, messages 1/1 5
r0:2 -> 2: r0 Holding has 5 owes 1, messages 0/1
r0:1 -> 1: s1 Parked told wake has 6, r0 Idle has 5
s1:3 -> 3: s1 Holding has 6 owes 1, messages 1/1 6

Two sends notify two receivers. The one that was told last looks first, and gets the first message.
row 65 channel 1 2 2
r0:5 r1:5 s0:Send7 s0:2 -> 13: s0 Idle has 7, r0 Parked told wake, r1 Parked, messages 1/2 7
s0:Send8 s0:2 -> 3: s0 Idle has 8, r1 Parked told wake, messages 2/2 7 8
r1:3 r0:3 -> 6: r0 Holding has 8 owes 1, r1 Holding has 7 owes 1, messages 0/2

A told receiver that is cancelled passes its notification on, and keeps its wake-up.
row 66 channel 1 2 1
r0:5 r1:5 s0:Send7 s0:2 -> 13: s0 Idle has 7, r0 Parked told wake, r1 Parked, messages 1/1 7
r0:Cancel -> 1: r0 Idle wake, r1 Parked told wake
r1:3 -> 3: r1 Holding has 7 owes 1, messages 0/1

A told sender whose deadline passes looks once more; one that was not told is idle after its own.
row 67 channel 3 1 1
s0:Send5 s0:2 s1:Send6 s1:4 s2:Send7 s2:4 r0:3 -> 16: s0 Idle has 5, s1 Parked told wake has 6, s2 Parked has 7, r0 Idle has 5
s1:TimeOut -> 1: s1 First woken wake has 6
s2:TimeOut s1:1 -> 2: s1 Holding wake has 6 owes 1, s2 Idle has 7, messages 1/1 6

What is sent first is received first, whoever began first.
row 68 channel 2 1 2
s0:Send5 s1:Send6 s1:1 s0:1 -> 4: s0 Holding has 5 owes 1, s1 Holding has 6 owes 1, messages 2/2 6 5
r0:2 -> 2: r0 Holding has 6 owes 1, messages 1/2 5
r0:3 -> 3: r0 Holding has 5 owes 1, messages 0/2

The channel is closed, then all senders are told, and then all receivers.
row 69 channel 2 2 0
s0:Send5 s0:4 s1:Send6 s1:4 r0:5 r1:5 -> 20: s0 Parked has 5, s1 Parked has 6, r0 Parked, r1 Parked
closer:1 -> 1: closer ToNotifySenders, messages 0/0 closed
closer:1 -> 1: s0 Parked told wake has 5, s1 Parked told wake has 6, closer ToNotifyReceivers
closer:2 -> 1: r0 Parked told wake, r1 Parked told wake, closer Done
s1:3 r1:3 -> 6: s1 Holding has 6, r1 Holding

A closed channel with room takes no message, and still gives the one that it has. After that, the receiver keeps its number.
row 70 channel 2 1 2
s0:Send5 s0:2 closer:1 s1:Send6 s1:1 -> 6: s0 Idle has 5, s1 Holding has 6, closer ToNotifySenders, messages 1/2 5 closed
r0:2 -> 2: r0 Holding has 5 owes 1, messages 0/2 closed
r0:3 -> 3: r0 Holding has 5

A second look that receives notifies the senders before it drops its listener, which passes on what it was told.
row 71 channel 1 2 1
r0:3 r1:5 s0:Send7 s0:2 s0:Send8 s0:4 -> 16: s0 Parked has 8, r0 Second told, r1 Parked, messages 1/1 7
r0:1 -> 1: r0 Ending told has 7 owes 1, messages 0/1
r0:1 -> 1: s0 Parked told wake has 8, r0 Ending told has 7
r0:1 -> 1: r0 Holding has 7, r1 Parked told wake

What is no step changes nothing. Nobody is sender 1, and a receiver sends nothing. A parked client goes on by its wake-up alone.
row 72 channel 1 1 1
s1:Send9 r7:1 s0:1 s0:Cancel r0:Send9 r0:Poll r0:TimeOut closer:Cancel -> 0
state -> s0 Idle, r0 Idle, closer ToClose, messages 0/1
r0:5 -> 5: r0 Parked
r0:1 r0:Send9 -> 0
";
