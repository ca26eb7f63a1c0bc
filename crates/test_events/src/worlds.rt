//! What no clause of `event_worlds` says: how many clients a world may have; that what is no schedule changes nothing, and that a
//! row which is wrong is found, and where.
use crate::rows::{hold, made};
use crate::support::reads;
use calls::Row;

const RIGHT: &str = "
What is no schedule, and no size, leaves the world that was.
row 1 mutex 1
0:Gob -> no step `0:Gob`
new two -> invalid
0:2 -> 2: 0 Holding, lock 0
";

const GREATEST: &str = "
No memory has room for so many clients. The world that was stays.
row 52 mutex 2
new 18446744073709551615 -> no memory
new 18446744073709551615 from 18446744073709551615 -> no memory
new 9223372036854775808 -> no memory
state -> 0 Idle, 1 Idle, lock free
0:2 -> 2: 0 Holding, lock 0

Nor for so many clients and setters of a flag together.
row 1 flag 1 1
new 18446744073709551615 0 -> no memory
new 18446744073709551615 1 -> no memory
new 1 18446744073709551615 -> no memory
new 18446744073709551615 18446744073709551615 -> no memory
state -> 0 Check1, 1 ToSet, flag false

Nor for so many of a semaphore, whatever its permits are. The greatest number of permits needs none.
row 2 semaphore 2 1
new 18446744073709551615 0 -> no memory
new 18446744073709551615 18446744073709551615 -> no memory
state -> 0 Idle, 1 Idle, free 1/1
new 2 18446744073709551615 -> ok
0:2 -> 2: 0 Holding has 1, free 18446744073709551614/18446744073709551615

Nor for so many senders, receivers or messages.
row 3 channel 1 1 1
new 18446744073709551615 1 1 -> no memory
new 1 18446744073709551615 1 -> no memory
new 18446744073709551615 18446744073709551615 1 -> no memory
new 1 1 18446744073709551615 -> no memory
state -> s0 Idle, r0 Idle, closer ToClose, messages 0/1
";

const LARGE: &str = "
The last of 2,000 has the lock, and the first waits for it.
row 1 mutex 2000
1999:2 0:5 -> 7: 0 Parked, 1999 Holding, lock 1999
1999:2 -> 2: 0 Parked told wake, 1999 Idle, lock free
0:3 -> 3: 0 Holding, lock 0
2000:Go -> 0

The last client of a flag finds it set by the last setter.
row 2 flag 2000 2000
1999:2 3999:1 1999:2 3999:1 -> 6: 1999 Done, 3999 Done, flag true
4000:Go -> 0

The last has the permit, and the first waits for it.
row 3 semaphore 2000 1
1999:2 0:5 -> 7: 0 Parked, 1999 Holding has 1, free 0/1
1999:2 -> 2: 0 Parked told wake, 1999 Idle, free 1/1
0:3 -> 3: 0 Holding has 1, free 0/1
2000:Go -> 0

The last sender notifies the last receiver.
row 4 channel 2000 2000 2000
r1999:5 -> 5: r1999 Parked
s1999:Send7 s1999:2 -> 3: s1999 Idle has 7, r1999 Parked told wake, messages 1/2000 7
r1999:3 -> 3: r1999 Holding has 7 owes 1, messages 0/2000
s2000:Send7 r2000:Go -> 0
";

const CROWDS: &str = "
The last of 5,000 has the lock, and the first waits for it.
row 1 mutex 5000
4999:2 0:5 -> 7: 0 Parked, 4999 Holding, lock 4999
4999:2 -> 2: 0 Parked told wake, 4999 Idle, lock free
0:3 -> 3: 0 Holding, lock 0
5000:Go -> 0

The last of 5,000 waits for a flag that the last of 5,000 sets.
row 2 flag 5000 5000
4999:4 -> 4: 4999 Parked
9999:2 -> 2: 4999 Parked told wake, 9999 Done, flag true
4999:3 -> 3: 4999 Done
10000:Go -> 0

The last of 5,000 has the permit, and the first waits for it.
row 3 semaphore 5000 1
4999:2 0:5 -> 7: 0 Parked, 4999 Holding has 1, free 0/1
4999:2 -> 2: 0 Parked told wake, 4999 Idle, free 1/1
0:3 -> 3: 0 Holding has 1, free 0/1
5000:Go -> 0

The last of 5,000 senders notifies the last of 5,000 receivers.
row 4 channel 5000 5000 5000
r4999:5 -> 5: r4999 Parked
s4999:Send7 s4999:2 -> 3: s4999 Idle has 7, r4999 Parked told wake, messages 1/5000 7
r4999:3 -> 3: r4999 Holding has 7 owes 1, messages 0/5000
s5000:Send7 r5000:Go -> 0
";

const WRONG: &str = "
Another count of steps.
row 1 mutex 2
0:2 1:5 -> 7: 0 Holding, 1 Parked, lock 0
0:2 1:TimeOut 1:1 -> 3: 0 Idle, 1 Holding wake, lock 1

Another place.
row 2 semaphore 2 1
0:2 -> 2: 0 Holding has 1, free 0/1
1:5 -> 5: 1 ToRegister

A change that is left out.
row 3 channel 1 1 1
s0:Send7 s0:1 -> 2: s0 Holding has 7 owes 1

A change too many.
row 4 flag 1 1
0:2 -> 2: 0 Check2, flag false

A line that is left out.
row 5 mutex 2
0:2 1:5 -> 7: 0 Holding, 1 Parked, lock 0
1:3 -> 3: 1 Holding, lock 1
";

const FOUND: [&str; 5] = [
    "row 1, line 2: 0:2 1:TimeOut 1:1 -> 3: 0 Idle, 1 Holding wake, lock 1: but it answers 4: 0 Idle, 1 Holding wake, lock 1",
    "row 2, line 2: 1:5 -> 5: 1 ToRegister: but it answers 5: 1 Parked",
    "row 3, line 1: s0:Send7 s0:1 -> 2: s0 Holding has 7 owes 1: but it answers 2: s0 Holding has 7 owes 1, messages 1/1 7",
    "row 4, line 1: 0:2 -> 2: 0 Check2, flag false: but it answers 2: 0 Check2",
    "row 5, line 2: 1:3 -> 3: 1 Holding, lock 1: but it answers 0",
];

#[test]
fn what_is_no_schedule_changes_nothing(rt: HostRuntime) {
    hold(&rt, RIGHT, 1);
}

// Worked row 52, and the other worlds.
#[test]
fn a_world_of_the_greatest_size_is_refused(rt: HostRuntime) {
    hold(&rt, GREATEST, 4);
}

#[test]
fn a_world_of_two_thousand_works(rt: HostRuntime) {
    hold(&rt, LARGE, 4);
}

// 5,000 clients, of which the last counts as much as the first.
#[test]
fn a_world_of_five_thousand_works(rt: HostRuntime) {
    hold(&rt, CROWDS, 4);
}

#[test]
fn what_is_wrong_is_found(rt: HostRuntime) {
    for (place, found) in FOUND.iter().enumerate() {
        let row = Row::nth(WRONG, place).expect(&rt, "a row");
        let difference = made(&rt, row).expect_err(&rt, found);
        reads(&rt, format!(in rt.alloc(); "{difference}"), found);
    }
}
