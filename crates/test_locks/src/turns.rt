//! Whose turn it is: newcomers are shut out only while somebody starves.
use crate::support::check;
use crate::tasks::Polled;
use std::time::Duration;
use test_kinds::{Case, Kind, Waits, each, numbers};
use test_support::Runtime;

// Has a waiter be notified and find the lock taken, twice. The waiter starves, and waits.
macro_rules! starves {
    ($rt:expr, $kind:expr) => {{
        let mut held = $kind.hold();
        let mut one = Polled::new($rt, $kind.waits().expect($rt, "a share"));
        for _ in 0..2u32 {
            drop(held);
            // The holder takes the lock again before the waiter polls.
            held = $kind.hold();
            check($rt, "whether it is granted", one.is_ready(), false);
        }
        check($rt, "shut", $kind.counts().map(numbers), Some([0, 0, 1, 1]));
        (one, held)
    }};
}

// What becomes of the starving waiter. No newcomer is shut out afterwards.
#[derive(Clone, Copy, Drop)]
enum Starving {
    // The waiter is notified, and newcomers take nothing meanwhile, though the lock is free.
    Granted,
    // The waiter is notified, and takes the lock at its limit.
    GrantedAtItsLimit,
    Dropped,
    DroppedOnceNotified,
    Late,
}

impl<R: Runtime> Case<R> for Starving {
    fn waiters(&self) -> usize {
        1
    }

    fn run<K: Kind>(&self, rt: &R, kind: &K) {
        if kind.counts().is_none() {
            return;
        }
        let (mut one, held) = starves!(rt, kind);
        match self {
            Starving::Granted => {
                drop(held);
                let newcomer = kind.hold();
                let late = kind
                    .waits()
                    .expect(rt, "a share")
                    .wait_timeout(Duration::ZERO);
                check(rt, "in vain", late.expect(rt, "an answer").is_none(), true);
                check(rt, "shut", kind.counts().map(numbers), Some([1, 1, 0, 1]));
                check(rt, "whether it is granted", one.is_ready(), true);
                drop(newcomer);
            }
            Starving::GrantedAtItsLimit => {
                drop(held);
                let given = one.into_waits().wait_timeout(Duration::ZERO);
                check(rt, "in time", given.expect(rt, "an answer").is_some(), true);
            }
            Starving::Dropped => {
                drop(one);
                check(rt, "open", kind.counts().map(numbers), Some([0, 0, 0, 0]));
                drop(held);
            }
            Starving::DroppedOnceNotified => {
                drop(held);
                drop(one);
            }
            Starving::Late => {
                let given = one.into_waits().wait_timeout(Duration::from_millis(1));
                check(rt, "in vain", given.expect(rt, "an answer").is_none(), true);
                check(rt, "open", kind.counts().map(numbers), Some([0, 0, 0, 0]));
                drop(held);
            }
        }
        check(rt, "free", kind.counts().map(numbers), Some([1, 0, 0, 0]));
    }
}

#[test]
fn newcomers_are_shut_out_while_one_starves(rt: HostRuntime) {
    for case in [
        Starving::Granted,
        Starving::GrantedAtItsLimit,
        Starving::Dropped,
        Starving::DroppedOnceNotified,
        Starving::Late,
    ] {
        each(&rt, &rt, &case).expect(&rt, "memory");
    }
}
