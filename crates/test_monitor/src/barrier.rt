//! What a barrier does when threads come to it again and again.
use crate::support::check;
use event_monitor::Barrier;
use std::sync::atomic::{AtomicUsize, Ordering};
use std::thread;
use test_support::Runtime;

// Goes ten rounds, and counts those that this thread led.
fn goes_round<R: Runtime>(rt: &R, barrier: &Barrier, led: &AtomicUsize) {
    for _ in 0..10u32 {
        let ended = barrier.wait(rt, rt.alloc()).wait();
        let is_leader = ended.expect(rt, "the end of the round").is_leader();
        led.fetch_add(usize::from(is_leader), Ordering::SeqCst);
    }
}

#[test]
fn a_barrier_has_one_leader_a_round(rt: HostRuntime) {
    let (barrier, led) = (Barrier::new(rt.alloc(), 10), AtomicUsize::new(0));
    let goes = |_| goes_round(&rt, &barrier, &led);
    let ended = thread::map_indices(&rt, rt.alloc(), 10, &goes);
    check(&rt, "whether all ended", ended.is_ok(), true);
    check(&rt, "led", led.load(Ordering::SeqCst), 10);
}
