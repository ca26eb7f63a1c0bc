//! Queues with their listeners, and what is done on them.
use crate::queues::Queue;
use crate::repeat;
use crate::run::{Run, Runtime, expect};
use anyhow::Result;
use futures::task::Context;
use std::alloc::Global;
use std::collections::VecDeque;

/// A queue with places for its listeners. A place is empty before one listens and after it left.
#[derive(Drop)]
pub struct Stand<Q: Queue> {
    queue: Q,
    listeners: Vec<Option<Q::Listener>>,
}

impl<Q: Queue> Stand<Q> {
    /// A queue with nobody in it.
    pub fn new(alloc: Global, queue: Q) -> Stand<Q> {
        Stand {
            queue,
            listeners: Vec::new(alloc),
        }
    }
}

/// Does on these queues what the act does. One that is of a single queue is done on the first.
pub fn measure<Q: Queue, R: Runtime>(
    run: &mut Run<'_, R>,
    act: &str,
    stands: &mut [Stand<Q>],
    cx: &mut Context<'_>,
) -> Result<()> {
    for stand in stands.iter_mut() {
        stand.listeners.resize_with(run.n, || None)?;
    }
    match act {
        "listen_drop" => listen_drop(run, stands),
        "churn" => churn(run, stands, cx),
        "burst" => burst(run, stands, cx),
        "remove_fifo" => remove(run, stands, false),
        "remove_middle" => remove(run, stands, true),
        _ => measure_part(run, stands, cx),
    }
}

// Behind the others, one listens and is dropped.
fn listen_drop<Q: Queue, R: Runtime>(run: &mut Run<'_, R>, stands: &mut [Stand<Q>]) -> Result<()> {
    expect(listen(stands))?;
    let Some(stand) = stands.first_mut() else {
        return Ok(());
    };
    let listen_and_drop = repeat!({
        let Some(listener) = stand.queue.listen() else {
            return false;
        };
        stand.queue.leave(listener);
        true
    });
    run.alone(run.rounds, 1, listen_and_drop)
}

// Notifies one, polls the first, which is told, drops it, listens again and polls.
fn churn<Q: Queue, R: Runtime>(
    run: &mut Run<'_, R>,
    stands: &mut [Stand<Q>],
    cx: &mut Context<'_>,
) -> Result<()> {
    let Some(stand) = stands.first_mut() else {
        return Ok(());
    };
    let queue = &mut stand.queue;
    let mut listeners = VecDeque::with_capacity(run.rt.alloc(), run.n.saturating_add(1))?;
    for _ in 0..run.n {
        expect(wait_in_line(queue, &mut listeners, cx))?;
    }
    let take_turns = repeat!({
        let mut are_right = queue.notify(1) == 1;
        if let Some(first) = listeners.pop_front() {
            let mut first = first;
            are_right &= queue.poll(&mut first, cx);
            queue.leave(first);
        }
        are_right & wait_in_line(queue, &mut listeners, cx)
    });
    run.alone(run.rounds, 1, take_turns)
}

// Listens and polls, behind the others.
#[inline(always)]
fn wait_in_line<Q: Queue>(
    queue: &mut Q,
    listeners: &mut VecDeque<Q::Listener>,
    cx: &mut Context<'_>,
) -> bool {
    let Some(mut last) = queue.listen() else {
        return false;
    };
    let waits = !queue.poll(&mut last, cx);
    waits & listeners.push_back(last).is_ok()
}

// All listen, are told, polled and dropped, in each round.
fn burst<Q: Queue, R: Runtime>(
    run: &mut Run<'_, R>,
    stands: &mut [Stand<Q>],
    cx: &mut Context<'_>,
) -> Result<()> {
    let n = run.n;
    let come_and_go = repeat!({
        let mut are_right = listen(stands);
        are_right &= notify(stands, n) == n;
        are_right &= poll(stands, cx) == n;
        are_right & leave(stands)
    });
    run.alone(run.rounds, n, come_and_go)
}

// Each part of a burst is done, and one of them is measured.
fn measure_part<Q: Queue, R: Runtime>(
    run: &mut Run<'_, R>,
    stands: &mut [Stand<Q>],
    cx: &mut Context<'_>,
) -> Result<()> {
    let n = run.n;
    let all = n.saturating_mul(stands.len());
    run.part("burst_listen", all, |_| listen(stands))?;
    run.part("burst_poll_pending", all, |_| poll(stands, cx) == 0)?;
    run.part("burst_notify", all, |_| notify(stands, n) == all)?;
    run.part("burst_poll_ready", all, |_| poll(stands, cx) == all)?;
    run.part("burst_drop_finished", all, |_| leave(stands))
}

// Drops untold listeners: the first first, or from the middle on, towards both ends in turn.
fn remove<Q: Queue, R: Runtime>(
    run: &mut Run<'_, R>,
    stands: &mut [Stand<Q>],
    from_the_middle: bool,
) -> Result<()> {
    let all = run.n.saturating_mul(stands.len());
    expect(listen(stands))?;
    if from_the_middle {
        run.alone(1, all, |_| leave_from_the_middle(stands))?;
    } else {
        run.alone(1, all, |_| leave(stands))?;
    }
    // Nobody is left whom this could tell.
    expect(notify(stands, 1) == 0)
}

// One listens for each place.
#[inline(always)]
fn listen<Q: Queue>(stands: &mut [Stand<Q>]) -> bool {
    let mut all_listen = true;
    for stand in stands.iter_mut() {
        for place in stand.listeners.iter_mut() {
            *place = stand.queue.listen();
            all_listen &= place.is_some();
        }
    }
    all_listen
}

// Answers how many were told.
#[inline(always)]
fn poll<Q: Queue>(stands: &mut [Stand<Q>], cx: &mut Context<'_>) -> usize {
    let mut told = 0usize;
    for stand in stands.iter_mut() {
        for place in stand.listeners.iter_mut() {
            if let Some(listener) = place {
                if stand.queue.poll(listener, cx) {
                    told = told.wrapping_add(1);
                }
            }
        }
    }
    told
}

// Answers how many were told.
#[inline(always)]
fn notify<Q: Queue>(stands: &mut [Stand<Q>], n: usize) -> usize {
    let mut told = 0usize;
    for stand in stands.iter_mut() {
        told = told.wrapping_add(stand.queue.notify(n));
    }
    told
}

// Drops all, the first first.
#[inline(always)]
fn leave<Q: Queue>(stands: &mut [Stand<Q>]) -> bool {
    for stand in stands.iter_mut() {
        for place in stand.listeners.iter_mut() {
            if let Some(listener) = place.take() {
                stand.queue.leave(listener);
            }
        }
    }
    true
}

#[inline(always)]
fn leave_from_the_middle<Q: Queue>(stands: &mut [Stand<Q>]) -> bool {
    for stand in stands.iter_mut() {
        let middle = stand.listeners.len() / 2;
        let (lower, upper) = stand.listeners.split_at_mut(middle);
        let mut lower = lower.iter_mut().rev();
        for place in upper.iter_mut() {
            leave_place(&mut stand.queue, place);
            if let Some(place) = lower.next() {
                leave_place(&mut stand.queue, place);
            }
        }
    }
    true
}

#[inline(always)]
fn leave_place<Q: Queue>(queue: &mut Q, place: &mut Option<Q::Listener>) {
    if let Some(listener) = place.take() {
        queue.leave(listener);
    }
}
