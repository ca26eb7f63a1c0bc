//! What is done on queues, and measured.
mod stand;

use crate::queues::{OnBorrowed, OnEvent, OnList, OnRecorded, Queue, events, waker_of};
use crate::repeat;
use crate::run::{OtherAnswer, Run, Runtime};
use anyhow::Result;
use calls_events::{On, new_event};
use event_listener::{Event, EventIds};
use futures::task::Context;
use futures::test::MockTask;
use stand::Stand;

// The bytes of the block that is freed first.
const LARGE: usize = 8 << 20;

// How a queue is reached.
#[derive(Clone, Copy)]
enum Kind {
    // By an event and listeners that share its queue.
    Shared,
    // By an event and listeners that borrow it.
    Stack,
    // By a recorded event and its listeners.
    Recorded,
    // As a value.
    List,
}

/// Does what the workload does on queues of a kind, which the end of its name says. All of a round is done in one poll of
/// a task, in which the listeners are polled.
pub fn measure<R: Runtime>(run: &mut Run<'_, R>) -> Result<()> {
    let (act, kind) = match run.name.rsplit_once('_') {
        Some((act, "stack")) => (act, Kind::Stack),
        Some((act, "recorded")) => (act, Kind::Recorded),
        Some((act, "list")) => (act, Kind::List),
        _ => (run.name, Kind::Shared),
    };
    // A part of a burst and a removal are measured on a new queue each round, and where few listen, on as many events as a
    // thousand listeners make.
    let (times, queues) = if act.starts_with("burst_") || act.starts_with("remove_") {
        (run.rounds, 1000usize.div_ceil(run.n.max(1)))
    } else {
        (1, 1)
    };
    if times > 1 {
        keep_what_is_freed(run.rt)?;
    }
    let task = MockTask::new(run.rt)?;
    for _ in 0..times {
        let events = events(run.rt.alloc(), queues)?;
        task.enter(|cx| measure_once(run, act, kind, events.as_slice(), cx))?;
    }
    Ok(())
}

// Once so large a block was freed, glibc's allocator keeps what is freed later. Else it gives the memory of each round back, and what
// is measured is how the kernel gives the pages anew: the Rust crate's listeners are too few bytes for that.
fn keep_what_is_freed<R: Runtime>(rt: &R) -> Result<()> {
    let large: Vec<u8> = Vec::with_capacity(rt.alloc(), LARGE)?;
    drop(large);
    Ok(())
}

fn measure_once<R: Runtime>(
    run: &mut Run<'_, R>,
    act: &str,
    kind: Kind,
    events: &[Event<()>],
    cx: &mut Context<'_>,
) -> Result<()> {
    let (rt, alloc) = (run.rt, run.rt.alloc());
    match kind {
        Kind::Shared => on_events(run, act, events, &|event| OnEvent { event, rt, alloc }, cx),
        Kind::Stack => on_events(
            run,
            act,
            events,
            &|event| OnBorrowed { event, rt, alloc },
            cx,
        ),
        Kind::Recorded => on_recorded(run, act, cx),
        Kind::List => on_queue(run, act, OnList::new(alloc), cx),
    }
}

fn on_events<'ev, Q: Queue, F: Fn(&'ev Event<()>) -> Q, R: Runtime>(
    run: &mut Run<'_, R>,
    act: &str,
    events: &'ev [Event<()>],
    queue_of: &F,
    cx: &mut Context<'_>,
) -> Result<()>
    requires { F.IsAlwaysCallable queue_of.now }
{
    let alloc = run.rt.alloc();
    let mut stands = Vec::new(alloc);
    for event in events {
        stands.push(Stand::new(alloc, queue_of(event)))?;
    }
    stand::measure(run, act, stands.as_mut_slice(), cx)
}

fn on_recorded<R: Runtime>(run: &mut Run<'_, R>, act: &str, cx: &mut Context<'_>) -> Result<()> {
    let rt = run.rt;
    let (event, hands) = new_event(rt.alloc(), 1).ok_or(OtherAnswer)?;
    let mut hands = hands;
    let hand = hands.pop().ok_or(OtherAnswer)?;
    let event = On { rt, event: &event };
    on_queue(run, act, OnRecorded { event, hand }, cx)
}

fn on_queue<Q: Queue, R: Runtime>(
    run: &mut Run<'_, R>,
    act: &str,
    queue: Q,
    cx: &mut Context<'_>,
) -> Result<()> {
    let alloc = run.rt.alloc();
    let mut stands = Vec::new(alloc);
    stands.push(Stand::new(alloc, queue))?;
    stand::measure(run, act, stands.as_mut_slice(), cx)
}

/// A waker is made and dropped.
pub fn make_wakers<R: Runtime>(run: &mut Run<'_, R>) -> Result<()> {
    let task = MockTask::new(run.rt)?;
    let rounds = run.rounds;
    task.enter(|cx| run.alone(rounds, 1, repeat!(waker_of(cx).is_some())))
}

/// Calls on an event behind so many listeners, which tell nobody, or ask.
pub fn ask<R: Runtime>(run: &mut Run<'_, R>) -> Result<()> {
    let (rt, alloc) = (run.rt, run.rt.alloc());
    let event = Event::new(EventIds::new().next()?);
    let mut standing = Vec::new(alloc);
    for _ in 0..run.n {
        standing.push(event.listen(rt, alloc)?)?;
    }
    ask_behind(run, &event, standing)
}

fn ask_behind<L: Drop, R: Runtime>(
    run: &mut Run<'_, R>,
    event: &Event<()>,
    standing: Vec<L>,
) -> Result<()> {
    let (rt, n, rounds) = (run.rt, run.n, run.rounds);
    match run.name {
        "notify_none" => {
            drop(standing);
            run.alone(rounds, 1, repeat!(event.notify(rt, 1).unwrap_or(1) == 0))
        }
        "notify_told" => {
            event.notify_relaxed(rt, 1);
            run.alone(rounds, 1, repeat!(event.notify(rt, 1).unwrap_or(1) == 0))
        }
        "is_notified" => run.alone(rounds, 1, repeat!(!event.is_notified(rt))),
        _ => run.alone(rounds, 1, repeat!(event.total_listeners(rt) == n)),
    }
}
