//! Rounds: threads on one event and one recorded event, and what has to hold when all have ended.
use crate::callee::OnEvent;
use crate::run::Request;
use crate::seen::Seen;
use crate::worker::{Outcome, work};
use anyhow::{Result, bail, ensure};
use calls_events::{On, Runtime, close, reply_of};
use event_listener::{Event, EventIds, Hand, RecordedEvent};
use std::alloc::Global;
use std::io::Print;
use std::sync::Arc;
use std::sync::atomic::{AtomicBool, AtomicU64, Ordering};
use std::thread::{self, Threads};
use std::time::{Duration, Instant};
use test_support::{Borrowing, Sharing};

const THREADS: usize = 8;

// How many seconds a round may take. It takes less than one.
const LIMIT: u64 = 60;

/// What a round asks of a runtime value.
pub trait SharedRuntime: Runtime + Threads + Send + Sync {}

impl<R: Runtime + Threads + Send + Sync> SharedRuntime for R {}

/// Makes a run of rounds, and prints what is wrong in one. Answers whether none differs.
pub fn run_rounds<R>(rt: R, request: Request) -> Result<bool>
where
    R: SharedRuntime + Print + Copy + 'static,
{
    let (made, differing) = request.run(&rt, |seed| differs(rt, seed))?;
    println!(rt; "{made} rounds, {differing} differ")?;
    Ok(differing == 0)
}

fn differs<R>(rt: R, seed: u64) -> Result<bool>
where
    R: SharedRuntime + Print + Copy + 'static,
{
    match watched_round(rt, seed)? {
        Ok(()) => Ok(false),
        Err(error) => {
            println!(rt; "the round of seed {seed}: {error}")?;
            Ok(true)
        }
    }
}

// Has another thread make the round of this seed, and watches that it ends. If it does not, its threads are still there.
fn watched_round<R>(rt: R, seed: u64) -> Result<Result<()>>
where
    R: SharedRuntime + Copy + 'static,
{
    let is_over = Arc::new(rt.alloc(), AtomicBool::new(false))?;
    let ends = Arc::try_clone(&is_over)?;
    let round = thread::spawn(&rt, move || {
        let made = run_round(&rt, seed);
        ends.store(true, Ordering::SeqCst);
        made
    })?;
    let start = Instant::now(&rt)?;
    for _ in 0..u64::MAX {
        if is_over.load(Ordering::SeqCst) {
            break;
        }
        if start.elapsed(&rt)? > Duration::from_secs(LIMIT) {
            bail!("the round of seed {seed} does not end");
        }
        thread::sleep(&rt, Duration::from_millis(1));
    }
    Ok(round.join(&rt))
}

// Runs the round of this seed. The error is what is wrong.
fn run_round<R: SharedRuntime>(rt: &R, seed: u64) -> Result<()> {
    let alloc = rt.alloc();
    let mut ids = EventIds::new();
    let (recorded, hands) = RecordedEvent::new(alloc, ids.next()?, THREADS)?;
    let made = AtomicU64::new(0);
    let event = Event::with_tag(ids.next()?);
    let outcomes = run_workers(rt, &event, &made, &recorded, seed, hands)?;
    let mut hands = Vec::new(alloc);
    let (mut on_event, mut on_recorded) = (Seen::new(alloc), Seen::new(alloc));
    for outcome in outcomes {
        let (hand, of_event, of_recorded) = outcome?;
        hands.push(hand)?;
        on_event.count_all(of_event)?;
        on_recorded.count_all(of_recorded)?;
    }
    ensure!(
        event.total_listeners(rt) == 0,
        "somebody is left in the queue"
    );
    check_event(on_event, made.load(Ordering::SeqCst))?;
    check_recorded(alloc, recorded, hands, on_recorded)
}

fn run_workers<'ev, R: SharedRuntime>(
    rt: &'ev R,
    event: &'ev Event<u64>,
    made: &'ev AtomicU64,
    recorded: &'ev RecordedEvent<u32>,
    seed: u64,
    hands: Vec<Hand<u32>>,
) -> Result<Vec<Result<Outcome>>> {
    let outcomes = thread::map_vec(
        rt,
        hands,
        &|hand| {
            let sharing = OnEvent::<Sharing, R>::new(rt, event, made);
            let borrowing = OnEvent::<Borrowing, R>::new(rt, event, made);
            let recorded = On {
                rt,
                event: recorded,
            };
            work(rt, sharing, borrowing, recorded, seed, hand)
        },
    )?;
    Ok(outcomes)
}

// Each listener told was given a tag of its own: each tag was made, and none is there twice. One that was not taken was
// lost with a listener that was dropped.
fn check_event(seen: Seen, made: u64) -> Result<()> {
    ensure!(seen.taken > 0, "no tag was taken");
    ensure!(
        made == seen.told,
        "not as many tags were made as listeners told"
    );
    let mut tags = seen.tags;
    tags.sort_unstable();
    let mut least = 0;
    for tag in tags {
        ensure!(
            least <= tag && tag < made,
            "a tag was given twice, or was never made"
        );
        least = tag.saturating_add(1);
    }
    match made.checked_sub(seen.taken) {
        Some(lost) if lost <= seen.dropped => Ok(()),
        _ => bail!("more tags were lost than listeners dropped, or more taken than made"),
    }
}

// The record replays, and has the listenings, told and taken tags that the threads saw.
fn check_recorded(
    alloc: Global,
    recorded: RecordedEvent<u32>,
    hands: Vec<Hand<u32>>,
    seen: Seen,
) -> Result<()> {
    let Some(Ok(record)) = close(recorded, hands) else {
        bail!("the record is not closed");
    };
    ensure!(record.replays(alloc)?, "the record does not replay");
    let mut kept = Seen::new(alloc);
    for entry in record.entries() {
        kept.count(reply_of(entry.reply))?;
    }
    ensure!(
        (kept.listened, kept.told, kept.taken) == (seen.listened, seen.told, seen.taken),
        "the record has other answers than the threads were given"
    );
    ensure!(
        kept.told == kept.taken.saturating_add(kept.lost),
        "the told of the record are not those that took a tag or lost it"
    );
    Ok(())
}
