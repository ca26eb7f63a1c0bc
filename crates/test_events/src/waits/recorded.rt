//! Recorded events with their hands, and listeners with theirs.
ghost use Rattle.event_listener.specs.Noting.{Owns};

use crate::support::check;
use crate::waits::stage::{AnyEvent, SharedRuntime, Stage, StageClock, moment_after};
use crate::waits::trial::{Polled, Trial, Waited};
use calls::Reply;
use calls_events::{HandCalls, On, close, new_event};
use event_listener::{
    Hand, RecordedEvent, RecordedListener, RecordedPollError, RecordedReply, WaitReason,
};
use futures::task::Context;
use std::sync::atomic::{AtomicUsize, Ordering};
use std::sync::{Mutex, Wait};
use std::time::Duration;
use test_support::{Changed, Runtime, WaitCall};

/// A recorded event, with those of its hands that make no call at present.
#[derive(Drop)]
pub struct Recorded {
    event: RecordedEvent<u32>,
    // How many listeners were dropped while they were in the queue.
    dropped: AtomicUsize,
    hands: Mutex<Vec<Hand<u32>>>,
}

impl Recorded {
    /// A new event with so many hands.
    pub fn new<R: Runtime>(rt: &R, hands: usize) -> Self {
        let (event, hands) = new_event(rt.alloc(), hands).expect(rt, "an event");
        Recorded {
            event,
            hands: Mutex::new(hands),
            dropped: AtomicUsize::new(0),
        }
    }

    // One of the hands.
    fn take<R: Runtime>(&self, rt: &R) -> Hand<u32> {
        self.hands.lock(rt).pop().expect(rt, "a hand")
    }

    // Takes a hand back, which is the next that is taken.
    fn give_back<R: Runtime>(&self, rt: &R, hand: Hand<u32>) {
        self.hands.lock(rt).push(hand).expect(rt, "room for a hand");
    }

    /// Closes the event by its hands, in any order. Its record has to have their notes, and each drop of a listener.
    pub fn close<R: Runtime>(self, rt: &R) {
        let Recorded {
            event,
            hands,
            dropped,
        } = self;
        let mut hands = hands.into_inner();
        hands.reverse();
        let closed = close(event, hands).expect(rt, "hands of the event");
        let record = closed.expect(rt, "a record");
        let entries = record.entries().iter();
        let ends = entries.filter(|entry| entry.hand.is_none()).count();
        check(rt, "drops", ends, dropped.into_inner());
    }
}

impl AnyEvent for Recorded {
    fn tell<R: Runtime>(&self, rt: &R, count: usize, tag: u32) -> usize {
        let (event, mut hand) = (&self.event, self.take(rt));
        let told = On { rt, event }.notify(&mut hand, count, false, tag);
        self.give_back(rt, hand);
        let Reply::Told(told, _) = told else {
            panic!(rt; "no notification: {told}");
        };
        told
    }

    fn count_listeners<R: Runtime>(&self, rt: &R) -> usize {
        let (event, mut hand) = (&self.event, self.take(rt));
        let total = On { rt, event }.total_listeners(&mut hand);
        self.give_back(rt, hand);
        let Reply::Total(total) = total else {
            panic!(rt; "no number: {total}");
        };
        total
    }

    fn last_steps<R: Runtime>(&self, rt: &R) -> Option<Vec<RecordedReply<u32>>> {
        let hand = self.take(rt);
        let mut steps = Vec::new(rt.alloc());
        for note in hand.notes() {
            match note.reply {
                RecordedReply::Listened(_) => steps.clear(),
                RecordedReply::Registered(_) | RecordedReply::Removed(_) => {
                    steps.push(note.reply).expect(rt, "room for a reply");
                }
                _ => {}
            }
        }
        self.give_back(rt, hand);
        Some(steps)
    }
}

/// A listener, and the hand that calls it.
#[derive(Drop)]
pub struct Waiter<'a, R: Runtime> {
    listener: RecordedListener<'a, u32, StageClock<'a, R, Recorded>>,
    hand: Hand<u32>,
    ghost owned: { Owns listener.event hand },
}

/// A recorded event, with its listeners.
#[derive(Drop)]
pub struct OfRecorded<'a, R> {
    pub stage: &'a Stage<R, Recorded>,
}

impl<'a, R: SharedRuntime> Trial for OfRecorded<'a, R> {
    type Runtime = R;

    type Event = Recorded;

    type Listener = Waiter<'a, R>;

    fn stage(&self) -> &Stage<R, Recorded> {
        self.stage
    }

    fn listen(&self) -> Waiter<'a, R> {
        let (rt, by, event) = (&self.stage.rt, self.stage, &self.stage.event.event);
        let mut hand = by.event.take(rt);
        assert!(rt; event.owns(&hand), "a hand of another event");
        let listener = event.listen(&Changed { rt, by }, &mut hand);
        let listener = listener.expect(rt, "a listener");
        Waiter { listener, hand }
    }

    fn poll(&self, waiter: &mut Waiter<'a, R>, cx: &mut Context<'_>) -> Polled {
        match waiter.listener.poll_in(&mut waiter.hand, cx) {
            Ok(polled) => Ok(polled),
            Err(RecordedPollError::NeverInserted) => Err(WaitReason::NeverInserted),
            Err(RecordedPollError::Memory) => Err(WaitReason::Memory),
        }
    }

    fn wait(&self, waiter: Waiter<'a, R>, wait: WaitCall, limit: Duration) -> Waited {
        let Stage { rt, event, .. } = self.stage;
        let Waiter { listener, mut hand } = waiter;
        let answer = match wait {
            WaitCall::Timeout => listener.wait_timeout(&mut hand, limit),
            WaitCall::Deadline => listener.wait_deadline(&mut hand, moment_after(rt, limit)),
            WaitCall::UntilTold => listener.wait(&mut hand).map(Some),
        };
        event.give_back(rt, hand);
        Ok(answer?)
    }

    fn leave(&self, waiter: Waiter<'a, R>) {
        let Stage { rt, event, .. } = self.stage;
        let Waiter { listener, hand } = waiter;
        drop(listener);
        event.give_back(rt, hand);
        event.dropped.fetch_add(1, Ordering::SeqCst);
    }
}
