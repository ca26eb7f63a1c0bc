//! What a case is, and what it makes its calls on.
use crate::support::{check, new_event};
use crate::waits::recorded::{OfRecorded, Recorded};
use crate::waits::stage::{AnyEvent, SharedRuntime, Stage, StageClock, moment_after};
use crate::waits::{limits, wakes};
use event_listener::{Event, Listener, WaitReason};
use futures::task::{Context, Poll};
use std::marker::PhantomData;
use std::time::Duration;
use test_support::{Borrowing, Changed, ListenerKind, Sharing, WaitCall};

/// A test that runs with each kind of listener.
#[derive(Clone, Copy)]
pub enum Case {
    Told,
    Polled,
    EndsByItsClock,
    Parks,
    Woken,
    ToldAsItParks,
}

/// What a poll answered.
pub type Polled = Result<Poll<u32>, WaitReason>;

/// What a wait answered.
pub type Waited = Result<Option<u32>, WaitReason>;

/// An event and its listeners, which are of one kind.
pub trait Trial: Sync {
    type Runtime: SharedRuntime;

    type Event: AnyEvent + Sync;

    type Listener: Drop + Send;

    fn stage(&self) -> &Stage<Self::Runtime, Self::Event>;

    /// A new listener.
    fn listen(&self) -> Self::Listener;

    fn poll(&self, listener: &mut Self::Listener, cx: &mut Context<'_>) -> Polled;

    /// Waits, with this limit from now on by the system's clock if the wait has one. No moment is later than the greatest.
    fn wait(&self, listener: Self::Listener, wait: WaitCall, limit: Duration) -> Waited;

    /// Drops a listener, which is in the queue.
    fn leave(&self, listener: Self::Listener);

    fn rt(&self) -> &Self::Runtime {
        &self.stage().rt
    }

    /// Tells so many listeners, with this tag.
    fn tell(&self, count: usize, tag: u32) {
        let told = self.stage().event.tell(self.rt(), count, tag);
        check(self.rt(), "listeners told", told, count);
    }

    /// This wait gives that tag, or none.
    fn waits(&self, listener: Self::Listener, wait: WaitCall, limit: Duration, tag: Option<u32>) {
        let answer = self.wait(listener, wait, limit);
        check(self.rt(), (wait, limit), answer, Ok(tag));
    }

    /// So many listeners are in the queue.
    fn has_listeners(&self, expected: usize) {
        let total = self.stage().event.count_listeners(self.rt());
        check(self.rt(), "listeners", total, expected);
    }
}

/// Runs a case with each kind of listener. A test calls this alone: each place that names the kinds is slow to prove.
pub fn all<R: SharedRuntime>(rt: &R, case: Case) {
    let stage = &Stage::new(rt, new_event(rt));
    let kind: PhantomData<Sharing> = PhantomData;
    run(&OfKind { stage, kind }, case);
    let stage = &Stage::new(rt, new_event(rt));
    let kind: PhantomData<Borrowing> = PhantomData;
    run(&OfKind { stage, kind }, case);
    let stage = Stage::new(rt, Recorded::new(rt, 5));
    run(&OfRecorded { stage: &stage }, case);
    let Stage { event, .. } = stage;
    event.close(rt);
}

// Runs a case on a new event.
fn run<S: Trial>(trial: &S, case: Case) {
    match case {
        Case::Told => limits::gives_its_tag_at_once(trial),
        Case::Polled => limits::is_told_once(trial),
        Case::EndsByItsClock => limits::ends_by_its_clock(trial),
        Case::Parks => limits::parks_until_its_limit(trial),
        Case::Woken => wakes::are_woken(trial),
        Case::ToldAsItParks => wakes::is_told_as_it_parks(trial),
    }
}

// An event that is not recorded, with one kind of listeners.
#[derive(Drop)]
struct OfKind<'a, K, R> {
    stage: &'a Stage<R, Event<u32>>,
    kind: PhantomData<K>,
}

impl<'a, K, L, R> Trial for OfKind<'a, K, R>
where
    K: ListenerKind<'a, u32, StageClock<'a, R, Event<u32>>, Listener = L> + Sync,
    L: Listener<u32> + Drop + Send,
    R: SharedRuntime,
{
    type Runtime = R;

    type Event = Event<u32>;

    type Listener = L;

    fn stage(&self) -> &Stage<R, Event<u32>> {
        self.stage
    }

    fn listen(&self) -> L {
        let (rt, by) = (&self.stage.rt, self.stage);
        K::listen(&Changed { rt, by }, rt.alloc(), &by.event).expect(rt, "a listener")
    }

    fn poll(&self, listener: &mut L, cx: &mut Context<'_>) -> Polled {
        let polled = listener.poll_in(cx);
        polled.map_err(|_| WaitReason::NeverInserted)
    }

    fn wait(&self, listener: L, wait: WaitCall, limit: Duration) -> Waited {
        let answer = match wait {
            WaitCall::Timeout => listener.wait_timeout(limit),
            WaitCall::Deadline => listener.wait_deadline(moment_after(self.rt(), limit)),
            WaitCall::UntilTold => listener.wait().map(Some),
        };
        Ok(answer?)
    }

    fn leave(&self, listener: L) {
        drop(listener);
    }
}
