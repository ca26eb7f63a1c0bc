//! Waits against a deadline, which are tried again where they are refused memory.
use crate::support::{check, listen, new_id, tell};
use event_listener::{Event, Limit, Listener, NeverInserted, WaitError, WaitReason};
use example_events::timed::tag_within;
use futures::task::{Context, Poll, Waker};
use std::cell::Cell;
use std::time::{Clock, Duration, Instant};
use test_support::{Changed, NoClock, Runtime};

// Of two listeners one is notified. The notified listener gets its tag, however short the limit is, and the other listener
// waits until then.
fn give_a_tag_or_none<R: Runtime, C: Clock>(rt: &R, clock: &C, limit: Duration) {
    let event = Event::with_tag(new_id(rt));
    let (told, untold) = (listen(rt, &event), listen(rt, &event));
    tell(rt, &event);
    let tag = tag_within(clock, told, Duration::ZERO).map_err(|error| error.reason());
    check(rt, "the tag", tag, Ok(Some(7)));
    let tag = tag_within(clock, untold, limit).map_err(|error| error.reason());
    check(rt, "no tag", tag, Ok(None));
}

#[test]
fn a_listener_gives_its_tag_or_none_at_its_limit(rt: HostRuntime) {
    let rt = &rt;
    give_a_tag_or_none(rt, rt, Duration::from_millis(50));
    // A clock that can't be read is past every deadline.
    let blind = Changed { rt, by: &NoClock };
    give_a_tag_or_none(rt, &blind, Duration::MAX);
}

// A listener whose first waits are refused, and that notes the deadline of the last one. Then it gives its tag.
#[derive(Drop)]
struct Refusing<'a, L: Drop> {
    listener: L,
    refusals: &'a Cell<u32>,
    deadline: &'a Cell<Option<Instant>>,
}

impl<L: Listener<u32> + Drop> Listener<u32> for Refusing<'_, L> {
    ghost standing = { λ refusing. L.standing refusing.listener };

    fn poll(&mut self, waker: Waker) -> Result<Poll<u32>, NeverInserted> {
        self.listener.poll(waker)
    }

    fn poll_in(&mut self, cx: &mut Context<'_>) -> Result<Poll<u32>, NeverInserted> {
        self.listener.poll_in(cx)
    }

    fn wait_until(self, limit: Limit) -> Result<Option<u32>, WaitError<Self>> {
        self.deadline.set(match limit {
            Limit::At(moment) => Some(moment),
            _ => None,
        });
        if let Some(left) = self.refusals.get().checked_sub(1) {
            self.refusals.set(left);
            return Err(WaitError::Memory(self));
        }
        let Refusing {
            listener,
            refusals,
            deadline,
        } = self;
        match listener.wait() {
            Ok(tag) => Ok(Some(tag)),
            Err(WaitError::NeverInserted) => Err(WaitError::NeverInserted),
            Err(WaitError::Memory(listener)) => Err(WaitError::Memory(Refusing {
                listener,
                refusals,
                deadline,
            })),
        }
    }

    // Nobody is to ask for that.
    fn wait_timeout(self, _timeout: Duration) -> Result<Option<u32>, WaitError<Self>> {
        Err(WaitError::Memory(self))
    }

    fn discard(self) -> bool {
        self.listener.discard()
    }

    fn listens_to(&self, event: &Event<u32>) -> bool {
        self.listener.listens_to(event)
    }

    fn same_event(&self, other: &Self) -> bool {
        self.listener.same_event(&other.listener)
    }
}

// A listener that is told gives this, though so many of its waits are refused. The last wait had the deadline of the first.
fn gives<R: Runtime>(rt: &R, refused: u32, limit: Duration, tag: Result<u32, WaitReason>) {
    let event = Event::with_tag(new_id(rt));
    let (refusals, deadline, reads) = (Cell::new(refused), Cell::new(None), Cell::new(0));
    let listener = Refusing {
        listener: listen(rt, &event),
        refusals: &refusals,
        deadline: &deadline,
    };
    tell(rt, &event);
    let clock = Changed { rt, by: &reads };
    let end = || Instant::now(rt).expect(rt, "the time").checked_add(limit);
    let earliest = end();
    let answer = tag_within(&clock, listener, limit).map_err(|error| error.reason());
    let latest = end();
    check(rt, "the tag", answer, tag.map(Some));
    check(rt, "refusals left", refusals.get(), 0);
    check(rt, "readings", reads.get(), 1);
    let last = deadline.get();
    let is_reckoned = earliest <= last && last <= latest;
    check(rt, "the deadline", is_reckoned, true);
}

// The clock is read once, so the second wait has the deadline of the first wait. A limit too long to be represented is no
// limit.
#[test]
fn a_refused_wait_is_tried_again_once_and_against_the_same_deadline(rt: HostRuntime) {
    let limit = Duration::from_secs(10);
    gives(&rt, 1, limit, Ok(7));
    gives(&rt, 2, limit, Err(WaitReason::Memory));
    gives(&rt, 0, Duration::MAX, Ok(7));
}
