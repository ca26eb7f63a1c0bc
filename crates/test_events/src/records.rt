//! Recorded events: more hands than memory holds, whose hands an event owns, and the state alone, whose calls succeed. What
//! they do then, clauses say, and that records replay exactly where they are a run of a queue.
use crate::support::check;
use event_listener::{
    EventIds, Hand, RecordError, RecordedEvent, RecordedReply, RecordedState, StepCall, Task, Woken,
};
use std::alloc::AllocGlobal;
use std::process::Abort;
use test_support::any_waker;

// A new event of the source, and its hands.
fn new_event<R: Abort + AllocGlobal>(
    rt: &R,
    ids: &mut EventIds,
    hands: usize,
) -> (RecordedEvent<u32>, Vec<Hand<u32>>) {
    let id = ids.next().expect(rt, "an identity");
    RecordedEvent::new(rt.alloc(), id, hands).expect(rt, "an event")
}

// The hands of worked row 52: more than memory holds. The event after two refusals has the third identity, and works.
#[test]
fn a_refused_record_uses_up_its_identity(rt: HostRuntime) {
    let mut ids = EventIds::new();
    for hands in [usize::MAX, usize::MAX - 1] {
        let id = ids.next().expect(&rt, "an identity");
        let refusal = RecordedEvent::<u32>::new(rt.alloc(), id, hands).err();
        check(&rt, hands, refusal, Some(RecordError::Memory));
    }
    let next = ids.next().expect(&rt, "an identity");
    check(&rt, "its number", next.number(), 2);
    let event = RecordedEvent::<u32>::new(rt.alloc(), next, 1);
    check(&rt, "whether it is made", event.is_ok(), true);
}

// The event owns those hands whose numbers are below that.
fn owns<R: Abort>(rt: &R, event: &RecordedEvent<u32>, hands: &[Hand<u32>], below: usize) {
    for hand in hands {
        let number = hand.number();
        check(rt, number, event.owns(hand), number < below);
    }
}

// Two events of one source, with three hands and two, and one of another source, which has the first identity, as the first
// event has, and one hand more.
#[test]
fn a_hand_of_another_event_of_its_source_is_not_owned(rt: HostRuntime) {
    let mut ids = EventIds::new();
    let (first, hands_of_first) = new_event(&rt, &mut ids, 3);
    let (second, hands_of_second) = new_event(&rt, &mut ids, 2);
    owns(&rt, &first, hands_of_first.as_slice(), 3);
    owns(&rt, &first, hands_of_second.as_slice(), 0);
    owns(&rt, &second, hands_of_first.as_slice(), 0);
    owns(&rt, &second, hands_of_second.as_slice(), 2);
    let (_, hands) = new_event(&rt, &mut EventIds::new(), 4);
    owns(&rt, &first, hands.as_slice(), 3);
    owns(&rt, &second, hands.as_slice(), 0);
}

#[test]
fn each_call_of_a_state_succeeds(rt: HostRuntime) {
    let mut state = RecordedState::new(rt.alloc());
    let mut woken = Woken::with_room(rt.alloc(), 1).expect(&rt, "a sink");
    let listened = state.apply(0, StepCall::Listen, &mut woken);
    let Ok(RecordedReply::Listened(Ok(key))) = listened else {
        panic!(&rt; "nobody listens");
    };
    let task = Task::from_waker(any_waker(&rt).expect(&rt, "a waker"));
    let (count, additional, tag, propagate) = (1, false, 7, true);
    let calls = vec![in rt.alloc();
        StepCall::Register { key, task },
        StepCall::Notify {
            count,
            additional,
            tag
        },
        StepCall::TotalListeners,
        StepCall::IsNotified,
        StepCall::Remove { key, propagate },
    ];
    for call in calls.expect(&rt, "calls") {
        let is_made = state.apply(0, call, &mut woken).is_ok();
        check(&rt, "whether it is made", is_made, true);
    }
}
