//! Rows on events.
use crate::events::Events;
use crate::kinds::{Borrowing, ListenerKind, Sharing};
use crate::tag::EventTag;
use crate::wakes::Runtime;
use calls::{Difference, Hook, Row};
use event_listener::{Event, EventIds};
use std::alloc::AllocError;

/// Makes the calls of a row on events, if these are its subject, with each kind of listener.
pub fn run_on_events<'t, R: Runtime, H: Hook>(
    row: Row<'t>,
    rt: &R,
    hook: &mut H,
) -> Option<Result<(), Difference<'t>>> {
    let (words, first) = match row.subject.split_once(" from ") {
        Some((words, first)) => (words, first.parse().ok()?),
        None => (row.subject, 0),
    };
    match words {
        "event" => Some(on_each_kind::<(), R, H>(row, rt, hook, 1, first)),
        "two events" => Some(on_each_kind::<(), R, H>(row, rt, hook, 2, first)),
        "event tags" => Some(on_each_kind::<u64, R, H>(row, rt, hook, 1, first)),
        "event bits" => Some(on_each_kind::<bool, R, H>(row, rt, hook, 1, first)),
        _ => None,
    }
}

fn on_each_kind<'t, T: EventTag + Drop, R: Runtime, H: Hook>(
    row: Row<'t>,
    rt: &R,
    hook: &mut H,
    count: usize,
    first: u64,
) -> Result<(), Difference<'t>> {
    let Ok(events) = new_events::<T, R, H>(rt, hook, count, first) else {
        return Err(row.differs(0, None));
    };
    let row = Row {
        kind: "sharing listeners",
        ..row
    };
    on_kinds::<Sharing, Borrowing, T, R, H>(row, rt, hook, events.as_slice())?;
    let Ok(events) = new_events::<T, R, H>(rt, hook, count, first) else {
        return Err(row.differs(0, None));
    };
    let row = Row {
        kind: "borrowing listeners",
        ..row
    };
    on_kinds::<Borrowing, Sharing, T, R, H>(row, rt, hook, events.as_slice())
}

fn on_kinds<'t, 'ev, A, B, T, R, H>(
    row: Row<'t>,
    rt: &'ev R,
    hook: &mut H,
    events: &'ev [Event<T>],
) -> Result<(), Difference<'t>>
where
    A: ListenerKind<'ev, T, R>,
    B: ListenerKind<'ev, T, R>,
    T: EventTag + Drop,
    R: Runtime,
    H: Hook,
{
    match Events::<A, B, A::Listener, B::Listener, T, R>::new(rt, events) {
        Ok(subject) => row.make_on(rt.alloc(), subject, hook),
        Err(_) => Err(row.differs(0, None)),
    }
}

// So many new events of one source, whose first listeners get that serial.
fn new_events<T: Drop, R: Runtime, H: Hook>(
    rt: &R,
    hook: &mut H,
    count: usize,
    first: u64,
) -> Result<Vec<Event<T>>, AllocError> {
    let mut ids = EventIds::new();
    let mut events = Vec::with_capacity(rt.alloc(), count)?;
    for _ in 0..count {
        hook.before(None);
        let id = ids.next();
        hook.after();
        let Ok(id) = id else {
            return Err(AllocError);
        };
        let event = if first > 0 {
            Event::starting_at(rt.alloc(), id, first)?
        } else {
            hook.before(None);
            let event = Event::with_tag(id);
            hook.after();
            event
        };
        events.push(event)?;
    }
    Ok(events)
}
