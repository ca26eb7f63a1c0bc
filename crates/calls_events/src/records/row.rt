//! Rows on a recorded event.
use crate::records::hand_calls::{HandCalls, On};
use crate::records::record::{Closed, close, new_event};
use crate::records::recorded::Recorded;
use crate::records::written::Written;
use crate::wakes::Runtime;
use calls::{Difference, Hook, Request, Row, reads};
use event_listener::{Hand, RecordedEvent};
use std::alloc::Global;

/// Makes the calls of a row on a recorded event, if that is its subject, and looks at its record; or asks of records that
/// it writes.
pub fn run_on_records<'t, R: Runtime, H: Hook>(
    row: Row<'t>,
    rt: &R,
    hook: &mut H,
) -> Option<Result<(), Difference<'t>>> {
    if row.subject == "written records" {
        return Some(row.make_on(rt.alloc(), Written::new(rt.alloc()), hook));
    }
    let words = row.subject.strip_prefix("recorded by ")?;
    let (count, in_turn) = match words.strip_suffix(" in turn") {
        Some(count) => (count, true),
        None => (words, false),
    };
    let count = count.parse().ok()?;
    Some(on_new_event(row, rt, hook, count, in_turn))
}

fn on_new_event<'t, R: Runtime, H: Hook>(
    row: Row<'t>,
    rt: &R,
    hook: &mut H,
    count: usize,
    in_turn: bool,
) -> Result<(), Difference<'t>> {
    let alloc = rt.alloc();
    let Some((event, hands)) = hooked(hook, Request::Hands, || new_event(alloc, count)) else {
        return Err(row.differs(0, None));
    };
    let mut hands = hands;
    let (lines, closing) = match row.lines.split_once("close ") {
        Some((lines, closing)) => (lines, Some(closing)),
        None => (row.lines, None),
    };
    let on = On { rt, event: &event };
    make_on(Row { lines, ..row }, rt, on, &mut hands, in_turn, hook)?;
    let line = lines.lines().count().saturating_add(1);
    close_at(row, alloc, hook, event, hands, line, closing)
}

fn make_on<'t, 'ev, C, R, H>(
    row: Row<'t>,
    rt: &'ev R,
    on: C,
    hands: &mut Vec<Hand<u32>>,
    in_turn: bool,
    hook: &mut H,
) -> Result<(), Difference<'t>>
where
    C: HandCalls + Drop,
    R: Runtime,
    H: Hook,
{
    match Recorded::<C, C::Listener, R>::new(rt, on, hands, in_turn) {
        Ok(subject) => row.make_on(rt.alloc(), subject, hook),
        Err(_) => Err(row.differs(0, None)),
    }
}

// Closes the event as the line of that number says, or by all hands where there is none, and looks at its record.
fn close_at<'t, H: Hook>(
    row: Row<'t>,
    alloc: Global,
    hook: &mut H,
    event: RecordedEvent<u32>,
    hands: Vec<Hand<u32>>,
    line: usize,
    closing: Option<&'t str>,
) -> Result<(), Difference<'t>> {
    let mut hands = hands;
    let mut wanted = None;
    if let Some(text) = closing {
        let (kept, answer) = text.split_once(" -> ").unwrap_or((text, ""));
        hands.truncate(kept.parse().unwrap_or(0));
        wanted = Some(answer);
    }
    hook.before(None);
    let closed = Closed(close(event, hands));
    hook.after();
    if !wanted.is_none_or(|wanted| reads(&closed, wanted)) {
        return Err(row.differs(line, format!(in alloc; "{closed}").ok()));
    }
    let replays = match closed.0 {
        Some(Ok(record)) => hooked(hook, Request::Replay, || record.replays(alloc).ok()),
        _ => Some(wanted.is_some()),
    };
    if replays == Some(true) {
        return Ok(());
    }
    let answer = replays.and_then(|_| String::from_str(alloc, "no record that replays").ok());
    Err(row.differs(line, answer))
}

// Makes a call that is refused memory again, where it is back.
fn hooked<A: Drop, H: Hook, F: Fn() -> Option<A>>(
    hook: &mut H,
    request: Request,
    call: F,
) -> Option<A>
    requires { F.IsAlwaysCallable call }
{
    hook.before(Some(request));
    let made = call();
    hook.after();
    if made.is_none() && hook.refused(request, true) {
        hook.before(Some(request));
        let made = call();
        hook.after();
        return made;
    }
    made
}
