//! New events, and what records of closed ones say.
ghost use Rattle.std.specs.Prelude.{◌↔◌, All, IsTrue};
ghost use Rattle.event_listener.specs.Noting.{Owns};

use calls::{Left, Reply};
use event_listener::{
    CloseError, Entry, EventIds, Former, Hand, ListenError, Record, RecordedCall, RecordedEvent,
    RecordedReply, RegisterResult,
};
use std::alloc::Global;
use std::fmt::{self, Display, Formatter, Write};

/// A new event with so many hands, and the first number of a new source. So all events that this makes have one number.
/// There is none where memory for the hands is refused.
pub fn new_event(alloc: Global, hands: usize) -> Option<(RecordedEvent<u32>, Vec<Hand<u32>>)> {
    let id = EventIds::new().next().ok()?;
    RecordedEvent::new(alloc, id, hands).ok()
}

/// Closes the event. There is no answer where a hand is none of its own.
pub fn close(
    event: RecordedEvent<u32>,
    hands: Vec<Hand<u32>>,
) -> Option<Result<Record<u32>, CloseError>> {
    if owns_all(&event, hands.as_slice()) {
        Some(event.close(hands))
    } else {
        None
    }
}

fn owns_all(event: &RecordedEvent<u32>, hands: &[Hand<u32>]) -> bool
    ensures { IsTrue result ↔ All (λ hand. Owns event.now hand) hands.now }
{
    hands.iter().all(|hand| event.owns(hand))
}

/// What a closed event answers, as a text.
#[derive(Drop)]
pub struct Closed(pub Option<Result<Record<u32>, CloseError>>);

impl Display for Closed {
    fn fmt<W: Write>(&self, f: &mut Formatter<W>) -> fmt::Result {
        match &self.0 {
            Some(Ok(record)) => write_entries(f, record.entries()),
            Some(Err(CloseError::HandsMissing)) => f.write_str("hands missing"),
            Some(Err(CloseError::Differs)) => f.write_str("differs"),
            None => f.write_str("invalid"),
        }
    }
}

fn write_entries<W: Write>(f: &mut Formatter<W>, entries: &[Entry<u32>]) -> fmt::Result {
    let mut between = "";
    for entry in entries {
        f.write_str(between)?;
        match entry.hand {
            Some(hand) => write!(f, "{hand} ")?,
            None => f.write_str("- ")?,
        }
        write_call(f, entry.call)?;
        write!(f, ": {}", reply_of(entry.reply))?;
        between = "; ";
    }
    Ok(())
}

fn write_call<W: Write>(f: &mut Formatter<W>, call: RecordedCall<u32>) -> fmt::Result {
    match call {
        RecordedCall::Listen => f.write_str("listen"),
        RecordedCall::Register { key } => write!(f, "poll {}", key.serial),
        RecordedCall::Remove { key, propagate } => {
            write!(f, "remove {} {}", key.serial, u8::from(propagate))
        }
        RecordedCall::Notify {
            count,
            additional,
            tag,
        } => {
            let kind = if additional { 'a' } else { 'd' };
            write!(f, "notify {count} {kind} {tag}")
        }
        RecordedCall::TotalListeners => f.write_str("total"),
        RecordedCall::IsNotified => f.write_str("isnotified"),
    }
}

/// What a reply of a record is in a text.
pub fn reply_of(reply: RecordedReply<u32>) -> Reply {
    match reply {
        RecordedReply::Listened(Ok(key)) => Reply::Listener(key.serial as usize),
        RecordedReply::Listened(Err(ListenError::Memory)) => Reply::NoMemory,
        RecordedReply::Listened(Err(ListenError::SerialsUsedUp)) => Reply::UsedUp,
        RecordedReply::Registered(RegisterResult::Registered) => Reply::Pending,
        RecordedReply::Registered(RegisterResult::Notified(tag)) => {
            Reply::Ready(Some(u64::from(tag)))
        }
        RecordedReply::Registered(RegisterResult::NeverInserted) => Reply::Finished,
        RecordedReply::Removed(former) => Reply::Removed(left_by(former)),
        RecordedReply::Notified(told) => Reply::Told(told, None),
        RecordedReply::TotalListeners(total) => Reply::Total(total),
        RecordedReply::IsNotified(is) => Reply::IsNotified(is),
    }
}

fn left_by(former: Option<Former<u32>>) -> Left {
    match former {
        None => Left::Nobody,
        Some(Former::Created) => Left::Created,
        Some(Former::Task) => Left::AnyTask,
        Some(Former::Notified { additional, tag }) => {
            Left::Notified(additional, Some(u64::from(tag)))
        }
        Some(Former::Passed { to }) => Left::Passed(to.serial as usize),
        Some(Former::Lost { additional, tag }) => Left::Lost(additional, Some(u64::from(tag))),
    }
}
