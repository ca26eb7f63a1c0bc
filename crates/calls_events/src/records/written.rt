//! Records that a text writes.
use crate::records::recorded::kind_and_tag;
use calls::{Answer, Call, Reply, Request, Subject};
use event_listener::{Entry, Key, ListenError, RecordedCall, RecordedReply, replays};
use std::alloc::{AllocError, Global};

/// Records that a text writes, each of which is asked whether it replays.
#[derive(Drop)]
pub struct Written {
    alloc: Global,
    // The record of the next call, where that has one.
    entries: Option<Vec<Entry<u32>>>,
}

impl Written {
    /// No record yet.
    pub fn new(alloc: Global) -> Self {
        Written {
            alloc,
            entries: None,
        }
    }
}

impl Subject for Written {
    fn prepare(&mut self, call: Call<'_>) -> Result<(), AllocError> {
        self.entries = match call {
            Call::Replays(text) => entries_of(self.alloc, text)?,
            _ => None,
        };
        Ok(())
    }

    fn make(&mut self, _call: Call<'_>) -> Reply {
        let Some(entries) = &self.entries else {
            return Reply::Invalid;
        };
        match replays(self.alloc, entries.as_slice()) {
            Ok(is_one) => Reply::Is(is_one),
            Err(_) => Reply::NoMemory,
        }
    }

    fn request(&self, _call: Call<'_>) -> Option<Request> {
        Some(Request::Replay)
    }

    fn shape(&self) -> [usize; 6] {
        [0; 6]
    }

    fn note(&mut self, _answer: &mut Answer) -> Result<(), AllocError> {
        Ok(())
    }
}

// The entries of this text, or none where it has something else.
fn entries_of(alloc: Global, text: &str) -> Result<Option<Vec<Entry<u32>>>, AllocError> {
    let mut entries = Vec::new(alloc);
    if text.is_empty() {
        return Ok(Some(entries));
    }
    for text in text.split("; ") {
        match entry_of(text) {
            Some(entry) => entries.push(entry)?,
            None => return Ok(None),
        }
    }
    Ok(Some(entries))
}

// `HAND CALL: REPLY`, where the call is `listen` or `notify`.
fn entry_of(text: &str) -> Option<Entry<u32>> {
    let (call, reply) = text.split_once(": ")?;
    let (hand, call) = call.split_once(' ')?;
    let (call, reply) = match Call::read(call)? {
        Call::Listen { other: false } => {
            (RecordedCall::Listen, RecordedReply::Listened(came(reply)?))
        }
        Call::Notify(notice) => {
            let (additional, tag) = kind_and_tag(notice)?;
            let count = notice.count;
            let told = reply.strip_prefix("told ")?.parse().ok()?;
            let call = RecordedCall::Notify {
                count,
                additional,
                tag,
            };
            (call, RecordedReply::Notified(told))
        }
        _ => return None,
    };
    Some(Entry {
        hand: Some(hand.parse().ok()?),
        call,
        reply,
    })
}

// A listener that came got the slot of its serial number, or none came.
fn came(reply: &str) -> Option<Result<Key, ListenError>> {
    match reply {
        "no memory" => Some(Err(ListenError::Memory)),
        "used up" => Some(Err(ListenError::SerialsUsedUp)),
        reply => {
            let slot: u32 = reply.strip_prefix("listener ")?.parse().ok()?;
            Some(Ok(Key {
                slot,
                serial: u64::from(slot),
            }))
        }
    }
}
