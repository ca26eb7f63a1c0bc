//! The calls of a run, read from a text.
use crate::call::{Act, Call, count_of};
use crate::queues::Place;
use crate::tag::Tag;
use event_queue::Call as QueueCall;
use std::alloc::{AllocError, Global};

/// The calls of a run.
pub type Calls<T> = Vec<QueueCall<T, usize>>;

/// The calls of this text, which names listeners by these places, or none where it has something else.
pub fn calls_of<T: Tag + Drop>(
    alloc: Global,
    text: &str,
    places: &[Place],
) -> Result<Option<Calls<T>>, AllocError> {
    let mut calls = Vec::new(alloc);
    for line in text.split("; ") {
        let call = match line.strip_prefix("tagged ") {
            Some(words) => notify_of(alloc, words)?,
            None => call_of(line, places),
        };
        match call {
            Some(call) => calls.push(call)?,
            None => return Ok(None),
        }
    }
    Ok(Some(calls))
}

fn call_of<T>(line: &str, places: &[Place]) -> Option<QueueCall<T, usize>> {
    match Call::read(line)? {
        Call::Listen { .. } => Some(QueueCall::Insert),
        Call::On(number, act) => {
            let key = places.get(number)?.key;
            match act {
                Act::Poll(task) => Some(QueueCall::Register { key, task }),
                Act::Remove { propagate } => Some(QueueCall::Remove { key, propagate }),
                _ => None,
            }
        }
        Call::Total => Some(QueueCall::TotalListeners),
        Call::IsNotified => Some(QueueCall::IsNotified),
        _ => None,
    }
}

// `COUNT KIND TAG TAG ..`
fn notify_of<T: Tag + Drop>(
    alloc: Global,
    words: &str,
) -> Result<Option<QueueCall<T, usize>>, AllocError> {
    let mut words = words.split(' ');
    let (count, additional) = match (words.next(), words.next()) {
        (Some(count), Some("d")) => (count_of(count), false),
        (Some(count), Some("a")) => (count_of(count), true),
        _ => (None, false),
    };
    let Some(count) = count else {
        return Ok(None);
    };
    let mut tags = Vec::new(alloc);
    for word in words {
        match T::of(word) {
            Some(tag) => tags.push(tag)?,
            None => return Ok(None),
        }
    }
    Ok(Some(QueueCall::Notify {
        count,
        additional,
        tags,
    }))
}
