//! The texts of all errors, and what is made of the errors of calls.
use crate::support::check;
use event_listener::ListenError::{Memory, SerialsUsedUp};
use event_listener::{CloseError, NeverInserted, RecordError, WaitError};
use example_events::desk::SitError;
use example_events::flag::FlagError;
use example_events::heard::HeardError;
use example_events::locks::{CountError, MutexError, SemaphoreError};
use example_events::meeting::MeetingError;
use example_events::polled::AwaitError;
use example_events::race::RaceError;
use example_events::relayed::TagError;
use example_events::tagged::TagsError;
use std::alloc::AllocError;
use std::fmt::Display;
use test_support::Runtime;

const LISTENER: &str = "no memory for a listener";

const PARKER: &str = "no memory for a parker";

const PROGRAM: &str = "no memory for the program";

const SERIALS: &str = "serial numbers are used up";

const ABSENT: &str = "listener is not in the queue";

// The value has this text.
fn reads<V: Display + Drop, R: Runtime>(rt: &R, value: V, text: &str) {
    let shown = format!(in rt.alloc(); "{value}").expect(rt, "a text");
    check(rt, "the text", shown.as_str(), text);
}

// Those of threads that share something, and of the programs.
#[test]
fn errors_of_locks_have_their_texts(rt: HostRuntime) {
    reads(&rt, MutexError::Finished, "the lock was given");
    reads(&rt, MutexError::from(Memory), LISTENER);
    reads(&rt, MutexError::from(SerialsUsedUp), SERIALS);
    reads(&rt, SemaphoreError::from(Memory), LISTENER);
    reads(&rt, SemaphoreError::from(SerialsUsedUp), SERIALS);
    reads(&rt, CountError::from(MutexError::SerialsUsedUp), SERIALS);
    reads(&rt, CountError::from(SemaphoreError::Memory), LISTENER);
    reads(&rt, CountError::from(AllocError), PROGRAM);
}

// Those of threads that meet.
#[test]
fn errors_of_meetings_have_their_texts(rt: HostRuntime) {
    reads(&rt, FlagError::from(SerialsUsedUp), SERIALS);
    reads(&rt, MeetingError::from(FlagError::Memory), PARKER);
    reads(&rt, MeetingError::from(AllocError), PROGRAM);
    reads(&rt, HeardError::from(Memory), LISTENER);
    reads(&rt, HeardError::from(AllocError), "no memory for a hand");
    reads(&rt, SitError::from(Memory), LISTENER);
    reads(&rt, SitError::from(NeverInserted), ABSENT);
}

// The errors of a caller that waits for a tag.
#[test]
fn errors_of_tags_have_their_texts(rt: HostRuntime) {
    reads(&rt, TagError::from(WaitError::<u8>::NeverInserted), ABSENT);
    reads(&rt, TagError::from(WaitError::Memory(7u8)), PARKER);
    reads(&rt, TagError::from(Memory), LISTENER);
    let refused = TagsError::from(WaitError::Memory(7u8));
    reads(&rt, refused, "no tag was given");
    reads(&rt, AwaitError::from(Memory), LISTENER);
    reads(&rt, AwaitError::from(NeverInserted), ABSENT);
}

#[test]
fn errors_of_races_have_their_texts(rt: HostRuntime) {
    let refused = RaceError::from(RecordError::Memory);
    reads(&rt, refused, "no memory for the record");
    let refused = RaceError::from(AllocError);
    reads(&rt, refused, "no memory for the threads");
    let refused = RaceError::from(CloseError::HandsMissing);
    reads(&rt, refused, "hands are missing");
}
