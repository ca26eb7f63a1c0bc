//! Tests of libraries while requests for memory are refused: what no clause says of a refusal, and that calls which allocate
//! nothing need none; and tests of what takes the memory.
//!
//! | Module | What it tests |
//! |---|---|
//! | `taken` | of `hog` and `budget`: a hog refuses every request until it is dropped; a budget grants what it says, and no more |
//! | `queue` | what is dropped within a call, and with the queue, which gives every node back; a `reserve` that is refused in the middle, and keeps what it made; keys of another queue; 300,000 listeners, which leave in four orders, and whose slots are used again; texts |
//! | `rows` | the worked rows, and others, each of whose requests is refused in its turn; calls that need no memory |
//! | `events` | threads that are parked, and woken by one without memory: by a notification, and by the drop of a listener that was told |
//! | `recorded` | calls on recorded events that have room for note and entry, or none for the note; each request of a wait |
//! | `locks` | the locks, polled locks and semaphores of `example_events`, each of whose requests is refused while another one has them; the example programs, refused the counter, the flag or a thread |
//! | `channels` | calls on channels that are refused a place in the queue, what a thread parks on, or room for a message; such as need none |
//! | `leaks` | a thousand events, hands, listeners, waits, guards that have the last share of their lock, and permits that are forgotten, one after another where little memory is left: what is dropped gives its memory back |
//! | `channels::leaks` | the same of receives that are late, and of channels with their handles and sends |
//! | `until` | attempts whose wait is refused a listener, or what its thread parks on: it leaves no listener, and one that is told hands its notification on |
//! | `waits` | waits for each lock of `event_locks`, each of whose requests is refused; calls of these locks without memory |
//!
//! A test takes all memory of the process by a `Hog`, or all but so much by its `Budget`: `support`
//! makes a call with larger and larger ones until it is granted, so that each of its requests is refused in its turn. Under
//! `rt try --test`, which brings an allocator of its own, both are refused, and these tests fail.
#![tactic(auto)]

#[cfg(test)]
mod budget;
#[cfg(test)]
mod channels;
#[cfg(test)]
mod events;
#[cfg(test)]
mod hog;
#[cfg(test)]
mod hooks;
#[cfg(test)]
mod leaks;
#[cfg(test)]
mod locks;
#[cfg(test)]
mod queue;
#[cfg(test)]
mod recorded;
#[cfg(test)]
mod rows;
#[cfg(test)]
mod starved;
#[cfg(test)]
mod support;
#[cfg(test)]
mod taken;
#[cfg(test)]
mod until;
#[cfg(test)]
mod waits;
