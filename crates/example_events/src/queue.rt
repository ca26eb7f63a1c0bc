//! Short callers of `event_queue`. The pages of that crate quote them.
//!
//! - [`turnstile`]: a line of visitors as a plain value, with a sink of its own; it may start at any serial. A new line
//!   is empty, with room for as many as asked for or with the serial asked for; a visitor that joins waits at the end
//!   with its number; an admission returns the numbers of the first waiting visitors, in order, and admits as many; a
//!   visitor that enters was admitted and leaves the line; a visitor that leaves is out of the line, and the result is
//!   the number of the visitor admitted in its place; an error leaves the line as it was.
//! - [`shared`]: the line of `turnstile` under a lock, one call a step. No more visitors are admitted than were asked for.
//! - [`tagged`]: a notification that refuses no tag, and a notification that may, and how many listeners each notifies.
//! - [`counted`]: a visitor that leaves, and an admission, each with the number of nodes of other visitors that the call
//!   looked at: three at most; as many as it admits.
//!
//! Only tested: that each locked call makes its call of the line, that two threads admit no visitor twice, at how many
//! other nodes exactly a leaving visitor looks and which numbers the calls of `counted` call, and that calls succeed if
//! memory is there.
pub mod counted;
pub mod shared;
pub mod tagged;
pub mod turnstile;
