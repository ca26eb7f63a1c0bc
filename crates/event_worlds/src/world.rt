//! What worlds are made of: the places of a client, the acts of a schedule, and the line in which clients wait.

pub mod acts;
mod buffer;
pub mod channel;
mod client;
pub mod flag;
mod line;
pub mod mutex;
pub mod place;
pub mod semaphore;
mod wakes;
