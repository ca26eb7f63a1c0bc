//! What is behind the locks: plain states, with what is proved of each step. Nobody needs them to use a lock.
pub use event_monitor::{
    Ended, Handoff, IsSet, Once, Rounds, Ticket, Turn, Waiter, Watch, Watched,
};
pub use event_wait::{FairQueue, turns_are_kept_along};
pub use event_word::{Queues, Reading, Right, Writing, the_starving_find_one};
