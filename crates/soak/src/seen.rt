//! What was seen of an event.
use anyhow::{Result, bail};
use calls::{Left, Reply};
use std::alloc::Global;

/// What the replies of an event say, or those of a record. No count passes the greatest number.
#[derive(Drop)]
pub struct Seen {
    /// New listeners.
    pub listened: u64,
    /// Listeners that were told by a notification.
    pub told: u64,
    /// Tags that a poll or a wait gave, or that a discarded listener had.
    pub taken: u64,
    /// Listeners that were dropped.
    pub dropped: u64,
    /// Notifications that a dropped listener could pass on to nobody, in a record alone: of others nobody can tell.
    pub lost: u64,
    /// The tags that polls and waits gave.
    pub tags: Vec<u64>,
}

fn add(count: &mut u64, more: usize) {
    *count = count.saturating_add(more as u64);
}

impl Seen {
    /// Nothing.
    pub fn new(alloc: Global) -> Self {
        Seen {
            listened: 0,
            told: 0,
            taken: 0,
            dropped: 0,
            lost: 0,
            tags: Vec::new(alloc),
        }
    }

    /// Counts replies. The error is that one is a refusal.
    pub fn count_all(&mut self, replies: Vec<Reply>) -> Result<()> {
        for reply in replies {
            self.count(reply)?;
        }
        Ok(())
    }

    /// Counts a reply.
    pub fn count(&mut self, reply: Reply) -> Result<()> {
        match reply {
            Reply::Listener(_) => add(&mut self.listened, 1),
            Reply::Told(told, _) => add(&mut self.told, told),
            Reply::Ready(tag) => {
                add(&mut self.taken, 1);
                self.tags.push(tag.unwrap_or(0))?;
            }
            Reply::Discarded(true) | Reply::Removed(Left::Notified(..)) => add(&mut self.taken, 1),
            Reply::Removed(Left::Lost(..)) => add(&mut self.lost, 1),
            Reply::Dropped => add(&mut self.dropped, 1),
            Reply::TagRefused(_) | Reply::NoMemory | Reply::UsedUp | Reply::Invalid => {
                bail!("a call was refused: {reply}")
            }
            _ => {}
        }
        Ok(())
    }
}
