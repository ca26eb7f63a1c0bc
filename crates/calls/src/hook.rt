//! What a driver does round each call.

/// What a call may ask memory for.
#[derive(Clone, Copy, Debug, PartialEq, Eq)]
pub enum Request {
    /// A slot of a queue.
    Slot,
    /// The same, within a run.
    SlotInRun,
    /// Room for the replies of a run.
    Replies,
    /// Room of a sink.
    Sink,
    /// What a new listener of an event needs: the queue of the event, or a slot of it.
    Listener,
    /// What the thread of a waiting listener parks on.
    Parker,
    /// The hands of a new recorded event.
    Hands,
    /// Room for a note and for an entry of the record, or a slot of a recorded queue.
    Entry,
    /// The queue that a record is replayed over.
    Replay,
    /// A world with its room for all clients.
    World,
}

/// What comes round each call of a text. As written here, it lets each call be, with the memory that there is.
///
/// A driver can take all memory in `before` and give it back in `after`, and so refuse memory during that call alone. One
/// that leaves a little memory in `before` refuses a later request of the call.
pub trait Hook {
    /// Comes before a call, with what it may ask memory for in the state that it meets. A call that allocates nothing
    /// has none.
    fn before(&mut self, _request: Option<Request>) {}

    /// Comes after the call, whatever it answered.
    fn after(&mut self) {}

    /// Comes then if memory was refused, with whether all that has to stand does. Answers whether memory is back, so
    /// that the call is made again.
    fn refused(&mut self, _request: Request, _stands: bool) -> bool {
        false
    }

    /// Takes all memory during a call that is `starved`. Answers whether it can.
    fn starve(&mut self) -> bool {
        false
    }

    /// Gives it back after that call.
    fn feed(&mut self) {}
}

/// The hook that lets each call be.
#[derive(Drop)]
pub struct Undisturbed;

impl Hook for Undisturbed {}
