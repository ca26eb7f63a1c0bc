/// What a client of a lock or an actor of a flag is to do.
#[derive(Clone, Copy, Debug, PartialEq, Eq)]
pub enum Act {
    /// The client does what its place has next.
    Go,
    /// The client is polled, though it may have no wake-up.
    Poll,
    /// The client's deadline passes.
    TimeOut,
    /// The client gives up, and its listener is dropped.
    Cancel,
}

/// One step of a schedule of a lock or of a flag: the client that takes the step, and the act.
#[derive(Clone, Copy, Debug, PartialEq, Eq)]
pub struct Step {
    /// The number of the client. A number that no client has is allowed, and the step is then not taken.
    pub client: usize,
    /// What the client is to do.
    pub act: Act,
}

/// What a client of a semaphore is to do.
#[derive(Clone, Copy, Debug, PartialEq, Eq)]
pub enum SemAct {
    /// The client does what its place has next.
    Go,
    /// The client takes one more permit.
    More,
    /// The client's deadline passes.
    TimeOut,
    /// The client gives up, and its listener is dropped.
    Cancel,
}

/// One step of a schedule of a semaphore: the client that takes the step, and the act.
#[derive(Clone, Copy, Debug, PartialEq, Eq)]
pub struct SemStep {
    /// The number of the client. A number that no client has is allowed, and the step is then not taken.
    pub client: usize,
    /// What the client is to do.
    pub act: SemAct,
}

/// The sender, the receiver or the closer that takes a step of a channel.
#[derive(Clone, Copy, Debug, PartialEq, Eq)]
pub enum ChannelActor {
    /// The sender of this number. A number that no sender has is allowed, and the step is then not taken.
    Sender(usize),
    /// The receiver of this number. A number that no receiver has is allowed, and the step is then not taken.
    Receiver(usize),
    /// The actor that closes the channel.
    Closer,
}

/// What an actor of a channel is to do.
#[derive(Clone, Copy, Debug, PartialEq, Eq)]
pub enum ChannelAct {
    /// The actor does what its place has next. At `Idle` a receiver begins to receive, and a sender has nothing next.
    Go,
    /// A sender that is `Idle` begins to send this message.
    Send(usize),
    /// The sender or receiver is polled, though it may have no wake-up.
    Poll,
    /// The deadline of the sender or receiver passes.
    TimeOut,
    /// The sender or receiver gives up, and its listener is dropped.
    Cancel,
}

/// One step of a schedule of a channel: the actor that takes the step, and the act.
#[derive(Clone, Copy, Debug, PartialEq, Eq)]
pub struct ChannelStep {
    /// The actor that takes the step.
    pub actor: ChannelActor,
    /// What the actor is to do.
    pub act: ChannelAct,
}
