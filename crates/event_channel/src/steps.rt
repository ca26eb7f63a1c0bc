//! The calls of handles that do not wait for a message or for room, each as one step.
ghost use Rattle.std.specs.Prelude.{◌≡◌, ⊤, IfErr};
ghost use Rattle.event_channel.specs.Calls.{answer_of};
ghost use Rattle.event_channel.specs.Errors.{IsUnsent, IsUnsentAtOnce};
ghost use Rattle.event_channel.specs.declared.call.ChannelCall.TheVariants as call;

use crate::error::{SendError, TryRecvError};
use crate::messages::Messages;
use event_history::Step;
use event_queue::WakeSink;

/// The step that sends a message.
pub(crate) struct Push<T> {
    pub(crate) message: T,
}

impl<T: Drop, W: Drop, K: WakeSink<W>> Step<Messages<T, W>, K> for Push<T> {
    type Reply = Result<(), SendError<T>>;

    ghost call = { λ step reply. call.Send step.message (answer_of reply) };

    ghost does = { λ step _ _ reply _ _. IfErr reply (λ error. (error.message ≡ step.message)
        × IsUnsentAtOnce error.reason) };

    #[inline(always)]
    fn make(self, messages: &mut Messages<T, W>, sink: &mut K) -> Result<(), SendError<T>> {
        let Push { message } = self;
        messages.push(message, sink)
    }
}

/// The step that sends a message, in the place of the first message if the channel is full.
pub(crate) struct PushForced<T> {
    pub(crate) message: T,
}

impl<T, W: Drop, K: WakeSink<W>> Step<Messages<T, W>, K> for PushForced<T> {
    type Reply = Result<Option<T>, SendError<T>>;

    ghost call = { λ step reply. call.ForceSend step.message (answer_of reply) };

    ghost does = { λ step _ _ reply _ _. IfErr reply (λ error. (error.message ≡ step.message)
        × IsUnsent error.reason) };

    fn make(self, messages: &mut Messages<T, W>, sink: &mut K) -> Result<Option<T>, SendError<T>> {
        let PushForced { message } = self;
        messages.push_forced(message, sink)
    }
}

/// The step that receives a message.
#[derive(Drop)]
pub(crate) struct Pop;

impl<T, W: Drop, K: WakeSink<W>> Step<Messages<T, W>, K> for Pop {
    type Reply = Result<T, TryRecvError>;

    ghost call = { λ _ reply. call.Receive reply };

    ghost does = { λ _ _ _ _ _ _. ⊤ };

    #[inline(always)]
    fn make(self, messages: &mut Messages<T, W>, sink: &mut K) -> Result<T, TryRecvError> {
        messages.pop(sink)
    }
}

/// The step that closes the channel.
#[derive(Drop)]
pub(crate) struct Close;

impl<T, W: Drop, K: WakeSink<W>> Step<Messages<T, W>, K> for Close {
    type Reply = bool;

    ghost call = { λ _ reply. call.Close reply };

    ghost does = { λ _ _ _ _ _ _. ⊤ };

    fn make(self, messages: &mut Messages<T, W>, sink: &mut K) -> bool {
        messages.close(sink)
    }
}

/// The step that answers whether the channel is closed.
#[derive(Drop)]
pub(crate) struct IsClosed;

impl<T, W: Drop> Step<Messages<T, W>, ()> for IsClosed {
    type Reply = bool;

    ghost call = { λ _ reply. call.IsClosed reply };

    ghost does = { λ _ _ _ _ _ _. ⊤ };

    fn make(self, messages: &mut Messages<T, W>, _beside: &mut ()) -> bool {
        messages.is_closed()
    }
}

/// The step that answers whether the channel is full.
#[derive(Drop)]
pub(crate) struct IsFull;

impl<T, W: Drop> Step<Messages<T, W>, ()> for IsFull {
    type Reply = bool;

    ghost call = { λ _ reply. call.IsFull reply };

    ghost does = { λ _ _ _ _ _ _. ⊤ };

    fn make(self, messages: &mut Messages<T, W>, _beside: &mut ()) -> bool {
        messages.is_full()
    }
}

/// The step that answers how many messages wait.
#[derive(Drop)]
pub(crate) struct Len;

impl<T, W: Drop> Step<Messages<T, W>, ()> for Len {
    type Reply = usize;

    ghost call = { λ _ reply. call.Len reply };

    ghost does = { λ _ _ _ _ _ _. ⊤ };

    fn make(self, messages: &mut Messages<T, W>, _beside: &mut ()) -> usize {
        messages.len()
    }
}
