//! Two threads at a channel, with clauses of what one thread received and the other sent.
ghost use Rattle.std.specs.Prelude.{◌≡◌, ◌⊎◌, IfErr, IfOk};
ghost use Rattle.event_history.specs.Hands.{IsOf, SameTable};
ghost use Rattle.recipes.specs.Hands.{SawAllDue, SawOut, SawSent, Sends};

use event_channel::{
    ChannelHand, Receiver, SendError, Sender, Task, TryRecvError, no_message_is_lost,
};
use std::sync::Wait;
use std::thread::{self, Threads};
use std::time::Clock;

/// What became of a number that one thread sends, and what another thread receives after that.
#[derive(Drop)]
pub struct Exchange {
    pub sent: Result<(), SendError<u64>>,
    pub received: Result<u64, TryRecvError>,
}

/// Has another thread send a number, and then receives one. What is received was sent. And no message is lost: where the number
/// was sent and no message is received, the number has gone out before, or each message that waited was due to a notified
/// receive, while a receive starved. The call may wait for the other thread, and for the lock of the channel. Without a limit
/// the channel may allocate.
pub fn send_then_receive<R>(
    rt: &R,
    sender: &Sender<u64, R>,
    receiver: &Receiver<u64, R>,
    hand: &mut ChannelHand<u64>,
    number: u64,
) -> Exchange
where
    R: Threads + Sync + Wait + Clock + Clone,
    requires here { IsOf sender.now.channel.table hand.old }
    requires one { receiver.now ≡ sender.now }
    ensures hand { SameTable hand.old hand.new }
    ensures received { IfOk result.received (λ message. SawSent hand.new message) }
    ensures none_lost { IfOk result.sent (λ sent. IfErr result.received (λ error.
        SawOut hand.new number ⊎ SawAllDue receiver.now.capacity hand.new)) }
{
    let mut other = sender.fork(hand);
    // The length is whatever it is just then.
    let (sent, _) = thread::join_mut(
        rt,
        &mut || -> Result<(), SendError<u64>>
            requires { IsOf sender.now.channel.table other }
            ensures table { SameTable other.entry other.exit }
            ensures sends { Sends sender.entry.now.capacity number other.entry result
                other.exit }
        { sender.try_send_as(&mut other, number) },
        &mut || receiver.len(),
    );
    receiver.join(hand, other);
    let received = receiver.try_recv_as(hand);
    no_message_is_lost::<u64, Task>();
    Exchange { sent, received }
}
