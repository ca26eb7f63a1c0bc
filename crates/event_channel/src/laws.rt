//! What follows of one history of a channel.
ghost use Rattle.std.specs.Prelude.{◌≡◌, ◌⊎◌, ◌≤◌, ◌+◌, ◌++◌, ℕ, Option, Result, Err, IfErr, IfOk, [], ◌∷◌, length, true};
ghost use Rattle.event_channel.specs.Calls.{answer_of, calls, channel_machine};
ghost use Rattle.event_channel.specs.Hands.{ReceivesBlocking, SendsBlocking};
ghost use Rattle.event_channel.specs.Messages.{AreDue, PlacesAreDue, State, limit_of};
ghost use Rattle.event_channel.specs.Served.{LosesByThose, NoMoreInVain, NoMoreSendersInVain, RefusesFewer, RefusesFewerSends, RefusesNoMore, RefusesNoMoreSends, SenderLosesByThose};
ghost use Rattle.event_queue.specs.declared.key.Key.{Key};
ghost use Rattle.event_channel.specs.Sent.{ChannelLog, WasBefore, all_of, forced_out_by, out_by, received_by, sent_by};
ghost use Rattle.event_channel.specs.declared.call.ChannelCall.{ChannelCall};
ghost use Rattle.event_channel.specs.declared.call.ChannelCall.TheVariants as call;
ghost use Rattle.event_channel.specs.declared.error.RecvError.{RecvError};
ghost use Rattle.event_channel.specs.declared.error.SendError.{SendError};
ghost use Rattle.event_channel.specs.declared.error.SendReason.TheVariants.{Closed, Full};
ghost use Rattle.event_channel.specs.declared.error.TryRecvError.{TryRecvError};
ghost use Rattle.event_channel.specs.declared.error.TryRecvError.TheVariants.{Closed as WasClosed};
ghost use Rattle.event_history.specs.History.{Extends, IsAmong, LeadsTo, Looks, Runs, both_views, entry};
ghost use Rattle.event_history.specs.declared.history.View.{View};

/// States that in any history of a channel messages go out in the order in which they were sent.
///
/// The messages that calls received, and those that went out for a forced send, are in the order of the calls just the first
/// that were sent, each once; the rest are in the channel. From any later state on, the messages that are in the channel then
/// go out first. Where no forced send found the channel full, all that went out was received. The same holds of the history
/// that a hand has seen after a call. And what was received was sent: in the history that a hand has seen after it received a
/// message, some call sent that message. Where a receive of a hand finds no message, all that was sent has gone out, or each
/// message in the channel was due: a receiver starved, and as many receivers were notified as there were messages. Where a
/// receive finds the end, all has gone out.
pub fn sent_is_received_in_order<T, W>()
    ensures in_order { (capacity : Option ℕ) (log : ChannelLog T) (q : State T W)
        → LeadsTo (channel_machine capacity) log q
        → all_of sent_by log ≡ all_of out_by log ++ q.messages }
    ensures from_any_state { (log : ChannelLog T) (q r : State T W) → Runs calls q log r
        → q.messages ++ all_of sent_by log ≡ all_of out_by log ++ r.messages }
    ensures all_received { (capacity : Option ℕ) (log : ChannelLog T) (q : State T W)
        → LeadsTo (channel_machine capacity) log q → all_of forced_out_by log ≡ []
        → all_of sent_by log ≡ all_of received_by log ++ q.messages }
    ensures as_seen { (capacity : Option ℕ) (v w : View (State T W) (ChannelCall T))
        (call : ChannelCall T) → Extends (channel_machine capacity) v call w
        → (q : State T W) × LeadsTo (channel_machine capacity) w.seen q
        × (all_of sent_by w.seen ≡ all_of out_by w.seen ++ q.messages) }
    ensures received_was_sent { (capacity : Option ℕ) (log : ChannelLog T) (q : State T W)
        → LeadsTo (channel_machine capacity) log q → (message : T)
        → IsAmong message (all_of received_by log) → IsAmong message (all_of sent_by log) }
    ensures seen_to_be_sent { (capacity : Option ℕ) (v w : View (State T W) (ChannelCall T))
        (call : ChannelCall T) → Extends (channel_machine capacity) v call w
        → (message : T) → IsAmong message (received_by call)
        → IsAmong message (all_of sent_by w.seen) }
    ensures finds_none { (capacity : Option ℕ) (v w : View (State T W) (ChannelCall T))
        (error : TryRecvError)
        → Extends (channel_machine capacity) v (call.Receive (Err error)) w
        → (all_of sent_by w.seen ≡ all_of out_by w.seen)
        ⊎ WasBefore capacity (λ (q : State T W). AreDue q) w.seen }
    ensures finds_the_end { (capacity : Option ℕ) (v w : View (State T W) (ChannelCall T))
        → Extends (channel_machine capacity) v (call.Receive (Err WasClosed)) w
        → all_of sent_by w.seen ≡ all_of out_by w.seen }
{}

/// States that no message is made up between two hands, and none is lost.
///
/// What one hand receives was sent. Where one hand sent a message, and another hand joins it and then finds no message, the
/// message has gone out, or each message in the channel was due to a notified receiver while a receiver starved.
///
/// Here `other` is the hand with which another thread has sent:
///
/// ```rust
/// receiver.join(hand, other);
/// let received = receiver.try_recv_as(hand);
/// no_message_is_lost::<u64, Task>();
/// ```
pub fn no_message_is_lost<T, W>()
    ensures received { (capacity : Option ℕ) (v w : View (State T W) (ChannelCall T))
        (reply : Result T TryRecvError)
        → Extends (channel_machine capacity) v (call.Receive reply) w
        → IfOk reply (λ message. IsAmong message (all_of sent_by w.seen)) }
    ensures received_blocking { (capacity : Option ℕ) (v w : View (State T W) (ChannelCall T))
        (reply : Result T RecvError) → ReceivesBlocking capacity v reply w
        → IfOk reply (λ message. IsAmong message (all_of sent_by w.seen)) }
    ensures sent { (capacity : Option ℕ) (u v w x y : View (State T W) (ChannelCall T))
        (message : T) (sent : Result (Unit {0}) (SendError T)) (reply : Result T TryRecvError)
        → Extends (channel_machine capacity) u (call.Send message (answer_of sent)) v
        → Looks (channel_machine capacity) (both_views w v) x
        → Extends (channel_machine capacity) x (call.Receive reply) y
        → IfOk sent (λ done. IfErr reply (λ error. IsAmong message (all_of out_by y.seen)
        ⊎ WasBefore capacity (λ (q : State T W). AreDue q) y.seen)) }
{}

/// States that a hand knows what it sent by its own call, and what was known to be sent by each hand that it joins.
///
/// What a hand knew to be sent before a call, before a call that blocks, or before it joins another hand, it still knows
/// afterwards.
pub fn sent_is_known<T, W>()
    ensures by_a_call { (capacity : Option ℕ) (v w : View (State T W) (ChannelCall T))
        (call : ChannelCall T) → Extends (channel_machine capacity) v call w
        → (message : T) → IsAmong message (sent_by call)
        → IsAmong message (all_of sent_by w.seen) }
    ensures by_sending { (capacity : Option ℕ) (v w : View (State T W) (ChannelCall T))
        (message : T) (reply : Result (Unit {0}) (SendError T))
        → SendsBlocking capacity message v reply w
        → IfOk reply (λ _. IsAmong message (all_of sent_by w.seen)) }
    ensures before_a_call { (capacity : Option ℕ) (v w : View (State T W) (ChannelCall T))
        (call : ChannelCall T) → Extends (channel_machine capacity) v call w
        → (message : T) → IsAmong message (all_of sent_by v.seen)
        → IsAmong message (all_of sent_by w.seen) }
    ensures before_receiving { (capacity : Option ℕ) (v w : View (State T W) (ChannelCall T))
        (reply : Result T RecvError) → ReceivesBlocking capacity v reply w
        → (message : T) → IsAmong message (all_of sent_by v.seen)
        → IsAmong message (all_of sent_by w.seen) }
    ensures before_sending { (capacity : Option ℕ) (v w : View (State T W) (ChannelCall T))
        (other : T) (reply : Result (Unit {0}) (SendError T))
        → SendsBlocking capacity other v reply w
        → (message : T) → IsAmong message (all_of sent_by v.seen)
        → IsAmong message (all_of sent_by w.seen) }
    ensures joined { (capacity : Option ℕ) (v other w : View (State T W) (ChannelCall T))
        → Looks (channel_machine capacity) (both_views v other) w
        → (message : T) → IsAmong message (all_of sent_by other.seen)
        → IsAmong message (all_of sent_by w.seen) }
    ensures kept { (capacity : Option ℕ) (v other w : View (State T W) (ChannelCall T))
        → Looks (channel_machine capacity) (both_views v other) w
        → (message : T) → IsAmong message (all_of sent_by v.seen)
        → IsAmong message (all_of sent_by w.seen) }
{}

/// States that a channel keeps its capacity from its first state, which is open and has no message, to its last, and never has
/// more messages than that.
///
/// Where a send, by a call of a hand, finds the channel full, the channel has just as many messages: so many more were sent by
/// calls of the history than went out; or before that send a sender starved, and as many senders were notified as there were
/// free places. Where a send finds the channel closed, a call of the history closed it.
///
/// Without a limit the capacity is the greatest `usize`. It does not follow that a send of one's own finds room, since no
/// clause says that nobody else has a handle.
pub fn capacity_is_kept<T, W>()
    ensures kept { (capacity : Option ℕ) (log : ChannelLog T) (q : State T W)
        → LeadsTo (channel_machine capacity) log q → q.capacity ≡ limit_of capacity }
    ensures at_most { (capacity : Option ℕ) (log : ChannelLog T) (q : State T W)
        → LeadsTo (channel_machine capacity) log q → length q.messages ≤ limit_of capacity }
    ensures full { (capacity : Option ℕ) (v w : View (State T W) (ChannelCall T)) (message : T)
        → Extends (channel_machine capacity) v (call.Send message (Err Full)) w
        → ((q : State T W) × LeadsTo (channel_machine capacity) w.seen q
        × (length q.messages ≡ limit_of capacity))
        ⊎ WasBefore capacity (λ (q : State T W). PlacesAreDue q) w.seen }
    ensures full_was_sent { (capacity : Option ℕ) (v w : View (State T W) (ChannelCall T))
        (message : T)
        → Extends (channel_machine capacity) v (call.Send message (Err Full)) w
        → (length (all_of sent_by w.seen) ≡ length (all_of out_by w.seen) + limit_of capacity)
        ⊎ WasBefore capacity (λ (q : State T W). PlacesAreDue q) w.seen }
    ensures closed_was_closed { (capacity : Option ℕ) (v w : View (State T W) (ChannelCall T))
        (message : T)
        → Extends (channel_machine capacity) v (call.Send message (Err Closed)) w
        → (earlier : ChannelLog T) × (later : ChannelLog T) × (by : ℕ)
        × (w.seen ≡ earlier ++ entry by (call.Close true) ∷ later) }
{}

/// States that a starving receiver loses only so often.
///
/// While a receiver starves, no call raises the number of notified receivers above that of messages any further, and a notified
/// receiver that finds nothing lowers it by one. So a starving receiver loses at most as often as more receivers were notified
/// than there were messages when it began to starve, as long as each notified receiver tries again. A starving receiver that
/// does not try again starves only so long: [`newcomers_go_on`] has the bound.
pub fn starving_receivers_are_served<T, W>()
    ensures no_more_in_vain { (before after : State T W) (c : ChannelCall T)
        → NoMoreInVain c before after }
    ensures fewer_by_a_loss { (before after : State T W) (key : Option Key) (waits : Key)
        → LosesByThose key waits before after }
{}

/// States of senders and free places what [`starving_receivers_are_served`] states of receivers and messages: while a sender
/// starves, no call but a forced send raises the number of notified senders above that of free places any further, and a
/// notified sender that finds no room lowers it by one.
pub fn starving_senders_are_served<T, W>()
    ensures no_more_in_vain { (before after : State T W) (c : ChannelCall T)
        → NoMoreSendersInVain c before after }
    ensures fewer_by_a_loss { (before after : State T W) (message : T) (key : Option Key)
        (waits : Key) → SenderLosesByThose message key waits before after }
{}

/// States that newcomers are refused for the sake of starving waiters only so often, and then go on.
///
/// Each waiter that starves has a number of refusals left, at first as many as [`FORBEARANCE`](crate::FORBEARANCE) says. A
/// newcomer that gets nothing though a message or room is there lowers that number of the first starving waiter, or is the last
/// that is refused for its sake. No other call raises the sum of these numbers, but that of a waiter that was notified in vain
/// and waits again: that waiter lost once more, and may starve from then on. This holds whether the starving waiters try again
/// or not.
pub fn newcomers_go_on<T, W>()
    ensures fewer_receives { (before after : State T W) (c : ChannelCall T)
        → RefusesFewer c before after }
    ensures no_more_receives { (before after : State T W) (c : ChannelCall T)
        → RefusesNoMore c before after }
    ensures fewer_sends { (before after : State T W) (c : ChannelCall T)
        → RefusesFewerSends c before after }
    ensures no_more_sends { (before after : State T W) (c : ChannelCall T)
        → RefusesNoMoreSends c before after }
{}
