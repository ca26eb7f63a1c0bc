//! What follows for a listener from what hands saw and did.
ghost use Rattle.std.specs.Prelude.{◌≡◌, ◌≢◌, ⊤, true, Bool, Option, Result, Ok, IfOk, IsSome};
ghost use Rattle.futures.specs.declared.task.Poll.{Poll};
ghost use Rattle.futures.specs.declared.task.Poll.TheVariants.{Ready};
ghost use Rattle.event_queue.specs.declared.key.Key.{Key};
ghost use Rattle.event_wait.specs.declared.lock.limit.Limit.{Limit};
ghost use Rattle.event_wait.specs.declared.lock.limit.Limit.TheVariants.{Never};
ghost use Rattle.event_wait.specs.declared.lock.task.Task.{Task};
ghost use Rattle.event_history.specs.declared.history.Met.{Met};
ghost use Rattle.event_history.specs.declared.queue_call.QueueCall.{QueueCall};
ghost use Rattle.event_history.specs.declared.queue_call.QueueCall.TheVariants.{Insert};
ghost use Rattle.event_history.specs.History.{Looks, newcomer};
ghost use Rattle.event_history.specs.Laws.{OwnsListener, QueueLog};
ghost use Rattle.event_history.specs.Queue.{queue_machine};
ghost use Rattle.event_listener.specs.Heard.{AllNotified, HasListened, NotifiesAll, taking_in};
ghost use Rattle.event_listener.specs.Listening.{Known, Listening};
ghost use Rattle.event_listener.specs.Waiting.{Calls, PollsBy, RemovesBy, RemovesHeard, WaitsBy};
ghost use Rattle.event_listener.specs.declared.listener.NeverInserted.{NeverInserted};
ghost use Rattle.event_listener.specs.declared.listener.wait_error.WaitReason.{WaitReason};

use event_history::told_by_another;
use event_wait::Task;

/// Proves that a hand which knows that a listener listened goes on to know it, and tells the hands that it meets.
///
/// A listener's own hand knows it from the insertion on. Each hand learns it that joins a hand which knows it, and each hand
/// that is forked from such a hand. Does nothing when a program runs.
///
/// Here `other` was forked from a hand that knew that the listener had listened:
///
/// ```rust
/// listener.join(other);
/// listening_is_known::<()>();
/// ```
pub fn listening_is_known<T>()
    ensures listened { (key : Key) (v w : Known T) → Calls v (Insert (Ok key)) w
        → HasListened key w.seen }
    ensures joined { (key : Key) (met : Met (QueueCall T Task)) (v w : Known T)
        → Looks queue_machine (taking_in met v) w → HasListened key met.seen
        → HasListened key w.seen }
    ensures forked { (key : Key) (seen : QueueLog T Task) (w : Known T) → w ≡ newcomer seen
        → HasListened key seen → HasListened key w.seen }
    ensures kept { (key : Key) (v w : Known T) → Looks queue_machine v w
        → HasListened key v.seen → HasListened key w.seen }
    ensures before_a_call { (key : Key) (v w : Known T) (call : QueueCall T Task)
        → Calls v call w → HasListened key v.seen → HasListened key w.seen }
{}

/// Proves that a listener is notified if its hand knows that all listeners were notified after it had listened.
///
/// A hand that knows that a listener listened, and then notifies by the greatest count without a refused tag, knows that all
/// were notified after that. Each hand learns this that joins such a hand or is forked from one. If the listener's own hand
/// knows it, and did not remove the listener, then a removal finds the listener notified, a poll gives its tag, and a wait
/// gives its tag or fails for memory. Does nothing when a program runs.
///
/// Here the listener has joined the hand of a thread that knew of the listener and notified all:
///
/// ```rust
/// listening_is_known::<()>();
/// notifying_all_is_known::<()>();
/// Ok(listener.discard())
/// ```
pub fn notifying_all_is_known<T>()
    ensures notified { (key : Key) (v w : Known T) → NotifiesAll v w → HasListened key v.seen
        → AllNotified key w.seen }
    ensures joined { (key : Key) (met : Met (QueueCall T Task)) (v w : Known T)
        → Looks queue_machine (taking_in met v) w → AllNotified key met.seen
        → AllNotified key w.seen }
    ensures forked { (key : Key) (seen : QueueLog T Task) (w : Known T) → w ≡ newcomer seen
        → AllNotified key seen → AllNotified key w.seen }
    ensures kept { (key : Key) (v w : Known T) → Looks queue_machine v w
        → AllNotified key v.seen → AllNotified key w.seen }
    ensures before_a_call { (key : Key) (v w : Known T) (call : QueueCall T Task)
        → Calls v call w → AllNotified key v.seen → AllNotified key w.seen }
    ensures removed { (key : Key) (propagate told : Bool) (listener : Listening T)
        → listener.standing.key ≡ key → OwnsListener listener.standing.key listener.knows.mine
        → AllNotified key listener.knows.seen → RemovesBy propagate listener told
        → told ≡ true }
    ensures removed_by { (key : Key) (propagate told : Bool) (listener : Listening T)
        (knows heard : Known T) → listener.standing.key ≡ key
        → OwnsListener listener.standing.key listener.knows.mine
        → AllNotified key listener.knows.seen
        → RemovesHeard propagate listener told knows heard → told ≡ true }
    ensures polled { (key : Key) (before after : Listening T)
        (answer : Result (Poll T) NeverInserted) → before.standing.key ≡ key
        → OwnsListener before.standing.key before.knows.mine
        → AllNotified key before.knows.seen → PollsBy before answer after
        → (tag : T) × (answer ≡ Ok (Ready tag)) }
    ensures waited { (key its : Key) (v w : Known T) (answer : Result (Option T) WaitReason)
        → its ≡ key → OwnsListener its v.mine → AllNotified key v.seen
        → WaitsBy its ⊤ v answer w → IfOk answer IsSome }
    ensures waited_until { (key its : Key) (limit : Limit) (v w : Known T)
        (answer : Result (Option T) WaitReason) → its ≡ key → OwnsListener its v.mine
        → AllNotified key v.seen → WaitsBy its (limit ≢ Never) v answer w → IfOk answer IsSome }
{
    told_by_another::<T, Task>();
}
