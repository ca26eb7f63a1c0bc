//! What follows of one history of a queue. A listener *waits* or is *notified*; both are in the queue.
ghost use Rattle.std.specs.Prelude.{◌≡◌, ◌≢◌, ◌<◌, ◌≤◌, ◌^◌, ◌-◌, ◌⊎◌, ◌∷◌, ◌++◌, ℕ, Bool, List, [], true, false, length, Option, Some, Ok, IsSome};
ghost use Rattle.std.specs.Map.{keys_of, lookup};
ghost use Rattle.event_queue.specs.declared.key.Key.{Key};
ghost use Rattle.event_queue.specs.declared.notice.Notice.{Notice};
ghost use Rattle.event_queue.specs.declared.reply.RegisterResult.{RegisterResult};
ghost use Rattle.event_queue.specs.declared.reply.RegisterResult.TheVariants.{Notified, Registered, NeverInserted};
ghost use Rattle.event_queue.specs.declared.reply.State.{State};
ghost use Rattle.event_queue.specs.declared.reply.State.TheVariants.{Passed, Lost};
ghost use Rattle.event_queue.specs.Key.{is_key};
ghost use Rattle.event_queue.specs.Queue.{Queue, listeners_of, how_many, told_leaves};
ghost use Rattle.event_history.specs.declared.history.Entry.{Entry};
ghost use Rattle.event_history.specs.declared.history.View.{View};
ghost use Rattle.event_history.specs.declared.queue_call.QueueCall.{QueueCall};
ghost use Rattle.event_history.specs.declared.queue_call.QueueCall.TheVariants.{Insert, Register, Remove, Notify, Counts};
ghost use Rattle.event_history.specs.History.{entry, calls_by, newcomer, StartsWith, IsAmong, AreAmong, EachRests, Runs, LeadsTo, Leads, Extends, Looks, both_views, machine_of};
ghost use Rattle.event_history.specs.Queue.{calls, queue_machine, rests_on};
ghost use Rattle.event_history.specs.Laws.{QueueLog, IsTold, Waits, IsIn, Stays, EachStays, Listens, OwnsListener, FindsTold, TellsFirst, GoesToFirst, WasTold};

use crate::history::Steps;

/// Proves that a listener is in the queue to which a history leads, if its insertion stands in the history and no later call took
/// the listener out. Does nothing when a program runs.
pub fn stays<T, W>()
    ensures { (key : Key) (log : QueueLog T W) (q : Queue T W) → LeadsTo queue_machine log q
        → Listens key log → IsIn key q }
{}

/// Proves that a listener is found if its insertion stands in a history and no later call took the listener out.
///
/// A registration is not answered that the listener was never inserted, and a removal does not return `None`. Does nothing when a
/// program runs.
pub fn never_absent<T, W>()
    ensures registered { (key : Key) (log : QueueLog T W) (q next : Queue T W)
        (reply : RegisterResult T) → LeadsTo queue_machine log q → Listens key log
        → calls q (Register key reply) next → reply ≢ NeverInserted }
    ensures removed { (key : Key) (log : QueueLog T W) (q next : Queue T W) (propagate : Bool)
        (reply : Option (State T W)) → LeadsTo queue_machine log q → Listens key log
        → calls q (Remove key propagate reply) next → IsSome reply }
{}

/// Proves that a hand's own listener is in the queue whenever the hand makes a call or looks.
///
/// A hand *owns* a listener that one of its calls inserted and none of its later calls took out. No other hand takes that
/// listener out. So a registration of the listener is not answered that it was never inserted, and a removal finds it. Does
/// nothing when a program runs.
pub fn own_listener_stays<T, W>()
    ensures stands { (key : Key) (number : ℕ) (log : QueueLog T W) (q : Queue T W)
        → LeadsTo queue_machine log q → EachRests rests_on log
        → OwnsListener key (calls_by number log) → IsIn key q }
    ensures called { (key : Key) (v w : View (Queue T W) (QueueCall T W)) (call : QueueCall T W)
        (before after : Queue T W) → Leads queue_machine v call before after w
        → OwnsListener key v.mine → IsIn key before }
    ensures looked { (key : Key) (v w : View (Queue T W) (QueueCall T W))
        (looks : Looks queue_machine v w) → OwnsListener key w.mine → IsIn key looks.led }
    ensures registered { (key : Key) (v w : View (Queue T W) (QueueCall T W))
        (reply : RegisterResult T) (before after : Queue T W)
        → Leads queue_machine v (Register key reply) before after w
        → OwnsListener key v.mine → reply ≢ NeverInserted }
    ensures removed { (key : Key) (v w : View (Queue T W) (QueueCall T W)) (propagate : Bool)
        (reply : Option (State T W)) (before after : Queue T W)
        → Leads queue_machine v (Remove key propagate reply) before after w
        → OwnsListener key v.mine → IsSome reply }
{}

/// Proves that a hand owns a listener after a call that inserts it, and still owns it after any call that does not take it out.
///
/// A registration that stores a task is such a call. A hand that owns a listener may register and remove it. Does nothing when a
/// program runs.
pub fn owns_on<T, W>()
    ensures joined { (key : Key) (v w : View (Queue T W) (QueueCall T W)) (before after : Queue T W)
        → Leads queue_machine v (Insert (Ok key)) before after w
        → OwnsListener key w.mine }
    ensures kept { (key : Key) (v w : View (Queue T W) (QueueCall T W)) (call : QueueCall T W)
        (before after : Queue T W) → Leads queue_machine v call before after w
        → Stays key call → OwnsListener key v.mine → OwnsListener key w.mine }
    ensures stored { (key : Key) (v w : View (Queue T W) (QueueCall T W)) (reply : RegisterResult T)
        (before after : Queue T W)
        → Leads queue_machine v (Register key reply) before after w → reply ≡ Registered
        → OwnsListener key v.mine → OwnsListener key w.mine }
    ensures may_call { (key : Key) (mine : List (QueueCall T W)) → OwnsListener key mine
        → AreAmong (Insert (Ok key) ∷ []) mine }
{}

/// Proves when a listener may wait on after a notification that was refused no tag: only if as many listeners as the notification
/// counts are notified.
///
/// For a default notification these are all notified listeners, and for an additional one those that waited before that listener.
/// Does nothing when a program runs.
pub fn told_or_as_many_before<T, W>()
    ensures default_one { (key : Key) (old new : Queue T W) (count told : ℕ)
        → calls old (Notify count false (Ok told)) new → IsIn key old → IsTold key new
        ⊎ (Waits key new × (count ≤ length new.told)) }
    ensures additional_one { (key : Key) (old new : Queue T W) (count told : ℕ)
        → calls old (Notify count true (Ok told)) new → IsIn key old → IsTold key new
        ⊎ (Waits key new × TellsFirst count old new) }
{}

/// Proves that a notification leaves each listener notified if it counts as many as there are listeners and was refused no tag.
///
/// That holds of a default notification and of an additional one. The greatest count is always as many. Does nothing when a
/// program runs.
pub fn tells_all<T, W>()
    ensures enough { (key : Key) (old new : Queue T W) (count told : ℕ) (additional : Bool)
        → calls old (Notify count additional (Ok told)) new → listeners_of old ≤ count
        → IsIn key old → IsTold key new }
    ensures greatest { (key : Key) (old new : Queue T W) (told : ℕ) (additional : Bool)
        → calls old (Notify (2 ^ 64 - 1) additional (Ok told)) new → IsIn key old → IsTold key new }
{}

/// Proves that one history leads to one order: in each state to which the history leads the same listeners are notified, and the
/// same listeners wait, in the same order.
///
/// So wherever the history up to a call is known, it is known which listeners are notified after that call. Does nothing when a
/// program runs.
pub fn one_history_one_order<T, W>()
    ensures told { (log : QueueLog T W) (q other : Queue T W) → LeadsTo queue_machine log q
        → LeadsTo queue_machine log other → keys_of q.told ≡ keys_of other.told }
    ensures waiting { (log : QueueLog T W) (q other : Queue T W) → LeadsTo queue_machine log q
        → LeadsTo queue_machine log other → keys_of q.waiting ≡ keys_of other.waiting }
{}

/// Proves that a notified listener stays notified until the hand that inserted it takes its tag or removes it.
///
/// So a listener that was notified at some point of what a hand has seen, and that the hand did not take out, is notified when
/// the hand makes its next call, and where the hand looks. Does nothing when a program runs.
pub fn told_until_own_call<T, W>()
    ensures run { (key : Key) (later : QueueLog T W) (q r : Queue T W) → IsTold key q
        → Runs calls q later r → EachStays key later → IsTold key r }
    ensures stands { (key : Key) (number : ℕ) (log earlier later : QueueLog T W) (q r : Queue T W)
        → LeadsTo queue_machine log r → EachRests rests_on log
        → OwnsListener key (calls_by number log) → log ≡ earlier ++ later
        → LeadsTo queue_machine earlier q → IsTold key q → IsTold key r }
    ensures called { (key : Key) (v w : View (Queue T W) (QueueCall T W)) (call : QueueCall T W)
        (earlier later : QueueLog T W) (q before after : Queue T W)
        → Leads queue_machine v call before after w → OwnsListener key v.mine
        → v.seen ≡ earlier ++ later → LeadsTo queue_machine earlier q → IsTold key q
        → IsTold key before }
    ensures looked { (key : Key) (v w : View (Queue T W) (QueueCall T W))
        (earlier later : QueueLog T W) (q : Queue T W) (looks : Looks queue_machine v w)
        → OwnsListener key w.mine → w.seen ≡ earlier ++ later → LeadsTo queue_machine earlier q
        → IsTold key q → IsTold key looks.led }
{}

/// Proves that a registration of a notified listener is answered the listener's tag, and that a removal finds the listener
/// notified. Does nothing when a program runs.
pub fn told_is_found<T, W>()
    ensures registered { (key : Key) (log : QueueLog T W) (q next : Queue T W)
        (reply : RegisterResult T) → LeadsTo queue_machine log q → IsTold key q
        → calls q (Register key reply) next → (tag : T) × (reply ≡ Notified tag) }
    ensures removed { (key : Key) (log : QueueLog T W) (q next : Queue T W) (propagate : Bool)
        (reply : Option (State T W)) → LeadsTo queue_machine log q → IsTold key q
        → calls q (Remove key propagate reply) next → FindsTold propagate reply }
{}

/// Proves that a hand's own listener is notified if the hand has seen that some hand notified all listeners after the listener
/// was inserted.
///
/// To notify all is to notify by the greatest count, and to be refused no tag. The listener is notified then when its own hand
/// makes its next call, and where that hand looks: a registration is answered its tag, and a removal finds it notified. Does
/// nothing when a program runs.
pub fn told_by_another<T, W>()
    ensures called { (key : Key) (number by : ℕ) (additional : Bool) (told : ℕ)
        (v w : View (Queue T W) (QueueCall T W)) (call : QueueCall T W)
        (earlier later : QueueLog T W) (before after : Queue T W)
        → Leads queue_machine v call before after w → OwnsListener key v.mine
        → v.seen ≡ earlier ++ entry by (Notify (2 ^ 64 - 1) additional (Ok told)) ∷ later
        → IsAmong (Insert (Ok key)) (calls_by number earlier) → IsTold key before }
    ensures looked { (key : Key) (number by : ℕ) (additional : Bool) (told : ℕ)
        (v w : View (Queue T W) (QueueCall T W)) (earlier later : QueueLog T W)
        (looks : Looks queue_machine v w) → OwnsListener key w.mine
        → w.seen ≡ earlier ++ entry by (Notify (2 ^ 64 - 1) additional (Ok told)) ∷ later
        → IsAmong (Insert (Ok key)) (calls_by number earlier) → IsTold key looks.led }
    ensures registered { (key : Key) (number by : ℕ) (additional : Bool) (told : ℕ)
        (v w : View (Queue T W) (QueueCall T W)) (reply : RegisterResult T)
        (earlier later : QueueLog T W) (before after : Queue T W)
        → Leads queue_machine v (Register key reply) before after w
        → OwnsListener key v.mine
        → v.seen ≡ earlier ++ entry by (Notify (2 ^ 64 - 1) additional (Ok told)) ∷ later
        → IsAmong (Insert (Ok key)) (calls_by number earlier) → (tag : T) × (reply ≡ Notified tag) }
    ensures removed { (key : Key) (number by : ℕ) (additional : Bool) (told : ℕ)
        (v w : View (Queue T W) (QueueCall T W)) (propagate : Bool) (reply : Option (State T W))
        (earlier later : QueueLog T W) (before after : Queue T W)
        → Leads queue_machine v (Remove key propagate reply) before after w
        → OwnsListener key v.mine
        → v.seen ≡ earlier ++ entry by (Notify (2 ^ 64 - 1) additional (Ok told)) ∷ later
        → IsAmong (Insert (Ok key)) (calls_by number earlier) → FindsTold propagate reply }
{}

/// Proves that each tag that is taken was given: the listener that takes a tag waited until a call of the history notified the
/// listener with just that tag.
///
/// The call was a notification, or a removal that propagated a notification to the listener. The law holds of each listener that
/// is notified and whose tag is not taken yet, too. Each listener in the queue was inserted by a call of the history. Does
/// nothing when a program runs.
pub fn tag_was_told<T, W>()
    ensures taken { (key : Key) (log : QueueLog T W) (q next : Queue T W) (tag : T)
        → LeadsTo queue_machine log q → calls q (Register key (Notified tag)) next
        → (notice : Notice T) × (notice.tag ≡ tag) × WasTold key notice log q }
    ensures stood { (key : Key) (by : ℕ) (earlier later : QueueLog T W) (end : Queue T W) (tag : T)
        → LeadsTo queue_machine (earlier ++ entry by (Register key (Notified tag)) ∷ later) end
        → (q : Queue T W) × (notice : Notice T) × (notice.tag ≡ tag)
        × WasTold key notice earlier q }
    ensures told { (key : Key) (log : QueueLog T W) (q : Queue T W) (notice : Notice T)
        → LeadsTo queue_machine log q → lookup (is_key key) q.told ≡ Some notice
        → WasTold key notice log q }
    ensures listened { (key : Key) (log : QueueLog T W) (q : Queue T W)
        → LeadsTo queue_machine log q → IsIn key q → Listens key log }
{}

/// Proves that of two listeners the listener inserted first has the lower serial number and is notified first: no listener waits
/// while a later one is notified. Does nothing when a program runs.
pub fn first_told_first<T, W>()
    ensures serials { (a b : Key) (x y : ℕ) (earlier between later : QueueLog T W) (q : Queue T W)
        → LeadsTo queue_machine
        (earlier ++ entry x (Insert (Ok a)) ∷ (between ++ entry y (Insert (Ok b)) ∷ later)) q
        → a.serial < b.serial }
    ensures told { (a b : Key) (log : QueueLog T W) (q : Queue T W) → LeadsTo queue_machine log q
        → a.serial < b.serial → IsTold b q → IsIn a q → IsTold a q }
{}

/// Proves where the notification of a dropped listener goes: to the first listener that waits, with its tag, if the notification
/// still wants one more notified after the drop.
///
/// Else the notification is lost, and the call returns it. So where a hand has seen that two listeners are all that there are,
/// and one of them was notified and then dropped, the other one is found notified after that (`next`), because no third listener
/// stands before it. Does nothing when a program runs.
pub fn passes_on<T, W>()
    ensures wanted { (key : Key) (log : QueueLog T W) (old new : Queue T W) (notice : Notice T)
        (reply : Option (State T W)) → LeadsTo queue_machine log old
        → lookup (is_key key) old.told ≡ Some notice → calls old (Remove key true reply) new
        → how_many 1 notice.additional (told_leaves key old) ≡ 1 → (to : Key)
        × (reply ≡ Some (Passed to)) × GoesToFirst to notice old new }
    ensures unwanted { (key : Key) (log : QueueLog T W) (old new : Queue T W) (notice : Notice T)
        (reply : Option (State T W)) → LeadsTo queue_machine log old
        → lookup (is_key key) old.told ≡ Some notice → calls old (Remove key true reply) new
        → how_many 1 notice.additional (told_leaves key old) ≡ 0
        → (reply ≡ Some (Lost notice.additional notice.tag)) × (new ≡ told_leaves key old) }
    ensures next { (a b : Key) (x y m n told : ℕ) (former reply : Option (State T W))
        (propagate : Bool) (v w : View (Queue T W) (QueueCall T W))
        (earlier between later : QueueLog T W) (before after : Queue T W)
        → Leads queue_machine v (Remove b propagate reply) before after w
        → OwnsListener b v.mine
        → v.seen ≡ earlier ++ entry m (Counts told 2)
        ∷ (between ++ entry n (Remove a true former) ∷ later)
        → IsAmong (Insert (Ok a)) (calls_by x earlier)
        → IsAmong (Insert (Ok b)) (calls_by y earlier) → FindsTold true former
        → FindsTold propagate reply }
{}

/// Proves that what a hand has seen only grows: after a call the hand has seen all that it had seen before, and after it took in
/// another hand, all that the other hand had seen.
///
/// A hand that was forked from another hand calls after all that the other one had seen by then. Does nothing when a program
/// runs.
pub fn told_hands_call_later<S: Steps>()
    ensures seen { (start : S.Start) (v w : View S S.Call) (call : S.Call)
        → Extends (machine_of S.Steps start) v call w
        → StartsWith w.seen v.seen }
    ensures took_in { (start : S.Start) (v other w : View S S.Call)
        → Looks (machine_of S.Steps start) (both_views v other) w
        → StartsWith w.seen other.seen }
    ensures later { (start : S.Start) (v w : View S S.Call) (call : S.Call)
        → Extends (machine_of S.Steps start) (newcomer v.seen) call w
        → (between : List (Entry S.Call))
        × (number : ℕ) × (w.seen ≡ v.seen ++ between ++ entry number call ∷ []) }
{}
