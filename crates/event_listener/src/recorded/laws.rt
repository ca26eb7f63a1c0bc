//! What ties replay to the steps of a queue.
ghost use Rattle.std.specs.Prelude.{◌≡◌, IsTrue, List};
ghost use Rattle.event_queue.specs.Queue.{Queue};
ghost use Rattle.event_listener.specs.recording.Replay.{ReplaysTo, replays, same_reply};
ghost use Rattle.event_listener.specs.recording.Run.{IsRun, empty_queue};
ghost use Rattle.event_listener.specs.Closing.{same_call};
ghost use Rattle.event_listener.specs.declared.recorded.call.RecordedCall.{RecordedCall};
ghost use Rattle.event_listener.specs.declared.recorded.entry.Entry.{Entry};
ghost use Rattle.event_listener.specs.declared.recorded.reply.RecordedReply.{RecordedReply};

use super::call::RecordedCall;
use super::reply::RecordedReply;

/// Proves that two replies are equal by `==` exactly if they are so by `same_reply`, by which clauses compare them.
///
/// That means: they are of one kind and have equal parts, where tags are compared by the equality of `T`. Does nothing when a
/// program runs.
pub fn equal_replies<T: Eq>()
    ensures { (reply other : RecordedReply T)
        → ⟦<RecordedReply<T> as PartialEq>⟧.eq reply other ≡ same_reply T.eq reply other }
{}

/// Proves that two calls are equal by `==` exactly if they are so by `same_call`, by which clauses compare them.
///
/// That means: they are of one kind and have equal parts, where tags are compared by the equality of `T`. Does nothing when a
/// program runs.
pub fn equal_calls<T: Eq>()
    ensures { (call other : RecordedCall T)
        → ⟦<RecordedCall<T> as PartialEq>⟧.eq call other ≡ same_call T.eq call other }
{}

/// Proves that entries replay exactly if they are a run of a queue that was empty, whatever tasks the listeners stored.
///
/// In a run each entry is a step of the queue. The entries replay to the queue that the run leaves. Does nothing when a
/// program runs.
pub fn replays_exactly_the_runs<T: Eq, W>()
    ensures run_replays { (entries : List (Entry T)) (queue : Queue T W)
        → IsRun T.eq empty_queue entries queue → ReplaysTo T.eq entries queue }
    ensures replayed_is_run { (task : W) (entries : List (Entry T)) → IsTrue (replays T.eq entries)
        → (queue : Queue T W) × IsRun T.eq empty_queue entries queue }
{}
