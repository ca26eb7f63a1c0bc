//! One step of a recorded queue.
ghost use Rattle.std.specs.Prelude.{◌≡◌, replicate};
ghost use Rattle.std.specs.List.{FoldsTo};
ghost use Rattle.event_queue.specs.Queue.{IsQueue, how_many, after_telling, tasks_of};
ghost use Rattle.event_queue.specs.Remove.{woken_by_removal};
ghost use Rattle.event_listener.specs.recording.Step.{Steps, RemovesAs, without_task, task_of, woken_by_call};
ghost use Rattle.event_listener.specs.recording.Exchange.{StepsWithSome, ExchangesIfWaiting};
ghost use Rattle.event_listener.specs.recording.State.{unspared};
ghost use Rattle.event_listener.specs.declared.recorded.call.RecordedCall.TheVariants.{Register};

use super::call::{RecordedCall, StepCall};
use super::copied_tag::CopiedTag;
use super::reply::{Former, RecordedReply};
use event_queue::{Key, List, TaskExchange, WakeSink};
use event_wait::Task;

/// What makes one step of a recorded queue: a call, with the sink of the tasks that the call wakes beside the queue, or a
/// [`PollStep`], with the context of the task that polls.
pub(super) trait MakesStep<T: Copy, C>: Drop {
    ghost use Rattle.event_queue.specs.Queue.{Queue};
    ghost use Rattle.event_wait.specs.declared.lock.task.Task.{Task};
    ghost use Rattle.event_listener.specs.declared.recorded.call.RecordedCall.{RecordedCall};
    ghost use Rattle.event_listener.specs.declared.recorded.reply.RecordedReply.{RecordedReply};

    // The call that a record keeps of the step.
    ghost call: { Self → RecordedCall T };

    // The step, from the queue and what is beside it to both afterwards, by its reply.
    ghost steps: { Self → Queue T Task × C → RecordedReply T → Queue T Task × C → Type 0 };

    /// Returns the call that a record keeps of the step.
    fn recorded(&self) -> RecordedCall<T>
        ensures { result ≡ call self.now };

    /// Makes the step, and returns what the queue returned. Takes memory only for an insertion.
    fn make(self, list: &mut List<T, Task>, beside: &mut C) -> RecordedReply<T>
        ensures steps { steps self (list.old, beside.old) result (list.new, beside.new) }
        ensures is_step { StepsWithSome list.old (call self) result list.new }
        ensures queue { IsQueue list.new };
}

impl<T: Copy, S: WakeSink<Task>> MakesStep<T, S> for StepCall<T> {
    ghost call = { λ call. without_task call };

    ghost steps = { λ call before reply after.
        Steps before.0 (without_task call) (task_of call) reply after.0
        × FoldsTo S.woke before.1 (woken_by_call (without_task call) before.0) after.1 };

    #[inline(always)]
    fn recorded(&self) -> RecordedCall<T> {
        StepCall::recorded(self)
    }

    #[inline(always)]
    fn make(self, list: &mut List<T, Task>, sink: &mut S) -> RecordedReply<T> {
        match self {
            StepCall::Listen => RecordedReply::Listened(list.insert_uncounted()),
            StepCall::Register { key, task } => RecordedReply::Registered(list.register_uncounted(
                key, task,
            )),
            StepCall::Remove { key, propagate } => {
                RecordedReply::Removed(perform_removal_apart(list, key, propagate, sink))
            }
            StepCall::Notify {
                count,
                additional,
                tag,
            } => {
                let source = CopiedTag {
                    count,
                    additional,
                    tag,
                };
                RecordedReply::Notified(perform_notification(list, source, sink))
            }
            StepCall::TotalListeners => RecordedReply::TotalListeners(list.total_listeners()),
            StepCall::IsNotified => RecordedReply::IsNotified(list.is_notified()),
        }
    }
}

/// A step that registers a listener, with a task made from the task that the listener had stored.
#[derive(Drop)]
pub(super) struct PollStep<'x, X> {
    pub(super) key: Key,
    pub(super) exchange: &'x X,
}

impl<T: Copy, C, X: TaskExchange<Task, C>> MakesStep<T, C> for PollStep<'_, X> {
    ghost call = { λ step. Register step.key };

    ghost steps = { λ step before reply after.
        ExchangesIfWaiting (X.exchanged step.exchange.now) before.1 reply after.1 };

    fn recorded(&self) -> RecordedCall<T> {
        RecordedCall::Register { key: self.key }
    }

    fn make(self, list: &mut List<T, Task>, on: &mut C) -> RecordedReply<T> {
        RecordedReply::Registered(list.register_with_uncounted(self.key, self.exchange, on))
    }
}

/// Removes a listener, and returns what the listener was, without its task. Takes no memory and never blocks.
#[inline(always)]
pub(super) fn perform_removal<T: Copy, S: WakeSink<Task>>(
    list: &mut List<T, Task>,
    key: Key,
    propagate: bool,
    sink: &mut S,
) -> Option<Former<T>>
    ensures step { RemovesAs list.old key propagate result list.new }
    ensures wakes { FoldsTo S.woke sink.old
        (woken_by_removal key propagate (unspared list.old)) sink.new }
    ensures queue { IsQueue list.new }
{
    Some(Former::of(list.remove_uncounted(key, propagate, sink)?))
}

// Does what `perform_removal` does, where a hand asks for the removal, which is rare. This function stands apart, since the
// compiler inlines no function that would grow very large, however it is marked, and a step that is not inlined where its
// call is known has to ask which call it is.
#[inline(never)]
fn perform_removal_apart<T: Copy, S: WakeSink<Task>>(
    list: &mut List<T, Task>,
    key: Key,
    propagate: bool,
    sink: &mut S,
) -> Option<Former<T>>
    ensures step { RemovesAs list.old key propagate result list.new }
    ensures wakes { FoldsTo S.woke sink.old
        (woken_by_removal key propagate (unspared list.old)) sink.new }
    ensures queue { IsQueue list.new }
{
    perform_removal(list, key, propagate, sink)
}

// Notifies with copies of one tag, and returns how many listeners were notified. No copy fails.
fn perform_notification<T: Copy, S: WakeSink<Task>>(
    list: &mut List<T, Task>,
    mut source: CopiedTag<T>,
    sink: &mut S,
) -> usize
    ensures told { result ≡ how_many source.count source.additional list.old }
    ensures queue_after { list.new ≡ after_telling source.additional
        (replicate result source.tag) list.old }
    ensures wakes { FoldsTo S.woke sink.old (tasks_of result list.old) sink.new }
    ensures queue { IsQueue list.new }
{
    list.notify_uncounted(&mut source, sink).unwrap()
}
