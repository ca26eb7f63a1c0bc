//! Calls as values, made one after another.
ghost use Rattle.std.specs.Prelude.{◌≡◌, ◌+◌, ◌≤◌, OnOk, OnErr, IsOk, vec_len, vec_capacity};
ghost use Rattle.std.specs.List.{FoldsTo};
ghost use Rattle.event_queue.specs.declared.key.Key.{Key};
ghost use Rattle.event_queue.specs.Queue.{IsQueue, IsGone};
ghost use Rattle.event_queue.specs.Run.{Step, RunsAll, woken_by};

use crate::call::{Call, Reply};
use crate::list::List;
use crate::tag_list::TagList;
use crate::wake::WakeSink;
use std::alloc::AllocError;

impl<T: Drop, W: Drop> List<T, W> {
    /// Makes the calls one after another, and appends the reply of each to `replies`. If a call fails, its error is its
    /// reply, and the run goes on.
    ///
    /// Room for all replies is made first, which takes memory if `replies` has too little. If there is no memory, the call
    /// returns an error, makes no call, drops the calls, and leaves the queue, the replies and the sink as they were. From
    /// then on memory is taken only by insertions, whose failure is a reply. The tasks that the calls wake are given to
    /// `sink`. A notification of the run has its tags in a list, and after the last tag it refuses to give one.
    pub fn run<S: WakeSink<W>>(
        &mut self,
        calls: Vec<Call<T, W>>,
        replies: &mut Vec<Reply<T, W>>,
        sink: &mut S,
    ) -> Result<(), AllocError>
        // The answers, the tags, the woken tasks and the listeners left are those of the two lists.
        ensures ok { OnOk result (RunsAll S.woke calls.items self.old replies.old.items sink.old
            self.new replies.new.items sink.new) }
        ensures one_each { OnOk result (vec_len replies.new ≡ vec_len replies.old + vec_len calls) }
        ensures queue { IsQueue self.new }

        // A refusal changes nothing, and there is none where the replies have room.
        ensures queue_unchanged { OnErr result (self.new ≡ self.old) }
        ensures replies_unchanged { OnErr result (replies.new.items ≡ replies.old.items) }
        ensures sink_unchanged { OnErr result (sink.new ≡ sink.old) }
        ensures succeeds { vec_len replies.old + vec_len calls
            ≤ vec_capacity replies.old → IsOk result }

        // Who is gone stays gone.
        ensures gone { (key : Key) → IsGone key self.old → IsGone key self.new }
        ensures serial { self.old.next_serial ≤ self.new.next_serial }
    {
        self.invariant_holds();
        replies.reserve(calls.len())?;
        for call in calls {
            replies.push_reserved(self.perform(call, sink));
        }
        Ok(())
    }

    // Makes one call, and returns its reply.
    fn perform<S: WakeSink<W>>(&mut self, call: Call<T, W>, sink: &mut S) -> Reply<T, W>
        ensures step { Step self.old call result self.new }
        ensures wakes { FoldsTo S.woke sink.old (woken_by call result self.old) sink.new }
        ensures queue { IsQueue self.new }
        ensures gone { (key : Key) → IsGone key self.old → IsGone key self.new }
        ensures serial { self.old.next_serial ≤ self.new.next_serial }
    {
        match call {
            Call::Insert => Reply::Inserted(self.insert_uncounted()),
            Call::Register { key, task } => Reply::Registered(self.register_uncounted(key, task)),
            Call::Remove { key, propagate } => Reply::Removed(self.remove_uncounted(
                key, propagate, sink,
            )),
            Call::Notify {
                count,
                additional,
                tags,
            } => {
                let mut source = TagList {
                    count,
                    additional,
                    tags: tags.into_iter(),
                };
                Reply::Notified(self.notify_uncounted(&mut source, sink))
            }
            Call::TotalListeners => Reply::TotalListeners(self.total_listeners()),
            Call::IsNotified => Reply::IsNotified(self.is_notified()),
        }
    }
}
