/// A sink: what a queue gives the tasks to that a call wakes.
///
/// Generic callers know an implementation by its relation `woke`: the state before, the task, the state after. A call gives
/// each task to the sink once, in queue order. Clauses say so by a chain of `woke` from the sink before to the sink after.
pub trait WakeSink<W> {
    ghost woke: { Self → W → Self → Type 0 };

    /// Wakes the task, or keeps it to be woken later.
    fn wake(&mut self, task: W)
        ensures { woke self.old task self.new };
}
