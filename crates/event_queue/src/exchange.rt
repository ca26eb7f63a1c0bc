ghost use Rattle.std.specs.Prelude.{Option};

/// What makes the task that a waiting listener stores, from the task that it stored before, if any.
///
/// Generic callers know an implementation by its relation `exchanged`: the exchange itself, what it works on before, the task
/// that was stored, the task to store, and what it works on after. An implementation repeats the clause of `exchange`.
pub trait TaskExchange<W, C> {
    ghost exchanged: { Self → C → Option W → W → C → Type 0 };

    /// Takes the task that the listener had stored, if any, and returns the task to store. The exchange works on `on`, for
    /// example on the context of a task that polls.
    fn exchange(&self, on: &mut C, stored: Option<W>) -> W
        ensures { exchanged self.now on.old stored result on.new };
}
