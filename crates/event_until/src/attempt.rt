//! What is attempted.
ghost use Rattle.std.specs.Prelude.{◌≡◌, ⊤, IfSome, IfNone};

/// What an [`Until`](crate::Until) attempts again and again until it succeeds: to take a lock, or to find a value set.
///
/// The value that implements this trait is the state of the attempts: what they look at, and what they count. Whoever changes
/// something that lets the next attempt succeed has to notify the event of the `Until` after the change, because the `Until`
/// sleeps until then.
///
/// A contract knows an implementation by its ghost relations, which may be left out: `succeeds`, between the state before an
/// attempt, its output and the state after, and `fails`, between the states before and after an attempt that fails.
///
/// Whoever opens a gate makes the change first, so that the next attempt of each who waits finds the gate open:
///
/// ```rust
/// self.is_open.store(true, Ordering::SeqCst);
/// self.opened.notify_relaxed(rt, usize::MAX);
/// ```
pub trait Attempt {
    /// What a successful attempt returns.
    type Output;

    // What a successful attempt does. By default nothing is known of it.
    ghost succeeds: { Self → Self.Output → Self → Type 0 } = { λ _ _ _. ⊤ };

    // What a failed attempt does. By default a failed attempt leaves the state as it was.
    ghost fails: { Self → Self → Type 0 } = { λ before after. after ≡ before };

    /// Makes one attempt, and returns its output, or `None` if the attempt fails.
    ///
    /// An attempt may be made while a listener is in the queue of the event. So the attempt should not block for what another
    /// thread or task holds that itself waits by an [`Until`](crate::Until), because the notification that the other needs
    /// may have picked this listener. An attempt may notify the event.
    ///
    /// This attempt fails until there is a newer value than the waiter has seen:
    ///
    /// ```rust
    /// let latest = *self.watch.latest.lock(self.rt);
    /// if latest.number <= self.seen {
    ///     return None;
    /// }
    /// self.seen = latest.number;
    /// Some(latest)
    /// ```
    fn attempt(&mut self) -> Option<Self::Output>
        ensures succeeded { IfSome result (λ output. succeeds self.old output self.new) }
        ensures failed { IfNone result (fails self.old self.new) };
}
