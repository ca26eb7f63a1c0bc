ghost use Rattle.std.specs.Prelude.{◌≡◌};

/// What makes the value that an entry carries next, from the value that the entry carries.
///
/// Generic callers know an implementation by its relation `changes`: the change itself, what it works on before, the value
/// that the entry had, the value that the entry gets, and what it works on after. An implementation repeats the clause of
/// `change`.
pub trait Change<B, C> {
    ghost changes: { Self → C → B → B → C → Type 0 };

    /// Takes the value that the entry had, and returns the value that the entry gets.
    fn change(self, on: &mut C, former: B) -> B
        ensures { changes self on.old former result on.new };
}
