//! A cell that is set once.
ghost use Rattle.std.specs.Prelude.{◌≡◌, ◌⊎◌, false, None, Some, Err, IfErr, IfOk, IfSome, IsSome};
ghost use Rattle.std.specs.Fn.{FnOnceReturns};
ghost use Rattle.event_wait.specs.declared.lock.limit.Limit.TheVariants.{Never};
ghost use Rattle.event_monitor.specs.Queued.{IsMadeOf};

mod claim;
mod initializing;
mod once;
mod waits;

pub use self::claim::{Claim, Vacant};
pub use self::initializing::{Initializing, Surely};
pub use self::once::{IsSet, Once, Turn};
pub use self::waits::{Claiming, Seeing};
use crate::asking::obtain;
use crate::error::{SetError, SetReason, WaitError};
use crate::lock::{QuietLock, quiet_step};
use crate::ticket::Ticket;
use event_wait::{Limit, Task};
use std::alloc::Global;
use std::marker::Model;
use std::sync::{OnceLock, OnceToken, Wait};
use std::time::{Clock, Duration, Instant};

/// A value that is set once. One caller at a time makes the value while the others wait; if that caller fails or gives up, the
/// next caller has the turn.
///
/// A contract sees the number of the source at which waiting tasks are registered, and a name of what is set.
///
/// ```rust
/// let port = cell.get_or_try_init(rt, alloc, || -> anyhow::Result<u16> { Ok(text.parse()?) })?;
/// Ok(*port)
/// ```
#[derive(Drop)]
pub struct OnceCell<T> {
    once: QuietLock<Once<Task>>,
    value: OnceLock<T>,
}

impl<T> Model for OnceCell<T> {
    ghost use Rattle.event_monitor.specs.Once.{Cell};

    ghost Value = { Cell };

    ghost view = { λ cell. record { source = cell.once; id = cell.value.id } };
}

impl<T> OnceCell<T> {
    /// Makes a cell without a value. It takes no memory until somebody waits.
    pub fn new(alloc: Global) -> Self {
        OnceCell {
            once: QuietLock::of(alloc, Once::new(alloc)),
            value: OnceLock::new(),
        }
    }

    /// Returns the value, if it is set. The call takes no lock and never blocks.
    pub fn get(&self) -> Option<&T> {
        self.value.get()
    }

    /// Returns whether the value is set. The call takes no lock and never blocks.
    pub fn is_initialized(&self) -> bool {
        self.value.get().is_some()
    }

    /// Returns, if the value is set, a token of no bytes that shows a contract which value it is. All tokens of one cell agree.
    ///
    /// The call takes no lock and never blocks.
    pub fn witness(&self) -> Option<OnceToken<'_, T>>
        ensures { IfSome result (λ token. token.of ≡ self.now.id) }
    {
        self.value.witness()
    }

    /// Returns the value of which `token` is the witness.
    pub fn value<'a>(&'a self, token: &OnceToken<'a, T>) -> &'a T
        requires { token.now.of ≡ self.now.id }
        ensures { result.now ≡ token.now.value }
    {
        self.value.value(token)
    }

    /// Waits for the value or for the turn to make it, once the returned [`Claiming`] is waited on or polled. Until then
    /// nothing happens.
    ///
    /// `alloc` gives the memory for a place in the queue, if another caller is making the value.
    pub fn claim<'a, R: Wait + Clock>(&'a self, rt: &'a R, alloc: Global) -> Claiming<'a, T, R> {
        Claiming::new(self, rt, alloc)
    }

    /// Waits until somebody has set the value, once the returned [`Seeing`] is waited on or polled. Until then nothing happens.
    ///
    /// `alloc` gives the memory for a place in the queue, if the value is not set.
    pub fn wait<'a, R: Wait + Clock>(&'a self, rt: &'a R, alloc: Global) -> Seeing<'a, T, R> {
        Seeing::new(self, rt, alloc)
    }

    /// Sets the value. Blocks while another caller is making it. Returns a reference to the value.
    ///
    /// An error has the value again: the cell was set already, or waiting was refused. For a time limit use
    /// [`Claiming::wait_timeout`] and then [`Vacant::set`].
    pub fn set<'a, R: Wait + Clock>(
        &'a self,
        rt: &'a R,
        alloc: Global,
        value: T,
    ) -> Result<&'a T, SetError<T>>
        ensures kept { IfOk result (λ kept. kept.now ≡ value) }
        ensures returned { IfErr result (λ error. error.value ≡ value) }
    {
        match self.set_witness(rt, alloc, value) {
            Ok(token) => Ok(self.value(&token)),
            Err(error) => Err(error),
        }
    }

    /// Sets the value, like [`set`](OnceCell::set). Returns the token that shows a contract that this value is set.
    pub fn set_witness<'a, R: Wait + Clock>(
        &'a self,
        rt: &'a R,
        alloc: Global,
        value: T,
    ) -> Result<OnceToken<'a, T>, SetError<T>>
        ensures of { IfOk result (λ token. token.of ≡ self.now.id) }
        ensures kept { IfOk result (λ token. token.value ≡ value) }
        ensures returned { IfErr result (λ error. error.value ≡ value) }
    {
        let turn = match self.claim_until(rt, alloc, Limit::Never) {
            Ok(Some(Claim::Vacant(turn))) => turn,
            Ok(Some(Claim::Value(_))) => return Err(SetError::new(value, SetReason::AlreadySet)),
            Ok(None) => unreachable!(),
            Err(error) => return Err(SetError::new(value, SetReason::WaitFailed(error))),
        };
        turn.spend();
        let (token, back) = self.insert(rt, value);
        match back {
            None => Ok(token),
            Some(value) => Err(SetError::new(value, SetReason::AlreadySet)),
        }
    }

    /// Returns the value, and makes it by `make` if it is not set. An error of `make` goes to this caller alone, and the next
    /// caller has the turn.
    ///
    /// If the value is set the call takes no lock. It blocks while another caller is making the value. `make` runs with no lock
    /// held, but must not ask for the value of the same cell: the call would wait for itself.
    pub fn get_or_try_init<'a, R, E, F>(
        &'a self,
        rt: &'a R,
        alloc: Global,
        make: F,
    ) -> Result<&'a T, E>
    where
        T: Drop,
        R: Wait + Clock,
        E: From<WaitError>,
        F: FnOnce() -> Result<T, E> + Drop,
        requires { F.IsAlwaysCallable make }
        ensures failed { IfErr result (λ error. FnOnceReturns F.FnOnce make tt (Err error)
            ⊎ IsMadeOf E.from_gives error) }
    {
        match self.get_or_try_init_until(rt, alloc, Limit::Never, make) {
            Ok(Some(value)) => Ok(value),
            Ok(None) => unreachable!(),
            Err(error) => Err(error),
        }
    }

    /// Returns the value, and makes it by `make` if it is not set, like [`get_or_try_init`](OnceCell::get_or_try_init). Blocks
    /// for another caller that is making the value, at most for `timeout`.
    ///
    /// `None` says that the value was not made in time: then `make` was not called. The time that `make` takes is not counted.
    pub fn get_or_try_init_timeout<'a, R, E, F>(
        &'a self,
        rt: &'a R,
        alloc: Global,
        timeout: Duration,
        make: F,
    ) -> Result<Option<&'a T>, E>
    where
        T: Drop,
        R: Wait + Clock,
        E: From<WaitError>,
        F: FnOnce() -> Result<T, E> + Drop,
        requires { F.IsAlwaysCallable make }
        ensures failed { IfErr result (λ error. FnOnceReturns F.FnOnce make tt (Err error)
            ⊎ IsMadeOf E.from_gives error) }
    {
        self.get_or_try_init_until(rt, alloc, Limit::after(rt, timeout), make)
    }

    /// Returns the value, and makes it by `make` if it is not set, like [`get_or_try_init`](OnceCell::get_or_try_init). Blocks
    /// for another caller that is making the value, at most until `deadline`.
    ///
    /// `None` says that the value was not made in time: then `make` was not called.
    pub fn get_or_try_init_deadline<'a, R, E, F>(
        &'a self,
        rt: &'a R,
        alloc: Global,
        deadline: Instant,
        make: F,
    ) -> Result<Option<&'a T>, E>
    where
        T: Drop,
        R: Wait + Clock,
        E: From<WaitError>,
        F: FnOnce() -> Result<T, E> + Drop,
        requires { F.IsAlwaysCallable make }
        ensures failed { IfErr result (λ error. FnOnceReturns F.FnOnce make tt (Err error)
            ⊎ IsMadeOf E.from_gives error) }
    {
        self.get_or_try_init_until(rt, alloc, Limit::At(deadline), make)
    }

    /// Returns the value, and makes it by `make`, which can't fail, if it is not set. Blocks while another caller is making the
    /// value.
    ///
    /// `make` must not ask for the value of the same cell: the call would wait for itself.
    pub fn get_or_init<'a, R, F>(
        &'a self,
        rt: &'a R,
        alloc: Global,
        make: F,
    ) -> Result<&'a T, WaitError>
    where
        T: Drop,
        R: Wait + Clock,
        F: FnOnce() -> T + Drop,
        requires { F.IsAlwaysCallable make }
    {
        match self.get_or_init_until(rt, alloc, Limit::Never, make)? {
            Some(value) => Ok(value),
            None => unreachable!(),
        }
    }

    /// Returns the value, and makes it by `make`, which can't fail, if it is not set. Blocks for another caller that is making
    /// the value, at most for `timeout`.
    ///
    /// `None` says that the value was not made in time: then `make` was not called. The time that `make` takes is not counted.
    pub fn get_or_init_timeout<'a, R, F>(
        &'a self,
        rt: &'a R,
        alloc: Global,
        timeout: Duration,
        make: F,
    ) -> Result<Option<&'a T>, WaitError>
    where
        T: Drop,
        R: Wait + Clock,
        F: FnOnce() -> T + Drop,
        requires { F.IsAlwaysCallable make }
    {
        self.get_or_init_until(rt, alloc, Limit::after(rt, timeout), make)
    }

    /// Returns the value, and makes it by `make`, which can't fail, if it is not set. Blocks for another caller that is making
    /// the value, at most until `deadline`.
    ///
    /// `None` says that the value was not made in time: then `make` was not called.
    pub fn get_or_init_deadline<'a, R, F>(
        &'a self,
        rt: &'a R,
        alloc: Global,
        deadline: Instant,
        make: F,
    ) -> Result<Option<&'a T>, WaitError>
    where
        T: Drop,
        R: Wait + Clock,
        F: FnOnce() -> T + Drop,
        requires { F.IsAlwaysCallable make }
    {
        self.get_or_init_until(rt, alloc, Limit::At(deadline), make)
    }

    /// Gives a task the value, once the returned future is awaited. If the value is not set, the future `make` makes it.
    ///
    /// While another caller is making the value the task waits, for which it takes memory from `alloc`.
    pub fn get_or_init_async<'a, R: Wait + Clock, M>(
        &'a self,
        rt: &'a R,
        alloc: Global,
        maker: M,
    ) -> Initializing<'a, T, R, Surely<M>>
        ensures maker { result.maker.maker ≡ maker }
        ensures turn { result.has_turn ≡ false }
        ensures source { result.source ≡ Some self.now.source }
    {
        Initializing::new(self, rt, alloc, Surely { maker })
    }

    /// Gives a task the value, once the returned future is awaited. If the value is not set, the future `make` makes it or
    /// fails; after an error the next caller has the turn.
    ///
    /// While another caller is making the value the task waits, for which it takes memory from `alloc`.
    pub fn get_or_try_init_async<'a, R: Wait + Clock, M>(
        &'a self,
        rt: &'a R,
        alloc: Global,
        maker: M,
    ) -> Initializing<'a, T, R, M>
        ensures maker { result.maker ≡ maker }
        ensures turn { result.has_turn ≡ false }
        ensures source { result.source ≡ Some self.now.source }
    {
        Initializing::new(self, rt, alloc, maker)
    }

    /// Returns a reference by which the value can be changed, if it is set.
    pub fn get_mut(&mut self) -> Option<&mut T> {
        self.value.get_mut()
    }

    /// Takes the value out, if it is set. From here on the cell is like a new one.
    pub fn take(&mut self, alloc: Global) -> Option<T> {
        self.once = QuietLock::of(alloc, Once::new(alloc));
        self.value.take()
    }

    /// Ends the cell and returns its value, if it is set.
    pub fn into_inner(self) -> Option<T> {
        let OnceCell { once: _, value } = self;
        value.into_inner()
    }

    fn get_or_try_init_until<'a, R, E, F>(
        &'a self,
        rt: &'a R,
        alloc: Global,
        limit: Limit,
        make: F,
    ) -> Result<Option<&'a T>, E>
    where
        T: Drop,
        R: Wait + Clock,
        E: From<WaitError>,
        F: FnOnce() -> Result<T, E> + Drop,
        requires { F.IsAlwaysCallable make }
        ensures never { limit ≡ Never → IfOk result IsSome }
        ensures failed { IfErr result (λ error. FnOnceReturns F.FnOnce make tt (Err error)
            ⊎ IsMadeOf E.from_gives error) }
    {
        if let Some(value) = self.get() {
            return Ok(Some(value));
        }
        match self.claim_until(rt, alloc, limit)? {
            Some(Claim::Vacant(turn)) => Ok(Some(turn.fill(make()?))),
            Some(Claim::Value(value)) => Ok(Some(value)),
            None => Ok(None),
        }
    }

    fn get_or_init_until<'a, R, F>(
        &'a self,
        rt: &'a R,
        alloc: Global,
        limit: Limit,
        make: F,
    ) -> Result<Option<&'a T>, WaitError>
    where
        T: Drop,
        R: Wait + Clock,
        F: FnOnce() -> T + Drop,
        requires { F.IsAlwaysCallable make }
        ensures never { limit ≡ Never → IfOk result IsSome }
    {
        if let Some(value) = self.get() {
            return Ok(Some(value));
        }
        match self.claim_until(rt, alloc, limit)? {
            Some(Claim::Vacant(turn)) => Ok(Some(turn.fill(make()))),
            Some(Claim::Value(value)) => Ok(Some(value)),
            None => Ok(None),
        }
    }

    // Blocks the thread until it has the value or the turn, or until the limit.
    fn claim_until<'a, R: Wait + Clock>(
        &'a self,
        rt: &'a R,
        alloc: Global,
        limit: Limit,
    ) -> Result<Option<Claim<'a, T, R>>, WaitError>
        ensures never { limit ≡ Never → IfOk result IsSome }
    {
        let mut ticket: Ticket<Turn> = Ticket::new();
        match obtain(&self.once, rt, alloc, &mut ticket, limit) {
            Ok(Some(turn)) => Ok(Some(self.claimed(rt, turn))),
            Ok(None) => Ok(None),
            Err(refused) => Err(WaitError::from(refused)),
        }
    }

    fn claimed<'a, R: Wait + Clock>(&'a self, rt: &'a R, turn: Turn) -> Claim<'a, T, R> {
        let vacant = Vacant {
            cell: self,
            rt,
            turn,
        };
        match self.value.get() {
            Some(value) => {
                drop(vacant);
                Claim::Value(value)
            }
            None => Claim::Vacant(vacant),
        }
    }

    // Sets this value, if the cell has none yet, and ends the turn. Returns a token of the value that the cell has, and gives
    // this value back if the cell has another.
    fn insert<R: Wait>(&self, rt: &R, value: T) -> (OnceToken<'_, T>, Option<T>)
        ensures of { result.0.of ≡ self.now.id }
        ensures kept { result.1 ≡ None → result.0.value ≡ value }
        ensures returned { IfSome result.1 (λ back. back ≡ value) }
    {
        let inserted = match self.value.try_insert(rt, value) {
            Ok(token) => (token, None),
            Err((token, value)) => (token, Some(value)),
        };
        self.give_back(rt, Turn::Made);
        inserted
    }

    fn give_back<R: Wait>(&self, rt: &R, turn: Turn) {
        quiet_step!(self.once, rt, once, sink => once.give_back(turn, &mut sink))
    }
}
