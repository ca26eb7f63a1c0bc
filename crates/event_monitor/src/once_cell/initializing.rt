//! A value that a task makes.
ghost use Rattle.std.specs.Prelude.{◌≡◌, false, Some, IfErr, IsSomeAnd};
ghost use Rattle.futures.specs.Poll.{IfReady, OnPending};
ghost use Rattle.futures.specs.Task.{Covers, Keeps};
ghost use Rattle.event_monitor.specs.Making.{FailsBy, GivesSurely, GoesOn, WaitsFor};

use super::waits::Claiming;
use super::{Claim, OnceCell, Vacant};
use crate::error::PollError;
use futures::Future;
use futures::task::{Context, Poll};
use std::alloc::Global;
use std::marker::Model;
use std::sync::Wait;
use std::time::Clock;

/// A future that gives a task the value of a cell. If the value is not set, another future makes it: the maker.
///
/// The future waits for its turn, and polls the maker only then, so that the maker of no other caller is polled meanwhile. The
/// value that the maker gives sets the cell and wakes all waiters. If the maker fails, its error is the output, and the next
/// caller has the turn. If the future is dropped before, it drops the maker, and then the next caller has the turn. A poll
/// after the output answers [`PollError::Finished`].
///
/// A contract sees the maker, whether it has the turn, and the number of the source at which the future waits for the turn.
#[must_use = "nothing is asked for until it is polled"]
#[derive(Drop)]
pub struct Initializing<'a, T, R: Wait + Clock, M> {
    // The maker is dropped before the turn: the next caller's maker is polled only once this maker is gone.
    maker: M,
    turn: Option<Vacant<'a, T, R>>,
    claiming: Claiming<'a, T, R>,
}

/// A maker that can't fail, in the place of a maker that could.
#[derive(Drop)]
pub struct Surely<M> {
    pub maker: M,
}

impl<'a, T, R: Wait + Clock, M> Model for Initializing<'a, T, R, M> {
    ghost use Rattle.std.specs.Prelude.{is_some};
    ghost use Rattle.event_monitor.specs.Making.{State, source_of};

    ghost Value = { State M };

    ghost view = { λ it. record {
      maker = it.maker;
      has_turn = is_some it.turn;
      source = source_of (λ asking. asking.cell.now.source) it.claiming.queueing.hold;
    } };
}

impl<'a, T, R: Wait + Clock, M> Initializing<'a, T, R, M> {
    pub(super) fn new(cell: &'a OnceCell<T>, rt: &'a R, alloc: Global, maker: M) -> Self
        ensures maker { result.maker ≡ maker }
        ensures turn { result.has_turn ≡ false }
        ensures source { result.source ≡ Some cell.now.source }
    {
        Initializing {
            maker,
            turn: None,
            claiming: Claiming::new(cell, rt, alloc),
        }
    }

    // Returns the turn, or the value if it is set. A turn that the future has already is handed out.
    fn poll_claim(&mut self, cx: &mut Context<'_>) -> Poll<Result<Claim<'a, T, R>, PollError>>
        ensures maker { self.new.maker ≡ self.old.maker }
        ensures turn { self.new.has_turn ≡ false }
        ensures waits { OnPending result (self.old.has_turn ≡ false) }
        ensures failed { IfReady result (λ answer. IfErr answer (λ _. self.old.has_turn ≡ false)) }
        ensures registered { OnPending result
            (Covers cx.new (λ s. IsSomeAnd self.new.source (λ source. s ≡ source))) }
        ensures kept { Keeps cx.old cx.new }
    {
        match self.turn.take() {
            Some(turn) => Poll::Ready(Ok(Claim::Vacant(turn))),
            None => self.claiming.poll(cx),
        }
    }
}

impl<'a, T, R, E, M> Initializing<'a, T, R, M>
where
    T: Drop,
    R: Wait + Clock,
    E: From<PollError>,
    M: Future<Output = Result<T, E>>,
{
    /// Polls the claim until it has the turn, and then the maker. Registers the task that polls where it has to wait.
    ///
    /// The call may block for the cell's lock.
    #[must_use = "it may be the output"]
    pub fn poll_in(&mut self, cx: &mut Context<'_>) -> Poll<Result<&'a T, E>>
        requires { M.can_poll self.old.maker }
        ensures failed { IfReady result (λ answer.
            IfErr answer (FailsBy M.gives E.from_gives self.old)) }
        ensures over { IfReady result (λ _. self.new.has_turn ≡ false) }
        ensures goes_on { OnPending result (GoesOn self.old self.new) }
        ensures again { OnPending result (M.can_poll self.new.maker) }
        ensures same { OnPending result
            ((x : _) → M.gives self.new.maker x → M.gives self.old.maker x) }
        ensures registered { OnPending result (Covers cx.new (WaitsFor M.needs self.new)) }
        ensures kept { Keeps cx.old cx.new }
    {
        let turn = match self.poll_claim(cx) {
            Poll::Ready(Ok(Claim::Vacant(turn))) => turn,
            Poll::Ready(Ok(Claim::Value(value))) => return Poll::Ready(Ok(value)),
            Poll::Ready(Err(error)) => return Poll::Ready(Err(E::from(error))),
            Poll::Pending => return Poll::Pending,
        };
        match self.maker.poll(cx) {
            Poll::Ready(Ok(value)) => Poll::Ready(Ok(turn.fill(value))),
            Poll::Ready(Err(error)) => {
                drop(turn);
                Poll::Ready(Err(error))
            }
            Poll::Pending => {
                self.turn = Some(turn);
                Poll::Pending
            }
        }
    }
}

impl<'a, T, R, E, M> Future for Initializing<'a, T, R, M>
where
    T: Drop,
    R: Wait + Clock,
    E: From<PollError>,
    M: Future<Output = Result<T, E>>,
{
    type Output = Result<&'a T, E>;

    ghost can_poll = { λ it. M.can_poll it.maker };

    ghost needs = { λ it s. WaitsFor M.needs it s };

    ghost gives = { λ it answer. IfErr answer (FailsBy M.gives E.from_gives it) };

    fn poll(&mut self, cx: &mut Context<'_>) -> Poll<Result<&'a T, E>> {
        self.poll_in(cx)
    }
}

impl<M: Future> Future for Surely<M> {
    type Output = Result<M::Output, PollError>;

    ghost can_poll = { λ it. M.can_poll it.maker };

    ghost needs = { λ it s. M.needs it.maker s };

    ghost gives = { λ it answer. GivesSurely M.gives it.maker answer };

    fn poll(&mut self, cx: &mut Context<'_>) -> Poll<Result<M::Output, PollError>> {
        match self.maker.poll(cx) {
            Poll::Ready(output) => Poll::Ready(Ok(output)),
            Poll::Pending => Poll::Pending,
        }
    }
}
