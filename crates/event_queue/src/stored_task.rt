//! The two ways in which the stored task of a waiting listener changes.
ghost use Rattle.std.specs.Prelude.{◌≡◌, Option, Some};
ghost use Rattle.event_queue.specs.StoredTask.{StoresWhat};

use crate::exchange::TaskExchange;
use crate::node::Change;

/// A change that stores this task, and hands out the task that was stored.
#[derive(Drop)]
pub(crate) struct Storing<W> {
    pub(crate) task: W,
}

impl<W: Drop> Change<Option<W>, Option<W>> for Storing<W> {
    ghost changes = { λ storing _ _ stored _. stored ≡ Some storing.task };

    #[inline(always)]
    fn change(self, handed_out: &mut Option<W>, former: Option<W>) -> Option<W>
        ensures { result ≡ Some self.task }
    {
        *handed_out = former;
        Some(self.task)
    }
}

/// A change that stores what the exchange makes of the stored task.
#[derive(Drop)]
pub(crate) struct Exchanging<'a, X> {
    pub(crate) exchange: &'a X,
}

impl<'a, W, C, X: TaskExchange<W, C>> Change<Option<W>, C> for Exchanging<'a, X> {
    ghost changes = { λ exchanging before handed_out stored after.
        StoresWhat (X.exchanged exchanging.exchange.now before handed_out) stored after };

    #[inline(always)]
    fn change(self, on: &mut C, stored: Option<W>) -> Option<W>
        ensures { StoresWhat (X.exchanged self.entry.exchange.now on.old stored) result on.new }
    {
        Some(self.exchange.exchange(on, stored))
    }
}
