//! A ticket office: its seats are permits, its price is behind a read-write lock, and its takings are behind a mutex. A thread
//! that makes a sale owns the guards of the sale, each of which keeps its lock by a share of the lock's `Arc`.
ghost use Rattle.std.specs.Prelude.{◌≤◌};

use event_locks::{
    AcquireArc, AcquireError, Mutex, MutexGuardArc, RwLock, RwLockReadGuardArc,
    RwLockWriteGuardArc, Semaphore, SemaphoreGuardArc, TryAcquireError,
};
use std::alloc::Global;
use std::sync::{Arc, Wait};
use std::thread::{self, JoinHandle, Threads};
use std::time::Clock;

/// The seats that are for sale, the price of a seat, and what was paid so far.
#[derive(Drop)]
pub struct Office {
    seats: Arc<Semaphore, Global>,
    price: Arc<RwLock<u64>, Global>,
    takings: Arc<Mutex<u64>, Global>,
}

// Sells the seats for good, and returns what is paid for them. Nobody changes the price or the takings meanwhile.
fn sell<R: Wait + Clock + Drop>(
    seats: SemaphoreGuardArc<R>,
    price: RwLockReadGuardArc<u64, R>,
    takings: MutexGuardArc<u64, R>,
) -> u64 {
    let mut takings = takings;
    let paid = price.saturating_mul(seats.num_permits() as u64);
    *takings = takings.saturating_add(paid);
    seats.forget();
    paid
}

// Sets the price. Readers that came meanwhile are let in at the end, when the guard is dropped.
fn set<R: Wait + Clock + Drop>(price: RwLockWriteGuardArc<u64, R>, amount: u64) {
    let mut price = price;
    *price = amount;
}

// Waits for a seat, and gives the seat back.
fn visit<R: Wait + Clock + Drop>(wait: AcquireArc<R>) -> Result<(), AcquireError> {
    let _seat = wait.wait()?;
    Ok(())
}

impl Office {
    /// Opens an office that has so many seats to sell.
    pub fn new(alloc: Global, seats: usize, price: u64) -> anyhow::Result<Self> {
        let seats = Arc::new(alloc, Semaphore::new(alloc, seats))?;
        let price = Arc::new(alloc, RwLock::new(alloc, price))?;
        let takings = Arc::new(alloc, Mutex::new(alloc, 0u64))?;
        Ok(Office {
            seats,
            price,
            takings,
        })
    }

    /// Adds change to the takings without a lock, if no sale has a share of them. Returns whether none has.
    pub fn put_in_change(&mut self, amount: u64) -> bool {
        let Some(takings) = Arc::get_mut(&mut self.takings) else {
            return false;
        };
        let takings = takings.get_mut();
        *takings = takings.saturating_add(amount);
        true
    }

    /// Takes seats for a group, all or none, and starts a thread that sells them. Returns `None` if too few seats are left for
    /// newcomers, or if the office is closed. The thread has all guards from its start, so whoever locks the takings later, as
    /// the next sale does, waits for this sale.
    pub fn sell_later<R>(
        &self,
        rt: R,
        alloc: Global,
        group: usize,
    ) -> anyhow::Result<Option<JoinHandle<u64>>>
    where
        R: Threads + Wait + Clock + Copy + Send + Sync + 'static,
    {
        let Ok(seats) = Semaphore::try_acquire_many_arc(&self.seats, rt, group)? else {
            return Ok(None);
        };
        let price = RwLock::read_arc(&self.price, rt, alloc)?.wait()?;
        let takings = Mutex::lock_arc(&self.takings, rt, alloc)?.wait()?;
        let sale = thread::spawn(&rt, move || sell(seats, price, takings))?;
        Ok(Some(sale))
    }

    /// Starts a thread that sets the price. The thread has the price from its start, so whoever asks for the price later finds
    /// the new one.
    pub fn set_price_later<R>(
        &self,
        rt: R,
        alloc: Global,
        amount: u64,
    ) -> anyhow::Result<JoinHandle<()>>
    where
        R: Threads + Wait + Clock + Copy + Send + Sync + 'static,
    {
        let price = RwLock::write_arc(&self.price, rt, alloc)?.wait()?;
        let setter = thread::spawn(&rt, move || set(price, amount))?;
        Ok(setter)
    }

    /// Returns the price, unless somebody changes it just now or waits to.
    pub fn price_now<R: Wait + Clock>(&self, rt: &R) -> Option<u64> {
        let price = self.price.try_read(rt)?;
        Some(*price)
    }

    /// Raises the price to `least`, where it is lower. Returns the price, and how many seats are left while the price is that.
    pub fn raise_price<R: Wait + Clock>(
        &self,
        rt: &R,
        alloc: Global,
        least: u64,
    ) -> anyhow::Result<(u64, usize)> {
        let price = self.price.read(rt, alloc).wait()?;
        if *price >= least {
            return Ok((*price, self.seats.available()));
        }
        let mut price = match price.try_upgrade() {
            Ok(price) => price,
            Err(price) => {
                // Others read, or a writer waits. Another writer may come first.
                drop(price);
                self.price.write(rt, alloc).wait()?
            }
        };
        *price = (*price).max(least);
        let price = price.downgrade();
        Ok((*price, self.seats.available()))
    }

    /// Takes at most so many of the seats that are left off sale, and returns how many these were.
    pub fn take_off_sale(&self, seats: usize) -> usize
        ensures { result ≤ seats }
    {
        self.seats.forget_permits(seats)
    }

    /// Returns an error if no seat is left for newcomers, or if the office is closed. Else gives the seat back at once.
    pub fn ask<R: Wait + Clock>(&self, rt: &R) -> Result<(), TryAcquireError> {
        let _seat = self.seats.try_acquire(rt)?;
        Ok(())
    }

    /// Starts a thread that waits for a seat.
    pub fn visit_later<R>(
        &self,
        rt: R,
        alloc: Global,
    ) -> anyhow::Result<JoinHandle<Result<(), AcquireError>>>
    where
        R: Threads + Wait + Clock + Copy + Send + Sync + 'static,
    {
        let wait = Semaphore::acquire_arc(&self.seats, rt, alloc)?;
        let visitor = thread::spawn(&rt, move || visit(wait))?;
        Ok(visitor)
    }

    /// Closes the office: whoever waits for a seat is refused, and so is each who asks from now on.
    pub fn close<R: Wait>(&self, rt: &R) {
        self.seats.close(rt);
    }

    /// Ends the office, and returns the takings. Returns `None` if a sale still has a share of them.
    pub fn end(self) -> Option<u64> {
        let Office {
            seats: _,
            price: _,
            takings,
        } = self;
        let takings = Arc::into_inner(takings)?;
        Some(takings.into_inner())
    }
}
