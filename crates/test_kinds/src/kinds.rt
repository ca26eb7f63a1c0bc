//! Each kind of wait, so that what is said of every one is written once and run with each.
use crate::waits::Waits;
use event_locks::{
    Acquire, AcquireArc, Barrier, BarrierWait, BlockError, Claim, Claiming, Counts, Lock, LockArc,
    Mutex, MutexGuard, MutexGuardArc, OnceCell, ReadArc, RwLock, RwLockReadGuard,
    RwLockReadGuardArc, RwLockWriteGuard, RwLockWriteGuardArc, Seeing, Semaphore, SemaphoreGuard,
    SemaphoreGuardArc, Vacant, WriteArc,
};
use std::alloc::{AllocError, Global};
use std::marker::PhantomData;
use std::sync::{Arc, Wait};
use std::time::{Clock, Duration};

/// To how many of those that wait it is granted.
#[derive(Clone, Copy, Debug, PartialEq, Eq)]
pub enum Sharing {
    /// To one, and to the next once that one has let it go.
    One,
    /// To all, until it is held again.
    All,
    /// To all, once so many have come.
    Together,
    /// To all, for ever.
    Forever,
}

/// A lock that threads share, and a way to wait for it.
pub trait Kind: Sync {
    /// A wait for it.
    type Waits: Waits;

    /// What keeps those waiting that come. Dropping it ends that.
    type Held: Drop;

    /// To how many it is granted. As written here, to one.
    const GRANTED_TO: Sharing = Sharing::One;

    /// To how many it is granted.
    fn sharing(&self) -> Sharing {
        Self::GRANTED_TO
    }

    /// Takes the lock, if it is free, so that those wait that come.
    fn hold(&self) -> Self::Held;

    /// A new wait. The error is a refused share of the lock.
    fn waits(&self) -> Result<Self::Waits, AllocError>;

    /// How the lock stands, if those that wait for it compete with newcomers. Of a share of it none is asked: that is one
    /// lock, however a wait holds it.
    fn counts(&self) -> Option<Counts> {
        None
    }
}

/// How many are free, and how many are notified, wait, and starve. A clause says that newcomers are shut out while one starves.
pub fn numbers(of: Counts) -> [u64; 4] {
    [
        of.free,
        of.notified as u64,
        of.waiting as u64,
        of.starving as u64,
    ]
}

/// A lock, and the runtime of those that wait for it. Where a lock can be waited for in two ways, `A` says which.
#[derive(Drop)]
pub struct Of<'a, L, R, A = ()> {
    lock: &'a L,
    rt: &'a R,
    alloc: Global,
    access: PhantomData<A>,
}

impl<'a, L, R, A> Of<'a, L, R, A> {
    /// This lock, with this runtime.
    pub fn new(lock: &'a L, rt: &'a R, alloc: Global) -> Self {
        Of {
            lock,
            rt,
            alloc,
            access: PhantomData,
        }
    }
}

/// To read.
#[derive(Drop)]
pub struct Read;

/// To write.
#[derive(Drop)]
pub struct Write;

/// To see the value of a cell.
#[derive(Drop)]
pub struct See;

impl<'a, R: Wait + Clock + Sync> Kind for Of<'a, Semaphore, R> {
    type Waits = Acquire<'a, R>;

    type Held = Option<SemaphoreGuard<'a, R>>;

    fn hold(&self) -> Option<SemaphoreGuard<'a, R>> {
        self.lock.try_acquire(self.rt).ok()
    }

    fn waits(&self) -> Result<Self::Waits, AllocError> {
        Ok(self.lock.acquire(self.rt, self.alloc))
    }

    fn counts(&self) -> Option<Counts> {
        Some(self.lock.counts(self.rt))
    }
}

impl<'a, R: Wait + Clock + Clone + Sync> Kind for Of<'a, Arc<Semaphore, Global>, R> {
    type Waits = AcquireArc<R>;

    type Held = Result<Option<SemaphoreGuardArc<R>>, AllocError>;

    fn hold(&self) -> Result<Option<SemaphoreGuardArc<R>>, AllocError> {
        Ok(Semaphore::try_acquire_arc(self.lock, self.rt.clone()?)?.ok())
    }

    fn waits(&self) -> Result<Self::Waits, AllocError> {
        Semaphore::acquire_arc(self.lock, self.rt.clone()?, self.alloc)
    }
}

impl<'a, R: Wait + Clock + Sync> Kind for Of<'a, Mutex<u64>, R> {
    type Waits = Lock<'a, u64, R>;

    type Held = Option<MutexGuard<'a, u64, R>>;

    fn hold(&self) -> Option<MutexGuard<'a, u64, R>> {
        self.lock.try_lock(self.rt)
    }

    fn waits(&self) -> Result<Self::Waits, AllocError> {
        Ok(self.lock.lock(self.rt, self.alloc))
    }

    fn counts(&self) -> Option<Counts> {
        Some(self.lock.counts(self.rt))
    }
}

impl<'a, R: Wait + Clock + Clone + Sync> Kind for Of<'a, Arc<Mutex<u64>, Global>, R> {
    type Waits = LockArc<u64, R>;

    type Held = Result<Option<MutexGuardArc<u64, R>>, AllocError>;

    fn hold(&self) -> Result<Option<MutexGuardArc<u64, R>>, AllocError> {
        Mutex::try_lock_arc(self.lock, self.rt.clone()?)
    }

    fn waits(&self) -> Result<Self::Waits, AllocError> {
        Mutex::lock_arc(self.lock, self.rt.clone()?, self.alloc)
    }
}

impl<'a, R: Wait + Clock + Sync> Kind for Of<'a, RwLock<u64>, R, Read> {
    type Waits = event_locks::Read<'a, u64, R>;

    type Held = Option<RwLockWriteGuard<'a, u64, R>>;

    const GRANTED_TO: Sharing = Sharing::All;

    fn hold(&self) -> Option<RwLockWriteGuard<'a, u64, R>> {
        self.lock.try_write(self.rt)
    }

    fn waits(&self) -> Result<Self::Waits, AllocError> {
        Ok(self.lock.read(self.rt, self.alloc))
    }
}

impl<'a, R: Wait + Clock + Clone + Sync> Kind for Of<'a, Arc<RwLock<u64>, Global>, R, Read> {
    type Waits = ReadArc<u64, R>;

    type Held = Result<Option<RwLockWriteGuardArc<u64, R>>, AllocError>;

    const GRANTED_TO: Sharing = Sharing::All;

    fn hold(&self) -> Result<Option<RwLockWriteGuardArc<u64, R>>, AllocError> {
        RwLock::try_write_arc(self.lock, self.rt.clone()?)
    }

    fn waits(&self) -> Result<Self::Waits, AllocError> {
        RwLock::read_arc(self.lock, self.rt.clone()?, self.alloc)
    }
}

impl<'a, R: Wait + Clock + Sync> Kind for Of<'a, RwLock<u64>, R, Write> {
    type Waits = event_locks::Write<'a, u64, R>;

    type Held = Option<RwLockReadGuard<'a, u64, R>>;

    fn hold(&self) -> Option<RwLockReadGuard<'a, u64, R>> {
        self.lock.try_read(self.rt)
    }

    fn waits(&self) -> Result<Self::Waits, AllocError> {
        Ok(self.lock.write(self.rt, self.alloc))
    }
}

impl<'a, R: Wait + Clock + Clone + Sync> Kind for Of<'a, Arc<RwLock<u64>, Global>, R, Write> {
    type Waits = WriteArc<u64, R>;

    type Held = Result<Option<RwLockReadGuardArc<u64, R>>, AllocError>;

    fn hold(&self) -> Result<Option<RwLockReadGuardArc<u64, R>>, AllocError> {
        RwLock::try_read_arc(self.lock, self.rt.clone()?)
    }

    fn waits(&self) -> Result<Self::Waits, AllocError> {
        RwLock::write_arc(self.lock, self.rt.clone()?, self.alloc)
    }
}

/// The last who arrives at a barrier, once this is dropped. If it is not the last, it does not arrive.
pub struct Arrives<'a, R: Wait + Clock>(Option<BarrierWait<'a, R>>);

impl<R: Wait + Clock> Drop for Arrives<'_, R> {
    fn drop(self) {
        let Arrives(waits) = self;
        if let Some(waits) = waits {
            drop(waits.wait_timeout(Duration::ZERO));
        }
    }
}

impl<'a, R: Wait + Clock + Sync> Kind for Of<'a, Barrier, R> {
    type Waits = BarrierWait<'a, R>;

    type Held = Arrives<'a, R>;

    const GRANTED_TO: Sharing = Sharing::Together;

    fn hold(&self) -> Arrives<'a, R> {
        Arrives(Some(self.lock.wait(self.rt, self.alloc)))
    }

    fn waits(&self) -> Result<Self::Waits, AllocError> {
        Ok(self.lock.wait(self.rt, self.alloc))
    }
}

impl<'a, R: Wait + Clock + Sync> Kind for Of<'a, OnceCell<u64>, R> {
    type Waits = Claiming<'a, u64, R>;

    type Held = Result<Option<Claim<'a, u64, R>>, BlockError>;

    fn hold(&self) -> Result<Option<Claim<'a, u64, R>>, BlockError> {
        let claiming = self.lock.claim(self.rt, self.alloc);
        claiming.wait_timeout(Duration::ZERO)
    }

    fn waits(&self) -> Result<Self::Waits, AllocError> {
        Ok(self.lock.claim(self.rt, self.alloc))
    }
}

/// The turn to make the value of a cell. Dropping it sets the value.
pub struct Sets<'a, R: Wait + Clock>(Option<Vacant<'a, u64, R>>);

impl<R: Wait + Clock> Drop for Sets<'_, R> {
    fn drop(self) {
        let Sets(turn) = self;
        if let Some(turn) = turn {
            let _ = turn.set(7);
        }
    }
}

impl<'a, R: Wait + Clock + Sync> Kind for Of<'a, OnceCell<u64>, R, See> {
    type Waits = Seeing<'a, u64, R>;

    type Held = Sets<'a, R>;

    const GRANTED_TO: Sharing = Sharing::Forever;

    fn hold(&self) -> Sets<'a, R> {
        let claiming = self.lock.claim(self.rt, self.alloc);
        Sets(match claiming.wait_timeout(Duration::ZERO) {
            Ok(Some(Claim::Vacant(turn))) => Some(turn),
            _ => None,
        })
    }

    fn waits(&self) -> Result<Self::Waits, AllocError> {
        Ok(self.lock.wait(self.rt, self.alloc))
    }
}
