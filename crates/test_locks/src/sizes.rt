//! What each lock takes in memory, in bytes, as the page of `event_locks` says. Each line is evaluated when this crate is checked.
use event_locks::{Barrier, Mutex, OnceCell, RwLock, Semaphore};
use std::mem::size_of;

const _: () = prove!(size_of::<Mutex<u64>>() == 152);

const _: () = prove!(size_of::<RwLock<u64>>() == 216);

const _: () = prove!(size_of::<Semaphore>() == 144);

const _: () = prove!(size_of::<Barrier>() == 128);

const _: () = prove!(size_of::<OnceCell<u64>>() == 248);
