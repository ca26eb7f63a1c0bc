//! Sleeping beside a slot, and waking the threads that sleep there.
//!
//! A thread sleeps while the word announces that, and owes a wake from then on. Of each other step a clause asks that a wake
//! which is due stays due, as `StaysDue` says. So a thread that owes a wake pays it by [`Slot::wake_one`] or [`Slot::wake_all`],
//! or leaves a word that announces it.
ghost use Rattle.std.specs.Prelude.{◌≡◌, true};
ghost use Rattle.event_slot.specs.Ruling.{Keeps};

use crate::rule::{Mark, Ruled, Tells};
use crate::slot::Slot;
use std::marker::Brand;
use std::sync::Wait;
use std::sync::atomic::raw;
use std::time::Duration;

// The most seconds that the kernel takes for a sleep.
const FOR_EVER: u64 = i64::MAX as u64;

impl<X: Ruled<S>, S> Slot<X, S> {
    fn address(&self) -> *const u64 {
        &raw const self.word
    }

    fn sleep<R: Wait>(&self, rt: &R, expected: u64, secs: u64, nanos: u64) {
        unsafe { raw::park::<Brand, R>(rt, &raw const self.word, expected, secs, nanos) }
    }

    /// Sleeps if the low half of the word is `expected`, until a wake.
    ///
    /// The call may also return for no reason, so a caller looks again. A change of the high half is not seen. Requires that
    /// `expected` announces the sleep, and that the mark owes a wake already, because others may sleep still when this thread is
    /// woken.
    pub fn park<R: Wait>(&self, rt: &R, mark: &Mark<X::View>, expected: u32)
        requires mark { mark.now.slot ≡ self.now.name }
        requires announced { X.announces expected ≡ true }
        requires owes { X.owes mark.now.view ≡ true }
        requires may { X.may_sleep mark.now.view }
    {
        let _ = mark;
        self.sleep(rt, expected as u64, FOR_EVER, 0);
    }

    /// Sleeps as [`park`](Slot::park) does, for no longer than `dur`.
    pub fn park_timeout<R: Wait>(&self, rt: &R, mark: &Mark<X::View>, expected: u32, dur: Duration)
        requires mark { mark.now.slot ≡ self.now.name }
        requires announced { X.announces expected ≡ true }
        requires owes { X.owes mark.now.view ≡ true }
        requires may { X.may_sleep mark.now.view }
    {
        let _ = mark;
        let secs = dur.as_secs().min(FOR_EVER);
        self.sleep(rt, expected as u64, secs, dur.subsec_nanos() as u64);
    }

    /// Wakes a thread that parks beside the slot, if there is one, and returns the word, by one load after that.
    ///
    /// The load tells the mark as `M` says, which may be that the mark owes no wake any more.
    pub fn wake_one<M: Tells<X::View>>(&self, mark: &mut Mark<X::View>) -> u64
        requires keeps { (mark.old.slot ≡ self.now.name)
            × Keeps (X.holds self.now.key) mark.old.id mark.old.view (M.then mark.old.view) }
        ensures { (mark.new.slot ≡ mark.old.slot) × (mark.new.id ≡ mark.old.id)
            × M.then mark.old.view result mark.new.view }
    {
        unsafe { raw::wake_one(self.address()) }
        self.see::<M>(mark)
    }

    /// Wakes every thread that parks beside the slot, and returns the word, by one load after that.
    ///
    /// The load tells the mark as `M` says, which may be that the mark owes no wake any more.
    pub fn wake_all<M: Tells<X::View>>(&self, mark: &mut Mark<X::View>) -> u64
        requires keeps { (mark.old.slot ≡ self.now.name)
            × Keeps (X.holds self.now.key) mark.old.id mark.old.view (M.then mark.old.view) }
        ensures { (mark.new.slot ≡ mark.old.slot) × (mark.new.id ≡ mark.old.id)
            × M.then mark.old.view result mark.new.view }
    {
        unsafe { raw::wake_all(self.address()) }
        self.see::<M>(mark)
    }
}
