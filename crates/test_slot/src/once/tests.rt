//! What no clause sees of a cell that is set once: who wins, that all see one value, and that it is dropped once.
ghost use Rattle.std.specs.Prelude.{◌≡◌, ◌≤◌};

use super::{AtLeast, settles};
use event_slot::{Fits, SetOnce};
use std::cell::Cell;
use std::sync::Wait;
use std::test::Fail;
use std::thread;
use std::time::{Clock, Duration};

const THREADS: usize = 4;

// What it is in counts each drop.
struct Counted<'a> {
    drops: &'a Cell<u64>,
}

impl Fits for Counted<'_> {
    type Key = ();

    ghost fits = { λ key counted. key ≡ key };
}

impl Drop for Counted<'_> {
    fn drop(self) {
        let Self { drops } = self;
        drops.set(drops.get().wrapping_add(1));
    }
}

fn found(once: &SetOnce<AtLeast>) -> Option<u64> {
    Some(once.get()?.number)
}

#[test]
fn a_value_is_set_once(rt: HostRuntime) {
    let once = SetOnce::new(&5);
    assert!(rt; found(&once).is_none());
    assert!(rt;
        once.try_set(AtLeast { number: 7 })
            .is_ok_and(|set| set.number == 7)
    );
    assert!(rt;
        once.try_set(AtLeast { number: 8 })
            .is_err_and(|back| back.number == 8)
    );
    assert!(rt; found(&once) == Some(7) && settles(&once, &rt, 9) == 7);
    assert!(rt; once.into_inner().is_some_and(|value| value.number == 7));
    let set = SetOnce::with(AtLeast { number: 6 }, &5);
    assert!(rt; found(&set) == Some(6) && set.wait(&rt).number == 6);
    assert!(rt; SetOnce::<AtLeast>::new(&5).into_inner().is_none());
}

#[test]
fn a_value_is_dropped_once(rt: HostRuntime) {
    let drops = &Cell::new(0u64);
    drop(SetOnce::<Counted>::new(&()));
    assert!(rt; drops.get() == 0);
    let once = SetOnce::new(&());
    assert!(rt; once.try_set(Counted { drops }).is_ok());
    assert!(rt; drops.get() == 0);
    drop(once.try_set(Counted { drops }));
    assert!(rt; drops.get() == 1);
    drop(once);
    assert!(rt; drops.get() == 2);
}

#[test]
fn threads_that_set_at_once_see_one_value(rt: HostRuntime) -> Result<(), Fail> {
    for _ in 0..200u64 {
        let once = &SetOnce::new(&1);
        let seen = thread::map_indices(
            &rt,
            rt.alloc(),
            THREADS,
            &|index| { settles(once, &rt, 1 + index as u64) },
        )?;
        let first = found(once);
        assert!(rt; first.is_some() && seen.iter().all(|number| Some(*number) == first));
    }
    Ok(())
}

// The first thread comes late, and sets the value.
fn comes<R: Wait + Clock>(once: &SetOnce<AtLeast>, rt: &R, index: usize) -> u64
    requires { once.now ≤ 3 }
{
    if index > 0 {
        return once.wait(rt).number;
    }
    thread::sleep(rt, Duration::from_millis(5));
    settles(once, rt, 3)
}

#[test]
fn a_thread_waits_for_a_value(rt: HostRuntime) -> Result<(), Fail> {
    let once = &SetOnce::new(&1);
    let seen = thread::map_indices(
        &rt,
        rt.alloc(),
        THREADS,
        &|index| { comes(once, &rt, index) },
    )?;
    assert!(rt; seen.iter().all(|number| *number == 3));
    Ok(())
}
