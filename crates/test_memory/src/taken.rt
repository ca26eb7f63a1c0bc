//! Whether the memory that tests take is refused, and all of it.
use crate::budget::Budget;
use crate::support::{all_memory, check, leave, new_budget};
use std::alloc::{AllocError, AllocGlobal, Global};
use std::process::Abort;

fn is_granted<R: Abort + AllocGlobal>(rt: &R, size: usize, expected: bool) {
    let is_granted = Vec::<u8>::with_capacity(rt.alloc(), size).is_ok();
    check(rt, size, is_granted, expected);
}

fn are_granted<R: Abort + AllocGlobal>(rt: &R, expected: bool) {
    for size in 1..3000 {
        is_granted(rt, size, expected);
    }
    is_granted(rt, 64 << 10, expected);
}

// Blocks of all sizes, with holes of all sizes between them.
fn parted_by_holes<R: Abort + AllocGlobal>(rt: &R) -> Vec<Vec<u8>> {
    let (mut kept, mut freed) = (Vec::new(rt.alloc()), Vec::new(rt.alloc()));
    for size in 1..3000 {
        let block = Vec::with_capacity(rt.alloc(), size).expect(rt, "a block");
        kept.push(block).expect(rt, "room");
        let hole = Vec::<u8>::with_capacity(rt.alloc(), size).expect(rt, "a block");
        freed.push(hole).expect(rt, "room");
    }
    kept
}

#[test]
fn a_hog_refuses_every_request_until_it_is_dropped(rt: HostRuntime) {
    let mut full = Vec::from_array(rt.alloc(), [0u64; 8]).expect(&rt, "a vector");
    let kept = parted_by_holes(&rt);
    // It takes all a second time too.
    for _ in 0..2 {
        let hog = all_memory(&rt);
        are_granted(&rt, false);
        check(&rt, "room in a vector", full.push(8).is_ok(), false);
        drop(hog);
        are_granted(&rt, true);
    }
    check(&rt, "room in a vector", full.push(8).is_ok(), true);
    let _hog = all_memory(&rt);
    // What is freed under the hog is granted again.
    drop(kept);
    is_granted(&rt, 24, true);
}

#[test]
fn a_budget_of_nothing_refuses_everything(rt: HostRuntime) {
    let mut budget = new_budget(&rt);
    let _kept = parted_by_holes(&rt);
    for _ in 0..500 {
        leave(&rt, &mut budget, 0);
        are_granted(&rt, false);
        budget.give_back();
        are_granted(&rt, true);
    }
}

// Several requests one after another, as a call may make them. The list has room for all.
fn blocks_of(alloc: Global, sizes: &[usize], kept: &mut Vec<Vec<u8>>) -> Result<(), AllocError> {
    for size in sizes.iter() {
        kept.push(Vec::with_capacity(alloc, *size)?)?;
    }
    Ok(())
}

// The first of larger and larger budgets that grants all. Each request is the first to be refused by one of them.
fn least_for<R: Abort + AllocGlobal>(rt: &R, budget: &mut Budget, sizes: &[usize]) -> usize {
    let mut kept = Vec::with_capacity(rt.alloc(), 128).expect(rt, "room");
    let mut next = 0;
    for bytes in (0..Budget::MOST).step_by(Budget::STEP) {
        leave(rt, budget, bytes);
        let made = blocks_of(rt.alloc(), sizes, &mut kept);
        budget.give_back();
        if kept.len() == next {
            next = next.wrapping_add(1);
        }
        check(rt, bytes, kept.len() < next, true);
        if made.is_ok() {
            check(rt, "requests", next, sizes.len() + 1);
            return bytes;
        }
        kept.clear();
    }
    panic!(rt; "no budget serves")
}

// The smallest block takes 32 bytes, of which 8 are not its own.
#[test]
fn a_budget_grants_so_many_bytes_and_no_more(rt: HostRuntime) {
    let mut budget = new_budget(&rt);
    let least = least_for(&rt, &mut budget, [24; 128].as_slice());
    check(&rt, "small blocks", least, 128 * Budget::STEP);
    least_for(&rt, &mut budget, [8, 100, 24, 25, 40, 600, 1].as_slice());
    least_for(&rt, &mut budget, [1000, 16, 4000, 16, 2000, 9].as_slice());
    for sixteens in 2..512 {
        leave(&rt, &mut budget, 16 * sixteens);
        is_granted(&rt, 16 * sixteens - 7, false);
        is_granted(&rt, 16 * sixteens - 8, true);
    }
    leave(&rt, &mut budget, Budget::MOST);
    is_granted(&rt, Budget::MOST - 8, true);
    let too_much = budget.leave(Budget::MOST + 1);
    check(&rt, "too much", too_much.is_err(), true);
    are_granted(&rt, true);
}
