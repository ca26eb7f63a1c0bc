//! Subjects of one call that are wrong, each in a way that the hooks have to find.
use crate::hooks::{Calls, Refusing, Stage, Starving, Wrong};
use crate::support::{Runtime, check, new_budget};
use calls::{Answer, Call, Hook, Reply, Request, Row, Subject};
use std::alloc::{AllocError, Global};

// A subject whose call takes two blocks.
#[derive(Clone, Copy, Debug)]
enum Fault {
    /// Nothing is wrong.
    None,
    /// A refused call leaves something.
    LeavesSomething,
    /// A refused call gives another answer in place of the refusal.
    AnswersOtherwise,
    /// A call that is to allocate nothing does.
    AllocatesInSecret,
}

// The subject, and how much was left by its calls.
#[derive(Drop)]
struct Trial {
    alloc: Global,
    fault: Fault,
    left: usize,
}

// Two blocks, which are dropped at once.
fn take_two(alloc: Global) -> Result<(), AllocError> {
    let _first: Vec<u8> = Vec::with_capacity(alloc, 100)?;
    let _second: Vec<u8> = Vec::with_capacity(alloc, 40)?;
    Ok(())
}

impl Subject for Trial {
    fn prepare(&mut self, _call: Call<'_>) -> Result<(), AllocError> {
        Ok(())
    }

    fn make(&mut self, _call: Call<'_>) -> Reply {
        let taken = take_two(self.alloc);
        if taken.is_ok() || matches!(self.fault, Fault::LeavesSomething) {
            self.left = self.left.wrapping_add(1);
        }
        match (taken, self.fault) {
            (Ok(()), _) => Reply::Done,
            (Err(_), Fault::AnswersOtherwise) => Reply::Dropped,
            (Err(_), _) => Reply::NoMemory,
        }
    }

    fn request(&self, _call: Call<'_>) -> Option<Request> {
        match self.fault {
            Fault::AllocatesInSecret => None,
            _ => Some(Request::Slot),
        }
    }

    fn shape(&self) -> [usize; 6] {
        [self.left, 0, 0, 0, 0, 0]
    }

    fn note(&mut self, _answer: &mut Answer) -> Result<(), AllocError> {
        Ok(())
    }
}

// A row of one call on such a subject.
#[derive(Clone, Copy)]
struct OneCall {
    alloc: Global,
    fault: Fault,
}

impl OneCall {
    fn is_right<H: Hook>(self, hook: &mut H) -> bool {
        let OneCall { alloc, fault } = self;
        let row = Row {
            number: 0,
            title: "",
            subject: "",
            kind: "",
            lines: "total -> ok",
        };
        let left = 0;
        row.make_on(alloc, Trial { alloc, fault, left }, hook)
            .is_ok()
    }
}

impl Calls for OneCall {
    fn make(&self, hook: &mut Refusing) -> bool {
        self.is_right(hook)
    }
}

// What is found of the subject with its requests refused, and how often it was refused until then; and whether its call
// has its answer where calls that are to take no memory have none.
fn finds<R: Runtime>(rt: &R, fault: Fault, refused: Result<usize, Wrong>, starved: bool) -> usize {
    let alloc = rt.alloc();
    let call = OneCall { alloc, fault };
    let mut hook = Refusing::new(new_budget(rt));
    check(rt, fault, hook.each(&call), refused);
    let refusals = hook.refusals_of(Request::Slot);
    drop(hook);
    let mut hook = Starving::new(new_budget(rt));
    check(rt, fault, call.is_right(&mut hook), starved);
    refusals
}

#[test]
fn what_is_wrong_is_found(rt: HostRuntime) {
    // Some budget refused the first block, and some the second.
    let refusals = finds(&rt, Fault::None, Ok(1), true);
    check(&rt, refusals, refusals >= 2, true);
    let left = Err((Stage::DoesNotStand(Request::Slot), 0, 0));
    finds(&rt, Fault::LeavesSomething, left, true);
    let other = Err((Stage::OtherAnswer, 0, 0));
    finds(&rt, Fault::AnswersOtherwise, other, true);
    finds(&rt, Fault::AllocatesInSecret, Ok(0), false);
}
