//! Calls that count at how many nodes of other visitors they look, and how often they look up a ticket.
//!
//! Each is a function that makes the count, in any ledger, and a public function that calls it in a ledger of its own: the
//! public function writes `Brand`, and its `Invariants.antt` says in two lines which ledger that is, the one of the blank.
ghost use Rattle.std.specs.Prelude.{◌≡◌, ◌<◌, ◌≤◌, min, length};
ghost use Rattle.event_queue.specs.Key.{without};
ghost use Rattle.event_queue.specs.Queue.{order_of};

use event_queue::{IntoNotification, Key, List, Steps, Woken};
use std::marker::Brand;
use std::sync::ledger::{Blank, Ledger};

/// Takes a visitor out of the line, and passes its admission on if it had one. Returns at how many nodes of other visitors the
/// call looked, at three at most however long the line is, and how often it looked up the ticket.
pub fn leave_counted(line: &mut List<(), u64>, ticket: Key, called: &mut Woken<u64>) -> (u64, u64)
    ensures few { result.0 ≤ 3 }
    ensures once { result.1 ≤ 1 }
    ensures others { order_of line.new ≡ without ticket (order_of line.old) }
{
    leave_from::<Brand>(line, ticket, called, Blank::new(1))
}

fn leave_from<L: Ledger>(
    line: &mut List<(), u64>,
    ticket: Key,
    called: &mut Woken<u64>,
    blank: Blank,
) -> (u64, u64)
    requires name { blank.name ≡ L.name }
    requires parts { blank.parts ≡ L.parts }
    requires has_a_part { 0 < blank.parts }
    ensures few { result.0 ≤ 3 }
    ensures once { result.1 ≤ 1 }
    ensures others { order_of line.new ≡ without ticket (order_of line.old) }
{
    let mut steps = Steps::<L>::new(blank);
    line.remove(ticket, true, called, &mut steps);
    (steps.visits(), steps.looks())
}

/// Admits the first `n` waiting visitors. Returns how many visitors the call admitted, and at how many nodes of other visitors
/// it looked: at one for each visitor that it admitted.
pub fn admit_counted(line: &mut List<(), u64>, n: usize, called: &mut Woken<u64>) -> (usize, u64)
    ensures admitted { result.0 ≡ min n (length line.old.waiting) }
    ensures one_each { result.1 ≡ result.0 }
{
    admit_from::<Brand>(line, n, called, Blank::new(1))
}

fn admit_from<L: Ledger>(
    line: &mut List<(), u64>,
    n: usize,
    called: &mut Woken<u64>,
    blank: Blank,
) -> (usize, u64)
    requires name { blank.name ≡ L.name }
    requires parts { blank.parts ≡ L.parts }
    requires has_a_part { 0 < blank.parts }
    ensures admitted { result.0 ≡ min n (length line.old.waiting) }
    ensures one_each { result.1 ≡ result.0 }
{
    let mut steps = Steps::<L>::new(blank);
    let admitted = line
        .notify(&mut n.additional(), called, &mut steps)
        .unwrap();
    (admitted, steps.visits())
}
