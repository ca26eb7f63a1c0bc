//! What `print_rows` prints.
use crate::hooks::{Calls, Refusing, Wrong};
use crate::support::{Runtime, check, new_budget};
use calls::{Hook, Undisturbed};
use calls_events::print_rows;
use std::process::Abort;
use test_support::Screen;

fn new_screen<R: Runtime>(rt: &R) -> Screen {
    Screen::new(rt.alloc()).expect(rt, "room for a text")
}

fn text_of<R: Abort>(rt: &R, screen: &Screen) -> String {
    screen.text().expect(rt, "a text")
}

// The rows of a text, printed with this hook: whether the answer is that none differs, and how many do.
fn print_with<R: Runtime, H: Hook>(
    rt: &R,
    rows: &str,
    wanted: &str,
    hook: &mut H,
) -> (Option<bool>, usize) {
    let screen = new_screen(rt);
    let none_differs = print_rows(rt, &screen, &[rows], hook);
    let differ = differing(rt, text_of(rt, &screen).as_str(), wanted);
    (none_differs.ok(), differ)
}

// How many rows differ in what was printed, where all else is as wanted. Each that differs was refused memory.
fn differing<R: Abort>(rt: &R, printed: &str, wanted: &str) -> usize {
    let mut wanted = wanted.lines();
    let (mut differ, mut refused) = (0usize, 0usize);
    for line in printed.lines() {
        if line.starts_with("error: row ") {
            let (_, found) = line.rsplit_once(": ").unwrap_or(("", ""));
            check(rt, line, found.contains("no memory"), true);
            refused = refused.wrapping_add(1);
            continue;
        }
        let right = wanted.next().expect(rt, line);
        if line != right {
            check(
                rt,
                line,
                line.strip_suffix(" differs"),
                right.strip_suffix(" ok"),
            );
            differ = differ.wrapping_add(1);
        }
    }
    check(rt, "a row that was left out", wanted.next(), None);
    check(rt, "the rows that say why", refused, differ);
    differ
}

// The rows of a text, printed, and what is printed of them where there is memory.
#[derive(Drop)]
struct Printing<'r, R> {
    rt: &'r R,
    rows: &'static str,
    wanted: &'r str,
}

impl<'r, R: Runtime> Calls for Printing<'r, R> {
    // Where a call is refused, its row alone differs, and the answer says so.
    fn make(&self, hook: &mut Refusing) -> bool {
        let (none_differs, differ) = print_with(self.rt, self.rows, self.wanted, hook);
        let is_refused = hook.has_refused();
        differ == usize::from(is_refused) && none_differs == Some(!is_refused)
    }
}

/// Prints the rows of the text: with each of their requests refused in turn, and with no memory, where none can be tried
/// and each has its line. Answers how many calls make requests.
pub fn print_refused<R: Runtime>(rt: &R, rows: &'static str) -> Result<usize, Wrong> {
    let screen = new_screen(rt);
    let none_differs = print_rows(rt, &screen, &[rows], &mut Undisturbed);
    check(rt, "no row differs", none_differs.ok(), Some(true));
    let wanted = text_of(rt, &screen);
    let wanted = wanted.as_str();
    let mut hook = Refusing::new(new_budget(rt)).for_good();
    let asking = hook.each(&Printing { rt, rows, wanted })?;
    drop(hook);
    let mut budget = new_budget(rt);
    let screen = new_screen(rt);
    budget.leave(0).expect(rt, "nothing of the reserve");
    let none_differs = print_rows(rt, &screen, &[rows], &mut Undisturbed);
    budget.give_back();
    check(rt, "no row differs", none_differs.ok(), Some(false));
    let differ = differing(rt, text_of(rt, &screen).as_str(), wanted);
    check(rt, "all rows", differ, wanted.lines().count());
    Ok(asking)
}

const WRONG: [&str; 2] = [
    "
Nobody is notified, though one waits.
row 2 event
listen -> listener 0
notify 1 d -> told 0
total -> total 1

No such subject.
row 4 queue
listen -> listener 0
",
    "
A listener comes.
row 1 list
listen -> listener 0

A number in place of a listener.
row 3 list
listen -> 0
",
];

const PRINTED: &str = "\
row 1 ok
row 2 differs
error: row 2 with sharing listeners, line 2: notify 1 d -> told 0: but it answers told 1
row 3 differs
error: row 3, line 1: listen -> 0: but it answers listener 0
row 4 differs
error: row 4, line 0: queue: no such subject
";

#[test]
fn rows_that_differ_say_where(rt: HostRuntime) {
    let screen = new_screen(&rt);
    let none_differs = print_rows(&rt, &screen, WRONG.as_slice(), &mut Undisturbed);
    check(&rt, "no row differs", none_differs.ok(), Some(false));
    check(&rt, "the rows", text_of(&rt, &screen).as_str(), PRINTED);
}
