//! Ten threads share three permits of a semaphore of [`example_events::locks`]: each takes one, and one more if one is free,
//! adds 1 to a counter, and gives them back. Prints `Done!` once all have ended and the count is ten. How it ends otherwise,
//! [`finish`] says; of several threads that fail, the fault is that of the one that was started first. Words on the command
//! line are ignored: `args` has some.
#![tactic(auto)]

use event_listener::EventIds;
use example_events::locks::count_with_permits;
use example_events::program::finish;
use std::process::ExitCode;

fn main(rt: HostRuntime) -> ExitCode {
    let id = EventIds::new().next().unwrap();
    finish(&rt, count_with_permits(rt, rt.alloc(), id, 10, 3), 10)
}
