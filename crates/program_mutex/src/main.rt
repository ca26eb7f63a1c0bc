//! Ten threads each lock a counter of [`example_events::locks`] and add 1. Prints `Done!` once all have ended and the count
//! is ten. How it ends otherwise, [`finish`] says; of several threads that fail, the fault is that of the one that was
//! started first. Words on the command line are ignored: `args` has some.
#![tactic(auto)]

use event_listener::EventIds;
use example_events::locks::count;
use example_events::program::finish;
use std::process::ExitCode;

fn main(rt: HostRuntime) -> ExitCode {
    let id = EventIds::new().next().unwrap();
    finish(&rt, count(rt, rt.alloc(), id, 10), 10)
}
