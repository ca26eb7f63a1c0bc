//! One thread waits for a flag of [`example_events::flag`], and another sets it. Prints `Done!` once the flag is set and both
//! have ended. How it ends otherwise, [`finish`] says. Words on the command line are ignored: `args` has some.
#![tactic(auto)]

use event_listener::EventIds;
use example_events::meeting::wait_for_setter;
use example_events::program::finish;
use std::process::ExitCode;

fn main(rt: HostRuntime) -> ExitCode {
    let id = EventIds::new().next().unwrap();
    finish(&rt, wait_for_setter(rt, rt.alloc(), id), ())
}
