//! Flags that are set between a waiter's first look and its place in the queue, and which listeners are notified.
use crate::support::check;
use event_listener::{Entry, EventIds, Listener, RecordedCall, RecordedReply};
use example_events::flag::{Flag, pair};
use example_events::record_table::write_table;
use std::alloc::AllocError;
use std::sync::Wait;
use test_support::{Change, Changed};

// Somebody sets the flag.
#[derive(Drop)]
struct Sets<'a>(&'a Flag);

impl Change for Sets<'_> {
    fn before_clone<R: Wait>(&self, rt: &R) -> Result<(), AllocError> {
        self.0.set(rt);
        Ok(())
    }
}

// Two listen to the first flag, which alone is set. The second is set late.
#[test]
fn a_flag_tells_all_who_listen_and_is_seen_by_who_listens_late(rt: HostRuntime) {
    let rt = &rt;
    let (flag, other) = pair(&mut EventIds::new()).expect(rt, "two identities");
    let first = flag.listen(rt, rt.alloc()).expect(rt, "a listener");
    let second = flag.listen(rt, rt.alloc()).expect(rt, "a listener");
    flag.set(rt);
    let are_set = (flag.is_set(), other.is_set());
    check(rt, "which are set", are_set, (true, false));
    let told = (first.discard(), second.discard());
    check(rt, "who is told", told, (true, true));
    check(rt, "the wait", flag.wait(rt, rt.alloc()), Ok(()));
    // Were there no second look, the wait would never end: nobody tells the listener.
    let late = Changed {
        rt,
        by: &Sets(&other),
    };
    check(rt, "the wait", other.wait(&late, rt.alloc()), Ok(()));
    check(rt, "listeners", other.total_listeners(rt), 0);
}

#[test]
fn a_table_has_a_line_for_each_entry(rt: HostRuntime) {
    let (call, reply) = (RecordedCall::<()>::Listen, RecordedReply::TotalListeners(2));
    let entries = [Some(3), None].map(|hand| Entry { hand, call, reply });
    let mut table = String::new(rt.alloc());
    write_table(&entries, &mut table).expect(&rt, "a table");
    let text = "3 | Listen | TotalListeners(2)\n- | Listen | TotalListeners(2)\n";
    check(&rt, "the table", table.as_str(), text);
}
