//! The worked rows, and a row on any subject.
mod events;
mod print;
mod queue;
mod records;

use crate::records::run_on_records;
use crate::row::run_on_events;
use crate::wakes::Runtime;
use calls::worlds::{WORLDS, run_on_worlds};
use calls::{Difference, Hook, Row};
pub use events::EVENTS;
pub use print::print_rows;
pub use queue::QUEUE;
pub use records::RECORDS;

/// The texts of the worked rows, a family each.
pub const TEXTS: [&str; 4] = [QUEUE, EVENTS, RECORDS, WORLDS];

/// Makes the calls of the row on its subject, with the hook round each, and compares their answers with those of the row.
pub fn run_row<'t, R: Runtime, H: Hook>(
    row: Row<'t>,
    rt: &R,
    hook: &mut H,
) -> Result<(), Difference<'t>> {
    if let Some(made) = row.run_on_queues(rt.alloc(), hook) {
        return made;
    }
    if let Some(made) = run_on_events(row, rt, hook) {
        return made;
    }
    if let Some(made) = run_on_records(row, rt, hook) {
        return made;
    }
    match run_on_worlds(row, rt.alloc(), hook) {
        Some(made) => made,
        None => Err(row.has_no_subject()),
    }
}
