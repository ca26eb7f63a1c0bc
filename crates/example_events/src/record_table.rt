//! A record as a table.

use event_listener::Entry;
use std::fmt;

/// Writes a record as a table, one entry a line: the number of the hand, or `-` for the drop of a listener; the call;
/// and the reply.
pub fn write_table<T: Copy + fmt::Debug, W: fmt::Write>(
    entries: &[Entry<T>],
    table: &mut W,
) -> fmt::Result {
    for entry in entries {
        match entry.hand {
            Some(number) => write!(table, "{number}")?,
            None => write!(table, "-")?,
        }
        writeln!(table, " | {:?} | {:?}", entry.call, entry.reply)?;
    }
    Ok(())
}
