//! Prints how rows end.
use crate::wakes::Runtime;
use crate::worked::{TEXTS, run_row};
use calls::{Hook, Row};
use std::io;

/// Prints how each row of the texts ends, in order of number: a line `row N ok` or `row N differs`, and the difference to the
/// standard error. Answers whether no row differs, or the error of a line that could not be printed.
///
/// Each text has its rows in order of number. The rows allocate; their table and the printing do not, so a row that was
/// refused memory has its line too.
pub fn print_rows<R, P, H>(rt: &R, screen: &P, texts: &[&str], hook: &mut H) -> io::Result<bool>
where
    R: Runtime,
    P: Print + Eprint,
    H: Hook,
{
    let mut none_differs = true;
    let mut places = [0usize; TEXTS.len()];
    for number in 0..=u8::MAX {
        for (text, place) in texts.iter().zip(places.iter_mut()) {
            match Row::nth(text, *place) {
                Some(row) if row.number <= number => {
                    *place = place.wrapping_add(1);
                    none_differs &= print_row(rt, screen, row, hook)?;
                }
                _ => {}
            }
        }
    }
    Ok(none_differs)
}

fn print_row<R, P, H>(rt: &R, screen: &P, row: Row<'_>, hook: &mut H) -> io::Result<bool>
where
    R: Runtime,
    P: Print + Eprint,
    H: Hook,
{
    let number = row.number;
    match run_row(row, rt, hook) {
        Ok(()) => {
            println!(screen; "row {number} ok")?;
            Ok(true)
        }
        Err(difference) => {
            println!(screen; "row {number} differs")?;
            // Where this can't be printed, the line above still says that the row differs.
            let _ = eprintln!(screen; "{difference}");
            Ok(false)
        }
    }
}
