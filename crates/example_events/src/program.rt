//! How the programs `program_mutex`, `program_flag` and `program_semaphore` end.
ghost use Rattle.std.specs.Prelude.{◌≡◌, ◌≤◌, IsErr, IfOk, IsFalse};
ghost use Rattle.std.specs.Process.{exit_status};

use std::fmt::{Debug, Display};
use std::process::ExitCode;

/// Prints `Done!` if the program's threads ended with what was wanted. Else it prints their fault to the standard error, or
/// what they ended with, and the status is 1. The same holds where `Done!` can't be printed, which is a fault, too.
///
/// The call neither allocates nor waits.
pub fn finish<P, A, E>(screen: &P, ended: Result<A, E>, wanted: A) -> ExitCode
where
    P: Print + Eprint,
    A: PartialEq + Debug + Drop,
    E: Display + Drop,
    ensures failed { IsErr ended → exit_status result ≡ 1 }
    ensures unwanted { IfOk ended (λ answer. IsFalse (A.eq answer wanted) → exit_status result ≡ 1) }
    ensures status { exit_status result ≤ 1 }
{
    match ended {
        Ok(answer) if answer == wanted => match screen.println("Done!") {
            Ok(()) => ExitCode::SUCCESS,
            Err(fault) => fail(screen, fault),
        },
        Ok(answer) => fail(
            screen,
            format_args!("the threads ended with {answer:?}, not {wanted:?}"),
        ),
        Err(fault) => fail(screen, fault),
    }
}

// Prints a fault, and returns the status 1, which shows the fault where it can't be printed.
fn fail<P: Eprint, F: Display + Drop>(screen: &P, fault: F) -> ExitCode
    ensures { exit_status result ≡ 1 }
{
    let _ = screen.eprintln(fault);
    ExitCode::FAILURE
}
