//! A value that is made when it is first wanted, and again if that failed.
ghost use Rattle.std.specs.Prelude.{◌≡◌, IfSome};

use event_locks::OnceCell;
use futures::executor::block_on;
use futures::future::ready;
use std::alloc::{AllocGlobal, Global};
use std::random::RandomSource;
use std::sync::Wait;
use std::time::Clock;

/// The port. The first text that is a number sets it; one that is not is an error, and the next is tried.
pub fn port<R: Wait + Clock>(
    rt: &R,
    alloc: Global,
    cell: &OnceCell<u16>,
    text: &str,
) -> anyhow::Result<u16> {
    let port = cell.get_or_try_init(rt, alloc, || -> anyhow::Result<u16> { Ok(text.parse()?) })?;
    Ok(*port)
}

/// Sets the port, if nobody has set it, and looks at it as any caller does. Each caller, at any time, sees the port that was
/// set.
pub fn set_port<R: Wait + Clock>(
    rt: &R,
    alloc: Global,
    cell: &OnceCell<u16>,
    port: u16,
) -> Option<u16>
    ensures { IfSome result (λ seen. seen ≡ port) }
{
    let Ok(set) = cell.set_witness(rt, alloc, port) else {
        return None;
    };
    let seen = cell.witness()?;
    set.agrees(&seen);
    Some(*cell.value(&seen))
}

/// Returns the name. A task makes the name if nobody has made it, and other callers wait meanwhile.
pub fn make_name<R>(
    rt: &R,
    alloc: Global,
    cell: &OnceCell<&'static str>,
) -> anyhow::Result<&'static str>
where
    R: Wait + Clock + RandomSource + AllocGlobal,
{
    let name = cell.get_or_init_async(rt, alloc, ready("Ada"));
    Ok(*block_on(rt, name)??)
}
