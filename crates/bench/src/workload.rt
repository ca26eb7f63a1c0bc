//! The workloads, by name.
use crate::run::{Measured, Run, Runtime};
use crate::{acts, channels, fairness, kit, threads};
use anyhow::Result;

/// All names.
pub const NAMES: &str = "listen_drop burst burst_listen burst_poll_pending burst_notify \
    burst_poll_ready burst_drop_finished churn remove_fifo remove_middle notify_none notify_told \
    is_notified total_listeners listen_drop_stack burst_stack churn_stack remove_fifo_stack \
    listen_drop_recorded burst_recorded churn_recorded listen_drop_list burst_list churn_list \
    remove_fifo_list remove_middle_list base_waker ping_pong handover mutex_lock mutex_1k mutex_64k \
    mutex_arc mutex_try semaphore semaphore_3 read write read_arc write_arc barrier channel_1 channel_128 channel_unbounded \
    channel_alone channel_tasks kit_mutex_lock kit_mutex_try kit_read kit_write kit_barrier kit_channel_1 \
    kit_channel_128 kit_channel_unbounded kit_channel_alone longest_wait smallest_share seldom";

/// How many rounds a run of a workload has that is asked for no number: as many as take some hundredths of a second. Where
/// threads share a mutex, so many milliseconds. A workload of the kit has as many as ours.
pub fn rounds_of(name: &str, n: usize) -> u64 {
    let n = n.max(1) as u64;
    let rounds = match name.strip_prefix("kit_").unwrap_or(name) {
        "longest_wait" | "smallest_share" => 2_000,
        "seldom" => 3_000,
        "ping_pong" | "handover" | "barrier" => 20_000,
        "channel_1" | "channel_128" | "channel_unbounded" => 100_000 / n,
        "channel_tasks" => 100_000,
        "mutex_lock" | "mutex_try" | "semaphore" | "semaphore_3" | "read" | "write" if n > 1 => {
            200_000 / n
        }
        "burst" | "burst_stack" | "burst_recorded" | "burst_list" => 1_000_000 / n,
        name if name.starts_with("burst_") || name.starts_with("remove_") => {
            1_000_000 / n.max(1_000)
        }
        _ => 1_000_000,
    };
    rounds.max(1)
}

/// Runs the workload once.
pub fn measure<R: Runtime + Drop>(name: &str, rt: &R, n: usize, rounds: u64) -> Result<Measured> {
    let mut run = Run::new(rt, name, n, rounds);
    if matches!(name, "longest_wait" | "smallest_share" | "seldom") {
        return fairness::measure(&run);
    }
    run_timed(&mut run)?;
    Ok(run.measured())
}

fn run_timed<R: Runtime + Drop>(run: &mut Run<'_, R>) -> Result<()> {
    match run.name {
        "base_waker" => acts::make_wakers(run),
        "ping_pong" => threads::ping_pong(run),
        "handover" => threads::hand_over(run),
        "mutex_lock" => threads::lock_mutex(run),
        "mutex_1k" => threads::lock_padded(run, [0u64; 127]),
        "mutex_64k" => threads::lock_padded(run, [0u64; 8_191]),
        "mutex_arc" => threads::lock_arc(run),
        "mutex_try" => threads::try_mutex(run),
        "semaphore" => threads::acquire(run, 1),
        "semaphore_3" => threads::acquire(run, 3),
        "read" => threads::read(run),
        "write" => threads::write(run),
        "read_arc" => threads::read_arc(run),
        "write_arc" => threads::write_arc(run),
        "barrier" => threads::meet(run),
        "channel_1" => channels::pass(run, Some(1)),
        "channel_128" => channels::pass(run, Some(128)),
        "channel_unbounded" => channels::pass(run, None),
        "channel_alone" => channels::pass_alone(run),
        "channel_tasks" => channels::pass_in_tasks(run),
        "notify_none" | "notify_told" | "is_notified" | "total_listeners" => acts::ask(run),
        name if name.starts_with("kit_") => kit::measure(run),
        _ => acts::measure(run),
    }
}
