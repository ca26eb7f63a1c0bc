//! Readings that sensors send, and that are received in batches. A sensor waits for nobody: where the channel is full, the
//! oldest reading makes room for the new one.
use event_channel::{
    Receiver, RecvError, RecvTimeoutError, SendError, Sender, TryRecvError, WeakSender,
};
use futures::StreamExt;
use futures::executor::block_on;
use std::alloc::{AllocGlobal, Global};
use std::random::RandomSource;
use std::sync::Wait;
use std::time::{Clock, Duration};

// How many readings a batch has at most.
const BATCH: usize = 4;

/// Sends the readings from 1 to `last`. Returns how many readings were lost, because newer ones took their places.
pub fn report<R: Wait + Clock + Clone>(
    readings: &Sender<u64, R>,
    last: u64,
) -> Result<u64, SendError<u64>> {
    let mut lost = 0u64;
    for reading in 1..=last {
        if readings.force_send(reading)?.is_some() {
            lost = lost.saturating_add(1);
        }
    }
    Ok(lost)
}

/// Sends a reading, if the channel has a sender besides this handle, and returns whether it has. So a sensor that has only such
/// a handle does not keep the channel open.
pub fn report_if_open<R: Wait + Clock + Clone>(
    readings: &WeakSender<u64, R>,
    reading: u64,
) -> anyhow::Result<bool> {
    let Some(sender) = readings.upgrade()? else {
        return Ok(false);
    };
    sender.force_send(reading)?;
    Ok(true)
}

/// Receives a reading, and waits so long for it at most. Returns `None` if there was none in time.
pub fn next_within<R: Wait + Clock + Clone>(
    readings: &Receiver<u64, R>,
    limit: Duration,
) -> Result<Option<u64>, RecvTimeoutError> {
    match readings.recv_timeout(limit) {
        Ok(reading) => Ok(Some(reading)),
        Err(RecvTimeoutError::TimedOut) => Ok(None),
        Err(error) => Err(error),
    }
}

/// Returns the newest reading that is in the channel now, and drops the older ones.
pub fn newest<R: Wait + Clock + Clone>(readings: &Receiver<u64, R>) -> Option<u64> {
    let mut newest = None;
    for reading in readings.try_iter() {
        newest = Some(reading);
    }
    newest
}

/// Takes what is in the channel now. Returns the sum, and whether more readings may come.
pub fn drain<R: Wait + Clock + Clone>(rt: &R, readings: &Receiver<u64, R>) -> (u64, bool) {
    let mut sum = 0u64;
    for _ in rt.forever() {
        match readings.try_recv() {
            Ok(reading) => sum = sum.saturating_add(reading),
            Err(TryRecvError::Empty) => return (sum, true),
            Err(TryRecvError::Closed) => return (sum, false),
        }
    }
    unreachable!()
}

/// Receives readings in batches, until the channel is closed and empty. Returns how many batches these were, and the sum.
pub fn add_batches<R: Wait + Clock + Clone>(
    rt: &R,
    alloc: Global,
    readings: &Receiver<u64, R>,
) -> Result<(u64, u64), RecvError> {
    let (mut batches, mut sum) = (0u64, 0u64);
    let mut batch = Vec::new(alloc);
    for _ in rt.forever() {
        match readings.recv_many(&mut batch, BATCH) {
            Ok(_) => batches = batches.saturating_add(1),
            Err(RecvError::Closed) => return Ok((batches, sum)),
            Err(error) => return Err(error),
        }
        for reading in &batch {
            sum = sum.saturating_add(*reading);
        }
        batch.clear();
    }
    unreachable!()
}

/// Sends a reading once there is room, as a task that awaits the send.
pub fn report_as_task<R>(rt: &R, readings: &Sender<u64, R>, reading: u64) -> anyhow::Result<()>
where
    R: Wait + Clock + Clone + RandomSource + AllocGlobal,
{
    block_on(rt, readings.send(reading))??;
    Ok(())
}

/// Returns the next reading, as a task that awaits the receiver as a stream. Returns `None` once the channel is closed and
/// empty.
pub fn next_as_task<R>(rt: &R, readings: &mut Receiver<u64, R>) -> anyhow::Result<Option<u64>>
where
    R: Wait + Clock + Clone + RandomSource + AllocGlobal,
{
    let reading = block_on(rt, readings.next())?;
    Ok(reading.transpose()?)
}
