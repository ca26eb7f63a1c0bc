//! What one worker, a thread, does in a round.
use crate::random::{RandomNumbers, take_at};
use crate::steps::Step;
use anyhow::Result;
use calls::{Act, Reply};
use calls_events::{HandCalls, Runtime};
use event_listener::Hand;
use futures::task::Waker;
use test_support::any_waker;

// How many steps a worker makes in a round.
const STEPS: u32 = 600;

// Below how many microseconds each wait takes.
const MICROS: u32 = 2_001;

// How many listeners of a kind a worker has at most.
const MOST: u32 = 4;

/// What a worker gives back: its hand, and what the event and the recorded one replied.
pub type Outcome = (Hand<u32>, Vec<Reply>, Vec<Reply>);

/// Makes random steps with listeners of both kinds and with recorded ones, and drops the listeners that are left.
pub fn work<'ev, A, B, C, R>(
    rt: &'ev R,
    sharing: A,
    borrowing: B,
    recorded: C,
    seed: u64,
    hand: Hand<u32>,
) -> Result<Outcome>
where
    A: HandCalls + Drop,
    B: HandCalls + Drop,
    C: HandCalls + Drop,
    R: Runtime,
{
    let mut hand = hand;
    let mut random = RandomNumbers::new(seed, hand.number() as u64);
    let (mut on_event, mut on_recorded) = (Vec::new(rt.alloc()), Vec::new(rt.alloc()));
    let mut sharing = Worker::new(rt, sharing);
    let mut borrowing = Worker::new(rt, borrowing);
    let mut recorded = Worker::new(rt, recorded);
    for number in 0..STEPS + 3 * MOST {
        let (kind, step) = if number < STEPS {
            let kind = random.below(3);
            (kind, Step::random(&mut random, number, MICROS))
        } else {
            (number, Step::End(0, Act::Drop))
        };
        match kind % 3 {
            0 => sharing.make(step, &mut hand, &mut on_event)?,
            1 => borrowing.make(step, &mut hand, &mut on_event)?,
            _ => recorded.make(step, &mut hand, &mut on_recorded)?,
        }
    }
    Ok((hand, on_event, on_recorded))
}

// The listeners of one worker, of one kind.
#[derive(Drop)]
struct Worker<'ev, C, L, R> {
    rt: &'ev R,
    calls: C,
    listeners: Vec<L>,
}

impl<'ev, C: HandCalls<Listener = L>, L: Drop, R: Runtime> Worker<'ev, C, L, R> {
    fn new(rt: &'ev R, calls: C) -> Self {
        Worker {
            rt,
            calls,
            listeners: Vec::new(rt.alloc()),
        }
    }

    // Makes a step, and adds the reply. Nothing is done where there is no such listener, or no room for another.
    fn make(&mut self, step: Step, hand: &mut Hand<u32>, replies: &mut Vec<Reply>) -> Result<()> {
        let reply = match step {
            Step::Listen { .. } => self.listen(hand),
            Step::Poll(place, _) => self.poll(hand, place, any_waker(self.rt)?),
            Step::Notify(count, additional, tag) => {
                Some(self.calls.notify(hand, count, additional, tag))
            }
            Step::End(place, act) => self.end(hand, place, act),
            Step::Total => Some(self.calls.total_listeners(hand)),
            Step::IsNotified => Some(self.calls.is_notified(hand)),
        };
        if let Some(reply) = reply {
            replies.push(reply)?;
        }
        Ok(())
    }

    fn listen(&mut self, hand: &mut Hand<u32>) -> Option<Reply> {
        let number = self.listeners.len();
        if number >= MOST as usize {
            return None;
        }
        match self.calls.listen(hand) {
            Ok(listener) => match self.listeners.push(listener) {
                Ok(()) => Some(Reply::Listener(number)),
                Err(_) => Some(Reply::NoMemory),
            },
            Err(reply) => Some(reply),
        }
    }

    // A listener that gave its tag stays among them until it is given up.
    fn poll(&mut self, hand: &mut Hand<u32>, place: usize, waker: Waker) -> Option<Reply> {
        let at = place.checked_rem(self.listeners.len())?;
        let listener = self.listeners.get_mut(at)?;
        Some(self.calls.poll(hand, listener, waker))
    }

    fn end(&mut self, hand: &mut Hand<u32>, place: usize, act: Act) -> Option<Reply> {
        let listener = take_at(&mut self.listeners, place)?;
        let (reply, _) = self.calls.end(hand, listener, act);
        Some(reply)
    }
}
