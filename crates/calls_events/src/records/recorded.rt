//! Recorded events as subjects.
use crate::records::hand_calls::HandCalls;
use crate::wakes::{Runtime, Wakes};
use calls::{Act, Answer, Call, Kind, Notice, Reply, Request, Subject, Tags};
use event_listener::Hand;
use futures::task::Waker;
use std::alloc::AllocError;

/// A recorded event, whose calls are made by one of its hands.
#[derive(Drop)]
pub struct Recorded<'h, 'ev, C, L, R> {
    on: C,
    hands: &'h mut Vec<Hand<u32>>,
    // The number of the hand that calls, and whether the next one makes the next call.
    hand: usize,
    in_turn: bool,
    // None is where a listener has left.
    listeners: Vec<Option<L>>,
    wakes: Wakes<'ev, R>,
    // That of the next poll.
    waker: Option<Waker>,
}

impl<'h, 'ev, C, L, R> Recorded<'h, 'ev, C, L, R>
where
    C: HandCalls<Listener = L> + Drop,
    L: Drop,
    R: Runtime,
{
    /// The event on which `on` makes calls. The first of its hands makes the first one, and where they take turns, the
    /// next one the next.
    pub fn new(
        rt: &'ev R,
        on: C,
        hands: &'h mut Vec<Hand<u32>>,
        in_turn: bool,
    ) -> Result<Self, AllocError> {
        Ok(Recorded {
            on,
            hands,
            hand: 0,
            in_turn,
            listeners: Vec::new(rt.alloc()),
            wakes: Wakes::new(rt)?,
            waker: None,
        })
    }
}

/// Whether a notification of a recorded event is additional, and its tag. No other has such a kind and a tag.
pub fn kind_and_tag(notice: Notice) -> Option<(bool, u32)> {
    let additional = match notice.kind {
        Kind::Default => false,
        Kind::Additional => true,
        _ => return None,
    };
    match notice.tags {
        Tags::Clones(tag) => Some((additional, u32::try_from(tag).ok()?)),
        _ => None,
    }
}

fn keep<L: Drop>(listeners: &mut Vec<Option<L>>, listener: L) -> Reply {
    let number = listeners.len();
    match listeners.push(Some(listener)) {
        Ok(()) => Reply::Listener(number),
        Err(_) => Reply::NoMemory,
    }
}

// What is called on the listener of that place, which is polled where there is a waker for it.
fn act_on<C: HandCalls>(
    on: &C,
    hand: &mut Hand<u32>,
    place: &mut Option<C::Listener>,
    act: Act,
    waker: Option<Waker>,
) -> Reply {
    if let (Some(waker), Some(listener)) = (waker, place.as_mut()) {
        return on.poll(hand, listener, waker);
    }
    let Some(listener) = place.take() else {
        return Reply::Invalid;
    };
    let (reply, back) = on.end(hand, listener, act);
    *place = back;
    reply
}

impl<'h, 'ev, C, L, R> Subject for Recorded<'h, 'ev, C, L, R>
where
    C: HandCalls<Listener = L> + Drop,
    L: Drop,
    R: Runtime,
{
    fn prepare(&mut self, call: Call<'_>) -> Result<(), AllocError> {
        self.wakes.begin()?;
        match call {
            Call::Listen { .. } => self.listeners.reserve(1)?,
            Call::On(number, Act::Poll(task)) => {
                if let Some(Some(_)) = self.listeners.get(number) {
                    self.waker = Some(self.wakes.waker(task)?);
                }
            }
            _ => {}
        }
        Ok(())
    }

    fn make(&mut self, call: Call<'_>) -> Reply {
        if let Call::At(hand) = call {
            self.hand = hand;
            return Reply::Done;
        }
        let waker = self.waker.take();
        let Some(hand) = self.hands.get_mut(self.hand) else {
            return Reply::Invalid;
        };
        match call {
            Call::Listen { .. } => match self.on.listen(hand) {
                Ok(listener) => keep(&mut self.listeners, listener),
                Err(reply) => reply,
            },
            Call::On(number, act) => match self.listeners.get_mut(number) {
                Some(place) => act_on(&self.on, hand, place, act, waker),
                None => Reply::Invalid,
            },
            Call::Notify(notice) => match kind_and_tag(notice) {
                Some((additional, tag)) => self.on.notify(hand, notice.count, additional, tag),
                None => Reply::Invalid,
            },
            Call::Total => self.on.total_listeners(hand),
            Call::IsNotified => self.on.is_notified(hand),
            _ => Reply::Invalid,
        }
    }

    fn request(&self, call: Call<'_>) -> Option<Request> {
        match call {
            Call::On(_, Act::Drop) | Call::At(_) => None,
            _ => Some(Request::Entry),
        }
    }

    fn shape(&self) -> [usize; 6] {
        let notes = |hand: usize| self.hands.get(hand).map_or(0, |hand| hand.notes().len());
        [notes(0), notes(1), notes(2), 0, 0, 0]
    }

    fn note(&mut self, answer: &mut Answer) -> Result<(), AllocError> {
        if self.in_turn {
            let next = self.hand.wrapping_add(1);
            self.hand = next.checked_rem(self.hands.len()).unwrap_or(0);
        }
        self.waker = None;
        self.wakes.end(&mut answer.woken)
    }

    // A refused poll let its waker go, which is no task that the call wakes.
    fn prepare_again(&mut self, call: Call<'_>) -> Result<(), AllocError> {
        if let Call::On(_, Act::Poll(_)) = call {
            let alloc = *self.listeners.allocator();
            let mut let_go = Vec::new(alloc);
            self.wakes.end(&mut let_go)?;
            return self.prepare(call);
        }
        Ok(())
    }
}
