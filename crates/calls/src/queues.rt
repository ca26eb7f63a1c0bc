//! Queues as subjects.
mod acts;
mod run;
mod sink;

use crate::answer::{Answer, Left, Reply};
use crate::call::{Act, Call};
use crate::hook::Request;
use crate::subject::Subject;
use crate::tag::{Tag, notify};
use acts::{QueueAndSink, left_by, registered};
use event_queue::{Key, List, ListenError};
use run::{Calls, calls_of};
use sink::Sink;
use std::alloc::{AllocError, Global};

// A listener that came. Its key is kept when it has left, and is then the key of nobody.
#[derive(Clone, Copy)]
struct Place {
    key: Key,
    has_left: bool,
    // The task that it stored last.
    stored: Option<usize>,
}

// The serials of the first listener of a queue, and of its next one.
#[derive(Clone, Copy)]
struct Serials {
    first: u64,
    next: u64,
}

/// Queues whose tasks are numbers, the listeners that came to them, and a sink.
#[derive(Drop)]
pub struct Queues<T> {
    alloc: Global,
    queues: Vec<List<T, usize>>,
    // Those of each queue.
    serials: Vec<Serials>,
    // The number of the queue that calls are made on.
    at: usize,
    places: Vec<Place>,
    sink: Sink,
    // The calls of the next run, how many listeners it meets, and the replies of the last one.
    calls: Option<Calls<T>>,
    met: usize,
    replies: Vec<Reply>,
}

impl<T: Tag + Drop> Queues<T> {
    /// So many empty queues, to which no listener has come.
    pub fn new(alloc: Global, queues: usize) -> Result<Self, AllocError> {
        let mut lists = Vec::new(alloc);
        let mut serials = Vec::new(alloc);
        for _ in 0..queues {
            lists.push(List::new(alloc))?;
            serials.push(Serials { first: 0, next: 0 })?;
        }
        Ok(Queues {
            alloc,
            queues: lists,
            serials,
            at: 0,
            places: Vec::new(alloc),
            sink: Sink::new(alloc)?,
            calls: None,
            met: 0,
            replies: Vec::new(alloc),
        })
    }

    /// One empty queue. A task that it lets go counts as woken, as that of an event does, whose wakers wake when they
    /// are dropped.
    pub fn like_an_event(alloc: Global) -> Result<Self, AllocError> {
        let mut queues = Self::new(alloc, 1)?;
        queues.sink.wakes_let_go();
        Ok(queues)
    }

    fn listen(&mut self) -> Reply {
        let Some(queue) = self.queues.get_mut(self.at) else {
            return Reply::Invalid;
        };
        let Some(serials) = self.serials.get_mut(self.at) else {
            return Reply::Invalid;
        };
        let inserted = queue.insert_uncounted();
        keep(&mut self.places, serials, inserted)
    }

    fn act(&mut self, number: usize, act: Act) -> Reply {
        let Some(queue) = self.queues.get_mut(self.at) else {
            return Reply::Invalid;
        };
        let Some(place) = self.places.get_mut(number) else {
            return Reply::Invalid;
        };
        let sink = &mut self.sink;
        let mut on = QueueAndSink { queue, sink };
        if let Act::Remove { propagate } = act {
            place.has_left = true;
            let state = on.remove(place.key, propagate);
            return Reply::Removed(left_by(state, self.places.as_slice()));
        }
        on.act(place, act)
    }

    fn total(&self) -> usize {
        match self.queues.get(self.at) {
            Some(queue) => queue.total_listeners(),
            None => 0,
        }
    }

    fn ask(&self, question: Call<'_>) -> Reply {
        let Some(queue) = self.queues.get(self.at) else {
            return Reply::Invalid;
        };
        match question {
            Call::Total => Reply::Total(queue.total_listeners()),
            Call::IsNotified => Reply::IsNotified(queue.is_notified()),
            Call::HasRoom(n) => Reply::Is(queue.spare() >= n),
            _ => Reply::Invalid,
        }
    }

    fn reserve(&mut self, n: usize) -> Reply {
        match self.queues.get_mut(self.at) {
            Some(queue) => match queue.reserve(n) {
                Ok(()) => Reply::Done,
                Err(_) => Reply::NoMemory,
            },
            None => Reply::Invalid,
        }
    }

    // Listeners are numbered from 0 again.
    fn start(&mut self, first: u64) -> Reply {
        self.places.clear();
        if let Some(serials) = self.serials.get_mut(self.at) {
            *serials = Serials { first, next: first };
        }
        match self.queues.get_mut(self.at) {
            Some(queue) => {
                *queue = List::starting_at(self.alloc, first);
                Reply::Done
            }
            None => Reply::Invalid,
        }
    }

    // Makes the calls of the run. It takes no memory but for the run's own: there is room for what it gives.
    fn run(&mut self) -> Reply {
        let Some(queue) = self.queues.get_mut(self.at) else {
            return Reply::Invalid;
        };
        let Some(serials) = self.serials.get_mut(self.at) else {
            return Reply::Invalid;
        };
        let Some(calls) = self.calls.take() else {
            return Reply::Invalid;
        };
        let mut replies = Vec::new(self.alloc);
        if queue.run(calls, &mut replies, self.sink.woken()).is_err() {
            return Reply::NoMemory;
        }
        for reply in replies {
            let reply = match reply {
                event_queue::Reply::Inserted(inserted) => keep(&mut self.places, serials, inserted),
                event_queue::Reply::Registered(answer) => registered(answer),
                event_queue::Reply::Removed(state) => {
                    Reply::Removed(left_by(state, self.places.as_slice()))
                }
                event_queue::Reply::Notified(Ok(told)) => Reply::Told(told, None),
                event_queue::Reply::Notified(Err(refused)) => Reply::TagRefused(refused.told),
                event_queue::Reply::TotalListeners(total) => Reply::Total(total),
                event_queue::Reply::IsNotified(is) => Reply::IsNotified(is),
            };
            if self.replies.push(reply).is_err() {
                return Reply::NoMemory;
            }
        }
        Reply::Done
    }
}

// Keeps the key of a listener that came. It has to have the next serial, also after a refusal: the reply is its serial
// where that is another.
fn keep(
    places: &mut Vec<Place>,
    serials: &mut Serials,
    inserted: Result<Key, ListenError>,
) -> Reply {
    let key = match inserted {
        Ok(key) => key,
        Err(ListenError::Memory) => return Reply::NoMemory,
        Err(ListenError::SerialsUsedUp) => return Reply::UsedUp,
    };
    if key.serial() != serials.next {
        return Reply::Number(key.serial());
    }
    serials.next = serials.next.saturating_add(1);
    let number = places.len();
    let place = Place {
        key,
        has_left: false,
        stored: None,
    };
    match places.push(place) {
        Ok(()) => Reply::Listener(number),
        Err(_) => Reply::NoMemory,
    }
}

impl<T: Tag + Drop> Subject for Queues<T> {
    fn prepare(&mut self, call: Call<'_>) -> Result<(), AllocError> {
        self.replies.clear();
        self.places.reserve(1)?;
        if let Call::Run(text) = call {
            self.met = self.total();
            self.calls = calls_of(self.alloc, text, self.places.as_slice())?;
            let calls = self.calls.as_ref().map_or(0, |calls| calls.len());
            self.places.reserve(calls)?;
            self.replies.reserve(calls)?;
        }
        self.sink.begin(self.alloc, self.places.capacity())
    }

    fn make(&mut self, call: Call<'_>) -> Reply {
        match call {
            Call::Listen { .. } => self.listen(),
            Call::On(number, act) => self.act(number, act),
            Call::Notify(notice) => match self.queues.get_mut(self.at) {
                Some(queue) => {
                    let sink = &mut self.sink;
                    notify(&mut QueueAndSink { queue, sink }, notice)
                }
                None => Reply::Invalid,
            },
            Call::At(number) => {
                self.at = number;
                Reply::Done
            }
            Call::Start(first) => self.start(first),
            Call::Room(n) => self.sink.set_room(self.alloc, n),
            Call::Reserve(n) => self.reserve(n),
            Call::Run(_) => self.run(),
            call => self.ask(call),
        }
    }

    fn request(&self, call: Call<'_>) -> Option<Request> {
        match call {
            Call::Listen { .. } => match self.queues.get(self.at) {
                Some(queue) if queue.spare() == 0 => Some(Request::Slot),
                _ => None,
            },
            Call::Reserve(_) => Some(Request::Slot),
            Call::Room(_) => Some(Request::Sink),
            Call::Run(_) => Some(Request::Replies),
            _ => None,
        }
    }

    fn shape(&self) -> [usize; 6] {
        let (told, spare) = match self.queues.get(self.at) {
            Some(queue) => (queue.listeners_notified(), queue.spare()),
            None => (0, 0),
        };
        let (tasks, missed) = self.sink.shape();
        [told, self.total(), spare, self.replies.len(), tasks, missed]
    }

    // A reservation that is refused keeps the room that it made before, and takes none away.
    fn stands(&self, call: Call<'_>, before: [usize; 6]) -> bool {
        let mut shape = self.shape();
        if let Call::Reserve(_) = call {
            shape[2] = before[2].min(shape[2]);
        }
        shape == before
    }

    fn note(&mut self, answer: &mut Answer) -> Result<(), AllocError> {
        if !self.replies.is_empty() {
            answer.replies.clear();
        }
        for reply in self.replies.iter() {
            answer.replies.push(*reply)?;
        }
        self.sink.note(answer)
    }

    // The insertions that were not refused, and they alone, have to be in the queue. There is no gap in their serials
    // where each is kept.
    fn refused_within(&self) -> Option<(Request, bool)> {
        let (mut came, mut left) = (0usize, 0usize);
        let mut is_refused = false;
        for reply in self.replies.iter() {
            match reply {
                Reply::NoMemory => is_refused = true,
                Reply::Listener(_) => came = came.wrapping_add(1),
                Reply::Removed(Left::Nobody) => {}
                Reply::Ready(_) | Reply::Removed(_) => left = left.wrapping_add(1),
                _ => {}
            }
        }
        if !is_refused {
            return None;
        }
        let stands = self.total().checked_add(left) == self.met.checked_add(came);
        Some((Request::SlotInRun, stands))
    }

    fn prepare_again(&mut self, call: Call<'_>) -> Result<(), AllocError> {
        if let Call::Run(_) = call {
            if self.refused_within().is_some() {
                let first = self.serials.get(self.at).map_or(0, |serials| serials.first);
                self.start(first);
            }
            return self.prepare(call);
        }
        Ok(())
    }
}
