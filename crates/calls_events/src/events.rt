//! Events as subjects.
use crate::kinds::ListenerKind;
use crate::listeners::Either;
use crate::tag::{EventTag, OnEvent};
use crate::tasks::waker_of;
use crate::wakes::{Runtime, Wakes};
use calls::{Act, Answer, Call, Reply, Request, Subject, notify};
use event_listener::{Event, EventIds, ListenError, Listener};
use futures::task::Waker;
use futures::test::MockTask;
use std::alloc::AllocError;
use std::marker::PhantomData;
use std::time::Instant;

// More tasks that live on than a text has.
const MOST_TASKS: usize = 8;

/// Events, and listeners of the kinds `A` and `B`: `listen` makes one of the first, `slisten` one of the second.
#[derive(Drop)]
pub struct Events<'ev, A, B, L, M, T, R> {
    rt: &'ev R,
    events: &'ev [Event<T>],
    // The number of the event that calls are made on.
    at: usize,
    // None is where a listener has left.
    listeners: Vec<Option<Either<L, M>>>,
    wakes: Wakes<'ev, R>,
    // That of the next poll.
    waker: Option<Waker>,
    // Those that live on.
    tasks: Vec<MockTask>,
    // A moment that has passed.
    past: Option<Instant>,
    ids: EventIds,
    kinds: PhantomData<(A, B)>,
}

impl<'ev, A, B, L, M, T, R> Events<'ev, A, B, L, M, T, R>
where
    A: ListenerKind<'ev, T, R, Listener = L>,
    B: ListenerKind<'ev, T, R, Listener = M>,
    L: Listener<T> + Drop,
    M: Listener<T> + Drop,
    T: EventTag + Drop,
    R: Runtime,
{
    /// These events, to which no listener has come.
    pub fn new(rt: &'ev R, events: &'ev [Event<T>]) -> Result<Self, AllocError> {
        Ok(Events {
            rt,
            events,
            at: 0,
            listeners: Vec::new(rt.alloc()),
            wakes: Wakes::new(rt)?,
            waker: None,
            tasks: Vec::new(rt.alloc()),
            past: Instant::now(rt).ok(),
            ids: EventIds::new(),
            kinds: PhantomData,
        })
    }

    fn listen(&mut self, other: bool) -> Reply {
        let Some(event) = self.events.get(self.at) else {
            return Reply::Invalid;
        };
        let (rt, alloc) = (self.rt, self.rt.alloc());
        let made = if other {
            match B::listen(rt, alloc, event) {
                Ok(listener) => Ok(Either::Other(listener)),
                Err(error) => Err(error),
            }
        } else {
            match A::listen(rt, alloc, event) {
                Ok(listener) => Ok(Either::One(listener)),
                Err(error) => Err(error),
            }
        };
        let number = self.listeners.len();
        match made {
            Ok(listener) => match self.listeners.push(Some(listener)) {
                Ok(()) => Reply::Listener(number),
                Err(_) => Reply::NoMemory,
            },
            Err(ListenError::Memory) => Reply::NoMemory,
            Err(ListenError::SerialsUsedUp) => Reply::UsedUp,
        }
    }

    fn act(&mut self, number: usize, act: Act) -> Reply {
        match act {
            Act::Poll(_) | Act::Hand(_) => self.poll(number),
            Act::Await(task) => match (self.listeners.get_mut(number), self.tasks.get(task)) {
                (Some(Some(listener)), Some(task)) => listener.poll_in(task),
                _ => Reply::Invalid,
            },
            Act::Same(other) => match (self.listener(number), self.listener(other)) {
                (Some(one), Some(other)) => one.same_event(other),
                _ => Reply::Invalid,
            },
            Act::ListensTo(at) => match (self.listener(number), self.events.get(at)) {
                (Some(listener), Some(event)) => listener.listens_to(event),
                _ => Reply::Invalid,
            },
            act => self.end(number, act),
        }
    }

    fn poll(&mut self, number: usize) -> Reply {
        let Some(waker) = self.waker.take() else {
            return Reply::Invalid;
        };
        match self.listeners.get_mut(number) {
            Some(Some(listener)) => listener.poll(waker),
            _ => Reply::Invalid,
        }
    }

    fn end(&mut self, number: usize, act: Act) -> Reply {
        let Some(place) = self.listeners.get_mut(number) else {
            return Reply::Invalid;
        };
        let Some(listener) = place.take() else {
            return Reply::Invalid;
        };
        let (reply, back) = listener.end(act, self.past);
        *place = back;
        reply
    }

    fn listener(&self, number: usize) -> Option<&Either<L, M>> {
        self.listeners.get(number)?.as_ref()
    }

    // Has the task of that number, and those below it.
    fn have_task(&mut self, task: usize) -> Result<(), AllocError> {
        for _ in self.tasks.len()..task.saturating_add(1).min(MOST_TASKS) {
            self.tasks.push(new_task(self.rt)?)?;
        }
        Ok(())
    }

    fn next_id(&mut self) -> Reply {
        match self.ids.next() {
            Ok(id) => Reply::Number(id.number()),
            Err(_) => Reply::UsedUp,
        }
    }
}

// A new task, which nothing has woken.
fn new_task<R: Runtime>(rt: &R) -> Result<MockTask, AllocError> {
    let Ok(task) = MockTask::new(rt) else {
        return Err(AllocError);
    };
    task.enter(|_| ());
    Ok(task)
}

impl<'ev, A, B, L, M, T, R> Subject for Events<'ev, A, B, L, M, T, R>
where
    A: ListenerKind<'ev, T, R, Listener = L>,
    B: ListenerKind<'ev, T, R, Listener = M>,
    L: Listener<T> + Drop,
    M: Listener<T> + Drop,
    T: EventTag + Drop,
    R: Runtime,
{
    fn prepare(&mut self, call: Call<'_>) -> Result<(), AllocError> {
        self.wakes.begin()?;
        match call {
            Call::Listen { .. } => self.listeners.reserve(1)?,
            Call::On(number, act) if self.listener(number).is_some() => match act {
                Act::Poll(task) => self.waker = Some(self.wakes.waker(task)?),
                Act::Await(task) => self.have_task(task)?,
                Act::Hand(task) => {
                    self.have_task(task)?;
                    if let Some(task) = self.tasks.get(task) {
                        self.waker = Some(waker_of(task)?);
                    }
                }
                _ => {}
            },
            _ => {}
        }
        Ok(())
    }

    fn make(&mut self, call: Call<'_>) -> Reply {
        match (call, self.events.get(self.at)) {
            (Call::Listen { other }, _) => self.listen(other),
            (Call::On(number, act), _) => self.act(number, act),
            (Call::Notify(notice), Some(event)) => {
                notify(&mut OnEvent { rt: self.rt, event }, notice)
            }
            (Call::Total, Some(event)) => Reply::Total(event.total_listeners(self.rt)),
            (Call::IsNotified, Some(event)) => Reply::IsNotified(event.is_notified(self.rt)),
            (Call::At(number), _) => {
                self.at = number;
                Reply::Done
            }
            (Call::Ids(first), _) => {
                self.ids = EventIds::starting_at(first);
                Reply::Done
            }
            (Call::Id, _) => self.next_id(),
            _ => Reply::Invalid,
        }
    }

    fn request(&self, call: Call<'_>) -> Option<Request> {
        match call {
            Call::Listen { .. } => Some(Request::Listener),
            Call::On(_, Act::Wait | Act::Timeout(_) | Act::Expire) => Some(Request::Parker),
            _ => None,
        }
    }

    fn shape(&self) -> [usize; 6] {
        let total = match self.events.get(self.at) {
            Some(event) => event.total_listeners(self.rt),
            None => 0,
        };
        [total, 0, 0, 0, 0, 0]
    }

    fn note(&mut self, answer: &mut Answer) -> Result<(), AllocError> {
        self.waker = None;
        self.wakes.end(&mut answer.woken)?;
        for (number, task) in self.tasks.iter().enumerate() {
            if task.is_woken() {
                answer.awake.push(number)?;
            }
        }
        Ok(())
    }
}
