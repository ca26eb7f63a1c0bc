//! Steps, as texts have them.
use crate::worlds::world::World;
use std::alloc::{AllocError, Global};
use std::fmt::{self, Display, Formatter, Write};

/// Who takes a step.
#[derive(Clone, Copy)]
pub enum Actor {
    /// `N`: a client, or a setter of a flag
    Client(usize),
    /// `sN`
    Sender(usize),
    /// `rN`
    Receiver(usize),
    /// `closer`
    Closer,
}

/// What it is to do. A world has some of these acts.
#[derive(Clone, Copy, Debug)]
pub enum Act {
    /// `Go`: what its place has next.
    Go,
    /// `SendN`: an idle sender begins to send this message.
    Send(usize),
    /// `More`: it takes one more permit.
    More,
    /// `Poll`: it is polled though it may have no wake-up.
    Poll,
    /// `TimeOut`: its deadline passes.
    TimeOut,
    /// `Cancel`: it gives up, and its listener is dropped.
    Cancel,
}

/// One step.
#[derive(Clone, Copy)]
pub struct Step {
    pub actor: Actor,
    pub act: Act,
}

impl Actor {
    /// The actor of that name.
    pub fn read(word: &str) -> Option<Actor> {
        if let Some(number) = word.strip_prefix('s') {
            return Some(Actor::Sender(number.parse().ok()?));
        }
        if let Some(number) = word.strip_prefix('r') {
            return Some(Actor::Receiver(number.parse().ok()?));
        }
        match word {
            "closer" => Some(Actor::Closer),
            number => Some(Actor::Client(number.parse().ok()?)),
        }
    }
}

impl Act {
    /// All acts, one message for all.
    pub const ALL: [Act; 6] = [
        Act::Go,
        Act::Send(9),
        Act::More,
        Act::Poll,
        Act::TimeOut,
        Act::Cancel,
    ];

    fn read(word: &str) -> Option<Act> {
        match word {
            "Go" => Some(Act::Go),
            "More" => Some(Act::More),
            "Poll" => Some(Act::Poll),
            "TimeOut" => Some(Act::TimeOut),
            "Cancel" => Some(Act::Cancel),
            send => Some(Act::Send(send.strip_prefix("Send")?.parse().ok()?)),
        }
    }
}

impl Step {
    // The step of a word, and how often it is made.
    fn read(word: &str) -> Option<(Step, usize)> {
        let (actor, act) = word.split_once(':')?;
        let actor = Actor::read(actor)?;
        if let Ok(times) = act.parse() {
            return Some((
                Step {
                    actor,
                    act: Act::Go,
                },
                times,
            ));
        }
        let act = Act::read(act)?;
        Some((Step { actor, act }, 1))
    }
}

/// The first word of the text that is no step of the world, if the text is no schedule.
pub fn no_step<W: World>(text: &str) -> Option<&str> {
    text.split(' ').find(|word| match Step::read(word) {
        Some((step, _)) => W::step_of(step).is_none(),
        None => true,
    })
}

/// The steps of a schedule.
pub fn steps_of(alloc: Global, text: &str) -> Result<Vec<Step>, AllocError> {
    let mut steps = Vec::new(alloc);
    for word in text.split(' ') {
        if let Some((step, times)) = Step::read(word) {
            for _ in 0..times {
                steps.push(step)?;
            }
        }
    }
    Ok(steps)
}

impl Display for Actor {
    fn fmt<W: Write>(&self, f: &mut Formatter<W>) -> fmt::Result {
        match *self {
            Actor::Client(number) => write!(f, "{number}"),
            Actor::Sender(number) => write!(f, "s{number}"),
            Actor::Receiver(number) => write!(f, "r{number}"),
            Actor::Closer => f.write_str("closer"),
        }
    }
}

impl Display for Act {
    fn fmt<W: Write>(&self, f: &mut Formatter<W>) -> fmt::Result {
        match *self {
            Act::Send(message) => write!(f, "Send{message}"),
            act => write!(f, "{act:?}"),
        }
    }
}

impl Display for Step {
    fn fmt<W: Write>(&self, f: &mut Formatter<W>) -> fmt::Result {
        write!(f, "{}:{}", self.actor, self.act)
    }
}
