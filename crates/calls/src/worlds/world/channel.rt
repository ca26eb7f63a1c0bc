//! A channel, its senders, its receivers, and who closes it.
use crate::worlds::spot::{At, Spot};
use crate::worlds::step::{Act, Actor, Step};
use crate::worlds::world::World;
use event_worlds::{ChannelAct, ChannelActor, ChannelClient, ChannelStep, ChannelWorld};
use std::alloc::{AllocError, Global};
use std::fmt::Write;

fn client_spot(own: ChannelClient, is_told: bool, has_wake: bool) -> Spot {
    Spot {
        at: At::Client(own.place),
        is_told,
        has_wake,
        has: own.message,
        owes: own.owed,
    }
}

impl World for ChannelWorld {
    type Step = ChannelStep;

    fn sized(alloc: Global, size: &str) -> Option<Result<Self, AllocError>> {
        let (senders, rest) = size.split_once(' ')?;
        let (receivers, capacity) = rest.split_once(' ')?;
        let (senders, receivers) = (senders.parse().ok()?, receivers.parse().ok()?);
        let capacity = capacity.parse().ok()?;
        Some(ChannelWorld::new(alloc, senders, receivers, capacity))
    }

    fn step_of(step: Step) -> Option<ChannelStep> {
        let actor = match step.actor {
            Actor::Sender(client) => ChannelActor::Sender(client),
            Actor::Receiver(client) => ChannelActor::Receiver(client),
            Actor::Closer => ChannelActor::Closer,
            Actor::Client(_) => return None,
        };
        let act = match step.act {
            Act::Go => ChannelAct::Go,
            Act::Send(message) => ChannelAct::Send(message),
            Act::Poll => ChannelAct::Poll,
            Act::TimeOut => ChannelAct::TimeOut,
            Act::Cancel => ChannelAct::Cancel,
            Act::More => return None,
        };
        Some(ChannelStep { actor, act })
    }

    fn take(&mut self, step: ChannelStep) -> bool {
        self.step(step.actor, step.act)
    }

    fn take_all(&mut self, steps: &[ChannelStep]) -> usize {
        self.run(steps)
    }

    // The senders come first, then the receivers, and then who closes.
    fn actor(&self, number: usize) -> Actor {
        match number.checked_sub(self.senders()) {
            None => Actor::Sender(number),
            Some(number) if number == self.receivers() => Actor::Closer,
            Some(number) => Actor::Receiver(number),
        }
    }

    fn spot(&self, actor: Actor) -> Option<Spot> {
        match actor {
            Actor::Sender(client) if client < self.senders() => Some(client_spot(
                self.sender(client),
                self.is_sender_told(client),
                self.sender_has_wake(client),
            )),
            Actor::Receiver(client) if client < self.receivers() => Some(client_spot(
                self.receiver(client),
                self.is_receiver_told(client),
                self.receiver_has_wake(client),
            )),
            Actor::Closer => Some(Spot::new(At::Closer(self.closer()))),
            _ => None,
        }
    }

    fn write_shared(&self, text: &mut String) -> Result<(), AllocError> {
        write!(text, "messages {}/{}", self.messages(), self.capacity())?;
        for index in 0..usize::MAX {
            match self.message(index) {
                Some(message) => write!(text, " {message}")?,
                None => break,
            }
        }
        if self.is_closed() {
            write!(text, " closed")?;
        }
        Ok(())
    }
}
