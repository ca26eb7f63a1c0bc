ghost use Rattle.std.specs.Prelude.{◌≡◌, ℕ, ◌<◌, nat_lt, is_some, unwrap_or, if◌then◌else◌, Some, length, slice_get, IfOk, IsSome};
ghost use Rattle.event_worlds.specs.declared.world.acts.ChannelAct.TheVariants.{Go, Send};
ghost use Rattle.event_worlds.specs.declared.world.channel.Found.{Found};
ghost use Rattle.event_worlds.specs.declared.world.channel.Found.TheVariants.{One, Nothing, Over};
ghost use Rattle.event_worlds.specs.declared.world.place.News.TheVariants.{Got, Busy};
ghost use Rattle.event_worlds.specs.ClientTable.{place_after};
ghost use Rattle.event_worlds.specs.Line.{Line, is_told, has_wake, notified};
ghost use Rattle.event_worlds.specs.Channel.{channel_of, start, is_closed, first_found, passed, looked, paid, from, next, next_of_sender, next_of_receiver, next_of_closer, after, after_all, taken, sent_by, received_by, sent, received};
ghost use Rattle.event_worlds.specs.ChannelInvariant.{Moves};
ghost use Rattle.event_worlds.specs.ChannelSafety.{IsSafe, MessagesFit, NotifiesAdditional, InLineAreListening, InOrder};
ghost use Rattle.event_worlds.specs.Served.{MayBeAt};
ghost use Rattle.event_worlds.specs.Steps.{Takes};

use super::acts::{Act, ChannelAct, ChannelActor, ChannelStep};
use super::buffer::Buffer;
use super::client::{find, next_place, wait};
use super::line::ClientLine;
use super::place::{News, Place};
use std::alloc::{AllocError, Global};
use std::marker::Model;

/// How far a channel is closed.
#[derive(Clone, Copy, Debug, PartialEq, Eq)]
pub enum CloserPlace {
    /// The channel is open.
    ToClose,
    /// The channel is closed, and its senders are still to be notified.
    ToNotifySenders,
    /// The channel is closed, its senders were notified, and its receivers are still to be notified.
    ToNotifyReceivers,
    /// The channel is closed, and both sides were notified.
    Done,
}

/// A sender or a receiver of a channel.
#[derive(Clone, Copy, Debug, PartialEq, Eq)]
pub struct ChannelClient {
    /// The place of the sender or receiver in its loop.
    pub place: Place,
    /// How many notifications the client owes the other side: one, from the look by which it sent or received until it has
    /// notified.
    pub owed: usize,
    /// The message that a sender sends or sent last, or that a receiver received last; 0 before the first.
    pub message: usize,
}

// What a client finds when it looks at the channel.
#[derive(Clone, Copy)]
enum Found {
    // Room for the sender's message, or a message for the receiver: the client has this message afterwards.
    One(usize),
    // No room, or no message.
    Nothing,
    // Neither will come: the channel is closed, and for a receiver empty too.
    Over,
}

/// A bounded channel with its senders and its receivers, the two lines in which they wait for room and for messages, and its
/// closer.
///
/// A sender looks for room, listens, looks again, and waits until it is notified; a receiver does so for a message. The look that
/// finds room or a message sends or receives, and the client then notifies one client of the other side, additional to those
/// notified already. Clients go by [`Place::after`]: at `Holding`, and at `Ending` with its listener still to be dropped, a
/// client has sent or received, or has found the channel closed.
///
/// Closing is three steps: the channel is closed, all senders are notified, all receivers are notified. What is left in the
/// channel is still received. Each step of an actor is one call of [`step`](ChannelWorld::step). Whatever the schedule, no
/// wake-up and no message is lost, and messages are received in the order in which they were sent.
#[derive(Drop)]
pub struct ChannelWorld {
    buffer: Buffer,
    closer: CloserPlace,
    senders: Vec<ChannelClient>,
    sender_line: ClientLine,
    receivers: Vec<ChannelClient>,
    receiver_line: ClientLine,
}

impl Model for ChannelWorld {
    ghost use Rattle.event_worlds.specs.Channel.{ChannelState, channel_of};
    ghost use Rattle.event_worlds.specs.ChannelInvariant.{IsSound};

    ghost Value = { ChannelState };

    ghost view = { λ world. channel_of world.buffer world.closer world.senders.items
        world.sender_line world.receivers.items world.receiver_line };

    ghost invariant = { λ world. IsSound
        (channel_of world.buffer world.closer world.senders.items world.sender_line
        world.receivers.items world.receiver_line) };
}

impl ChannelWorld {
    /// Makes an empty channel that is open, for at most `capacity` messages, with senders and receivers, none of which wants
    /// anything.
    ///
    /// The call allocates room for all clients and messages, and returns an error if that fails. No later call allocates.
    pub fn new(
        alloc: Global,
        senders: usize,
        receivers: usize,
        capacity: usize,
    ) -> Result<Self, AllocError>
        ensures start { IfOk result (λ world. world ≡ start senders receivers capacity) }
        ensures safe { IfOk result IsSafe }
        ensures messages_fit { IfOk result MessagesFit }
        ensures notifies_additional { IfOk result NotifiesAdditional }
        ensures in_line_are_those_listening { IfOk result InLineAreListening }
    {
        let idle = ChannelClient {
            place: Place::Idle,
            owed: 0,
            message: 0,
        };
        let buffer = Buffer::new(alloc, capacity)?;
        let senders_idle = vec![in alloc; idle; senders]?;
        let sender_line = ClientLine::new(alloc, true, senders, 0)?;
        let receivers_idle = vec![in alloc; idle; receivers]?;
        let receiver_line = ClientLine::new(alloc, true, receivers, 0)?;
        let world = ChannelWorld {
            buffer,
            closer: CloserPlace::ToClose,
            senders: senders_idle,
            sender_line,
            receivers: receivers_idle,
            receiver_line,
        };
        world.reveal_invariant();
        Ok(world)
    }

    /// Takes a step of one actor, and returns whether the tables of steps have this act at the place of that actor.
    ///
    /// Any other act, and any number that no actor has, changes nothing, and returns `false`.
    pub fn step(&mut self, actor: ChannelActor, act: ChannelAct) -> bool
        ensures step { self.new ≡ after actor act self.old }
        ensures answer { result ≡ is_some (next actor act self.old) }
        ensures in_order { InOrder (received_by actor act self.old) (sent_by actor act self.old)
            self.old self.new }
        ensures safe { IsSafe self.new }
        ensures messages_fit { MessagesFit self.new }
        ensures notifies_additional { NotifiesAdditional self.new }
        ensures in_line_are_those_listening { InLineAreListening self.new }
    {
        let taken = self.take_step(actor, act);
        self.reveal_invariant();
        taken
    }

    fn take_step(&mut self, actor: ChannelActor, act: ChannelAct) -> bool
        ensures takes { Takes (next actor act self.old) self.old result self.new }
    {
        match actor {
            ChannelActor::Sender(client) => self.take_sender_step(client, act),
            ChannelActor::Receiver(client) => self.take_receiver_step(client, act),
            ChannelActor::Closer => match act {
                ChannelAct::Go => self.take_closer_step(),
                _ => false,
            },
        }
    }

    fn take_sender_step(&mut self, client: usize, act: ChannelAct) -> bool
        ensures takes { Takes (next_of_sender client act self.old) self.old result self.new }
    {
        let Some(own) = find(&self.senders, client) else {
            return false;
        };
        let found = look_for_room(own.message, self.closer, &self.buffer);
        match moves(
            true,
            own,
            found,
            client,
            act,
            &mut self.sender_line,
            &mut self.receiver_line,
        ) {
            Some(made) => {
                self.buffer.push(message_passed(own.place, act, found));
                self.senders[client] = made;
                true
            }
            None => false,
        }
    }

    fn take_receiver_step(&mut self, client: usize, act: ChannelAct) -> bool
        ensures takes { Takes (next_of_receiver client act self.old) self.old result self.new }
    {
        let Some(own) = find(&self.receivers, client) else {
            return false;
        };
        let found = look_for_message(self.closer, &self.buffer);
        match moves(
            false,
            own,
            found,
            client,
            act,
            &mut self.receiver_line,
            &mut self.sender_line,
        ) {
            Some(made) => {
                self.buffer.pop(message_passed(own.place, act, found));
                self.receivers[client] = made;
                true
            }
            None => false,
        }
    }

    // Closes the channel, then notifies all senders, then all receivers, each in one step.
    fn take_closer_step(&mut self) -> bool
        ensures takes { Takes (next_of_closer self.old.closer self.old) self.old result self.new }
    {
        match self.closer {
            CloserPlace::ToClose => {
                self.closer = CloserPlace::ToNotifySenders;
                true
            }
            CloserPlace::ToNotifySenders => {
                self.sender_line.notify_all();
                self.closer = CloserPlace::ToNotifyReceivers;
                true
            }
            CloserPlace::ToNotifyReceivers => {
                self.receiver_line.notify_all();
                self.closer = CloserPlace::Done;
                true
            }
            CloserPlace::Done => false,
        }
    }

    /// Takes the steps of a schedule, one after another, and returns how many were steps of the tables. The other steps change
    /// nothing.
    pub fn run(&mut self, steps: &[ChannelStep]) -> usize
        ensures state { self.new ≡ after_all steps.now self.old }
        ensures taken { result ≡ taken steps.now self.old }
        ensures in_order { InOrder (received steps.now self.old) (sent steps.now self.old)
            self.old self.new }
        ensures safe { IsSafe self.new }
        ensures messages_fit { MessagesFit self.new }
        ensures notifies_additional { NotifiesAdditional self.new }
        ensures in_line_are_those_listening { InLineAreListening self.new }
    {
        let mut taken = 0;
        for step in steps {
            taken += usize::from(self.take_step(step.actor, step.act));
        }
        self.reveal_invariant();
        taken
    }

    // Shows what follows from what the type keeps, which is known where a field is read.
    fn reveal_invariant(&self)
        ensures safe { IsSafe self.now }
        ensures messages_fit { MessagesFit self.now }
        ensures notifies_additional { NotifiesAdditional self.now }
        ensures in_line_are_those_listening { InLineAreListening self.now }
    {
        let _line = &self.sender_line;
    }

    /// Returns how many messages there may be.
    pub fn capacity(&self) -> usize
        ensures value { result ≡ self.now.capacity }
    {
        self.buffer.capacity()
    }

    /// Returns how many messages were sent and not yet received.
    pub fn messages(&self) -> usize
        ensures value { result ≡ length self.now.messages }
    {
        self.buffer.len()
    }

    /// Returns the message at `index`, the oldest first, or `None` past the last.
    pub fn message(&self, index: usize) -> Option<usize>
        ensures value { result ≡ slice_get self.now.messages index }
    {
        self.buffer.message(index)
    }

    /// Returns how far the channel is closed.
    pub fn closer(&self) -> CloserPlace
        ensures value { result ≡ self.now.closer }
    {
        self.closer
    }

    /// Returns whether the channel is closed.
    pub fn is_closed(&self) -> bool
        ensures value { result ≡ is_closed self.now.closer }
    {
        has_closed(self.closer)
    }

    /// Returns how many senders there are.
    pub fn senders(&self) -> usize
        ensures value { result ≡ length self.now.senders.clients }
    {
        self.senders.len()
    }

    /// Returns how many receivers there are.
    pub fn receivers(&self) -> usize
        ensures value { result ≡ length self.now.receivers.clients }
    {
        self.receivers.len()
    }

    /// Returns a sender: its place, what it owes, and its message.
    pub fn sender(&self, client: usize) -> ChannelClient
        requires client { client < length self.now.senders.clients }
        ensures value { slice_get self.now.senders.clients client ≡ Some result }
    {
        self.senders[client]
    }

    /// Returns a receiver: its place, what it owes, and its message.
    pub fn receiver(&self, client: usize) -> ChannelClient
        requires client { client < length self.now.receivers.clients }
        ensures value { slice_get self.now.receivers.clients client ≡ Some result }
    {
        self.receivers[client]
    }

    /// Returns whether a sender is notified, and has not left the line.
    pub fn is_sender_told(&self, client: usize) -> bool
        requires client { client < length self.now.senders.clients }
        ensures value { result ≡ is_told client self.now.senders.line }
    {
        self.sender_line.is_told(client)
    }

    /// Returns whether a receiver is notified, and has not left the line.
    pub fn is_receiver_told(&self, client: usize) -> bool
        requires client { client < length self.now.receivers.clients }
        ensures value { result ≡ is_told client self.now.receivers.line }
    {
        self.receiver_line.is_told(client)
    }

    /// Returns whether a sender has a wake-up. A wake-up that a sender has when it leaves the line stays until the sender listens
    /// again.
    pub fn sender_has_wake(&self, client: usize) -> bool
        requires client { client < length self.now.senders.clients }
        ensures value { result ≡ has_wake client self.now.senders.line }
    {
        self.sender_line.has_wake(client)
    }

    /// Returns whether a receiver has a wake-up. A wake-up that a receiver has when it leaves the line stays until the receiver
    /// listens again.
    pub fn receiver_has_wake(&self, client: usize) -> bool
        requires client { client < length self.now.receivers.clients }
        ensures value { result ≡ has_wake client self.now.receivers.line }
    {
        self.receiver_line.has_wake(client)
    }
}

fn has_closed(closer: CloserPlace) -> bool
    ensures { result ≡ is_closed closer }
{
    match closer {
        CloserPlace::ToClose => false,
        CloserPlace::ToNotifySenders | CloserPlace::ToNotifyReceivers | CloserPlace::Done => true,
    }
}

// Returns what a sender with this message finds.
fn look_for_room(message: usize, closer: CloserPlace, buffer: &Buffer) -> Found
    ensures { result ≡ (if is_closed closer then Over else
        (if nat_lt (length buffer.now.messages) buffer.now.capacity then One
        message else Nothing)) }
{
    if has_closed(closer) {
        Found::Over
    } else if buffer.len() < buffer.capacity() {
        Found::One(message)
    } else {
        Found::Nothing
    }
}

// Returns what a receiver finds.
fn look_for_message(closer: CloserPlace, buffer: &Buffer) -> Found
    ensures { result ≡ first_found buffer.now.messages (is_closed closer) }
{
    match buffer.message(0) {
        Some(message) => Found::One(message),
        None => {
            if has_closed(closer) {
                Found::Over
            } else {
                Found::Nothing
            }
        }
    }
}

// Returns the message that this act takes, if it takes one.
fn message_passed(place: Place, act: ChannelAct, found: Found) -> Option<usize>
    ensures { result ≡ passed act place found }
{
    match (place, act, found) {
        (Place::First { .. } | Place::Second, ChannelAct::Go, Found::One(message)) => Some(message),
        _ => None,
    }
}

// The table of steps of both sides: returns the client after this act at its place, or `None` if the act is no step. The client's
// line and that of the other side change with the step.
fn moves(
    sends: bool,
    own: ChannelClient,
    found: Found,
    client: usize,
    act: ChannelAct,
    line: &mut ClientLine,
    other: &mut ClientLine,
) -> Option<ChannelClient>
    requires client { client < length line.old.awake }
    requires may_be_at { MayBeAt own.place client line.old }
    ensures moves { Moves (from act own.place sends client own found line.old other.old) line.old
        other.old result line.new other.new }
{
    let place = match act {
        ChannelAct::Go => return go(sends, own, found, client, line, other),
        ChannelAct::Send(message) => return begin(sends, own, message),
        ChannelAct::Poll => wait(own.place, Act::Poll, client, line)?,
        ChannelAct::TimeOut => wait(own.place, Act::TimeOut, client, line)?,
        ChannelAct::Cancel => wait(own.place, Act::Cancel, client, line)?,
    };
    Some(ChannelClient { place, ..own })
}

fn go(
    sends: bool,
    own: ChannelClient,
    found: Found,
    client: usize,
    line: &mut ClientLine,
    other: &mut ClientLine,
) -> Option<ChannelClient>
    requires client { client < length line.old.awake }
    requires may_be_at { MayBeAt own.place client line.old }
    ensures moves { Moves (from Go own.place sends client own found line.old other.old) line.old
        other.old result line.new other.new }
{
    match own.place {
        Place::First { .. } | Place::Second => Some(look(own, found)),
        Place::Holding => {
            let idle = next_place(next_place(own.place, News::Freed), News::Notified);
            Some(pay(own, idle, other))
        }
        Place::Idle if sends => None,
        Place::Ending if own.owed > 0 => Some(pay(own, own.place, other)),
        Place::Idle
        | Place::ToListen
        | Place::Ending
        | Place::ToRegister
        | Place::Parked
        | Place::Releasing => {
            let place = wait(own.place, Act::Go, client, line)?;
            Some(ChannelClient { place, ..own })
        }
    }
}

// Notifies the other side of what the client owes it, and moves the client to this place.
fn pay(own: ChannelClient, place: Place, other: &mut ClientLine) -> ChannelClient
    ensures made { result ≡ paid place own }
    ensures line { other.new ≡ notified own.owed other.old }
{
    other.notify(own.owed);
    ChannelClient {
        place,
        owed: 0,
        ..own
    }
}

// Looks, and takes what the look finds, if anything.
fn look(own: ChannelClient, found: Found) -> ChannelClient
    requires may_get { IsSome (place_after own.place Got) }
    requires may_be_busy { IsSome (place_after own.place Busy) }
    ensures { result ≡ looked (unwrap_or (place_after own.place Got) own.place)
        (unwrap_or (place_after own.place Busy) own.place) own found }
{
    match found {
        Found::One(message) => ChannelClient {
            place: next_place(own.place, News::Got),
            owed: 1,
            message,
        },
        Found::Nothing => ChannelClient {
            place: next_place(own.place, News::Busy),
            ..own
        },
        Found::Over => ChannelClient {
            place: next_place(own.place, News::Got),
            ..own
        },
    }
}

// Has a sender begin to send this message.
fn begin(sends: bool, own: ChannelClient, message: usize) -> Option<ChannelClient>
    ensures moves { (found : Found) (client : ℕ) (line other : Line)
        → Moves (from (Send message) own.place sends client own found line other) line other
        result line other }
{
    match own.place {
        Place::Idle if sends => Some(ChannelClient {
            place: next_place(own.place, News::Begin),
            message,
            ..own
        }),
        _ => None,
    }
}
