//! What a client of a lock, of one permit or many, does in its line, and which place that leads to.
ghost use Rattle.std.specs.Prelude.{◌≡◌, ◌<◌, true, unwrap_or, if◌then◌else◌, length, slice_get, IsFalse, IsSome};
ghost use Rattle.event_worlds.specs.declared.world.acts.Act.TheVariants.{Go, Cancel};
ghost use Rattle.event_worlds.specs.declared.world.place.Place.TheVariants.{Idle, First, Second, ToRegister, Parked};
ghost use Rattle.event_worlds.specs.declared.world.place.News.TheVariants.{Dropped};
ghost use Rattle.event_worlds.specs.ClientTable.{place_after};
ghost use Rattle.event_worlds.specs.Line.{is_told, is_in_line, has_wake, has_serial_left, joined, registered, told_left, waiting_left, wake_lost, dropped};
ghost use Rattle.event_worlds.specs.Served.{MayBeAt};
ghost use Rattle.event_worlds.specs.Steps.{Moves};
ghost use Rattle.event_worlds.specs.Waiting.{waits};

use super::acts::Act;
use super::line::ClientLine;
use super::place::{News, Place};

/// Returns the client of this number, or `None` if there is none.
pub(super) fn find<C: Copy>(clients: &[C], client: usize) -> Option<C>
    ensures { result ≡ slice_get clients.now client }
{
    clients.get(client).copied()
}

/// Returns the place after this news, which a client at this place can learn. No client of a world goes elsewhere.
pub(super) fn next_place(place: Place, news: News) -> Place
    requires may_come { IsSome (place_after place news) }
    ensures { result ≡ unwrap_or (place_after place news) place }
{
    match place.after(news) {
        Some(place) => place,
        None => unreachable!(),
    }
}

/// Takes a step that concerns the client's place and its line alone, and so is alike in each lock. Returns the client's place
/// after the step, or `None` where this act is no such step.
pub(super) fn wait(place: Place, act: Act, client: usize, line: &mut ClientLine) -> Option<Place>
    requires client { client < length line.old.awake }
    requires may_be_at { MayBeAt place client line.old }
    ensures moves { Moves (waits act place client line.old) line.old result line.new }
{
    match act {
        Act::Go => go(place, client, line),
        Act::Poll => match place {
            Place::Parked => Some(poll(client, line)),
            _ => None,
        },
        Act::TimeOut => match place {
            Place::Parked => Some(time_out(client, line)),
            _ => None,
        },
        Act::Cancel => match place {
            Place::ToRegister | Place::Parked => Some(drop_listener(place, client, line)),
            _ => None,
        },
    }
}

fn go(place: Place, client: usize, line: &mut ClientLine) -> Option<Place>
    requires client { client < length line.old.awake }
    requires may_be_at { MayBeAt place client line.old }
    ensures moves { Moves (waits Go place client line.old) line.old result line.new }
{
    match place {
        Place::Idle => Some(next_place(place, News::Begin)),
        Place::ToListen => Some(listen(client, line)),
        Place::Ending => Some(drop_listener(place, client, line)),
        Place::ToRegister => Some(register(client, line)),
        Place::Parked => {
            if line.has_wake(client) {
                Some(poll(client, line))
            } else {
                None
            }
        }
        Place::First { .. } | Place::Second | Place::Holding | Place::Releasing => None,
    }
}

// Has a client listen that is about to.
fn listen(client: usize, line: &mut ClientLine) -> Place
    requires client { client < length line.old.awake }
    requires absent { IsFalse (is_in_line client line.old) }
    ensures place { result ≡ (if has_serial_left line.old then Second else Idle) }
    ensures line { line.new ≡ (if has_serial_left line.old then joined client
        line.old else line.old) }
{
    if line.join(client) {
        next_place(Place::ToListen, News::Listening)
    } else {
        next_place(Place::ToListen, News::Refused)
    }
}

// Has a client register that is about to.
fn register(client: usize, line: &mut ClientLine) -> Place
    requires client { client < length line.old.awake }
    ensures place { result ≡ (if is_told client line.old then First true else Parked) }
    ensures line { line.new ≡ (if is_told client line.old then told_left client line.old else
        registered client line.old) }
{
    if line.register(client) {
        next_place(Place::ToRegister, News::Told)
    } else {
        next_place(Place::ToRegister, News::Registered)
    }
}

// Has a parked client go on, whether it has a wake-up or not.
fn poll(client: usize, line: &mut ClientLine) -> Place
    requires client { client < length line.old.awake }
    ensures place { result ≡ ToRegister }
    ensures line { line.new ≡ wake_lost client line.old }
{
    line.lose_wake(client);
    next_place(Place::Parked, News::Woke)
}

// Lets the deadline of a parked client pass.
fn time_out(client: usize, line: &mut ClientLine) -> Place
    requires client { client < length line.old.awake }
    ensures place { result ≡ (if is_told client line.old then First true else Idle) }
    ensures line { line.new ≡ (if is_told client line.old then told_left client line.old else
        waiting_left client line.old) }
{
    if line.leave(client) {
        next_place(Place::Parked, News::Told)
    } else {
        next_place(Place::Parked, News::TimedOut)
    }
}

// Drops the client's listener, which propagates its notification.
fn drop_listener(place: Place, client: usize, line: &mut ClientLine) -> Place
    requires client { client < length line.old.awake }
    requires may_drop { IsSome (place_after place Dropped) }
    ensures place { result ≡ unwrap_or (place_after place Dropped) place }
    ensures line { line.new ≡ dropped client line.old }
{
    line.drop_out(client);
    next_place(place, News::Dropped)
}
