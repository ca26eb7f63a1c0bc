//! The calls of a text, one a line.
use std::str::{FromStr, Split};
use std::time::Duration;

/// A call.
#[derive(Clone, Copy)]
pub enum Call<'t> {
    /// `listen`: a listener comes, and gets the next number. `slisten`: one of the other kind, where there are two.
    Listen { other: bool },
    /// A call on the listener of that number.
    On(usize, Act),
    /// A notification.
    Notify(Notice),
    /// `total`
    Total,
    /// `isnotified`
    IsNotified,
    /// `has_room N`: whether a queue has so many spare slots.
    HasRoom(usize),
    /// `at N`: later calls are made on the queue or event of that number, or by the hand of that number.
    At(usize),
    /// `start SERIAL`: a new queue, whose first listener gets that serial, and the number 0.
    Start(u64),
    /// `room N`: room for so many woken tasks of all later calls. Without it there is room for all.
    Room(usize),
    /// `reserve N`: room in the queue.
    Reserve(usize),
    /// `ids N`: a new source of identities, from that number on.
    Ids(u64),
    /// `id`: the next identity of the source.
    Id,
    /// `run CALL; CALL; ..`: calls of a queue as one.
    Run(&'t str),
    /// `replays ENTRY; ENTRY; ..`: whether these entries are the record of a queue.
    Replays(&'t str),
    /// `fits TYPE INTEGER`: whether it converts to a notification.
    Fits(&'t str, &'t str),
}

/// What is called on a listener N.
#[derive(Clone, Copy)]
pub enum Act {
    /// `poll N TASK`
    Poll(usize),
    /// `await N TASK`: a poll in that task, which goes on to live.
    Await(usize),
    /// `hand N TASK`: a poll that is handed a waker of that task.
    Hand(usize),
    /// `drop N`: it leaves, with propagation.
    Drop,
    /// `discard N`: it leaves, without.
    Discard,
    /// `remove N 0` or `remove N 1`: its key is removed, without or with propagation.
    Remove { propagate: bool },
    /// `wait N`, which has to end at once.
    Wait,
    /// `timeout N MILLISECONDS` or `timeout N max`
    Timeout(Duration),
    /// `expire N`: a wait up to a moment that has passed.
    Expire,
    /// `told N`: whether its key is that of a notified listener.
    IsTold,
    /// `serial N`
    Serial,
    /// `same N M`: whether both listen to one event.
    Same(usize),
    /// `listens N E`: whether it listens to that event.
    ListensTo(usize),
}

/// `notify COUNT KIND`, and the tags behind it.
#[derive(Clone, Copy)]
pub struct Notice {
    pub count: usize,
    pub kind: Kind,
    pub tags: Tags,
}

/// The kind of a notification, and whether it is relaxed.
#[derive(Clone, Copy)]
pub enum Kind {
    /// `d`
    Default,
    /// `a`
    Additional,
    /// `dr`
    RelaxedDefault,
    /// `ar`
    RelaxedAdditional,
}

/// Where a notification has its tags from.
#[derive(Clone, Copy)]
pub enum Tags {
    /// No word: it has none, and is made by the generic call.
    Unit,
    /// `by name`: it has none, and is made by the call whose name has the kind.
    ByName,
    /// `TAG`: clones of it.
    Clones(u64),
    /// `notifyf COUNT KIND TAG`: a function makes it and those that follow.
    CountedFrom(u64),
}

impl<'t> Call<'t> {
    /// The call of a line, if it is one.
    pub fn read(line: &'t str) -> Option<Call<'t>> {
        if let Some(calls) = line.strip_prefix("run ") {
            return Some(Call::Run(calls));
        }
        if let Some(entries) = line.strip_prefix("replays") {
            return Some(Call::Replays(entries.trim_start()));
        }
        let mut words = Words(line.split(' '));
        let call = words.call()?;
        match words.0.next() {
            None => Some(call),
            Some(_) => None,
        }
    }
}

/// A number, or `max` for the greatest one.
pub fn count_of(word: &str) -> Option<usize> {
    match word {
        "max" => Some(usize::MAX),
        word => word.parse().ok(),
    }
}

// The words of a line that are left. Single spaces part them.
#[derive(Drop)]
struct Words<'t>(Split<'t, char>);

impl<'t> Words<'t> {
    fn call(&mut self) -> Option<Call<'t>> {
        match self.0.next()? {
            "listen" => Some(Call::Listen { other: false }),
            "slisten" => Some(Call::Listen { other: true }),
            "notify" => Some(Call::Notify(self.notice()?)),
            "notifyf" => Some(Call::Notify(self.notice_by_function()?)),
            "fits" => Some(Call::Fits(self.0.next()?, self.0.next()?)),
            "total" => Some(Call::Total),
            "isnotified" => Some(Call::IsNotified),
            "has_room" => Some(Call::HasRoom(self.count()?)),
            "at" => Some(Call::At(self.value()?)),
            "start" => Some(Call::Start(self.value()?)),
            "room" => Some(Call::Room(self.count()?)),
            "reserve" => Some(Call::Reserve(self.count()?)),
            "ids" => Some(Call::Ids(self.value()?)),
            "id" => Some(Call::Id),
            name => {
                let number = self.value()?;
                Some(Call::On(number, self.act(name)?))
            }
        }
    }

    fn notice(&mut self) -> Option<Notice> {
        let (count, kind) = (self.count()?, self.kind()?);
        let tags = match self.0.next() {
            None => Tags::Unit,
            Some("by") => match self.0.next()? {
                "name" => Tags::ByName,
                _ => return None,
            },
            Some(tag) => Tags::Clones(tag.parse().ok()?),
        };
        Some(Notice { count, kind, tags })
    }

    fn notice_by_function(&mut self) -> Option<Notice> {
        let (count, kind) = (self.count()?, self.kind()?);
        let tags = Tags::CountedFrom(self.value()?);
        Some(Notice { count, kind, tags })
    }

    fn kind(&mut self) -> Option<Kind> {
        match self.0.next()? {
            "d" => Some(Kind::Default),
            "a" => Some(Kind::Additional),
            "dr" => Some(Kind::RelaxedDefault),
            "ar" => Some(Kind::RelaxedAdditional),
            _ => None,
        }
    }

    // What is called on a listener whose number was the last word.
    fn act(&mut self, name: &str) -> Option<Act> {
        match name {
            "poll" => Some(Act::Poll(self.value()?)),
            "await" => Some(Act::Await(self.value()?)),
            "hand" => Some(Act::Hand(self.value()?)),
            "drop" => Some(Act::Drop),
            "discard" => Some(Act::Discard),
            "remove" => match self.0.next()? {
                "0" => Some(Act::Remove { propagate: false }),
                "1" => Some(Act::Remove { propagate: true }),
                _ => None,
            },
            "wait" => Some(Act::Wait),
            "timeout" => match self.0.next()? {
                "max" => Some(Act::Timeout(Duration::MAX)),
                word => Some(Act::Timeout(Duration::from_millis(word.parse().ok()?))),
            },
            "expire" => Some(Act::Expire),
            "told" => Some(Act::IsTold),
            "serial" => Some(Act::Serial),
            "same" => Some(Act::Same(self.value()?)),
            "listens" => Some(Act::ListensTo(self.value()?)),
            _ => None,
        }
    }

    fn count(&mut self) -> Option<usize> {
        count_of(self.0.next()?)
    }

    fn value<V: FromStr>(&mut self) -> Option<V>
    where
        V::Err: Drop,
    {
        self.0.next()?.parse().ok()
    }
}
