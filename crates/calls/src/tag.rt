//! Tags, and notifications of whatever has listeners.
use crate::answer::Reply;
use crate::call::{Kind, Notice, Tags};
use event_queue::{IntoNotification, IntoTagged, NotifyError};

/// What can be notified.
pub trait Notifiable<T> {
    /// Notifies, with a notification that does not allocate.
    fn notify<N: IntoNotification<Tag = T> + Drop>(&mut self, n: N) -> Result<usize, NotifyError>
    where
        N::Notify: Drop,
        requires fits { N.fits n }
        requires can_tag { N.Notify.can_tag (N.meaning n) };

    /// Notifies by the call whose name has the kind, where there is one.
    fn notify_by_name(&mut self, _count: usize, _kind: Kind) -> Option<usize> {
        None
    }
}

/// A type of tags that have numbers in texts.
pub trait Tag: Sized {
    /// The number, where the type has more than one tag.
    fn number(self) -> Option<u64>;

    /// The tag of that word.
    fn of(word: &str) -> Option<Self>;

    /// Notifies with such tags.
    fn notify_with<N: IntoTagged + Drop, S: Notifiable<Self>>(on: &mut S, n: N, tags: Tags) -> Reply
    where
        N::Notify: Drop,
        requires fits { N.fits n }
        requires can_tag { N.Notify.can_tag (N.meaning n) };
}

/// Notifies, and answers what a text says of it.
pub fn notify<T: Tag, S: Notifiable<T>>(on: &mut S, notice: Notice) -> Reply {
    let Notice { count, kind, tags } = notice;
    if let Tags::ByName = tags {
        return match on.notify_by_name(count, kind) {
            Some(told) => Reply::Told(told, None),
            None => Reply::Invalid,
        };
    }
    match kind {
        Kind::Default => T::notify_with(on, count, tags),
        Kind::Additional => T::notify_with(on, count.additional(), tags),
        Kind::RelaxedDefault => T::notify_with(on, count.relaxed(), tags),
        Kind::RelaxedAdditional => T::notify_with(on, count.additional().relaxed(), tags),
    }
}

fn told(answer: Result<usize, NotifyError>, asked: Option<usize>) -> Reply {
    match answer {
        Ok(told) => Reply::Told(told, asked),
        Err(refused) => Reply::TagRefused(refused.told),
    }
}

impl Tag for () {
    fn number(self) -> Option<u64> {
        None
    }

    fn of(_word: &str) -> Option<()> {
        None
    }

    fn notify_with<N: IntoTagged + Drop, S: Notifiable<()>>(on: &mut S, n: N, tags: Tags) -> Reply
    where
        N::Notify: Drop,
    {
        match tags {
            Tags::Unit => told(on.notify(n), None),
            _ => Reply::Invalid,
        }
    }
}

impl Tag for u64 {
    fn number(self) -> Option<u64> {
        Some(self)
    }

    fn of(word: &str) -> Option<u64> {
        word.parse().ok()
    }

    fn notify_with<N: IntoTagged + Drop, S: Notifiable<u64>>(on: &mut S, n: N, tags: Tags) -> Reply
    where
        N::Notify: Drop,
    {
        match tags {
            Tags::Clones(tag) => told(on.notify(n.tag(tag)), None),
            Tags::CountedFrom(first) => {
                let mut tag = first;
                let mut asked = 0usize;
                let answer = on.notify(n.tag_with(|| {
                    let given = tag;
                    tag = tag.wrapping_add(1);
                    asked = asked.wrapping_add(1);
                    given
                }));
                told(answer, Some(asked))
            }
            _ => Reply::Invalid,
        }
    }
}

/// Two tags, with the numbers 0 and 1.
impl Tag for bool {
    fn number(self) -> Option<u64> {
        Some(u64::from(self))
    }

    fn of(word: &str) -> Option<bool> {
        match word {
            "0" => Some(false),
            "1" => Some(true),
            _ => None,
        }
    }

    fn notify_with<N: IntoTagged + Drop, S: Notifiable<bool>>(on: &mut S, n: N, tags: Tags) -> Reply
    where
        N::Notify: Drop,
    {
        match tags {
            Tags::Clones(0) => told(on.notify(n.tag(false)), None),
            Tags::Clones(1) => told(on.notify(n.tag(true)), None),
            _ => Reply::Invalid,
        }
    }
}
