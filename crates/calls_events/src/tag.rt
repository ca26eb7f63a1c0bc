//! Notifications of events.
use calls::{Kind, Notifiable, Tag};
use event_listener::{Event, IntoNotification, NotifyError};
use std::sync::Wait;

/// A type of tags that events have.
pub trait EventTag: Tag {
    /// Notifies by the call whose name has the kind, where events with such tags have one.
    fn notify_by_name<R: Wait>(
        _event: &Event<Self>,
        _rt: &R,
        _count: usize,
        _kind: Kind,
    ) -> Option<usize> {
        None
    }
}

impl EventTag for u64 {}

impl EventTag for bool {}

impl EventTag for () {
    fn notify_by_name<R: Wait>(
        event: &Event<()>,
        rt: &R,
        count: usize,
        kind: Kind,
    ) -> Option<usize> {
        match kind {
            Kind::Default => None,
            Kind::Additional => Some(event.notify_additional(rt, count)),
            Kind::RelaxedDefault => Some(event.notify_relaxed(rt, count)),
            Kind::RelaxedAdditional => Some(event.notify_additional_relaxed(rt, count)),
        }
    }
}

/// An event that is notified.
#[derive(Drop)]
pub struct OnEvent<'ev, T, R> {
    pub rt: &'ev R,
    pub event: &'ev Event<T>,
}

impl<'ev, T: EventTag + Drop, R: Wait> Notifiable<T> for OnEvent<'ev, T, R> {
    fn notify<N: IntoNotification<Tag = T> + Drop>(&mut self, n: N) -> Result<usize, NotifyError>
    where
        N::Notify: Drop,
    {
        self.event.notify(self.rt, n)
    }

    fn notify_by_name(&mut self, count: usize, kind: Kind) -> Option<usize> {
        T::notify_by_name(self.event, self.rt, count, kind)
    }
}
