//! Notifications: how many listeners they are for, of which kind they are, and which tags they give.
ghost use Rattle.std.specs.Prelude.{◌≡◌, ◌↔◌, ℕ, Bool, IsTrue, Result};
ghost use Rattle.std.specs.declared.alloc.AllocError.{AllocError};

mod additional;
mod integers;
mod plain;
mod relaxed;
mod tag;
mod tag_with;

pub use additional::Additional;
pub use plain::Notify;
pub use relaxed::Relaxed;
use std::alloc::AllocError;
pub use tag::Tag;
pub use tag_with::TagWith;

/// A notification: how many listeners it is for, of which kind it is, and which tags it gives.
///
/// There are two kinds. A *default* notification counts the listeners that are notified already, so it notifies its count
/// less those. An *additional* one notifies its whole count anew.
///
/// The trait is open. Generic callers know an implementation by its ghost members: `count`, `is_additional`, `can_tag` (when
/// a tag may be asked for) and `tag_gives` (the state before, the answer, the state after).
pub trait Notification {
    /// The type of the tag that each notified listener gets.
    type Tag;

    ghost count: { Self → ℕ };

    ghost is_additional: { Self → Bool };

    ghost can_tag: { Self → Type 0 };

    ghost tag_gives: { Self → Result Self.Tag AllocError → Self → Type 0 };

    /// Returns how many listeners the notification is for.
    fn count(&self) -> usize
        ensures { result ≡ count self.now };

    /// Returns whether the notification is an additional one, which counts no listener that is notified already.
    fn is_additional(&self) -> bool
        ensures { result ≡ is_additional self.now };

    /// Returns the tag of the next listener to be notified, or an error, by which the notification refuses a tag.
    ///
    /// Takes memory if making a tag does. The notification may be asked for another tag after each answer. [`Notify`] and
    /// [`Tag`] may always be asked, [`TagWith`] if its function may always be called, and [`Additional`] and [`Relaxed`] if
    /// the notification in them may be asked.
    fn next_tag(&mut self) -> Result<Self::Tag, AllocError>
        requires { can_tag self.old }
        ensures gives { tag_gives self.old result self.new }
        ensures again { can_tag self.new };
}

/// A value that converts to a notification if it fits, for example an integer.
///
/// Every notification fits and converts to itself. An integer of any type fits if it lies in 0 to `usize::MAX`, because it
/// means that many listeners. Each conversion requires that the value [`fits`](IntoNotification::fits). No conversion takes
/// memory.
pub trait IntoNotification: Sized {
    /// The type of the tag that each notified listener gets.
    type Tag;

    /// The type of the notification that the value converts to.
    type Notify: Notification<Tag = Self::Tag>;

    ghost fits: { Self → Type 0 };

    ghost meaning: { Self → Self.Notify };

    /// Returns whether the value converts to a notification: an integer does if it lies in 0 to `usize::MAX`.
    fn fits(&self) -> bool
        ensures { IsTrue result ↔ fits self.now };

    /// Converts the value to a notification, which has to fit. An integer `n` becomes a default notification of `n`
    /// listeners.
    fn into_notification(self) -> Self::Notify
        requires { fits self }
        ensures { result ≡ meaning self };

    /// Converts the value to an additional notification, which notifies its whole count anew, however many listeners are
    /// notified already.
    fn additional(self) -> Additional<Self::Notify>
        requires { fits self }
        ensures { result ≡ meaning self }
    {
        Additional::new(self.into_notification())
    }

    /// Converts the value to a relaxed notification, which means the same: in the Rust crate it leaves out a memory fence,
    /// here it changes nothing.
    fn relaxed(self) -> Relaxed<Self::Notify>
        requires { fits self }
        ensures { result ≡ meaning self }
    {
        Relaxed::new(self.into_notification())
    }
}

impl<N: Notification> IntoNotification for N {
    type Tag = N::Tag;

    type Notify = N;

    ghost fits = { λ _. Unit {0} };

    ghost meaning = { λ n. n };

    fn fits(&self) -> bool {
        true
    }

    fn into_notification(self) -> N {
        self
    }
}

/// A value that converts to a notification without tags, which can be given tags.
///
/// Every [`IntoNotification`] whose tag is `()` is one. So a notification that has tags can't be given other tags. Both calls
/// require that the value [`fits`](IntoNotification::fits).
pub trait IntoTagged: IntoNotification<Tag = ()> {
    /// Converts the value to a notification of which each notified listener gets a clone of `tag`.
    ///
    /// A clone that fails is a refused tag: the notification then ends with an error. The call takes no memory; the clones
    /// may.
    fn tag<T: Clone>(self, tag: T) -> Tag<Self::Notify, T>
        requires { Self.fits self }
        ensures { result ≡ (tag, Self.meaning self) }
    {
        Tag::new(tag, self.into_notification())
    }

    /// Converts the value to a notification of which each notified listener gets a tag that the function makes.
    ///
    /// The function is called once for each notified listener, in order, and no tag is refused. The function has to be one
    /// that may always be called. The call takes no memory; the function may.
    fn tag_with<T, F: FnMut() -> T>(self, tag: F) -> TagWith<Self::Notify, F>
        requires fits { Self.fits self }
        requires callable { F.IsAlwaysCallable tag }
        ensures { result ≡ (tag, Self.meaning self) }
    {
        TagWith::new(tag, self.into_notification())
    }
}

impl<I: IntoNotification<Tag = ()>> IntoTagged for I {}
