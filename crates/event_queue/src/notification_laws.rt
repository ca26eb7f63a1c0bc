//! Laws of notifications: what the combinators and the clones of this crate leave as it was.
//!
//! Each is the contract of a function without a `requires`, which does nothing when a program runs. What a notification means
//! is four things: its count, its kind, when it may be asked for a tag, and what its next tag is.
ghost use Rattle.std.specs.Prelude.{◌≡◌, ◌↔◌};

use crate::notify::{Additional, IntoNotification, Notification, Notify, Relaxed, Tag};

/// Proves that a notification which is made additional twice means what it means if it is made additional once.
pub fn additional_twice_means_once<N: Notification>(n: &N)
    ensures count { ⟦<Additional<Additional<N>> as Notification>⟧.count n.now
        ≡ ⟦<Additional<N> as Notification>⟧.count n.now }
    ensures kind { ⟦<Additional<Additional<N>> as Notification>⟧.is_additional n.now
        ≡ ⟦<Additional<N> as Notification>⟧.is_additional n.now }
    ensures can_tag { ⟦<Additional<Additional<N>> as Notification>⟧.can_tag n.now
        ↔ ⟦<Additional<N> as Notification>⟧.can_tag n.now }
    ensures tags { (answer : _) (after : N) →
        ⟦<Additional<Additional<N>> as Notification>⟧.tag_gives n.now answer after
        ↔ ⟦<Additional<N> as Notification>⟧.tag_gives n.now answer after }
{}

/// Proves that a notification which is made relaxed means what it meant before.
pub fn relaxed_changes_no_meaning<N: Notification>(n: &N)
    ensures count { ⟦<Relaxed<N> as Notification>⟧.count n.now ≡ N.count n.now }
    ensures kind { ⟦<Relaxed<N> as Notification>⟧.is_additional n.now ≡ N.is_additional n.now }
    ensures can_tag { ⟦<Relaxed<N> as Notification>⟧.can_tag n.now ↔ N.can_tag n.now }
    ensures tags { (answer : _) (after : N) →
        ⟦<Relaxed<N> as Notification>⟧.tag_gives n.now answer after ↔ N.tag_gives n.now answer after }
{}

/// Proves that a notification always fits, and converts to itself.
pub fn notification_is_its_own_conversion<N: Notification>(n: &N)
    ensures fits { ⟦<N as IntoNotification>⟧.fits n.now }
    ensures meaning { ⟦<N as IntoNotification>⟧.meaning n.now ≡ n.now }
{}

/// Proves that the clone of a [`Notify`] never fails, and means the same.
pub fn notify_clone_means_the_same(n: &Notify)
    ensures never_refused { ⟦<Notify as Clone>⟧.is_infallible n.now }
    ensures same { (copy : _) → ⟦<Notify as Clone>⟧.is_clone n.now copy → copy ≡ n.now }
{}

/// Proves that the clone of an [`Additional`] over [`Notify`] never fails, and means the same.
pub fn additional_clone_means_the_same(n: &Additional<Notify>)
    ensures never_refused { ⟦<Additional<Notify> as Clone>⟧.is_infallible n.now }
    ensures same { (copy : _) → ⟦<Additional<Notify> as Clone>⟧.is_clone n.now copy → copy ≡ n.now }
{}

/// Proves that the clone of a [`Relaxed`] over [`Notify`] never fails, and means the same.
pub fn relaxed_clone_means_the_same(n: &Relaxed<Notify>)
    ensures never_refused { ⟦<Relaxed<Notify> as Clone>⟧.is_infallible n.now }
    ensures same { (copy : _) → ⟦<Relaxed<Notify> as Clone>⟧.is_clone n.now copy → copy ≡ n.now }
{}

/// Proves that the clone of a [`Tag`] has a clone of its tag and a clone of the notification in it, and fails only if a clone
/// of these may.
pub fn tag_clone_has_both_clones<N: Notification + Clone, T: Clone>(n: &Tag<N, T>)
    ensures tag { (copy : _) → ⟦<Tag<N, T> as Clone>⟧.is_clone n.now copy
        → T.is_clone n.now.0 copy.0 }
    ensures inner { (copy : _) → ⟦<Tag<N, T> as Clone>⟧.is_clone n.now copy
        → N.is_clone n.now.1 copy.1 }
    ensures never_refused { T.is_infallible n.now.0 → N.is_infallible n.now.1
        → ⟦<Tag<N, T> as Clone>⟧.is_infallible n.now }
{}
