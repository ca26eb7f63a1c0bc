//! An `Arc` while its token is out.
ghost use Rattle.event_slot.specs.Leasing.{Lease, lease_coded, leased_owns};
ghost use base.Fml.{ftrue};

use std::alloc::Allocator;
use std::marker::{Move, Owns};
use std::sync::Arc;

/// An `Arc` less its part of the token of the lifetime for which its value is shared. With that part the `Arc` is whole again.
pub struct Leased<T, A: Allocator> {
    pub(crate) arc: Arc<T, A>,
}

impl<T, A: Allocator> Owns for Leased<T, A> {
    ghost Value = { Lease T };

    ghost coded = { lease_coded T.code };

    ghost shr_at = { λ _ _ _. ftrue };
}

impl<T, A: Allocator> Move for Leased<T, A> {
    ghost own_val = { λ d vs. leased_owns d Inside (λ i. i.arc.value) (λ i. Fields.own_val i vs) };
}

unsafe impl<T: Send + Sync, A: Allocator + Send + Sync> Send for Leased<T, A> {}

unsafe impl<T, A: Allocator> Sync for Leased<T, A> {}
