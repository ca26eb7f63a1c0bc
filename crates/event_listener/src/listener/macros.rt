//! The macro that makes a listener in the function where it stands.

/// Makes a [`StackListener`](crate::StackListener) of an event, under a name that the rest of the block has.
///
/// `listener!(rt, alloc; event => l)` is a statement. The macro calls [`StackSlot::new`] and then [`StackSlot::listen`]: `rt`
/// is a reference to the runtime value, `alloc` is the allocator, and `event` is the event or a reference to it. Both calls
/// end in `?`, so the macro works wherever a `ListenError` can be turned into the function's error. The two calls say what
/// memory they take, when they block, and which errors they return.
///
/// The name `l` is that of a mutable variable, because [`poll`](crate::Listener::poll) borrows the listener mutably; `mut l`
/// says the same.
///
/// [`StackSlot::new`]: crate::StackSlot::new
/// [`StackSlot::listen`]: crate::StackSlot::listen
#[macro_export]
macro_rules! listener {
    ($rt:expr, $alloc:expr; $event:expr => mut $listener:ident) => {
        $crate::listener!($rt, $alloc; $event => $listener)
    };
    ($rt:expr, $alloc:expr; $event:expr => $listener:ident) => {
        let rt = $rt;
        let slot = $crate::StackSlot::new(rt, $alloc, &$event)?;
        let mut $listener = slot.listen(rt)?;
    };
}
