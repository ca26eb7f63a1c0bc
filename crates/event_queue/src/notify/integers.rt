//! The integers as notifications: a number fits if it lies in 0 to `usize::MAX`, and then means that many listeners.
//!
//! Every value of an unsigned type of at most 64 bits fits. There `fits` reads its argument all the same, since only a
//! value that is read is known to be within the limits of its type.
ghost use Rattle.std.specs.Prelude.{◌<◌, ◌^◌, unsigned_abs};
ghost use Rattle.std.specs.Int.{FitsUnsigned, w64};

use super::{IntoNotification, Notify};

impl IntoNotification for usize {
    type Tag = ();

    type Notify = Notify;

    ghost fits = { λ n. n < 2 ^ 64 };

    ghost meaning = { λ n. n };

    fn fits(&self) -> bool {
        let _value = *self;
        true
    }

    fn into_notification(self) -> Notify {
        Notify::new(self)
    }
}

impl IntoNotification for u8 {
    type Tag = ();

    type Notify = Notify;

    ghost fits = { λ n. n < 2 ^ 64 };

    ghost meaning = { λ n. n };

    fn fits(&self) -> bool {
        let _value = *self;
        true
    }

    fn into_notification(self) -> Notify {
        Notify::new(self as usize)
    }
}

impl IntoNotification for u16 {
    type Tag = ();

    type Notify = Notify;

    ghost fits = { λ n. n < 2 ^ 64 };

    ghost meaning = { λ n. n };

    fn fits(&self) -> bool {
        let _value = *self;
        true
    }

    fn into_notification(self) -> Notify {
        Notify::new(self as usize)
    }
}

impl IntoNotification for u32 {
    type Tag = ();

    type Notify = Notify;

    ghost fits = { λ n. n < 2 ^ 64 };

    ghost meaning = { λ n. n };

    fn fits(&self) -> bool {
        let _value = *self;
        true
    }

    fn into_notification(self) -> Notify {
        Notify::new(self as usize)
    }
}

impl IntoNotification for u64 {
    type Tag = ();

    type Notify = Notify;

    ghost fits = { λ n. n < 2 ^ 64 };

    ghost meaning = { λ n. n };

    fn fits(&self) -> bool {
        let _value = *self;
        true
    }

    fn into_notification(self) -> Notify {
        Notify::new(self as usize)
    }
}

impl IntoNotification for u128 {
    type Tag = ();

    type Notify = Notify;

    ghost fits = { λ n. n < 2 ^ 64 };

    ghost meaning = { λ n. n };

    fn fits(&self) -> bool {
        *self <= usize::MAX as u128
    }

    fn into_notification(self) -> Notify {
        Notify::new(self as usize)
    }
}

impl IntoNotification for isize {
    type Tag = ();

    type Notify = Notify;

    ghost fits = { λ n. FitsUnsigned w64 n };

    ghost meaning = { λ n. unsigned_abs n };

    fn fits(&self) -> bool {
        *self >= 0
    }

    fn into_notification(self) -> Notify {
        Notify::new(self as usize)
    }
}

impl IntoNotification for i8 {
    type Tag = ();

    type Notify = Notify;

    ghost fits = { λ n. FitsUnsigned w64 n };

    ghost meaning = { λ n. unsigned_abs n };

    fn fits(&self) -> bool {
        *self >= 0
    }

    fn into_notification(self) -> Notify {
        Notify::new(self as usize)
    }
}

impl IntoNotification for i16 {
    type Tag = ();

    type Notify = Notify;

    ghost fits = { λ n. FitsUnsigned w64 n };

    ghost meaning = { λ n. unsigned_abs n };

    fn fits(&self) -> bool {
        *self >= 0
    }

    fn into_notification(self) -> Notify {
        Notify::new(self as usize)
    }
}

impl IntoNotification for i32 {
    type Tag = ();

    type Notify = Notify;

    ghost fits = { λ n. FitsUnsigned w64 n };

    ghost meaning = { λ n. unsigned_abs n };

    fn fits(&self) -> bool {
        *self >= 0
    }

    fn into_notification(self) -> Notify {
        Notify::new(self as usize)
    }
}

impl IntoNotification for i64 {
    type Tag = ();

    type Notify = Notify;

    ghost fits = { λ n. FitsUnsigned w64 n };

    ghost meaning = { λ n. unsigned_abs n };

    fn fits(&self) -> bool {
        *self >= 0
    }

    fn into_notification(self) -> Notify {
        Notify::new(self as usize)
    }
}

impl IntoNotification for i128 {
    type Tag = ();

    type Notify = Notify;

    ghost fits = { λ n. FitsUnsigned w64 n };

    ghost meaning = { λ n. unsigned_abs n };

    fn fits(&self) -> bool {
        *self >= 0 && *self <= usize::MAX as i128
    }

    fn into_notification(self) -> Notify {
        Notify::new(self as usize)
    }
}
