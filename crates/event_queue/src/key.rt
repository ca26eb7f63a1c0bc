ghost use Rattle.std.specs.Prelude.{◌≡◌};

/// The name of a listener in its queue: the slot that the queue gave the listener, and its serial number.
///
/// A slot is used again once its listener has left the queue, but a serial number never is. So two keys that one queue gave
/// are equal only if they name the same listener.
#[derive(Clone, Copy, Debug, PartialEq, Eq)]
pub struct Key {
    /// The slot of the listener: the number of its node, chosen by the queue.
    pub slot: u32,
    /// The serial number of the listener: the first serial number of the queue, and one more for each earlier insertion.
    pub serial: u64,
}

impl Key {
    /// Returns the serial number of the listener. The serial numbers of one queue rise by one with each insertion.
    pub fn serial(&self) -> u64
        ensures { result ≡ self.now.serial }
    {
        self.serial
    }
}
