//! A flag that is set once, and whose event keeps a record.
ghost use Rattle.std.specs.Prelude.{◌≡◌, ◌↔◌, All, IfOk, IsTrue};
ghost use Rattle.event_listener.specs.Closing.{are_hands_below, are_notes_of_all};
ghost use Rattle.event_listener.specs.Noting.{Owns, new_hands};

use event_listener::{CloseError, EventId, Hand, Record, RecordError, RecordedEvent, WaitError};
use std::alloc::Global;
use std::marker::Model;
use std::sync::Wait;
use std::sync::atomic::{AtomicBool, Ordering};
use std::time::Clock;

/// A flag that is set once, and that threads wait for, each with a hand of its own. A contract sees the flag as its event.
#[derive(Drop)]
pub struct RecordedFlag {
    is_set: AtomicBool,
    set: RecordedEvent<()>,
}

impl RecordedFlag {
    /// Makes a flag that is not set, and that many hands.
    pub fn new(
        alloc: Global,
        id: EventId,
        hands: usize,
    ) -> Result<(Self, Vec<Hand<()>>), RecordError>
        ensures event { IfOk result (λ made. made.0 ≡ record { number = id; hands = hands }) }
        ensures hands { IfOk result (λ made. made.1.items ≡ new_hands id hands) }
        ensures owned { IfOk result (λ made. All (λ hand. Owns made.0 hand) made.1.items) }
    {
        let (set, hands) = RecordedEvent::new(alloc, id, hands)?;
        let flag = RecordedFlag {
            is_set: AtomicBool::new(false),
            set,
        };
        Ok((flag, hands))
    }

    /// Returns whether the hand is a hand of this flag.
    pub fn owns(&self, hand: &Hand<()>) -> bool
        ensures { IsTrue result ↔ Owns self.now hand.now }
    {
        self.set.owns(hand)
    }

    /// Returns whether the flag is set.
    pub fn is_set(&self) -> bool {
        self.is_set.load(Ordering::SeqCst)
    }

    /// Sets the flag, and then notifies every listener.
    ///
    /// If that fails for memory the flag is set, but no listener is notified: call it again.
    pub fn set<R: Wait>(&self, rt: &R, hand: &mut Hand<()>) -> Result<(), RecordError>
        requires { Owns self.now hand.old }
        ensures { Owns self.now hand.new }
    {
        self.is_set.store(true, Ordering::SeqCst);
        self.set.notify(rt, hand, usize::MAX, false, ())?;
        Ok(())
    }

    /// Returns once the flag is set.
    pub fn wait<R>(&self, rt: &R, hand: &mut Hand<()>) -> Result<(), RecordError>
    where
        R: Wait + Clock + Clone,
        requires { Owns self.now hand.old }
        ensures { Owns self.now hand.new }
    {
        for _ in rt.forever() {
            if self.is_set() {
                return Ok(());
            }
            let listener = self.set.listen(rt, hand)?;
            // A notification that came before the listener was in the queue does not reach it, so look again. The drop of
            // a listener is recorded without a hand.
            if self.is_set() {
                return Ok(());
            }
            if let Err(WaitError::Memory(_)) = listener.wait(hand) {
                return Err(RecordError::Memory);
            }
        }
        unreachable!()
    }

    /// Ends the flag, and returns the record of its event.
    pub fn close(self, hands: Vec<Hand<()>>) -> Result<Record<()>, CloseError>
        requires { All (λ hand. Owns self hand) hands.items }
        ensures notes { IfOk result (λ entries.
            IsTrue (are_notes_of_all ⟦<() as PartialEq>⟧.eq entries hands.items)) }
        ensures hands { IfOk result (λ entries. IsTrue (are_hands_below self.hands entries)) }
    {
        let RecordedFlag { is_set: _, set } = self;
        set.close(hands)
    }
}

impl Model for RecordedFlag {
    ghost use Rattle.event_listener.specs.Noting.{Recorded};

    ghost Value = { Recorded };

    ghost view = { λ flag. flag.set };
}
