//! Waits for listeners: when one ends, by the clock of its listener, and that a thread parks until it is woken.
mod limits;
mod recorded;
mod stage;
mod threads;
mod trial;
mod wakes;
