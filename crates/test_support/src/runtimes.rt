//! What tests ask of their runtime values.
use std::alloc::AllocGlobal;
use std::marker::Send;
use std::process::Abort;
use std::random::RandomSource;
use std::sync::Wait;
use std::thread::Threads;
use std::time::Clock;

/// What a test asks of its runtime value. `Abort` is for assertions: one that fails ends the test.
pub trait Runtime: Abort + AllocGlobal + RandomSource + Wait + Clock + Clone {}

impl<R: Abort + AllocGlobal + RandomSource + Wait + Clock + Clone> Runtime for R {}

/// What tests with threads ask of a runtime value.
pub trait SharedRuntime: Runtime + Threads + Sync + Send {}

impl<R: Runtime + Threads + Sync + Send> SharedRuntime for R {}
