//! A gate that callers pass before each of their calls.
use std::sync::Wait;

/// Called by an actor before each of its calls or rounds. It has no meaning, and a test may hold callers with it.
pub trait Gate: Sync {
    /// The caller's number, and how often this caller has arrived, counted from 1. It may wait.
    fn arrive(&self, rt: &impl Wait, caller: u32, nth: u64);
}

/// A gate that lets everyone through at once.
#[derive(Clone, Copy, Debug)]
pub struct NoGate;

impl Gate for NoGate {
    fn arrive(&self, _rt: &impl Wait, _caller: u32, _nth: u64) {}
}
