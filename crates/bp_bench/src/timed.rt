//! What a part of the program tells: a time, and a number that does not depend on it.
use std::test::Fail;
use std::time::{Clock, Instant};

/// What was timed.
#[derive(Clone, Copy, Drop)]
pub(crate) struct Timed {
    pub(crate) name: &'static str,
    /// What it took. Of what is made so often, this is the sum.
    pub(crate) nanoseconds: u128,
    /// What it came to, whatever the time: an optimum, or how many there were.
    pub(crate) count: u128,
}

/// The nanoseconds since a moment.
pub(crate) fn since<C: Clock>(clock: &C, start: Instant) -> Result<u128, Fail> {
    Ok(start.elapsed(clock)?.as_nanos())
}
