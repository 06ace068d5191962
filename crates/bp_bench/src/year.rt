//! A year as a hotel may have it: the problem that bench/solve.py calls 7 365 120 3000.
use crate::draws::Draws;
use bp_types::{Instance, Span, Stay};
use std::alloc::Global;
use std::test::Fail;

/// The nights of the year.
pub(crate) const NIGHTS: u32 = 365;

/// Rooms of each night.
const ROOMS: u64 = 120;

/// The stays that are drawn.
pub(crate) const STAYS: u32 = 3000;

/// Where the draws of a year begin.
pub(crate) const SEED: u64 = 8;

/// A stay of one night to seven.
pub(crate) fn stay(draws: &mut Draws) -> Stay {
    let from = draws.below(u64::from(NIGHTS)) as u32;
    let nights = 1 + draws.below(u64::from((NIGHTS - from).min(7)));
    let rate = nights * (5000 + draws.below(10000));
    Stay {
        span: Span {
            from,
            to: from + nights as u32,
        },
        rate,
        forecast: draws.below(20),
    }
}

/// The linear program of the year.
pub(crate) fn year(alloc: Global, draws: &mut Draws) -> Result<Instance, Fail> {
    let mut stays = Vec::new(alloc);
    for _ in 0..STAYS {
        stays.push(stay(draws))?;
    }
    let rooms = vec![in alloc; ROOMS; NIGHTS as usize]?;
    Ok(Instance::new(rooms, stays)?)
}
