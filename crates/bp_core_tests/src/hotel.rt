//! The hotel of three nights that the tests share.
use crate::desk::{Claimed, Desk};
use bp_types::{Limits, Span, Stay};
use std::alloc::Global;
use std::test::Fail;

/// The first night.
pub(crate) const N0: Span = Span { from: 0, to: 1 };

/// The second night, which has one room.
pub(crate) const N1: Span = Span { from: 1, to: 2 };

/// The last night.
pub(crate) const N2: Span = Span { from: 2, to: 3 };

/// The first two nights.
pub(crate) const N01: Span = Span { from: 0, to: 2 };

/// The last two nights.
pub(crate) const N12: Span = Span { from: 1, to: 3 };

/// All three nights.
pub(crate) const N012: Span = Span { from: 0, to: 3 };

/// The rooms of each night.
pub(crate) const ROOMS: [u64; 3] = [2, 1, 2];

/// Four stays, of which the first two both want the second night.
pub(crate) const STAYS: [Stay; 4] = [
    Stay {
        span: N01,
        rate: 100,
        forecast: 3,
    },
    Stay {
        span: N12,
        rate: 150,
        forecast: 1,
    },
    Stay {
        span: N0,
        rate: 60,
        forecast: 1,
    },
    Stay {
        span: N2,
        rate: 40,
        forecast: 5,
    },
];

/// The best that they bring with nothing sold.
pub(crate) const OPENING: Claimed<'static> = (250, &[0, 1, 1, 1], &[0, 100, 40]);

/// The best with one room fewer on each of the last two nights.
pub(crate) const WITHOUT_ONE_EACH: Claimed<'static> = (100, &[0, 0, 1, 1], &[0, 110, 40]);

/// What is left of the book of three nights after one booking of the first stay.
pub(crate) const AFTER_ONE: Claimed<'static> = (140, &[0, 0, 1, 2], &[0, 110, 40]);

/// The limits of the hotel's desk, unless a test says others.
pub(crate) const LIMITS: Limits = Limits {
    stale_after: 10,
    entries: 200,
    publications: 10,
    unit: 1,
};

/// The book of the hotel as it opens, with nothing sold and these limits.
pub(crate) fn three_nights(alloc: Global, limits: Limits) -> Result<Desk, Fail> {
    Desk::open(alloc, &ROOMS, &[0, 0, 0], &STAYS, limits, OPENING)
}
