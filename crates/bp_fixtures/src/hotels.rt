//! The numbers of the two hotels, and the claims that are right for them.
use bp_types::{Limits, Span, Stay};

/// Value, sell numbers by stay and prices by night, as somebody claims them for a hotel.
pub type Claimed<'a> = (u128, &'a [u64], &'a [u64]);

/// A hotel as its desk opens: rooms and sold rooms by night, stays, and the claim of the first prices.
#[derive(Clone, Copy)]
pub struct Numbers<'a> {
    /// The rooms of each night, in whole rooms.
    pub rooms: &'a [u64],
    /// The sold rooms of each night, in whole rooms.
    pub sold: &'a [u64],
    /// The stays, whose rates are in minor units of money.
    pub stays: &'a [Stay],
    /// The claim of the first prices.
    pub opening: Claimed<'a>,
}

/// The first of three nights.
pub const N0: Span = Span { from: 0, to: 1 };

/// The second night, which has one room alone.
pub const N1: Span = Span { from: 1, to: 2 };

/// The last night.
pub const N2: Span = Span { from: 2, to: 3 };

/// The first two nights.
pub const N01: Span = Span { from: 0, to: 2 };

/// The last two nights.
pub const N12: Span = Span { from: 1, to: 3 };

/// All three nights.
pub const N012: Span = Span { from: 0, to: 3 };

/// The rooms of three nights.
pub const ROOMS: [u64; 3] = [2, 1, 2];

/// No room of three nights is sold.
pub const NOTHING_SOLD: [u64; 3] = [0, 0, 0];

/// Four stays on three nights. The first two both want the night that has one room.
pub const STAYS: [Stay; 4] = [
    Stay {
        span: N01,
        rate: 100,
        forecast: 3,
    },
    Stay {
        span: N12,
        rate: 150,
        forecast: 1,
    },
    Stay {
        span: N0,
        rate: 60,
        forecast: 1,
    },
    Stay {
        span: N2,
        rate: 40,
        forecast: 5,
    },
];

/// The best that the four stays bring on three nights: all but the first are sold.
pub const OPENING: Claimed<'static> = (250, &[0, 1, 1, 1], &[0, 100, 40]);

/// The best after one booking of the first stay. The second night is full, and its price is not the least that it may
/// be.
pub const AFTER_ONE: Claimed<'static> = (140, &[0, 0, 1, 2], &[0, 120, 40]);

/// The best with one room fewer on each of the last two nights.
pub const WITHOUT_ONE_EACH: Claimed<'static> = (100, &[0, 0, 1, 1], &[0, 110, 40]);

/// Four stays on three nights, with nothing sold.
pub const THREE_NIGHTS: Numbers<'static> = Numbers {
    rooms: &ROOMS,
    sold: &NOTHING_SOLD,
    stays: &STAYS,
    opening: OPENING,
};

/// One night with one room, whose price is the rate of its stay.
pub const ONE_ROOM: Numbers<'static> = Numbers {
    rooms: &[1],
    sold: &[0],
    stays: &[Stay {
        span: N0,
        rate: 50,
        forecast: 2,
    }],
    opening: (50, &[1], &[50]),
};

/// Ten changes may pass before prices are stale, and there is room for 200 entries and ten publications.
pub const LIMITS: Limits = Limits {
    stale_after: 10,
    entries: 200,
    publications: 10,
    unit: 1,
};
