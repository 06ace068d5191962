//! A busy hotel of 400 nights and 4,000 stays. On every twentieth night it is closed at no price, and ten nights later
//! at the greatest price; the other nights have rooms for all guests, and no price.
use bp_types::limits::{MOST_ENTRIES, MOST_PRICE, MOST_PUBLICATIONS};
use bp_types::{Instance, Limits, Memory, Span, Stay};
use std::alloc::Global;

/// The nights of the hotel.
pub(crate) const NIGHTS: u32 = 400;

/// Its stays.
pub(crate) const STAYS: u32 = 4_000;

/// Rooms of a night that is open.
const ROOMS: u64 = 10_000;

/// Rooms of such a night that are sold at the opening.
const SOLD: u64 = 100;

/// How many guests are awaited for each stay, but on the nights without a price.
const FORECAST: u64 = 50;

/// The limits of its desk: a vector is stale after 150 changes.
pub(crate) const LIMITS: Limits = Limits {
    stale_after: 150,
    entries: MOST_ENTRIES,
    publications: MOST_PUBLICATIONS,
    unit: 1,
};

/// A night that is closed at the greatest price.
pub(crate) fn is_dear(night: u32) -> bool {
    night % 20 == 10
}

/// A night that is closed, and has no price.
pub(crate) fn is_free(night: u32) -> bool {
    night.is_multiple_of(20)
}

/// Whether a night of the span is closed at the greatest price.
fn covers_dear(span: Span) -> bool {
    for night in span.from..span.to {
        if is_dear(night) {
            return true;
        }
    }
    false
}

/// Whether a night of the span is closed at no price.
pub(crate) fn covers_free(span: Span) -> bool {
    for night in span.from..span.to {
        if is_free(night) {
            return true;
        }
    }
    false
}

/// What a hotel opens with.
#[derive(Drop)]
pub(crate) struct Hotel {
    /// Rooms and sold rooms by night.
    pub(crate) rooms: Vec<u64>,
    pub(crate) sold: Vec<u64>,
    pub(crate) stays: Vec<Stay>,
    /// The prices of its nights, which stay right whatever is sold.
    pub(crate) prices: Vec<u64>,
}

/// A number for each night: one where it is open, one where it is closed at the greatest price, and none on the others.
fn by_night(alloc: Global, open: u64, dear: u64) -> Result<Vec<u64>, Memory> {
    let mut numbers = Vec::new(alloc);
    for night in 0..NIGHTS {
        let number = if is_dear(night) {
            dear
        } else if is_free(night) {
            0
        } else {
            open
        };
        numbers.push(number)?;
    }
    Ok(numbers)
}

/// The stays: of one night to seven, all over the year.
fn stays(alloc: Global) -> Result<Vec<Stay>, Memory> {
    let mut stays = Vec::new(alloc);
    for stay in 0..STAYS {
        let length = 1 + stay % 7;
        let from = stay * 13 % (NIGHTS + 1 - length);
        let span = Span {
            from,
            to: from + length,
        };
        let forecast = if covers_free(span) { 0 } else { FORECAST };
        stays.push(Stay {
            span,
            rate: 100 + u64::from(stay) % 900,
            forecast,
        })?;
    }
    Ok(stays)
}

/// The hotel.
pub(crate) fn busy_hotel(alloc: Global) -> Result<Hotel, Memory> {
    Ok(Hotel {
        rooms: by_night(alloc, ROOMS, 0)?,
        sold: by_night(alloc, SOLD, 0)?,
        stays: stays(alloc)?,
        prices: by_night(alloc, 0, MOST_PRICE)?,
    })
}

/// Value and sell numbers of the optimum: every guest awaited gets a room, but on the nights that are closed.
pub(crate) fn sales(alloc: Global, instance: &Instance) -> Result<(u128, Vec<u64>), Memory> {
    let mut value: u128 = 0;
    let mut sell = Vec::new(alloc);
    for number in 0..instance.stays() {
        let stay = instance.stay(number);
        let sold = if covers_dear(stay.span) {
            0
        } else {
            stay.forecast
        };
        let worth = u128::from(stay.rate).saturating_mul(u128::from(sold));
        value = value.saturating_add(worth);
        sell.push(sold)?;
    }
    Ok((value, sell))
}
