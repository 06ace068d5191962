//! The hotels whose desks are opened.
ghost use Rattle.std.specs.Prelude.{◌≡◌, IfOk};
ghost use Rattle.std.specs.Arc.{arc_value};
ghost use Rattle.bp_types.specs.Claim.{IsCertificateOf};

use bp_board::Board;
use bp_cert::{Verdict, check};
use bp_types::limits::{MOST_ENTRIES, MOST_PUBLICATIONS};
use bp_types::{Certificate, House, Instance, Limits, Memory, Span, Stay};
use std::alloc::Global;
use std::sync::Arc;
use std::test::Fail;

/// What a desk opens with: rooms and sold rooms by night, stays, limits, and the parts of its first certificate.
#[derive(Drop)]
pub(crate) struct Hotel {
    pub(crate) rooms: Vec<u64>,
    pub(crate) sold: Vec<u64>,
    pub(crate) stays: Vec<Stay>,
    pub(crate) limits: Limits,
    pub(crate) value: u128,
    pub(crate) sell: Vec<u64>,
    pub(crate) prices: Vec<u64>,
}

/// The nights of each hotel.
pub(crate) const NIGHTS: u32 = 400;

/// The stays of the wide one.
const STAYS: u32 = 4_000;

/// Rooms of each night of the wide one: there is a room for every guest, and no night has a price.
const ROOMS: u64 = 10_000;

/// Guests that are awaited for each of its stays.
const FORECAST: u64 = 50;

/// Stays of one night to seven, all over the year.
fn many_stays(alloc: Global) -> Result<Vec<Stay>, Memory> {
    let mut stays = Vec::new(alloc);
    for stay in 0..STAYS {
        let length = 1 + stay % 7;
        let from = stay * 13 % (NIGHTS + 1 - length);
        stays.push(Stay {
            span: Span {
                from,
                to: from + length,
            },
            rate: 100 + u64::from(stay) % 900,
            forecast: FORECAST,
        })?;
    }
    Ok(stays)
}

/// What all guests that are awaited pay.
fn value_of(stays: &[Stay]) -> u128 {
    let mut value: u128 = 0;
    for stay in stays {
        let worth = u128::from(stay.rate).saturating_mul(u128::from(stay.forecast));
        value = value.saturating_add(worth);
    }
    value
}

/// A hotel of 400 nights and 4,000 stays, with a room for every guest.
pub(crate) fn wide_hotel(alloc: Global, stale_after: u64) -> Result<Hotel, Memory> {
    let stays = many_stays(alloc)?;
    let value = value_of(&stays);
    Ok(Hotel {
        rooms: vec![in alloc; ROOMS; NIGHTS as usize]?,
        sold: vec![in alloc; 0; NIGHTS as usize]?,
        stays,
        limits: Limits {
            stale_after,
            entries: MOST_ENTRIES,
            publications: MOST_PUBLICATIONS,
            unit: 1,
        },
        value,
        sell: vec![in alloc; FORECAST; STAYS as usize]?,
        prices: vec![in alloc; 0; NIGHTS as usize]?,
    })
}

/// The prices of a hotel whose one guest wants the first of its nights: no night but that one has a price.
pub(crate) fn first_night_at(alloc: Global, price: u64) -> Result<Vec<u64>, Memory> {
    let mut prices = vec![in alloc; 0; NIGHTS as usize]?;
    if let Some(first) = prices.first_mut() {
        *first = price;
    }
    Ok(prices)
}

/// A hotel of 400 nights with one room, one stay of its first night, and the price that the stay pays.
pub(crate) fn narrow_hotel(alloc: Global) -> Result<Hotel, Memory> {
    let stay = Stay {
        span: Span { from: 0, to: 1 },
        rate: 1,
        forecast: 1,
    };
    Ok(Hotel {
        rooms: vec![in alloc; 1; NIGHTS as usize]?,
        sold: vec![in alloc; 0; NIGHTS as usize]?,
        stays: vec![in alloc; stay; 1]?,
        limits: Limits {
            stale_after: 10,
            entries: 2_000,
            publications: MOST_PUBLICATIONS,
            unit: 1,
        },
        value: 1,
        sell: vec![in alloc; 1; 1]?,
        prices: first_night_at(alloc, 1)?,
    })
}

/// A hotel's house. Two of them are the same.
pub(crate) fn house(alloc: Global, hotel: &Hotel) -> Result<House, Fail>
    ensures { IfOk result (λ h. h ≡ record {
      rooms = hotel.now.rooms.items;
      sold = hotel.now.sold.items;
      stays = hotel.now.stays.items;
      limits = hotel.now.limits;
    }) }
{
    let rooms = Vec::from_slice(alloc, &hotel.rooms)?;
    let sold = Vec::from_slice(alloc, &hotel.sold)?;
    let stays = Vec::from_slice(alloc, &hotel.stays)?;
    match House::new(rooms, sold, stays, hotel.limits) {
        Ok(house) => Ok(house),
        Err(error) => Err(Fail::new(error)),
    }
}

/// The board of a hotel's first certificate, where that is right for its house.
pub(crate) fn opening_board(
    alloc: Global,
    start: &Instance,
    hotel: &Hotel,
) -> Result<Arc<Board>, Fail>
    ensures { IfOk result (λ b. ((arc_value b).position ≡ 0) ×
        IsCertificateOf start.now (arc_value b).certificate) }
{
    let certificate = Certificate {
        value: hotel.value,
        sell: Vec::from_slice(alloc, &hotel.sell)?,
        prices: Vec::from_slice(alloc, &hotel.prices)?,
    };
    let _nights = start.nights();
    match check(start, &certificate) {
        Verdict::Optimal { .. } => Ok(Arc::new(alloc, Board::new(alloc, 0, certificate)?)?),
        verdict => Err(Fail::new(format_args!("{verdict:?}"))),
    }
}
