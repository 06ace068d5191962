//! The tables of a hotel, read from memory again and again.
use crate::timed::{Timed, since};
use bp_hotelfile::{Hotel, read_hotel};
use bp_stayfile::{Sold, Stays, TableError, read_bookings, read_forecast, read_stays};
use bp_types::Stay;
use std::alloc::Global;
use std::rt::Files;
use std::test::Fail;
use std::time::{Clock, Instant};
use std::{fs, io};

/// The bytes of a hotel's files.
#[derive(Drop)]
pub(crate) struct Texts {
    hotel: Vec<u8>,
    stays: Vec<u8>,
    forecast: Vec<u8>,
    bookings: Vec<u8>,
}

impl Texts {
    /// What stands in files of these names.
    pub(crate) fn read<R: Files + AllocGlobal>(
        rt: &R,
        hotel: &str,
        stays: &str,
        forecast: &str,
        bookings: &str,
    ) -> Result<Texts, io::Error> {
        Ok(Texts {
            hotel: fs::read(rt, hotel)?,
            stays: fs::read(rt, stays)?,
            forecast: fs::read(rt, forecast)?,
            bookings: fs::read(rt, bookings)?,
        })
    }

    /// Three nights and two stays.
    pub(crate) fn tiny(alloc: Global) -> Result<Texts, Fail> {
        let hotel =
            b"name = \"Tiny\"\nfirst_night = \"2025-01-01\"\nnights = 3\nrooms = 10\nunit = 100\n";
        let stays = b"code,arrival,nights,rate\nONE,2025-01-01,1,100\nTWO,2025-01-02,2,250\n";
        Ok(Texts {
            hotel: Vec::from_slice(alloc, hotel)?,
            stays: Vec::from_slice(alloc, stays)?,
            forecast: Vec::from_slice(alloc, b"code,count\nONE,300\nTWO,450\n")?,
            bookings: Vec::from_slice(alloc, b"code,count\nONE,2\nTWO,1\n")?,
        })
    }
}

/// What the tables say.
#[derive(Drop)]
struct Tables {
    stays: Stays,
    sold: Sold,
}

/// Reads the three tables, in their order.
fn tables_of(alloc: Global, hotel: &Hotel, texts: &Texts) -> Result<Tables, TableError> {
    let mut stays = read_stays(alloc, hotel, &texts.stays)?;
    read_forecast(alloc, &mut stays, &texts.forecast)?;
    let sold = read_bookings(alloc, hotel, &stays, &texts.bookings)?;
    Ok(Tables { stays, sold })
}

/// The forecasts of all stays.
fn awaited(stays: &[Stay]) -> u128 {
    let mut sum: u128 = 0;
    for stay in stays {
        sum = sum.saturating_add(u128::from(stay.forecast));
    }
    sum
}

/// The rooms that are sold on all nights.
fn taken(sold: &[u64]) -> u128 {
    let mut sum: u128 = 0;
    for rooms in sold {
        sum = sum.saturating_add(u128::from(*rooms));
    }
    sum
}

/// What one reading of the tables takes, and the forecasts and the rooms sold that they tell.
fn time_one<C: Clock>(
    clock: &C,
    alloc: Global,
    hotel: &Hotel,
    texts: &Texts,
) -> Result<(u128, u128), Fail> {
    let start = Instant::now(clock)?;
    let tables = tables_of(alloc, hotel, texts)?;
    let nanoseconds = since(clock, start)?;
    let count = awaited(tables.stays.as_slice()).saturating_add(taken(tables.sold.as_slice()));
    Ok((nanoseconds, count))
}

/// The fewest nanoseconds of so many readings of the three tables.
pub(crate) fn run<C: Clock>(
    clock: &C,
    alloc: Global,
    texts: &Texts,
    times: u32,
) -> Result<Vec<Timed>, Fail> {
    let hotel = read_hotel(alloc, &texts.hotel)?;
    let mut fewest = u128::MAX;
    let mut count: u128 = 0;
    for _ in 0..times {
        let (nanoseconds, told) = time_one(clock, alloc, &hotel, texts)?;
        fewest = fewest.min(nanoseconds);
        count = told;
    }
    let mut lines = Vec::new(alloc);
    lines.push(Timed {
        name: "tables",
        nanoseconds: fewest,
        count,
    })?;
    Ok(lines)
}
