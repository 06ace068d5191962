//! The greatest stays file, a stay too many, and long files that are refused early.
use super::{COUNTS_HEADER, STAYS_HEADER, are_the_four};
use crate::three_nights::{hotel, joined, refusal, stays};
use bp_stayfile::{Column, TableRefusal, read_bookings, read_forecast, read_stays};
use std::alloc::{AllocError, Global};
use std::test::Fail;

/// A stays file of so many stays of one night.
fn stays_of_a_night(alloc: Global, stays: u32) -> Result<String, AllocError> {
    let mut text = String::from_str(alloc, STAYS_HEADER)?;
    for stay in 0..stays {
        let record = format!(in alloc; "S{stay},2025-07-01,1,1\n")?;
        text.push_str(record.as_str())?;
    }
    Ok(text)
}

#[test]
fn four_thousand_stays_and_one_more(rt: HostRuntime) -> Result<(), Fail> {
    let hotel = hotel(rt.alloc())?;
    let mut text = stays_of_a_night(rt.alloc(), 4000)?;
    let stays = read_stays(rt.alloc(), &hotel, text.as_bytes())?;
    assert_eq!(rt; stays.as_slice().len(), 4000);
    assert_eq!(rt; stays.codes().find("S3999"), Some(3999));
    text.push_str("S0,2025-07-01,3,1\n")?;
    let read = read_stays(rt.alloc(), &hotel, text.as_bytes());
    assert_eq!(rt; refusal(read), Some(TableRefusal::Limit { line: 4002 }));
    // What stands behind the row too many is not read.
    text.push_str("S0\nS0,2025-07-01,3,1\n")?;
    let read = read_stays(rt.alloc(), &hotel, text.as_bytes());
    assert_eq!(rt; refusal(read), Some(TableRefusal::Limit { line: 4002 }));
    Ok(())
}

/// A refused row of either table, and a hundred thousand rows behind it.
fn long_table(alloc: Global, header: &str) -> Result<String, AllocError> {
    let mut text = joined(alloc, header, "P0,2\nP0\n\"P")?;
    for _ in 0..100_000 {
        text.push_str(",,,,,,,\n")?;
    }
    Ok(text)
}

#[test]
fn a_long_stays_file_is_refused_at_its_first_place(rt: HostRuntime) -> Result<(), Fail> {
    let hotel = hotel(rt.alloc())?;
    let text = long_table(rt.alloc(), "code,arrival,rate\n")?;
    let read = read_stays(rt.alloc(), &hotel, text.as_bytes());
    let lacks_nights = TableRefusal::Column {
        column: Column::Nights,
    };
    assert_eq!(rt; refusal(read), Some(lacks_nights));
    let text = long_table(rt.alloc(), STAYS_HEADER)?;
    let read = read_stays(rt.alloc(), &hotel, text.as_bytes());
    assert_eq!(rt; refusal(read), Some(TableRefusal::NotCsv { line: 2 }));
    Ok(())
}

#[test]
fn a_long_file_of_counts_is_refused_at_its_first_place(rt: HostRuntime) -> Result<(), Fail> {
    let hotel = hotel(rt.alloc())?;
    let mut stays = stays(rt.alloc(), &hotel)?;
    let text = long_table(rt.alloc(), COUNTS_HEADER)?;
    let read = read_bookings(rt.alloc(), &hotel, &stays, text.as_bytes());
    assert_eq!(rt; refusal(read), Some(TableRefusal::NotCsv { line: 3 }));
    let read = read_forecast(rt.alloc(), &mut stays, text.as_bytes());
    assert_eq!(rt; refusal(read), Some(TableRefusal::NotCsv { line: 3 }));
    are_the_four(&rt, &stays, [2, 0, 0, 0]);
    Ok(())
}
