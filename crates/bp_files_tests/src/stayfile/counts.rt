//! Forecasts and bookings: a count per code.
use super::{COUNTS_HEADER, are_the_four};
use crate::three_nights::{hotel, joined, refusal, stays};
use bp_stayfile::{Column, TableRefusal, read_bookings, read_forecast};
use std::test::Fail;

#[test]
fn a_row_more_than_there_are_stays(rt: HostRuntime) -> Result<(), Fail> {
    let hotel = hotel(rt.alloc())?;
    let mut stays = stays(rt.alloc(), &hotel)?;
    let text = joined(
        rt.alloc(),
        COUNTS_HEADER,
        "P3,1\nP2,1\nP1,0\nP0,1\nP2,9\nP0\n",
    )?;
    let read = read_bookings(rt.alloc(), &hotel, &stays, text.as_bytes());
    assert_eq!(rt; refusal(read), Some(TableRefusal::TwiceCode { line: 6 }));
    let read = read_forecast(rt.alloc(), &mut stays, text.as_bytes());
    assert_eq!(rt; refusal(read), Some(TableRefusal::TwiceCode { line: 6 }));
    are_the_four(&rt, &stays, [1, 0, 1, 1]);
    Ok(())
}

#[test]
fn forecasts_are_set_up_to_the_refused_record(rt: HostRuntime) -> Result<(), Fail> {
    let hotel = hotel(rt.alloc())?;
    let mut stays = stays(rt.alloc(), &hotel)?;
    let text = "\u{feff}count,remark,code\r\n5,\"a, b\",P3\r\n\r\n1000000,, P1 \r\n";
    read_forecast(rt.alloc(), &mut stays, text.as_bytes())?;
    are_the_four(&rt, &stays, [0, 1_000_000, 0, 5]);
    for (text, error, forecasts) in [
        (
            "count\n",
            TableRefusal::Column {
                column: Column::Code,
            },
            [0, 1_000_000, 0, 5],
        ),
        (
            "code\nP0\n",
            TableRefusal::Column {
                column: Column::Count,
            },
            [0, 1_000_000, 0, 5],
        ),
        (
            "code,count\nP0,3\nP 1,3\n",
            TableRefusal::Code { line: 3 },
            [3, 1_000_000, 0, 5],
        ),
        (
            "code,count\nP0,4\nP9,x\nP1,3\n",
            TableRefusal::NoCode { line: 3 },
            [4, 1_000_000, 0, 5],
        ),
        (
            "code,count\nP0,5\nP1,\n",
            TableRefusal::Number { line: 3 },
            [5, 1_000_000, 0, 5],
        ),
        (
            "code,count\nP0,6\nP0,1000001\n",
            TableRefusal::Limit { line: 3 },
            [6, 1_000_000, 0, 5],
        ),
        (
            "code,count\nP0,7\nP0,8\n",
            TableRefusal::TwiceCode { line: 3 },
            [7, 1_000_000, 0, 5],
        ),
        (
            "code,count\nP0,8\nP1,9\n\"a,b\"\n",
            TableRefusal::NotCsv { line: 4 },
            [8, 9, 0, 5],
        ),
    ] {
        let read = read_forecast(rt.alloc(), &mut stays, text.as_bytes());
        assert_eq!(rt; refusal(read), Some(error), "{text}");
        are_the_four(&rt, &stays, forecasts);
    }
    let read = read_forecast(rt.alloc(), &mut stays, b"\x1f\x8b\x08");
    assert_eq!(rt; refusal(read), Some(TableRefusal::NotCsv { line: 1 }));
    are_the_four(&rt, &stays, [8, 9, 0, 5]);
    Ok(())
}

#[test]
fn bookings_take_rooms(rt: HostRuntime) -> Result<(), Fail> {
    let hotel = hotel(rt.alloc())?;
    let stays = stays(rt.alloc(), &hotel)?;
    for (records, rooms) in [("", [0, 0, 0]), ("P0,1\r\nP2,1\r\nP3,2\r\nP1,0", [2, 1, 2])] {
        let text = joined(rt.alloc(), COUNTS_HEADER, records)?;
        let sold = read_bookings(rt.alloc(), &hotel, &stays, text.as_bytes())?;
        assert_eq!(rt; sold.as_slice(), rooms.as_slice(), "{records}");
    }
    Ok(())
}

#[test]
fn bookings_are_refused_at_their_first_place(rt: HostRuntime) -> Result<(), Fail> {
    let hotel = hotel(rt.alloc())?;
    let stays = stays(rt.alloc(), &hotel)?;
    for (records, error) in [
        ("P0,2\n", TableRefusal::Overbooked { night: 1 }),
        ("P3,3\nP1,2\n", TableRefusal::Overbooked { night: 1 }),
        ("P2,1000000\n", TableRefusal::Overbooked { night: 0 }),
        ("P2,1000001\n", TableRefusal::Limit { line: 2 }),
        ("P0,9\nP0,1\n", TableRefusal::TwiceCode { line: 3 }),
        ("P0,9\nP4,1\n", TableRefusal::NoCode { line: 3 }),
        ("P0,9\nP1,1.0\n", TableRefusal::Number { line: 3 }),
        ("P0,9\nP-1,,\n", TableRefusal::NotCsv { line: 3 }),
    ] {
        let text = joined(rt.alloc(), COUNTS_HEADER, records)?;
        let read = read_bookings(rt.alloc(), &hotel, &stays, text.as_bytes());
        assert_eq!(rt; refusal(read), Some(error), "{records}");
    }
    let read = read_bookings(rt.alloc(), &hotel, &stays, b"\x1f\x8b\x08");
    assert_eq!(rt; refusal(read), Some(TableRefusal::NotCsv { line: 1 }));
    Ok(())
}
