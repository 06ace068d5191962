//! Stays files, as a spreadsheet writes them and at their limits, and each refusal at its first place.
use super::{STAYS_HEADER, are_the_four};
use crate::three_nights::{FOUR_STAYS, hotel, joined, refusal, stay};
use bp_stayfile::{Column, TableRefusal, read_stays};
use std::test::Fail;

#[test]
fn four_stays_as_a_spreadsheet_writes_them(rt: HostRuntime) -> Result<(), Fail> {
    let hotel = hotel(rt.alloc())?;
    for text in [
        FOUR_STAYS,
        "\u{feff}rate,code,nights,arrival,town\r\n0100,P0,2,2025-07-01,\r\n0150,P1,2,2025-07-02,\r\n60,P2,1,2025-07-01,\r\n40,P3,1,2025-07-03,\r\n",
        "\u{feff}rate,code,town,nights,arrival\r\n0100,P0,\"Ulm, old\r\ntown\",02,2025-07-01\r\n\
            0150,P1,,2,2025-07-02\r\n\r\n60,P2,x,1,2025-07-01\r\n40,\" P3 \",x,1, 2025-07-03",
        "code,arrival,nights, rate ,\"code \"\nP0,2025-07-01,2,100,X\nP1,2025-07-02,2,150,X\nP2,2025-07-01,1,60,X\nP3,2025-07-03,1,40,X\n",
    ] {
        let stays = read_stays(rt.alloc(), &hotel, text.as_bytes())?;
        are_the_four(&rt, &stays, [0, 0, 0, 0]);
    }
    Ok(())
}

#[test]
fn a_stays_file_that_lacks_a_column(rt: HostRuntime) -> Result<(), Fail> {
    let hotel = hotel(rt.alloc())?;
    for (text, column) in [
        ("", Column::Code),
        ("\u{feff}\r\n\n", Column::Code),
        ("\u{feff}\u{feff}code,arrival,nights,rate\n", Column::Code),
        ("Code,nights\nx\n", Column::Code),
        ("rate,nights,code\n", Column::Arrival),
        ("code,arrival,rate\n", Column::Nights),
        ("code,arrival,nights,ra te\n", Column::Rate),
    ] {
        let read = read_stays(rt.alloc(), &hotel, text.as_bytes());
        assert_eq!(rt;
            refusal(read),
            Some(TableRefusal::Column { column }),
            "{text}"
        );
    }
    Ok(())
}

#[test]
fn stays_are_refused_at_their_first_place(rt: HostRuntime) -> Result<(), Fail> {
    let hotel = hotel(rt.alloc())?;
    for (records, error) in [
        ("P0,2025-07-01,2\n", TableRefusal::NotCsv { line: 2 }),
        ("P 0,2025-07-01,2,1,\n", TableRefusal::NotCsv { line: 2 }),
        ("P 0,x,y,z\n", TableRefusal::Code { line: 2 }),
        ("\"\",x,y,z\n", TableRefusal::Code { line: 2 }),
        ("abcdefghijklmnopq,x,y,z\n", TableRefusal::Code { line: 2 }),
        ("P0,2025-07-32,y,z\n", TableRefusal::Date { line: 2 }),
        ("P0,2025-08-01,-1,1\n", TableRefusal::Number { line: 2 }),
        ("P0,2025-08-01,0,89.00\n", TableRefusal::Number { line: 2 }),
        (
            "P0,2025-08-01,1,0000000000000000001\n",
            TableRefusal::Number { line: 2 },
        ),
        ("P0,2025-08-01,0,1\n", TableRefusal::Limit { line: 2 }),
        ("P0,2025-07-01,1,0\n", TableRefusal::Limit { line: 2 }),
        (
            "P0,2025-07-01,1,1000000001\n",
            TableRefusal::Limit { line: 2 },
        ),
        ("P0,2025-06-30,1,1\n", TableRefusal::Outside { line: 2 }),
        ("P0,2025-07-02,3,1\n", TableRefusal::Outside { line: 2 }),
        (
            "P0,2025-07-02,999999999999999999,1\n",
            TableRefusal::Outside { line: 2 },
        ),
        (
            "P0,2025-07-01,1,1\nP0,2025-07-01,1,0\n",
            TableRefusal::Limit { line: 3 },
        ),
        (
            "P0,2025-07-01,1,1\nP0,2025-07-04,1,1\n",
            TableRefusal::Outside { line: 3 },
        ),
        (
            "P0,2025-07-01,3,1\nP0,2025-07-01,1,1\nx\n",
            TableRefusal::TwiceCode { line: 3 },
        ),
        (
            "P0,2025-07-01,2,100\r\n\r\nP1,2025-07-02,2,150\r\n\nP2,2025-07-01,1,60\r\nP3,2025-07-03,2,40\r\n",
            TableRefusal::Outside { line: 5 },
        ),
    ] {
        let text = joined(rt.alloc(), STAYS_HEADER, records)?;
        let read = read_stays(rt.alloc(), &hotel, text.as_bytes());
        assert_eq!(rt; refusal(read), Some(error), "{records}");
    }
    Ok(())
}

#[test]
fn fields_that_are_no_text(rt: HostRuntime) -> Result<(), Fail> {
    let hotel = hotel(rt.alloc())?;
    for (bytes, line) in [
        (b"\x1f\x8b\x08".as_slice(), 1),
        (b"code,\xff,arrival,nights\n".as_slice(), 1),
        (
            b"code,arrival,nights,rate,x\nP0,2025-07-01,1,1,\"a,\n\nb\"\nP1,2025-07-01,1,1,\xc3\n".as_slice(),
            3,
        ),
    ] {
        let read = read_stays(rt.alloc(), &hotel, bytes);
        assert_eq!(rt; refusal(read), Some(TableRefusal::NotCsv { line }));
    }
    Ok(())
}

#[test]
fn stays_at_their_limits(rt: HostRuntime) -> Result<(), Fail> {
    let hotel = hotel(rt.alloc())?;
    let records =
        "0123456789abcdef,2025-07-03,000000000000000001,1000000000\nA-b_9.,2025-07-01,3,1";
    let text = joined(rt.alloc(), STAYS_HEADER, records)?;
    let stays = read_stays(rt.alloc(), &hotel, text.as_bytes())?;
    let expected = [stay(2, 3, 1_000_000_000, 0), stay(0, 3, 1, 0)];
    assert_eq!(rt; stays.as_slice(), expected.as_slice());
    assert_eq!(rt; stays.codes().find("A-b_9."), Some(1));
    Ok(())
}
