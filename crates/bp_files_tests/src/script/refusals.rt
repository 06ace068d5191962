//! Scripts that are refused, each at its first place.
use super::HEADER;
use crate::three_nights::{hotel, joined, refusal, stays};
use bp_script::read_script;
use bp_stayfile::{Column, TableRefusal};
use std::test::Fail;

#[test]
fn a_header_that_lacks_a_column(rt: HostRuntime) -> Result<(), Fail> {
    let hotel = hotel(rt.alloc())?;
    let stays = stays(rt.alloc(), &hotel)?;
    for (text, column) in [
        ("", Column::Session),
        ("verb,item,nights,rooms,amount\n33\n", Column::Session),
        ("amount,rooms,nights,item,session\n", Column::Verb),
        ("session,verb\n", Column::Item),
        ("session,verb,item,rooms\n", Column::Nights),
        ("session,verb,item,nights,amount\n", Column::Rooms),
        ("session,verb,item,nights,rooms,Amount\n", Column::Amount),
    ] {
        let read = read_script(rt.alloc(), &hotel, stays.codes(), text.as_bytes());
        assert_eq!(rt;
            refusal(read),
            Some(TableRefusal::Column { column }),
            "{text}"
        );
    }
    let read = read_script(rt.alloc(), &hotel, stays.codes(), b"session,\xff\n");
    assert_eq!(rt; refusal(read), Some(TableRefusal::NotCsv { line: 1 }));
    Ok(())
}

#[test]
fn rows_are_refused_at_their_first_place(rt: HostRuntime) -> Result<(), Fail> {
    let hotel = hotel(rt.alloc())?;
    let stays = stays(rt.alloc(), &hotel)?;
    for (records, error) in [
        ("33,book,P0,,\n", TableRefusal::NotCsv { line: 2 }),
        ("33,book,P0,,,\n", TableRefusal::Session { line: 2 }),
        ("0,book,P0,,,\n", TableRefusal::Session { line: 2 }),
        (",walk,P0,,,\n", TableRefusal::Session { line: 2 }),
        ("one,book,P0,,,\n", TableRefusal::Session { line: 2 }),
        ("1,Book,P 0,,,\n", TableRefusal::Verb { line: 2 }),
        ("1,,P0,,,\n", TableRefusal::Verb { line: 2 }),
        ("1,book,P 0,,,\n", TableRefusal::Code { line: 2 }),
        ("1,book,P4,,,\n", TableRefusal::NoCode { line: 2 }),
        ("1,cancel,P0,,,\n", TableRefusal::Number { line: 2 }),
        ("1,cancel,0,,,\n", TableRefusal::Limit { line: 2 }),
        ("1,cancel,200001,,,\n", TableRefusal::Limit { line: 2 }),
        ("1,reforecast,,,,x\n", TableRefusal::Code { line: 2 }),
        ("1,reforecast,P4,,,x\n", TableRefusal::NoCode { line: 2 }),
        ("1,reforecast,P0,,,-1\n", TableRefusal::Number { line: 2 }),
        (
            "1,reforecast,P0,,,1000001\n",
            TableRefusal::Limit { line: 2 },
        ),
        ("1,reprice,P?,,,0\n", TableRefusal::Code { line: 2 }),
        ("1,reprice,p0,,,0\n", TableRefusal::NoCode { line: 2 }),
        ("1,reprice,P0,,,89.00\n", TableRefusal::Number { line: 2 }),
        ("1,reprice,P0,,,0\n", TableRefusal::Limit { line: 2 }),
        (
            "1,reprice,P0,,,1000000001\n",
            TableRefusal::Limit { line: 2 },
        ),
        (
            "1,book,P0,,,\r\n\r\n2,book,P1,,,\r\n1,book,P4,,,\r\n33,,,,,\r\n",
            TableRefusal::NoCode { line: 4 },
        ),
        (
            "1,book,P0,,,\n1,book\n33,,,,,\n",
            TableRefusal::NotCsv { line: 3 },
        ),
    ] {
        let text = joined(rt.alloc(), HEADER, records)?;
        let read = read_script(rt.alloc(), &hotel, stays.codes(), text.as_bytes());
        assert_eq!(rt; refusal(read), Some(error), "{records}");
    }
    Ok(())
}

#[test]
fn resizes_and_groups_are_refused_at_their_first_place(rt: HostRuntime) -> Result<(), Fail> {
    let hotel = hotel(rt.alloc())?;
    let stays = stays(rt.alloc(), &hotel)?;
    for (records, error) in [
        ("1,resize,2025-07-32,,x,\n", TableRefusal::Date { line: 2 }),
        (
            "1,resize,2025-07-04,,x,\n",
            TableRefusal::Number { line: 2 },
        ),
        (
            "1,resize,2025-07-04,,10001,\n",
            TableRefusal::Limit { line: 2 },
        ),
        (
            "1,resize,2025-07-04,,10000,\n",
            TableRefusal::Outside { line: 2 },
        ),
        ("1,group,P0,x,1,1\n", TableRefusal::Date { line: 2 }),
        (
            "1,group,2025-06-30,x,0,1\n",
            TableRefusal::Number { line: 2 },
        ),
        (
            "1,group,2025-06-30,0,x,1\n",
            TableRefusal::Limit { line: 2 },
        ),
        (
            "1,group,2025-06-30,1,x,1\n",
            TableRefusal::Number { line: 2 },
        ),
        (
            "1,group,2025-06-30,1,0,x\n",
            TableRefusal::Limit { line: 2 },
        ),
        (
            "1,group,2025-06-30,1,10001,x\n",
            TableRefusal::Limit { line: 2 },
        ),
        (
            "1,group,2025-06-30,1,1,x\n",
            TableRefusal::Number { line: 2 },
        ),
        (
            "1,group,2025-06-30,1,1,1000000000000001\n",
            TableRefusal::Limit { line: 2 },
        ),
        (
            "1,group,2025-06-30,1,1,1\n",
            TableRefusal::Outside { line: 2 },
        ),
        (
            "1,group,2025-07-02,3,1,1\n",
            TableRefusal::Outside { line: 2 },
        ),
        (
            "1,group,2025-07-02,999999999999999999,1,1\n",
            TableRefusal::Outside { line: 2 },
        ),
    ] {
        let text = joined(rt.alloc(), HEADER, records)?;
        let read = read_script(rt.alloc(), &hotel, stays.codes(), text.as_bytes());
        assert_eq!(rt; refusal(read), Some(error), "{records}");
    }
    Ok(())
}
