//! Scripts that are read: each verb, and the commands of each session.
use super::HEADER;
use crate::three_nights::{hotel, joined, stays};
use bp_script::{Commands, read_script};
use bp_types::{Command, Span};
use std::process::Abort;
use std::test::Fail;

/// Whether the sessions have these commands, one list after the other.
fn are(rt: &impl Abort, script: &[Commands], expected: &[&[Command]]) {
    assert_eq!(rt; script.len(), expected.len());
    for session in 0..script.len() {
        assert_eq!(rt; script[session].list(), expected[session]);
    }
}

/// A Book.
fn book(stay: u32) -> Command {
    Command::Book { stay }
}

/// A Group.
fn group(from: u32, to: u32, rooms: u64, amount: u64) -> Command {
    let span = Span { from, to };
    Command::Group {
        span,
        rooms,
        amount,
    }
}

#[test]
fn every_verb(rt: HostRuntime) -> Result<(), Fail> {
    let hotel = hotel(rt.alloc())?;
    let stays = stays(rt.alloc(), &hotel)?;
    let text = joined(
        rt.alloc(),
        HEADER,
        "1,book,P0,,,\n1,cancel,1,,,\n1,reforecast,P3,,,1000000\n1,reprice,P1,,,1000000000\n\
        1,resize,2025-07-02,,0,\n1,group,2025-07-02,2,1,149\n",
    )?;
    let script = read_script(rt.alloc(), &hotel, stays.codes(), text.as_bytes())?;
    let session = [
        book(0),
        Command::Cancel { nth: 1 },
        Command::Reforecast {
            stay: 3,
            count: 1_000_000,
        },
        Command::Reprice {
            stay: 1,
            rate: 1_000_000_000,
        },
        Command::Resize { night: 1, rooms: 0 },
        group(1, 3, 1, 149),
    ];
    are(&rt, &script, &[&session]);
    Ok(())
}

#[test]
fn sessions_as_a_spreadsheet_writes_them(rt: HostRuntime) -> Result<(), Fail> {
    let hotel = hotel(rt.alloc())?;
    let stays = stays(rt.alloc(), &hotel)?;
    // Columns in another order and one of its own, a session without commands, and cells that a verb does not use.
    let text = "\u{feff}amount,remark,verb,item,rooms,nights,session\r\nx,,book,P1,-1,?,03\r\n\
        ,\"a, b\",book,P0,,,1\r\n\r\n,, cancel ,\" 200000 \",,,3\r\n1000000000000000,,group,2025-07-01,10000,003,1\r\n";
    let script = read_script(rt.alloc(), &hotel, stays.codes(), text.as_bytes())?;
    let first = [book(0), group(0, 3, 10_000, 1_000_000_000_000_000)];
    let third = [book(1), Command::Cancel { nth: 200_000 }];
    are(&rt, &script, &[&first, &[], &third]);
    Ok(())
}

#[test]
fn a_script_without_commands(rt: HostRuntime) -> Result<(), Fail> {
    let hotel = hotel(rt.alloc())?;
    let stays = stays(rt.alloc(), &hotel)?;
    let script = read_script(rt.alloc(), &hotel, stays.codes(), HEADER.as_bytes())?;
    are(&rt, &script, &[]);
    let text = joined(rt.alloc(), HEADER, "32,book,P2,,,\n")?;
    let script = read_script(rt.alloc(), &hotel, stays.codes(), text.as_bytes())?;
    assert_eq!(rt; script.len(), 32);
    assert_eq!(rt; script[30].list().len(), 0);
    assert_eq!(rt; script[31].list(), [book(2)].as_slice());
    Ok(())
}
