//! Journals: each refusal at its line, the entry that each line tells, and what is written of a book.
use crate::lines::{text_of, text_with};
use bp_core::{Act, Book, Entry, Reply};
use bp_edges::MemorySink;
use bp_fixtures::{OPENING, certificate, opening_board, three_nights};
use bp_journal::{TextError, read, write};
use bp_types::{Command, Limits, Span};
use std::alloc::Global;
use std::test::Fail;

/// Three calls of one session on four stays over three nights, and the vectors that were published.
const JOURNAL: [&str; 19] = [
    "journal 2",
    "0 0 publish 0 vector 0",
    "value 250",
    "sell 0 1 1 1",
    "prices 0 100 40",
    "1 1 enrol done",
    "2 1 book 0 accepted 0 100",
    "3 1 book 1 noroom 0 140 1",
    "4 1 publish 4 vector 1",
    "value 140",
    "sell 0 0 1 2",
    "prices 60 40 40",
    "5 1 book 3 accepted 1 40",
    "6 1 leave done",
    "7 0 publish 7 vector 2",
    "value 100",
    "sell 0 0 1 1",
    "prices 60 40 40",
    "end",
];

/// A line in place of another, and what is refused then.
const REFUSALS: [(usize, &str, Option<TextError>); 24] = [
    (1, "journal 3", Some(TextError::BadLine { line: 1 })),
    (1, "journal 2 ", Some(TextError::BadLine { line: 1 })),
    (1, "journal 1", None),
    (
        2,
        "1 0 publish 0 vector 0",
        Some(TextError::BadLine { line: 2 }),
    ),
    (
        2,
        "00 0 publish 0 vector 0",
        Some(TextError::BadLine { line: 2 }),
    ),
    (
        2,
        "18446744073709551616 0 publish 0 vector 0",
        Some(TextError::BadLine { line: 2 }),
    ),
    (
        2,
        "0 4294967295 publish 18446744073709551615 vector 9",
        None,
    ),
    (
        2,
        "0 4294967296 publish 0 vector 0",
        Some(TextError::Limit { line: 2 }),
    ),
    (
        2,
        "0 0 publish 18446744073709551616 vector 0",
        Some(TextError::Limit { line: 2 }),
    ),
    (
        2,
        "0 4294967296 publish 0 done",
        Some(TextError::BadLine { line: 2 }),
    ),
    (
        2,
        "0 0 publish 0 vector 0 0",
        Some(TextError::BadLine { line: 2 }),
    ),
    (
        2,
        "0 0 publish vector 0",
        Some(TextError::BadLine { line: 2 }),
    ),
    (3, "1 1 enrol done", Some(TextError::BadLine { line: 3 })),
    (
        3,
        "value 1000000000000000000000000000001",
        Some(TextError::Limit { line: 3 }),
    ),
    (6, "1 1 enrol  done", Some(TextError::BadLine { line: 6 })),
    (6, "1 01 enrol done", Some(TextError::BadLine { line: 6 })),
    (6, "1 1 enrol", Some(TextError::BadLine { line: 6 })),
    (
        7,
        "2 1 book 4294967296 accepted 0 100",
        Some(TextError::Limit { line: 7 }),
    ),
    (
        7,
        "2 1 book 4294967296 accepted 0",
        Some(TextError::BadLine { line: 7 }),
    ),
    (
        7,
        "2 1 book 0 accepted 100",
        Some(TextError::BadLine { line: 7 }),
    ),
    (
        7,
        "2 1 group 9 1 1 0 toolow 1000000000000000000000000000000",
        None,
    ),
    (
        7,
        "2 1 group 9 1 1 0 toolow 1000000000000000000000000000001",
        Some(TextError::Limit { line: 7 }),
    ),
    (19, "end ", Some(TextError::BadLine { line: 19 })),
    (19, "8 1 leave done", Some(TextError::TooShort)),
];

#[test]
fn a_journal_is_refused_at_its_first_wrong_line(rt: HostRuntime) -> Result<(), Fail> {
    let alloc = rt.alloc();
    for (place, line, want) in &REFUSALS {
        let text = text_with(alloc, &JOURNAL, *place, line)?;
        assert!(rt; read(alloc, &text).err() == *want, "{line}");
    }
    Ok(())
}

#[test]
fn a_reprice_is_of_the_second_version(rt: HostRuntime) -> Result<(), Fail> {
    let alloc = rt.alloc();
    let first = read(
        alloc,
        b"journal 1\n0 0 leave done\n1 0 reprice 0 1 done\nend\n",
    );
    assert!(rt; first.err() == Some(TextError::BadLine { line: 3 }));
    let second = read(
        alloc,
        b"journal 2\n0 0 leave done\n1 0 reprice 0 1 done\nend\n",
    );
    assert!(rt; second.is_ok());
    Ok(())
}

#[test]
fn a_journal_that_is_cut_is_too_short_and_one_byte_more_trails(
    rt: HostRuntime,
) -> Result<(), Fail> {
    let alloc = rt.alloc();
    let mut text = text_of(alloc, &JOURNAL)?;
    for length in 0..text.len() {
        let (cut, _) = text.split_at(length);
        assert!(rt;
            read(alloc, cut).err() == Some(TextError::TooShort),
            "{length}"
        );
    }
    text.push(b'\n')?;
    assert!(rt; read(alloc, &text).err() == Some(TextError::Trailing { line: 20 }));
    Ok(())
}

/// An entry.
fn by(caller: u32, act: Act, reply: Reply) -> Entry {
    Entry { caller, act, reply }
}

#[test]
fn the_lines_of_a_journal_are_given_in_order(rt: HostRuntime) -> Result<(), Fail> {
    let alloc = rt.alloc();
    let journal = read(alloc, &text_with(alloc, &JOURNAL, 1, "journal 1")?)?;
    assert!(rt; journal.len() == 8);
    let mut lines = journal.into_lines();
    let wants = [
        (
            by(0, Act::Publish { position: 0 }, Reply::Vector { number: 0 }),
            Some(250),
        ),
        (by(1, Act::Enrol, Reply::Done), None),
        (
            by(
                1,
                Act::Do(Command::Book { stay: 0 }),
                Reply::Accepted {
                    vector: 0,
                    sum: 100,
                },
            ),
            None,
        ),
        (
            by(
                1,
                Act::Do(Command::Book { stay: 1 }),
                Reply::NoRoom {
                    vector: 0,
                    sum: 140,
                    night: 1,
                },
            ),
            None,
        ),
        (
            by(1, Act::Publish { position: 4 }, Reply::Vector { number: 1 }),
            Some(140),
        ),
        (
            by(
                1,
                Act::Do(Command::Book { stay: 3 }),
                Reply::Accepted { vector: 1, sum: 40 },
            ),
            None,
        ),
        (by(1, Act::Leave, Reply::Done), None),
        (
            by(0, Act::Publish { position: 7 }, Reply::Vector { number: 2 }),
            Some(100),
        ),
    ];
    for (entry, value) in &wants {
        let Some(line) = lines.next() else {
            return Err(Fail::new("a line too few"));
        };
        assert!(rt; line.entry == *entry);
        let got = line.certificate.as_ref().map(|c| c.value);
        assert!(rt; got == *value);
    }
    assert!(rt; lines.next().is_none());
    Ok(())
}

/// The line of each kind of act with each of its replies, Publish apart, and the entry that it tells.
const LINES: [(&str, Entry); 15] = [
    (
        "0 1 book 2 toolow 3 4 5",
        Entry {
            caller: 1,
            act: Act::Do(Command::Book { stay: 2 }),
            reply: Reply::TooLow {
                vector: 3,
                sum: 4,
                rate: 5,
            },
        },
    ),
    (
        "0 1 book 2 noroom 3 4 5",
        Entry {
            caller: 1,
            act: Act::Do(Command::Book { stay: 2 }),
            reply: Reply::NoRoom {
                vector: 3,
                sum: 4,
                night: 5,
            },
        },
    ),
    (
        "0 1 cancel 2 cancelled",
        Entry {
            caller: 1,
            act: Act::Do(Command::Cancel { nth: 2 }),
            reply: Reply::Cancelled,
        },
    ),
    (
        "0 1 cancel 2 notbooked",
        Entry {
            caller: 1,
            act: Act::Do(Command::Cancel { nth: 2 }),
            reply: Reply::NotBooked,
        },
    ),
    (
        "0 1 cancel 2 alreadycancelled",
        Entry {
            caller: 1,
            act: Act::Do(Command::Cancel { nth: 2 }),
            reply: Reply::AlreadyCancelled,
        },
    ),
    (
        "0 1 reforecast 2 3 done",
        Entry {
            caller: 1,
            act: Act::Do(Command::Reforecast { stay: 2, count: 3 }),
            reply: Reply::Done,
        },
    ),
    (
        "0 1 reprice 2 3 done",
        Entry {
            caller: 1,
            act: Act::Do(Command::Reprice { stay: 2, rate: 3 }),
            reply: Reply::Done,
        },
    ),
    (
        "0 1 resize 2 3 done",
        Entry {
            caller: 1,
            act: Act::Do(Command::Resize { night: 2, rooms: 3 }),
            reply: Reply::Done,
        },
    ),
    (
        "0 1 resize 2 3 belowsold 4",
        Entry {
            caller: 1,
            act: Act::Do(Command::Resize { night: 2, rooms: 3 }),
            reply: Reply::BelowSold { sold: 4 },
        },
    ),
    (
        "0 1 group 2 3 4 5 accepted 6",
        Entry {
            caller: 1,
            act: Act::Do(Command::Group {
                span: Span { from: 2, to: 3 },
                rooms: 4,
                amount: 5,
            }),
            reply: Reply::GroupAccepted { displacement: 6 },
        },
    ),
    (
        "0 1 group 2 3 4 5 toolow 6",
        Entry {
            caller: 1,
            act: Act::Do(Command::Group {
                span: Span { from: 2, to: 3 },
                rooms: 4,
                amount: 5,
            }),
            reply: Reply::GroupTooLow { displacement: 6 },
        },
    ),
    (
        "0 1 group 2 3 4 5 noroom 6",
        Entry {
            caller: 1,
            act: Act::Do(Command::Group {
                span: Span { from: 2, to: 3 },
                rooms: 4,
                amount: 5,
            }),
            reply: Reply::GroupNoRoom { night: 6 },
        },
    ),
    (
        "0 1 enrol done",
        Entry {
            caller: 1,
            act: Act::Enrol,
            reply: Reply::Done,
        },
    ),
    (
        "0 1 leave done",
        Entry {
            caller: 1,
            act: Act::Leave,
            reply: Reply::Done,
        },
    ),
    (
        "0 1 book 2 accepted 3 4",
        Entry {
            caller: 1,
            act: Act::Do(Command::Book { stay: 2 }),
            reply: Reply::Accepted { vector: 3, sum: 4 },
        },
    ),
];

#[test]
fn each_kind_of_line_tells_its_entry(rt: HostRuntime) -> Result<(), Fail> {
    let alloc = rt.alloc();
    for (line, want) in &LINES {
        let text = text_with(alloc, &["journal 2", "", "end"], 2, line)?;
        let mut lines = read(alloc, &text)?.into_lines();
        let Some(told) = lines.next() else {
            return Err(Fail::new("no line"));
        };
        assert!(rt; told.entry == *want, "{line}");
    }
    Ok(())
}

/// The limits of the house whose book is written.
const LIMITS: Limits = Limits {
    stale_after: 2,
    entries: 3,
    publications: 3,
    unit: 1,
};

#[test]
fn a_book_is_written_as_a_journal_of_the_second_version(rt: HostRuntime) -> Result<(), Fail> {
    let alloc = rt.alloc();
    let house = three_nights(alloc, LIMITS)?;
    let opening = certificate(alloc, OPENING)?;
    let board = opening_board(alloc, &house.instance(alloc)?, opening)?;
    let book = Book::new(alloc, house, board)?;
    let mut out = MemorySink::new(Vec::new(alloc));
    write(alloc, &book, &mut out)?;
    let want =
        b"journal 2\n0 0 publish 0 vector 0\nvalue 250\nsell 0 1 1 1\nprices 0 100 40\nend\n";
    assert!(rt; out.written() == want.as_slice());
    Ok(())
}
