//! Reports of histories that are worked out by hand.
ghost use Rattle.std.specs.Prelude.{◌≡◌, ◌<◌, is_some, IsTrue};
ghost use Rattle.bp_core.specs.Lines.{published_position};

use bp_core::{Act, Book, Entry, Line, Reply};
use bp_edges::MemorySink;
use bp_fixtures::{Claimed, certificate};
use bp_hotelfile::{Hotel, read_hotel};
use bp_journal::Journal;
use bp_judge::{Judgement, judge};
use bp_report::report;
use bp_stayfile::{Codes, Stays, read_forecast, read_stays};
use bp_types::{Certificate, Command, House, Steps};
use std::alloc::Global;
use std::marker::Brand;
use std::sync::ledger::{Blank, Ledger};
use std::test::Fail;

/// A caller, what it does, what is answered, and the certificate of a vector.
type Row<'a> = (u32, Act, Reply, Option<Claimed<'a>>);

/// Three nights with 2, 1 and 2 rooms.
const HOTEL: &str =
    "name = \"A\"\nfirst_night = \"2025-07-01\"\nnights = 3\nrooms = 2\nstale_after = 2\n\
    [[night]]\ndate = \"2025-07-02\"\nrooms = 1\n";

/// The same over the turn of a year, counted in hundredths.
const IN_HUNDREDTHS: &str =
    "name = \"A\"\nfirst_night = \"2025-12-31\"\nnights = 3\nrooms = 2\nunit = 100\n\
    [[night]]\ndate = \"2026-01-01\"\nrooms = 1\n";

/// A Book.
fn book(stay: u32) -> Act {
    Act::Do(Command::Book { stay })
}

/// A Cancel.
fn cancel(nth: u64) -> Act {
    Act::Do(Command::Cancel { nth })
}

/// The stays of three nights from this date on, with these forecasts.
fn stays(alloc: Global, hotel: &Hotel, table: &str, forecast: &str) -> Result<Stays, Fail> {
    let mut stays = read_stays(alloc, hotel, table.as_bytes())?;
    read_forecast(alloc, &mut stays, forecast.as_bytes())?;
    Ok(stays)
}

/// The journal of these rows, each Publish and no other act with a certificate.
fn journal_of(alloc: Global, rows: &[Row<'_>]) -> Result<Journal, Fail> {
    let mut journal = Journal::with_capacity(alloc, rows.len(), rows.len())?;
    for row in rows {
        let entry = Entry {
            caller: row.0,
            act: row.1,
            reply: row.2,
        };
        let certificate = match row.3 {
            Some(claimed) => Some(certificate(alloc, claimed)?),
            None => None,
        };
        if !may_stand(&entry, &certificate) {
            return Err(Fail::new(format_args!("{entry:?}")));
        }
        journal.push(Line { entry, certificate })?;
    }
    Ok(journal)
}

/// Whether there is a certificate exactly where the act is a Publish.
fn may_stand(entry: &Entry, certificate: &Option<Certificate>) -> bool
    ensures { IsTrue result → is_some certificate.now ≡ is_some (published_position entry.now.act) }
{
    certificate.is_some() == matches!(entry.act, Act::Publish { .. })
}

/// The book of a hotel with nothing sold at first, of which these rows are a legal history.
fn judged<L: Ledger>(
    alloc: Global,
    hotel: &Hotel,
    stays: &Stays,
    rows: &[Row<'_>],
    blank: Blank,
) -> Result<Book, Fail>
    requires name { blank.name ≡ L.name }
    requires parts { blank.parts ≡ L.parts }
    requires some { 0 < blank.parts }
{
    let rooms = Vec::from_slice(alloc, hotel.rooms_by_night())?;
    let sold = vec![in alloc; 0; hotel.nights() as usize]?;
    let stays = Vec::from_slice(alloc, stays.as_slice())?;
    let house = House::new(rooms, sold, stays, hotel.limits())?;
    let mut steps: Steps<L> = Steps::new(blank);
    match judge(alloc, house, journal_of(alloc, rows)?, &mut steps)? {
        Judgement::Legal(book) => Ok(book),
        Judgement::NotLegal { place, cause } => {
            Err(Fail::new(format_args!("{cause:?} at place {place}")))
        }
    }
}

/// What is printed of a book.
fn printed(alloc: Global, hotel: &Hotel, codes: &Codes, book: &Book) -> Result<Vec<u8>, Fail> {
    if book.house().nights() != hotel.nights() || book.house().stays() != codes.count() {
        return Err(Fail::new("the book of another hotel"));
    }
    let mut sink = MemorySink::new(Vec::new(alloc));
    report(alloc, hotel, codes, book, &mut sink)?;
    Ok(Vec::from_slice(alloc, sink.written())?)
}

#[test]
fn the_report_of_three_calls(rt: HostRuntime) -> Result<(), Fail> {
    let alloc = rt.alloc();
    let hotel = read_hotel(alloc, HOTEL.as_bytes())?;
    let stays = stays(
        alloc,
        &hotel,
        "code,arrival,nights,rate\nP0,2025-07-01,2,100\nP1,2025-07-02,2,150\nP2,2025-07-01,1,60\nP3,2025-07-03,1,40\n",
        "code,count\nP0,3\nP1,1\nP2,1\nP3,5\n",
    )?;
    let rows: [Row<'_>; 8] = [
        (
            0,
            Act::Publish { position: 0 },
            Reply::Vector { number: 0 },
            Some((250, &[0, 1, 1, 1], &[0, 100, 40])),
        ),
        (1, Act::Enrol, Reply::Done, None),
        (
            1,
            book(0),
            Reply::Accepted {
                vector: 0,
                sum: 100,
            },
            None,
        ),
        (
            1,
            book(1),
            Reply::NoRoom {
                vector: 0,
                sum: 140,
                night: 1,
            },
            None,
        ),
        (
            1,
            Act::Publish { position: 4 },
            Reply::Vector { number: 1 },
            Some((140, &[0, 0, 1, 2], &[60, 40, 40])),
        ),
        (1, book(3), Reply::Accepted { vector: 1, sum: 40 }, None),
        (1, Act::Leave, Reply::Done, None),
        (
            0,
            Act::Publish { position: 7 },
            Reply::Vector { number: 2 },
            Some((100, &[0, 0, 1, 1], &[60, 40, 40])),
        ),
    ];
    let judged = judged::<Brand>(alloc, &hotel, &stays, &rows, Blank::new(1))?;
    let text = printed(alloc, &hotel, stays.codes(), &judged)?;
    let expected: &[u8] =
        b"night date        rooms   sold   left       price\n    0 2025-07-01      2      1      1          60\n    1 2025-07-02      1      1      0          40\n    2 2025-07-03      2      1      1          40\nstay              asked accepted toolow noroom cancelled forecast\nP0                    1        1      0      0         0        2\nP1                    1        0      0      1         0        0\nP2                    0        0      0      0         0        1\nP3                    1        1      0      0         0        4\nvalue 100\n";
    assert!(rt; text.as_slice() == expected);
    Ok(())
}

/// Each reply of a booking, bookings of two callers that are given up, and forecasts and the value in hundredths.
#[test]
fn each_reply_in_hundredths(rt: HostRuntime) -> Result<(), Fail> {
    let alloc = rt.alloc();
    let hotel = read_hotel(alloc, IN_HUNDREDTHS.as_bytes())?;
    let stays = stays(
        alloc,
        &hotel,
        "code,arrival,nights,rate\nP0,2025-12-31,2,100\nP1,2026-01-01,2,150\nP2,2025-12-31,1,60\nSIXTEEN-LETTERS.,2026-01-02,1,40\n",
        "code,count\nP0,300\nP1,100\nP2,100\nSIXTEEN-LETTERS.,500\n",
    )?;
    let rows: [Row<'_>; 15] = [
        (
            0,
            Act::Publish { position: 0 },
            Reply::Vector { number: 0 },
            Some((25_000, &[0, 100, 100, 100], &[0, 100, 40])),
        ),
        (1, Act::Enrol, Reply::Done, None),
        (2, Act::Enrol, Reply::Done, None),
        (
            1,
            book(0),
            Reply::Accepted {
                vector: 0,
                sum: 100,
            },
            None,
        ),
        (
            2,
            book(0),
            Reply::NoRoom {
                vector: 0,
                sum: 100,
                night: 1,
            },
            None,
        ),
        (
            1,
            Act::Do(Command::Reprice { stay: 3, rate: 39 }),
            Reply::Done,
            None,
        ),
        (
            2,
            book(3),
            Reply::TooLow {
                vector: 0,
                sum: 40,
                rate: 39,
            },
            None,
        ),
        (1, cancel(1), Reply::Cancelled, None),
        (
            2,
            book(0),
            Reply::Accepted {
                vector: 0,
                sum: 100,
            },
            None,
        ),
        (2, cancel(1), Reply::NotBooked, None),
        (2, book(2), Reply::Accepted { vector: 0, sum: 0 }, None),
        (
            1,
            book(2),
            Reply::NoRoom {
                vector: 0,
                sum: 0,
                night: 0,
            },
            None,
        ),
        (2, cancel(4), Reply::Cancelled, None),
        (
            1,
            Act::Do(Command::Reforecast { stay: 1, count: 7 }),
            Reply::Done,
            None,
        ),
        (
            1,
            Act::Do(Command::Resize { night: 0, rooms: 5 }),
            Reply::Done,
            None,
        ),
    ];
    let judged = judged::<Brand>(alloc, &hotel, &stays, &rows, Blank::new(1))?;
    let text = printed(alloc, &hotel, stays.codes(), &judged)?;
    // By hand, from the rows.
    let expected: &[u8] =
        b"night date        rooms   sold   left       price\n    0 2025-12-31      5      1      4           0\n    1 2026-01-01      1      1      0         100\n    2 2026-01-02      2      0      2          40\nstay              asked accepted toolow noroom cancelled forecast\nP0                    3        2      0      1         1        0\nP1                    0        0      0      0         0        7\nP2                    2        1      0      1         1        0\nSIXTEEN-LETTERS.      1        0      1      0         0      400\nvalue 25000\n";
    assert!(rt; text.as_slice() == expected);
    Ok(())
}
