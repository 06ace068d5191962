//! Sheets, reports and demos, byte for byte.
use crate::files::files;
use crate::lines::usage;
use bp_edges::{HeldFile, MemoryShelf, MemorySink, NoGate};
use bp_run::run;
use std::alloc::{AllocError, Global};
use std::sync::Wait;
use std::test::Fail;
use std::thread::Threads;

/// The sheet of the shared problem.
const SHEET: &str = "night 0 price 0 gain 0 loss 0
night 1 price 100 gain 100 loss 110
night 2 price 40 gain 40 loss 40
arrival 0 least 1 hurdles 0 100 140
arrival 1 least 2 hurdles 100 140
arrival 2 least 1 hurdles 40
";

/// One stay, of the first night, at a rate that is the price of the only room.
const DEMO: &str = "demo 0 1 1 1
value 5073
prices 5073
accepted 1
toolow 0
noroom 0
closing 0
";

/// The report of the journal that one session makes of three calls.
const REPORT: &str = "night date        rooms   sold   left       price
    0 2025-07-01      2      1      1          60
    1 2025-07-02      1      1      0          40
    2 2025-07-03      2      1      1          40
stay              asked accepted toolow noroom cancelled forecast
P0                    1        1      0      0         0        2
P1                    1        0      0      1         0        0
P2                    0        0      0      0         0        1
P3                    1        1      0      0         0        4
value 100
";

/// A hotel that counts in hundredths, over the turn of a year.
const HUNDREDTHS: &str = "name = \"A\"
first_night = \"2025-12-31\"
nights = 3
rooms = 2
unit = 100
[[night]]
date = \"2026-01-01\"
rooms = 1
";

/// Its stays file, with a code of sixteen letters.
const HUNDREDTHS_STAYS: &str = "code,arrival,nights,rate
P0,2025-12-31,2,100
P1,2026-01-01,2,150
P2,2025-12-31,1,60
SIXTEEN-LETTERS.,2026-01-02,1,40
";

/// Its forecast file.
const HUNDREDTHS_FORECAST: &str = "code,count
P0,300
P1,100
P2,100
SIXTEEN-LETTERS.,500
";

/// Each reply of a booking, bookings of two callers that are given up, and a change of each other kind.
const EACH_REPLY: &str = "journal 2
0 0 publish 0 vector 0
value 25000
sell 0 100 100 100
prices 0 100 40
1 1 enrol done
2 2 enrol done
3 1 book 0 accepted 0 100
4 2 book 0 noroom 0 100 1
5 1 reprice 3 39 done
6 2 book 3 toolow 0 40 39
7 1 cancel 1 cancelled
8 2 book 0 accepted 0 100
9 2 cancel 1 notbooked
10 2 book 2 accepted 0 0
11 1 book 2 noroom 0 0 0
12 2 cancel 4 cancelled
13 1 reforecast 1 7 done
14 1 resize 0 5 done
end
";

/// Its report, counted by hand.
const EACH_REPLY_REPORT: &str = "night date        rooms   sold   left       price
    0 2025-12-31      5      1      4           0
    1 2026-01-01      1      1      0         100
    2 2026-01-02      2      0      2          40
stay              asked accepted toolow noroom cancelled forecast
P0                    3        2      0      1         1        0
P1                    0        0      0      0         0        7
P2                    2        1      0      1         1        0
SIXTEEN-LETTERS.      1        0      1      0         0      400
value 25000
";

/// A booking given up twice, a group of each reply, and a night that keeps the room of a group.
const OTHER_REPLIES: &str = "journal 2
0 0 publish 0 vector 0
value 250
sell 0 1 1 1
prices 0 100 40
1 1 enrol done
2 1 book 0 accepted 0 100
3 1 cancel 1 cancelled
4 1 cancel 1 alreadycancelled
5 1 group 1 3 1 149 toolow 150
6 1 group 1 3 1 150 accepted 150
7 1 group 1 2 1 0 noroom 1
8 1 resize 1 0 belowsold 1
9 1 leave done
end
";

/// Its report, counted by hand: a group's rooms are sold, and no stay's line counts a group.
const OTHER_REPLIES_REPORT: &str = "night date        rooms   sold   left       price
    0 2025-07-01      2      0      2           0
    1 2025-07-02      1      1      0         100
    2 2025-07-03      2      1      1          40
stay              asked accepted toolow noroom cancelled forecast
P0                    1        1      0      0         1        2
P1                    0        0      0      0         0        1
P2                    0        0      0      0         0        1
P3                    0        0      0      0         0        5
value 250
";

/// A file in memory.
fn held(alloc: Global, name: &str, text: &str) -> Result<HeldFile, AllocError> {
    let name = String::from_str(alloc, name)?;
    let bytes = Vec::from_slice(alloc, text.as_bytes())?;
    Ok(HeldFile::new(name, bytes))
}

/// The shared files, those of the hotel in hundredths and one more journal, on a shelf that fails at one fetch.
fn shelf(alloc: Global, failing: u64) -> Result<MemoryShelf, AllocError> {
    let mut shelf = Vec::new(alloc);
    for (name, text) in files() {
        shelf.push(held(alloc, name, text)?)?;
    }
    for (name, text) in [
        ("H100", HUNDREDTHS),
        ("S100", HUNDREDTHS_STAYS),
        ("F100", HUNDREDTHS_FORECAST),
        ("J100", EACH_REPLY),
        ("other-replies", OTHER_REPLIES),
    ] {
        shelf.push(held(alloc, name, text)?)?;
    }
    Ok(MemoryShelf::new(shelf, [failing].to_vec(alloc)?))
}

/// The words of a line, where one space parts two words.
fn words_of(alloc: Global, line: &str) -> Result<Vec<String>, AllocError> {
    let mut words = Vec::new(alloc);
    for word in line.split(' ') {
        words.push(String::from_str(alloc, word)?)?;
    }
    Ok(words)
}

/// Whether the line has this status and writes this text, where one fetch and one put fail.
fn gives<R: Wait + Threads + Sync>(
    rt: &R,
    alloc: Global,
    line: &str,
    fetch: u64,
    put: u64,
    status: u8,
    text: &str,
) -> Result<bool, AllocError> {
    let words = words_of(alloc, line)?;
    let mut shelf = shelf(alloc, fetch)?;
    let mut sink = MemorySink::new([put].to_vec(alloc)?);
    let got = run(rt, alloc, &words, &mut shelf, &mut sink, &NoGate);
    Ok(got == status && sink.written() == text.as_bytes())
}

#[test]
fn sheets(rt: HostRuntime) -> Result<(), Fail> {
    let alloc = rt.alloc();
    for (line, status, text) in [
        ("sheet A", 0, SHEET),
        // A closed night has a price and a gain, no loss, and no stay.
        (
            "sheet full",
            0,
            "night 0 price 100 gain 100 loss -\narrival 0 closed hurdles 100\n",
        ),
        ("sheet C", 3, "refused 1 badline 1\n"),
    ] {
        assert!(rt; gives(&rt, alloc, line, 0, 0, status, text)?, "{line}");
    }
    assert!(rt; gives(&rt, alloc, "sheet A", 1, 0, 4, "fault 1\n")?);
    assert!(rt; gives(&rt, alloc, "sheet A", 0, 1, 5, "")?);
    Ok(())
}

#[test]
fn reports(rt: HostRuntime) -> Result<(), Fail> {
    let alloc = rt.alloc();
    for (line, status, text) in [
        ("report H2 S F B T", 0, REPORT),
        ("report H100 S100 F100 B J100", 0, EACH_REPLY_REPORT),
        ("report H S F B other-replies", 0, OTHER_REPLIES_REPORT),
        // Journals that are no histories of the house.
        ("report H S F B no-vector", 1, "illegal 0 opening\n"),
        ("report H S F B no-enrol", 1, "illegal 1 caller\n"),
        ("report H S F B other-value", 1, "illegal 0 certificate\n"),
        ("report H S F B other-reply", 1, "illegal 2 reply\n"),
        ("report H S F two-sold J", 3, "refused 4 overbooked 1\n"),
        ("report H S F B zero-in-journal", 3, "refused 5 badline 7\n"),
    ] {
        assert!(rt; gives(&rt, alloc, line, 0, 0, status, text)?, "{line}");
    }
    for (fetch, text) in [
        (1, "fault 1\n"),
        (2, "fault 2\n"),
        (3, "fault 3\n"),
        (4, "fault 4\n"),
        (5, "fault 5\n"),
    ] {
        assert!(rt;
            gives(&rt, alloc, "report H2 S F B T", fetch, 0, 4, text)?,
            "{text}"
        );
    }
    assert!(rt; gives(&rt, alloc, "report H2 S F B T", 0, 1, 5, "")?);
    Ok(())
}

#[test]
fn demos(rt: HostRuntime) -> Result<(), Fail> {
    let alloc = rt.alloc();
    for line in ["demo 0 1 1 1", "demo 000000000 1 01 1"] {
        assert!(rt; gives(&rt, alloc, line, 0, 0, 0, DEMO)?, "{line}");
    }
    assert!(rt; gives(&rt, alloc, "demo 0 1 1 1", 0, 1, 5, "")?);
    for line in [
        "demo 0 0 1 1",
        "demo 0 401 1 1",
        "demo 0 1 10001 1",
        "demo 0 1 1 4001",
    ] {
        assert!(rt; gives(&rt, alloc, line, 0, 0, 2, usage())?, "{line}");
    }
    Ok(())
}

#[test]
fn a_demo_is_the_same_at_each_run(rt: HostRuntime) -> Result<(), Fail> {
    let alloc = rt.alloc();
    let mut first = MemorySink::new(Vec::new(alloc));
    let mut again = MemorySink::new(Vec::new(alloc));
    let words = words_of(alloc, "demo 7 120 50 800")?;
    let mut shelf = shelf(alloc, 0)?;
    assert!(rt; run(&rt, alloc, &words, &mut shelf, &mut first, &NoGate) == 0);
    assert!(rt; run(&rt, alloc, &words, &mut shelf, &mut again, &NoGate) == 0);
    assert!(rt; first.written().starts_with(b"demo 7 120 50 800\nvalue "));
    assert!(rt; first.written() == again.written());
    Ok(())
}
