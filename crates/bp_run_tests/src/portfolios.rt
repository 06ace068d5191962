//! The desks of several hotels, over files and a sink in memory.
use crate::desk_lines::TWO_ENTRIES;
use crate::desks::{all_files, is_legal, served_over};
use crate::files::THREE_CALLS;
use crate::tests::held;
use bp_edges::{Gate, NoGate};
use std::alloc::{AllocError, Global};
use std::sync::Wait;
use std::sync::atomic::AtomicU64;
use std::sync::atomic::Ordering::SeqCst;
use std::test::Fail;
use std::thread::Threads;

/// Lists of hotels, beside the files that all tests share.
fn lists() -> &'static [(&'static str, &'static str)] {
    &[
        (
            "two-hotels",
            "portfolio 1\nhotels 2\nH2 S F B three-calls\nH2 S F B three-calls\nend\n",
        ),
        (
            "full-history",
            "portfolio 1\nhotels 2\ntwo-entries S F B three-calls\nH2 S F B three-calls\nend\n",
        ),
        (
            "eight",
            "portfolio 1\nhotels 8\nH2 S F B three-calls\nH2 S F B three-calls\nH2 S F B three-calls\nH2 S F B three-calls\nH2 S F B three-calls\nH2 S F B three-calls\nH2 S F B three-calls\nH2 S F B three-calls\nend\n",
        ),
        ("nine", "portfolio 1\nhotels 9\n"),
        (
            "no-stays",
            "portfolio 1\nhotels 2\nH2 S F B three-calls\nH2 nowhere F B three-calls\nend\n",
        ),
        (
            "bad-script",
            "portfolio 1\nhotels 2\nH2 S F B free-rate\nH2 S F B three-calls\nend\n",
        ),
        (
            "bad-bookings",
            "portfolio 1\nhotels 2\nH2 S F B three-calls\nH2 S F no-code three-calls\nend\n",
        ),
    ]
}

/// A line of a portfolio, the fetch and the put that fail, the status, and what is written, in parts.
type Line = (&'static str, u64, u64, u8, &'static [&'static str]);

/// The lines. A comment above some says what they show.
fn served() -> &'static [Line] {
    &[
        // Each hotel has its line and its journal, and the status is that of the worst.
        (
            "two-hotels",
            0,
            0,
            0,
            &["hotel 1 0\n", THREE_CALLS, "hotel 2 0\n", THREE_CALLS],
        ),
        (
            "full-history",
            0,
            0,
            7,
            &["hotel 1 7\n", TWO_ENTRIES, "hotel 2 0\n", THREE_CALLS],
        ),
        // A file is named by its number among all.
        ("nine", 0, 0, 3, &["refused 1 limit 2\n"]),
        ("nowhere", 0, 0, 4, &["fault 1\n"]),
        ("no-stays", 0, 0, 4, &["fault 8\n"]),
        ("bad-script", 0, 0, 3, &["refused 6 limit 2\n"]),
        ("bad-bookings", 0, 0, 3, &["refused 10 nocode 2\n"]),
        // A name that comes again is fetched again.
        ("two-hotels", 7, 0, 4, &["fault 7\n"]),
        ("two-hotels", 11, 0, 4, &["fault 11\n"]),
        // What was written before the sink failed stays.
        ("two-hotels", 0, 1, 5, &[]),
        (
            "two-hotels",
            0,
            4,
            5,
            &["hotel 1 0\n", THREE_CALLS, "hotel 2 0\n"],
        ),
    ]
}

/// Runs a portfolio with so many workers a hotel, where one fetch and one put fail: the status, and what is written.
fn run_list<R: Wait + Threads + Sync, G: Gate>(
    rt: &R,
    alloc: Global,
    list: &str,
    workers: u64,
    fetch: u64,
    put: u64,
    gate: &G,
) -> Result<(u8, String), AllocError> {
    let line = format!(in alloc; "portfolio {list} --workers {workers}")?;
    let mut files = all_files(alloc, "", b"")?;
    for (name, text) in lists() {
        files.push(held(alloc, name, text.as_bytes())?)?;
    }
    served_over(rt, alloc, line.as_str(), files, fetch, put, gate)
}

/// The lines of a list's hotels.
fn hotels_of(list: &str) -> &'static str {
    for (name, text) in lists() {
        if *name == list {
            return match text.strip_prefix("portfolio 1\nhotels 2\n") {
                Some(lines) => lines,
                None => "",
            };
        }
    }
    ""
}

/// Whether `replay` calls each journal of these parts legal on the files of its hotel.
fn are_legal<R: Wait + Threads + Sync>(
    rt: &R,
    alloc: Global,
    list: &str,
    parts: &[&str],
) -> Result<bool, AllocError> {
    let mut hotels = hotels_of(list).lines();
    for part in parts {
        if part.starts_with("journal ") {
            let Some(files) = hotels.next() else {
                return Ok(false);
            };
            let Some(hotel) = files.strip_suffix(" three-calls") else {
                return Ok(false);
            };
            if !is_legal(rt, alloc, hotel, part)? {
                return Ok(false);
            }
        }
    }
    Ok(true)
}

#[test]
fn each_portfolio_has_its_status_and_its_text(rt: HostRuntime) -> Result<(), Fail> {
    let alloc = rt.alloc();
    for (list, fetch, put, status, parts) in served() {
        let mut text = String::new(alloc);
        for part in *parts {
            text.push_str(part)?;
        }
        let (got, written) = run_list(&rt, alloc, list, 0, *fetch, *put, &NoGate)?;
        assert!(rt; got == *status, "{list}");
        assert!(rt; written.as_str() == text.as_str(), "{list}");
        assert!(rt; are_legal(&rt, alloc, list, parts)?, "{list}");
    }
    Ok(())
}

/// A gate that notes which callers pass: a bit for each of the first hotel's numbers and of the second's, and how many
/// others came.
#[derive(Drop)]
struct Noted {
    first: AtomicU64,
    second: AtomicU64,
    others: AtomicU64,
}

impl Noted {
    /// Nobody has arrived.
    fn new() -> Noted {
        Noted {
            first: AtomicU64::new(0),
            second: AtomicU64::new(0),
            others: AtomicU64::new(0),
        }
    }
}

impl Gate for Noted {
    fn arrive(&self, _rt: &impl Wait, caller: u32, _nth: u64) {
        if caller < 64 {
            self.first.fetch_or(1 << caller, SeqCst);
        } else if caller < 128 {
            self.second.fetch_or(1 << (caller - 64), SeqCst);
        } else {
            self.others.store(1, SeqCst);
        }
    }
}

#[test]
fn a_caller_of_the_second_hotel_passes_the_gate_with_64_more(rt: HostRuntime) -> Result<(), Fail> {
    let alloc = rt.alloc();
    let gate = Noted::new();
    let (got, _) = run_list(&rt, alloc, "two-hotels", 2, 0, 0, &gate)?;
    assert!(rt; got == 0);
    // One session, whose number is 1, and two workers behind it.
    assert!(rt; gate.first.load(SeqCst) == 0b1110);
    assert!(rt; gate.second.load(SeqCst) == 0b1110);
    assert!(rt; gate.others.load(SeqCst) == 0);
    Ok(())
}

#[test]
fn no_desk_opens_before_all_files_are_read(rt: HostRuntime) -> Result<(), Fail> {
    let alloc = rt.alloc();
    for list in ["no-stays", "bad-bookings"] {
        let gate = Noted::new();
        let (got, _) = run_list(&rt, alloc, list, 2, 0, 0, &gate)?;
        assert!(rt; got == 3 || got == 4, "{list}");
        assert!(rt; gate.first.load(SeqCst) == 0, "{list}");
        assert!(rt; gate.second.load(SeqCst) == 0, "{list}");
        assert!(rt; gate.others.load(SeqCst) == 0, "{list}");
    }
    Ok(())
}

#[test]
fn eight_hotels_with_two_workers_each_leave_legal_journals(rt: HostRuntime) -> Result<(), Fail> {
    let alloc = rt.alloc();
    let (got, text) = run_list(&rt, alloc, "eight", 2, 0, 0, &NoGate)?;
    assert!(rt; got == 0);
    let mut rest = text.as_str();
    for hotel in 1..9 {
        let head = format!(in alloc; "hotel {hotel} 0\n")?;
        let Some(behind) = rest.strip_prefix(head.as_str()) else {
            return Err("another line than the hotel's".into());
        };
        let Some((lines, more)) = behind.split_once("\nend\n") else {
            return Err("a journal without its last line".into());
        };
        let mut journal = String::from_str(alloc, lines)?;
        journal.push_str("\nend\n")?;
        assert!(rt; is_legal(&rt, alloc, "H2 S F B", &journal)?, "{hotel}");
        rest = more;
    }
    assert!(rt; rest.is_empty());
    Ok(())
}
