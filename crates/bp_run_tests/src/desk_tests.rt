//! Lines of `desk`, alone and held by gates.
use crate::desk_lines::{HELD_IN_TURNS, LAST_ROOM, ONE_ROUND_BETWEEN, alone, beside_two_workers};
use crate::desks::{acts_of, desk, is_legal};
use crate::gates::{Arrivals, InTurns, OneRoundBetween};
use crate::month;
use bp_edges::NoGate;
use std::test::Fail;

#[test]
fn each_desk_writes_its_journal_and_the_journal_is_legal(rt: HostRuntime) -> Result<(), Fail> {
    let alloc = rt.alloc();
    for (hotel, script, status, journal) in alone() {
        let (got, text) = desk(&rt, alloc, hotel, script, 0, &NoGate)?;
        assert_eq!(rt; got, *status, "{hotel} {script}");
        assert_eq!(rt; text.as_str(), *journal, "{hotel} {script}");
        assert!(rt; is_legal(&rt, alloc, hotel, &text)?, "{hotel} {script}");
    }
    Ok(())
}

#[test]
fn full_with_two_workers(rt: HostRuntime) -> Result<(), Fail> {
    let alloc = rt.alloc();
    for (hotel, status, front, end) in beside_two_workers() {
        let (got, text) = desk(&rt, alloc, hotel, "three-calls", 2, &NoGate)?;
        assert_eq!(rt; got, *status, "{hotel}");
        let leaves = match text.strip_prefix(*front) {
            Some(rest) => rest.strip_suffix(*end),
            None => None,
        };
        assert!(rt;
            matches!(
                leaves,
                Some("7 2 leave done\n8 3 leave done\n" | "7 3 leave done\n8 2 leave done\n")
            ),
            "{text}"
        );
        assert!(rt; is_legal(&rt, alloc, hotel, &text)?, "{hotel}");
    }
    Ok(())
}

/// What the one guest is told who gets the last room.
const ACCEPTED: &str = "enrol done\nbook 0 accepted 0 50\nleave done\n";

/// What the other one is told.
const REFUSED: &str = "enrol done\nbook 0 noroom 0 50 0\nleave done\n";

#[test]
fn the_last_room(rt: HostRuntime) -> Result<(), Fail> {
    let alloc = rt.alloc();
    let hotel = "room stay two-guests B";
    let (status, text) = desk(&rt, alloc, hotel, "two-guests-ask", 0, &NoGate)?;
    assert_eq!(rt; status, 0);
    let (front, end) = LAST_ROOM;
    assert!(rt; text.starts_with(front) && text.ends_with(end), "{text}");
    let first = acts_of(alloc, &text, "1")?;
    let second = acts_of(alloc, &text, "2")?;
    assert!(rt;
        matches!(
            (first.as_str(), second.as_str()),
            (ACCEPTED, REFUSED) | (REFUSED, ACCEPTED)
        ),
        "{text}"
    );
    assert!(rt; is_legal(&rt, alloc, hotel, &text)?);
    Ok(())
}

/// A worker makes a round between two calls of a session, so the actors run beside one another.
#[test]
fn an_optimiser_beside_a_session(rt: HostRuntime) -> Result<(), Fail> {
    let alloc = rt.alloc();
    let hotel = "ten-vectors S F B";
    let gate = OneRoundBetween {
        arrivals: Arrivals::new(),
    };
    let (status, text) = desk(&rt, alloc, hotel, "two-calls", 1, &gate)?;
    assert!(rt; !gate.arrivals.was_in_vain());
    assert_eq!(rt; status, 0);
    assert!(rt; text.starts_with(ONE_ROUND_BETWEEN), "{text}");
    assert!(rt; is_legal(&rt, alloc, hotel, &text)?);
    Ok(())
}

#[test]
fn a_schedule_held_by_the_gate(rt: HostRuntime) -> Result<(), Fail> {
    let alloc = rt.alloc();
    let hotel = "room stay three-guests B";
    let gate = InTurns {
        arrivals: Arrivals::new(),
    };
    let (status, text) = desk(&rt, alloc, hotel, "in-turns", 0, &gate)?;
    assert!(rt; !gate.arrivals.was_in_vain());
    assert_eq!(rt; status, 0);
    let (front, end) = HELD_IN_TURNS;
    assert!(rt; text.starts_with(front) && text.ends_with(end), "{text}");
    let first = acts_of(alloc, &text, "1")?;
    assert_eq!(rt;
        first.as_str(),
        "enrol done\nbook 0 accepted 0 50\ncancel 1 cancelled\ncancel 2 notbooked\nleave done\n"
    );
    let second = acts_of(alloc, &text, "2")?;
    assert_eq!(rt;
        second.as_str(),
        "enrol done\nbook 0 noroom 0 50 0\nbook 0 accepted 0 50\ncancel 1 notbooked\nleave done\n"
    );
    assert!(rt; is_legal(&rt, alloc, hotel, &text)?);
    Ok(())
}

#[test]
fn a_realistic_month(rt: HostRuntime) -> Result<(), Fail> {
    let alloc = rt.alloc();
    let (status, text) = month::desk(&rt, alloc)?;
    assert_eq!(rt; status, 0);
    assert!(rt; month::is_legal(&rt, alloc, &text)?);
    Ok(())
}
