//! Runs of a desk, whole and cut.
use crate::runs::run;
use bp_core::{Act, Book, Reply};
use bp_desk_run::Ran;
use bp_types::Limits;
use std::test::Fail;

/// Limits in whole rooms.
fn limits(stale_after: u64, entries: u64, publications: u64) -> Limits {
    Limits {
        stale_after,
        entries,
        publications,
        unit: 1,
    }
}

/// Whether the entry at a place is this caller's, with this reply.
fn is_at(book: &Book, place: u64, caller: u32, reply: Reply) -> bool {
    match book.entry(place) {
        Some(entry) => entry.caller == caller && entry.reply == reply,
        None => false,
    }
}

/// Whether the entry at the place of a caller's number is its Enrol.
fn enrols(book: &Book, caller: u32) -> bool {
    match book.entry(caller as u64) {
        Some(entry) => entry.caller == caller && entry.act == Act::Enrol,
        None => false,
    }
}

/// A session that is behind publishes for itself, and the opener once more at the end.
#[test]
fn the_three_call_run(rt: HostRuntime) -> Result<(), Fail> {
    let Ran { book, whole } = run(&rt, rt.alloc(), limits(2, 100, 10), &[&[0, 1, 3]], 0)?;
    assert!(rt; whole && book.length() == 8 && book.vectors() == 3);
    assert!(rt; is_at(&book, 0, 0, Reply::Vector { number: 0 }));
    assert!(rt; is_at(&book, 1, 1, Reply::Done));
    assert!(rt;
        is_at(
            &book,
            2,
            1,
            Reply::Accepted {
                vector: 0,
                sum: 100
            }
        )
    );
    assert!(rt;
        is_at(
            &book,
            3,
            1,
            Reply::NoRoom {
                vector: 0,
                sum: 140,
                night: 1
            }
        )
    );
    assert!(rt; is_at(&book, 4, 1, Reply::Vector { number: 1 }));
    assert!(rt; is_at(&book, 5, 1, Reply::Accepted { vector: 1, sum: 40 }));
    assert!(rt; is_at(&book, 6, 1, Reply::Done));
    assert!(rt; is_at(&book, 7, 0, Reply::Vector { number: 2 }));
    Ok(())
}

/// Two entries alone: the third booking is not made, and the last vector is for what there is.
#[test]
fn the_history_is_full(rt: HostRuntime) -> Result<(), Fail> {
    let Ran { book, whole } = run(&rt, rt.alloc(), limits(10, 2, 10), &[&[0, 1, 3]], 0)?;
    assert!(rt; !whole && book.length() == 6 && book.vectors() == 2);
    assert!(rt; is_at(&book, 4, 1, Reply::Done));
    assert!(rt; is_at(&book, 5, 0, Reply::Vector { number: 1 }));
    Ok(())
}

/// One vector alone: the third booking waits for another, which nobody may publish.
#[test]
fn no_vector_left(rt: HostRuntime) -> Result<(), Fail> {
    let Ran { book, whole } = run(&rt, rt.alloc(), limits(2, 100, 1), &[&[0, 1, 3]], 0)?;
    assert!(rt; !whole && book.length() == 5 && book.vectors() == 1);
    assert!(rt; is_at(&book, 4, 1, Reply::Done));
    Ok(())
}

#[test]
fn an_empty_script(rt: HostRuntime) -> Result<(), Fail> {
    let Ran { book, whole } = run(&rt, rt.alloc(), limits(2, 100, 10), &[], 0)?;
    assert!(rt; whole && book.length() == 1 && book.vectors() == 1);
    Ok(())
}

/// Four threads: all commands are there, and the callers enrol in the order of their numbers.
#[test]
fn two_sessions_beside_two_workers(rt: HostRuntime) -> Result<(), Fail> {
    let sessions: [&[u32]; 2] = [&[3, 2, 3, 0, 1, 3], &[0, 3, 3, 2, 1, 0]];
    let Ran { book, whole } = run(&rt, rt.alloc(), limits(2, 100, 50), &sessions, 2)?;
    assert!(rt; whole && book.commands() == 12);
    assert!(rt; enrols(&book, 1) && enrols(&book, 2) && enrols(&book, 3) && enrols(&book, 4));
    Ok(())
}
