//! The worked cases of a book, each with its replies worked out by hand.
use crate::desk::{Claimed, Desk, Row};
use crate::hotel::{
    AFTER_ONE, LIMITS, N0, N01, N1, N2, N12, OPENING, ROOMS, STAYS, WITHOUT_ONE_EACH, three_nights,
};
use crate::rows::{
    ALREADY_CANCELLED, CANCELLED, DONE, ENROL, LEAVE, NOT_BOOKED, accepted, behind, below_sold,
    book, cancel, group, group_no_room, no_room, reforecast, reprice, resize, superseded, too_low,
    vector,
};
use bp_core::Answer;
use bp_core::Answer::{Logged, PublicationsFull, Stale};
use bp_core::Reply::{GroupAccepted, GroupTooLow};
use bp_types::{Change, Limits, Stay};
use std::alloc::Global;
use std::process::Abort;
use std::test::Fail;

/// A rate that is just the price, a full night, and a Book that is behind.
const A_TIE: [Row; 4] = [
    (1, ENROL, DONE),
    (1, book!(0), accepted!(vector 0, sum 100)),
    (1, book!(1), no_room!(vector 0, sum 140, night 1)),
    (1, book!(3), behind!(position 0, changes 2)),
];

/// What follows after a new vector.
const NO_LONGER_BEHIND: [Row; 2] = [(1, book!(3), accepted!(vector 1, sum 40)), (1, LEAVE, DONE)];

#[test]
fn a_tie_is_accepted_and_a_booking_waits_for_a_vector(rt: HostRuntime) -> Result<(), Fail> {
    let alloc = rt.alloc();
    let mut desk = three_nights(
        alloc,
        Limits {
            stale_after: 2,
            ..LIMITS
        },
    )?;
    desk.run(&rt, &A_TIE);
    assert_eq!(rt; desk.book().length(), 4);
    let next = desk.publish(alloc, 1, (140, &[0, 0, 1, 2], &[60, 40, 40]), 2)?;
    assert_eq!(rt; next, Some(vector!(1)));
    desk.run(&rt, &NO_LONGER_BEHIND);
    let last = desk.publish(alloc, 0, (100, &[0, 0, 1, 1], &[60, 40, 40]), 1)?;
    assert_eq!(rt; last, Some(vector!(2)));
    assert_eq!(rt; desk.book().left(1), 1);
    Ok(())
}

/// A booking that is given up twice, and one that there is not.
const TWICE: [Row; 6] = [
    (1, ENROL, DONE),
    (1, book!(0), accepted!(vector 0, sum 100)),
    (1, cancel!(1), CANCELLED),
    (1, cancel!(1), ALREADY_CANCELLED),
    (1, cancel!(2), NOT_BOOKED),
    (1, LEAVE, DONE),
];

/// A booking before and after its stay has a lower rate.
const REPRICED: [Row; 5] = [
    (1, ENROL, DONE),
    (1, book!(0), accepted!(vector 0, sum 100)),
    (1, reprice!(0, rate 99), DONE),
    (1, book!(0), too_low!(vector 0, sum 100, rate 99)),
    (1, LEAVE, DONE),
];

/// Fewer rooms than are sold.
const BELOW: [Row; 3] = [
    (1, ENROL, DONE),
    (1, resize!(1, rooms 0), below_sold!(1)),
    (1, LEAVE, DONE),
];

/// No change stands after the opening.
const NOTHING_CHANGED: Answer = superseded!(position 0, changes 0);

/// Rooms sold at the opening and its vector, the calls, and what caller 0 is answered who publishes after them.
type Case = (
    &'static [u64],
    Claimed<'static>,
    &'static [Row],
    Claimed<'static>,
    Answer,
);

/// These calls, and the vector that follows each.
const CASES: [(&str, Case); 3] = [
    (
        "cancelled twice",
        (&[0, 0, 0], OPENING, &TWICE, OPENING, vector!(1)),
    ),
    (
        "a rate changed between two bookings",
        (&[0, 0, 0], OPENING, &REPRICED, AFTER_ONE, vector!(1)),
    ),
    (
        "fewer rooms than sold",
        (
            &[0, 1, 1],
            WITHOUT_ONE_EACH,
            &BELOW,
            WITHOUT_ONE_EACH,
            NOTHING_CHANGED,
        ),
    ),
];

/// One case on a desk of its own.
fn worked_case(rt: &impl Abort, alloc: Global, name: &str, case: &Case) -> Result<(), Fail> {
    let (sold, opening, rows, closing, want) = *case;
    let mut desk = Desk::open(alloc, &ROOMS, sold, &STAYS, LIMITS, opening)?;
    desk.run(rt, rows);
    let got = desk.publish(alloc, 0, closing, 1)?;
    assert_eq!(rt; got, Some(want), "{name}");
    assert_eq!(rt; desk.ask(1, ENROL), None, "{name}");
    assert_eq!(rt; desk.ask(1, LEAVE), None, "{name}");
    Ok(())
}

#[test]
fn worked_cases_up_to_their_last_vector(rt: HostRuntime) -> Result<(), Fail> {
    for (name, case) in &CASES {
        worked_case(&rt, rt.alloc(), name, case)?;
    }
    Ok(())
}

/// A group on a full night, for which no quote is needed.
const FULL_NIGHT: [Row; 2] = [
    (1, group!(N1, rooms 1, amount 0), group_no_room!(1)),
    (1, LEAVE, DONE),
];

/// The four stays in hundredths, with halves among their forecasts.
const HALVES: [Stay; 4] = [
    Stay {
        span: N01,
        rate: 100,
        forecast: 300,
    },
    Stay {
        span: N12,
        rate: 150,
        forecast: 50,
    },
    Stay {
        span: N0,
        rate: 60,
        forecast: 100,
    },
    Stay {
        span: N2,
        rate: 40,
        forecast: 500,
    },
];

/// The best that they bring with nothing sold.
const IN_HALVES: Claimed<'static> = (24_500, &[50, 50, 100, 150], &[0, 100, 40]);

/// The best with one room fewer on each of the last two nights.
const HALVES_WITHOUT: Claimed<'static> = (10_000, &[0, 0, 100, 100], &[0, 110, 40]);

/// The unit, the stays, the certificates with and without one room on nights 1 and 2, and what such a room displaces.
type Units = (
    u64,
    &'static [Stay],
    Claimed<'static>,
    Claimed<'static>,
    u64,
    u128,
);

/// In whole rooms, and in hundredths.
const UNITS: [Units; 2] = [
    (1, &STAYS, OPENING, WITHOUT_ONE_EACH, 150, 150),
    (100, &HALVES, IN_HALVES, HALVES_WITHOUT, 145, 14_500),
];

/// Three groups at a desk of its own: one that pays too little, one that ties, and one for which there is no room.
fn three_groups(rt: &impl Abort, alloc: Global, units: &Units) -> Result<(), Fail> {
    let (unit, stays, with, without, amount, displacement) = *units;
    let limits = Limits { unit, ..LIMITS };
    let mut desk = Desk::open(alloc, &ROOMS, &[0, 0, 0], stays, limits, with)?;
    desk.run(rt, &[(1, ENROL, DONE)]);
    let quote = desk.quote(alloc, N12, 1, with, without)?;
    let low = desk.group(1, N12, 1, amount.saturating_sub(1), quote);
    assert_eq!(rt; low, Some(Logged(GroupTooLow { displacement })), "{unit}");
    let quote = desk.quote(alloc, N12, 1, with, without)?;
    let tie = desk.group(1, N12, 1, amount, quote);
    assert_eq!(rt; tie, Some(Logged(GroupAccepted { displacement })), "{unit}");
    desk.run(rt, &FULL_NIGHT);
    let last = desk.publish(alloc, 0, without, 1)?;
    assert_eq!(rt; last, Some(vector!(1)), "{unit}");
    Ok(())
}

#[test]
fn three_groups_in_rooms_and_in_hundredths(rt: HostRuntime) -> Result<(), Fail> {
    for units in &UNITS {
        three_groups(&rt, rt.alloc(), units)?;
    }
    Ok(())
}

#[test]
fn a_quote_is_stale_after_one_booking(rt: HostRuntime) -> Result<(), Fail> {
    let alloc = rt.alloc();
    let mut desk = three_nights(alloc, LIMITS)?;
    let quote = desk.quote(alloc, N12, 1, OPENING, WITHOUT_ONE_EACH)?;
    desk.run(&rt, &[(0, book!(2), accepted!(vector 0, sum 0))]);
    assert_eq!(rt;
        desk.group(0, N12, 1, 150, quote),
        Some(Stale { changes: 1 })
    );
    assert_eq!(rt; desk.book().length(), 2);
    Ok(())
}

/// The calls up to position 4.
const TO_FOUR: [Row; 3] = [
    (1, ENROL, DONE),
    (1, book!(0), accepted!(vector 0, sum 100)),
    (1, cancel!(1), CANCELLED),
];

/// Those from there to position 9.
const TO_NINE: [Row; 5] = [
    (1, cancel!(1), ALREADY_CANCELLED),
    (1, cancel!(2), NOT_BOOKED),
    (1, book!(1), accepted!(vector 0, sum 140)),
    (1, cancel!(2), CANCELLED),
    (1, book!(3), accepted!(vector 0, sum 40)),
];

#[test]
fn an_older_board_is_superseded(rt: HostRuntime) -> Result<(), Fail> {
    let alloc = rt.alloc();
    let mut desk = three_nights(alloc, LIMITS)?;
    desk.run(&rt, &TO_FOUR);
    let older = desk.board(alloc, OPENING)?;
    desk.run(&rt, &TO_NINE);
    let newer = desk.publish(alloc, 1, (200, &[1, 0, 1, 1], &[0, 100, 40]), 5)?;
    assert_eq!(rt; newer, Some(vector!(1)));
    assert_eq!(rt;
        desk.post(1, older, 1),
        Some(superseded!(position 9, changes 0))
    );
    assert_eq!(rt; desk.book().vectors(), 2);
    Ok(())
}

/// A caller with one booking.
const BOOKED_ONCE: [Row; 2] = [
    (1, ENROL, DONE),
    (1, book!(0), accepted!(vector 0, sum 100)),
];

/// A change that leaves the forecast as it was.
const SAME_FORECAST: [Row; 1] = [(1, reforecast!(3, count 5), DONE)];

#[test]
fn publications_are_full_where_a_vector_would_be_newer(rt: HostRuntime) -> Result<(), Fail> {
    let alloc = rt.alloc();
    let mut desk = three_nights(
        alloc,
        Limits {
            publications: 2,
            ..LIMITS
        },
    )?;
    desk.run(&rt, &BOOKED_ONCE);
    let last = desk.publish(alloc, 1, AFTER_ONE, 1)?;
    assert_eq!(rt; last, Some(vector!(1)));
    let again = desk.publish(alloc, 1, AFTER_ONE, 1)?;
    assert_eq!(rt; again, Some(superseded!(position 3, changes 0)));
    desk.run(&rt, &SAME_FORECAST);
    let third = desk.publish(alloc, 1, AFTER_ONE, 1)?;
    assert_eq!(rt; third, Some(PublicationsFull));
    assert_eq!(rt; desk.book().vectors(), 2);
    Ok(())
}

#[test]
fn a_book_tells_of_itself(rt: HostRuntime) -> Result<(), Fail> {
    let alloc = rt.alloc();
    let mut desk = three_nights(alloc, LIMITS)?;
    desk.run(&rt, &TO_FOUR);
    desk.run(&rt, &TO_NINE);
    let book = desk.book();
    assert_eq!(rt; book.house().nights(), 3);
    assert_eq!(rt; book.last_board().position(), 0);
    assert_eq!(rt; book.changes_after(9), 0);
    assert_eq!(rt; book.changes_after(1_000_000), 0);
    let given_up = [
        (1, 1, true),
        (1, 2, true),
        (1, 3, false),
        (1, 4, false),
        (1, 0, false),
        (2, 1, false),
        (65, 1, false),
    ];
    for (caller, nth, is) in given_up {
        assert_eq!(rt; book.is_cancelled(caller, nth), is, "{caller} {nth}");
    }
    for place in [1, 2, 1_000_000] {
        assert!(rt; book.certificate(place).is_none(), "{place}");
    }
    match book.certificate(0) {
        Some(certificate) => assert_eq!(rt; certificate.value, 250),
        None => return Err(Fail::new("the opening has no certificate")),
    }
    Ok(())
}

#[test]
fn there_are_63_callers_and_each_enrols_once(rt: HostRuntime) -> Result<(), Fail> {
    let mut desk = three_nights(rt.alloc(), LIMITS)?;
    assert_eq!(rt; desk.ask(0, ENROL), None);
    for caller in 1..64 {
        assert_eq!(rt; desk.ask(caller, ENROL), Some(DONE), "{caller}");
    }
    for caller in 0..65 {
        assert_eq!(rt; desk.ask(caller, ENROL), None, "{caller}");
    }
    assert_eq!(rt; desk.book().length(), 64);
    Ok(())
}

#[test]
fn changes_are_told_by_whole_entries(rt: HostRuntime) -> Result<(), Fail> {
    let alloc = rt.alloc();
    let mut desk = three_nights(alloc, LIMITS)?;
    desk.run(&rt, &A_TIE[..3]);
    assert!(rt; desk.book().length() == 4);
    let sale = Change::Rooms {
        span: N01,
        up: false,
        units: 1,
    };
    let mut first = Vec::with_capacity(alloc, 2)?;
    assert_eq!(rt; desk.book().changes(0, &mut first), 3);
    let booked = [sale, Change::Demand { stay: 0, value: 2 }];
    assert!(rt; first.as_slice() == booked.as_slice());
    let mut rest = Vec::with_capacity(alloc, 2)?;
    assert_eq!(rt; desk.book().changes(3, &mut rest), 4);
    assert!(rt; rest.as_slice() == [Change::Demand { stay: 1, value: 0 }].as_slice());
    Ok(())
}
