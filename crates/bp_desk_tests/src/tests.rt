//! The worked cases on a shared desk.
ghost use Rattle.std.specs.Prelude.{◌≡◌};
ghost use Rattle.bp_desk_tests.specs.Passing.{IsPassOf};

use crate::calling::{Offer, Row, end, next, offer_all, price, refresh, run, submit};
use crate::hotel::{Hotel, open};
use crate::quoting::{group, quote};
use bp_cert::Verdict;
use bp_core::Answer::{Behind, Logged, Unquoted};
use bp_core::Reply::{
    Accepted, AlreadyCancelled, BelowSold, Cancelled, Done, GroupNoRoom, NoRoom, NotBooked, TooLow,
};
use bp_desk::{Desk, EnrolError, GroupReply, GroupStop, Lag, Pass, Quote, SubmitError};
use bp_fixtures::{AFTER_ONE, LIMITS, N12, OPENING, THREE_NIGHTS, WITHOUT_ONE_EACH};
use bp_types::Command::{Book, Cancel, Group, Reforecast, Reprice, Resize};
use bp_types::{Command, Limits, Span};
use std::alloc::Global;
use std::process::Abort;
use std::sync::Wait;
use std::test::Fail;

/// The last vector is for position 9, and no change stands after it.
const SUPERSEDED_AT_NINE: SubmitError = SubmitError::Superseded {
    position: 9,
    changes: 0,
};

/// Enrols all callers, and wants their numbers in order.
fn enrol_all<R: Wait + Abort>(
    rt: &R,
    alloc: Global,
    desk: &Desk,
    hotel: &Hotel,
    opener: &mut Pass,
) -> Result<(), Fail>
    requires { IsPassOf desk.now hotel.now.house hotel.now.start opener.old × (opener.old.caller ≡ 0) }
    ensures { IsPassOf desk.now hotel.now.house hotel.now.start opener.new × (opener.new.caller ≡ 0) }
{
    for caller in 1..64u32 {
        let pass = next(rt, alloc, desk, hotel, opener)?;
        assert_eq!(rt; pass.caller(), caller);
    }
    Ok(())
}

#[test]
fn no_caller_left(rt: HostRuntime) -> Result<(), Fail> {
    let alloc = rt.alloc();
    let (hotel, desk, mut opener) = open(alloc, THREE_NIGHTS, LIMITS)?;
    enrol_all(&rt, alloc, &desk, &hotel, &mut opener)?;
    let none = desk.enrol(&rt, alloc, &mut opener);
    assert!(rt; matches!(none, Err(EnrolError::CallersFull)));
    Ok(())
}

/// Eight changes, up to position 9.
const EIGHT_FORECASTS: [Row; 8] = [(Reforecast { stay: 3, count: 5 }, Logged(Done)); 8];

/// A board for position 9, and one for an older position after it.
const OLDER: [Offer<'static>; 2] = [(9, OPENING, Ok(1)), (4, OPENING, Err(SUPERSEDED_AT_NINE))];

#[test]
fn an_older_board(rt: HostRuntime) -> Result<(), Fail> {
    let alloc = rt.alloc();
    let (hotel, desk, mut opener) = open(alloc, THREE_NIGHTS, LIMITS)?;
    run(&rt, &desk, &hotel, &mut opener, &EIGHT_FORECASTS);
    offer_all(&rt, alloc, &desk, &hotel, &mut opener, &OLDER)?;
    Ok(())
}

/// Certificates for a position to come, for one without a change, with prices that are too great, and twice with right
/// ones.
const OFFERS: [Offer<'static>; 5] = [
    (4, OPENING, Err(SubmitError::Position { length: 3 })),
    (
        1,
        OPENING,
        Err(SubmitError::Superseded {
            position: 0,
            changes: 0,
        }),
    ),
    (
        3,
        (140, &[0, 0, 1, 2], &[60, 40, 40]),
        Err(SubmitError::NotOptimal {
            verdict: Verdict::Gap {
                worth: 140,
                bound: 210,
            },
        }),
    ),
    (3, AFTER_ONE, Ok(1)),
    (
        3,
        AFTER_ONE,
        Err(SubmitError::Superseded {
            position: 3,
            changes: 0,
        }),
    ),
];

/// The one booking before them.
const FIRST_BOOKING: [Row; 1] = [(
    Book { stay: 0 },
    Logged(Accepted {
        vector: 0,
        sum: 100,
    }),
)];

#[test]
fn submitted_certificates(rt: HostRuntime) -> Result<(), Fail> {
    let alloc = rt.alloc();
    let (hotel, desk, mut opener) = open(alloc, THREE_NIGHTS, LIMITS)?;
    let mut pass = next(&rt, alloc, &desk, &hotel, &mut opener)?;
    run(&rt, &desk, &hotel, &mut pass, &FIRST_BOOKING);
    offer_all(&rt, alloc, &desk, &hotel, &mut pass, &OFFERS)?;
    Ok(())
}

#[test]
fn a_certificate_when_all_vectors_are_published(rt: HostRuntime) -> Result<(), Fail> {
    let alloc = rt.alloc();
    let limits = Limits {
        publications: 1,
        ..LIMITS
    };
    let (hotel, desk, mut opener) = open(alloc, THREE_NIGHTS, limits)?;
    let mut pass = next(&rt, alloc, &desk, &hotel, &mut opener)?;
    run(&rt, &desk, &hotel, &mut pass, &FIRST_BOOKING);
    let got = submit(&rt, alloc, &desk, &hotel, &mut pass, 3, AFTER_ONE)?;
    assert_eq!(rt; got, Err(SubmitError::PublicationsFull));
    Ok(())
}

/// The second night alone.
const ON_NIGHT_1: Span = Span { from: 1, to: 2 };

/// Each kind of command, with its replies.
const CALLS: [Row; 14] = [
    (
        Book { stay: 0 },
        Logged(Accepted {
            vector: 0,
            sum: 100,
        }),
    ),
    (
        Book { stay: 1 },
        Logged(NoRoom {
            vector: 0,
            sum: 140,
            night: 1,
        }),
    ),
    (Cancel { nth: 2 }, Logged(NotBooked)),
    (Cancel { nth: 3 }, Logged(NotBooked)),
    (Reprice { stay: 0, rate: 99 }, Logged(Done)),
    (
        Book { stay: 0 },
        Logged(TooLow {
            vector: 0,
            sum: 100,
            rate: 99,
        }),
    ),
    (Resize { night: 1, rooms: 0 }, Logged(BelowSold { sold: 1 })),
    (
        Group {
            span: ON_NIGHT_1,
            rooms: 1,
            amount: 0,
        },
        Logged(GroupNoRoom { night: 1 }),
    ),
    (Cancel { nth: 1 }, Logged(Cancelled)),
    (Cancel { nth: 1 }, Logged(AlreadyCancelled)),
    (
        Group {
            span: N12,
            rooms: 1,
            amount: 150,
        },
        Unquoted,
    ),
    (Reforecast { stay: 1, count: 2 }, Logged(Done)),
    (Resize { night: 1, rooms: 2 }, Logged(Done)),
    (
        Book { stay: 3 },
        Behind {
            position: 0,
            changes: 7,
        },
    ),
];

#[test]
fn a_table_of_calls_on_one_pass(rt: HostRuntime) -> Result<(), Fail> {
    let alloc = rt.alloc();
    let limits = Limits {
        stale_after: 7,
        ..LIMITS
    };
    let (hotel, desk, mut opener) = open(alloc, THREE_NIGHTS, limits)?;
    let mut pass = next(&rt, alloc, &desk, &hotel, &mut opener)?;
    run(&rt, &desk, &hotel, &mut pass, &CALLS);
    end(&rt, &desk, &hotel, &mut opener, pass)?;
    let book = desk.close(&rt, opener);
    assert_eq!(rt; book.length(), 15);
    Ok(())
}

/// The group that is asked for.
const ASKED: Command = Group {
    span: N12,
    rooms: 1,
    amount: 150,
};

/// Without a quote, and the change after which one is stale.
const BEFORE_STALE: [Row; 2] = [
    (ASKED, Unquoted),
    (Book { stay: 3 }, Logged(Accepted { vector: 0, sum: 40 })),
];

/// The calls after it.
const AFTER_STALE: [Row; 2] = [
    (
        Book { stay: 0 },
        Logged(Accepted {
            vector: 0,
            sum: 100,
        }),
    ),
    (
        Book { stay: 2 },
        Behind {
            position: 0,
            changes: 2,
        },
    ),
];

/// Asks for a group without a quote, and with one that was right before a booking.
fn unquoted_and_stale<R: Wait + Abort>(
    rt: &R,
    alloc: Global,
    desk: &Desk,
    hotel: &Hotel,
    pass: &mut Pass,
) -> Result<(), Fail>
    requires { IsPassOf desk.now hotel.now.house hotel.now.start pass.old }
    ensures { IsPassOf desk.now hotel.now.house hotel.now.start pass.new }
{
    let quoted = quote(alloc, hotel, N12, 1, OPENING, WITHOUT_ONE_EACH)?;
    run(rt, desk, hotel, pass, &BEFORE_STALE);
    let stale = group(rt, desk, hotel, pass, N12, 1, 150, quoted);
    assert_eq!(rt; stale, Some(Err(GroupStop::Stale { changes: 1 })));
    Ok(())
}

/// A booking that is the second change, one that comes after it, and how far the desk is behind then.
#[tactic(auto, using(crate::proofs::Keeping::by_read))]
fn behind<R: Wait + Abort>(rt: &R, desk: &Desk, hotel: &Hotel, pass: &mut Pass)
    requires { IsPassOf desk.now hotel.now.house hotel.now.start pass.old }
{
    run(rt, desk, hotel, pass, &AFTER_STALE);
    let lag = Lag {
        length: 4,
        position: 0,
        changes: 2,
    };
    assert_eq!(rt; desk.lag(rt, pass), lag);
}

#[test]
fn behind_unquoted_stale(rt: HostRuntime) -> Result<(), Fail> {
    let alloc = rt.alloc();
    let limits = Limits {
        stale_after: 2,
        ..LIMITS
    };
    let (hotel, desk, mut opener) = open(alloc, THREE_NIGHTS, limits)?;
    let mut pass = next(&rt, alloc, &desk, &hotel, &mut opener)?;
    unquoted_and_stale(&rt, alloc, &desk, &hotel, &mut pass)?;
    behind(&rt, &desk, &hotel, &mut pass);
    Ok(())
}

#[test]
fn a_group_with_a_quote(rt: HostRuntime) -> Result<(), Fail> {
    let alloc = rt.alloc();
    let (hotel, desk, mut opener) = open(alloc, THREE_NIGHTS, LIMITS)?;
    let quoted = quote(alloc, &hotel, N12, 1, OPENING, WITHOUT_ONE_EACH)?;
    let too_low = Some(Ok(GroupReply::TooLow { displacement: 150 }));
    let accepted = Some(Ok(GroupReply::Accepted { displacement: 150 }));
    let low = group(&rt, &desk, &hotel, &mut opener, N12, 1, 149, quoted);
    assert_eq!(rt; low, too_low);
    let enough = group(&rt, &desk, &hotel, &mut opener, N12, 1, 150, quoted);
    assert_eq!(rt; enough, accepted);
    Ok(())
}

#[test]
fn a_look_that_rises(rt: HostRuntime) -> Result<(), Fail> {
    let alloc = rt.alloc();
    let (hotel, desk, mut opener) = open(alloc, THREE_NIGHTS, LIMITS)?;
    let mut one = next(&rt, alloc, &desk, &hotel, &mut opener)?;
    assert_eq!(rt; desk.peek(&mut opener), 2);
    run(&rt, &desk, &hotel, &mut one, &FIRST_BOOKING);
    assert_eq!(rt; desk.peek(&mut opener), 3);
    assert!(rt; desk.meet(alloc, &mut opener, &mut one).is_ok());
    Ok(())
}

/// A booking, and the vector for what is left.
fn second_vector<R: Wait + Abort>(
    rt: &R,
    alloc: Global,
    desk: &Desk,
    hotel: &Hotel,
    pass: &mut Pass,
) -> Result<(), Fail>
    requires { IsPassOf desk.now hotel.now.house hotel.now.start pass.old }
    ensures { IsPassOf desk.now hotel.now.house hotel.now.start pass.new }
{
    run(rt, desk, hotel, pass, &FIRST_BOOKING);
    offer_all(rt, alloc, desk, hotel, pass, &[(3, AFTER_ONE, Ok(1))])
}

#[test]
fn a_pass_quotes_what_it_has_seen(rt: HostRuntime) -> Result<(), Fail> {
    let alloc = rt.alloc();
    let (hotel, desk, mut opener) = open(alloc, THREE_NIGHTS, LIMITS)?;
    let mut one = next(&rt, alloc, &desk, &hotel, &mut opener)?;
    second_vector(&rt, alloc, &desk, &hotel, &mut one)?;
    let first = Quote {
        number: 0,
        position: 0,
        sum: 140,
    };
    let second = Quote {
        number: 1,
        position: 3,
        sum: 160,
    };
    assert_eq!(rt; price(&hotel, &opener, N12), Some(first));
    assert_eq!(rt; price(&hotel, &one, N12), Some(second));
    refresh(&rt, &desk, &hotel, &mut opener);
    assert_eq!(rt; price(&hotel, &opener, N12), Some(second));
    Ok(())
}
