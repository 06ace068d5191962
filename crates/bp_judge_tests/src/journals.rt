//! The journals, each with what a judge says of it.
use bp_core::Act::{Do, Enrol, Leave, Publish};
use bp_core::Reply::{
    Accepted, BelowSold, Done, GroupAccepted, GroupNoRoom, GroupTooLow, NoRoom, NotBooked, TooLow,
    Vector,
};
use bp_core::{Act, Reply};
use bp_judge::Cause;
use bp_types::Command::{Book, Cancel, Group, Reforecast, Reprice, Resize};
use bp_types::{Limits, Span};

/// Value, sell numbers and prices of a certificate.
pub(crate) type Claimed = (u128, [u64; 4], [u64; 3]);

/// Caller, act, reply and certificate of a line.
pub(crate) type Row = (u32, Act, Reply, Option<Claimed>);

/// Sold rooms, forecasts and limits of a house.
pub(crate) type Setting = ([u64; 3], [u64; 4], Limits);

/// A house, the lines, and the first place with a cause, if there is one.
pub(crate) type Case = (Setting, &'static [Row], Option<(u64, Cause)>);

/// Two changes before prices are stale, three commands and three vectors.
pub(crate) const TIGHT: Setting = (
    [0, 0, 0],
    [3, 1, 1, 5],
    Limits {
        stale_after: 2,
        entries: 3,
        publications: 3,
        unit: 1,
    },
);

/// The same with a room sold on each of the last two nights.
const SOLD: Setting = (
    [0, 1, 1],
    [3, 1, 1, 5],
    Limits {
        stale_after: 2,
        entries: 3,
        publications: 3,
        unit: 1,
    },
);

/// Room for many commands, and two vectors.
pub(crate) const WIDE: Setting = (
    [0, 0, 0],
    [3, 1, 1, 5],
    Limits {
        stale_after: 10,
        entries: 100,
        publications: 2,
        unit: 1,
    },
);

/// The same in hundredths, with halves among the forecasts.
const HALVES: Setting = (
    [0, 0, 0],
    [300, 50, 100, 500],
    Limits {
        stale_after: 10,
        entries: 100,
        publications: 2,
        unit: 100,
    },
);

/// The opener's vector.
const OPENS: Row = (
    0,
    Publish { position: 0 },
    Vector { number: 0 },
    Some((250, [0, 1, 1, 1], [0, 100, 40])),
);

/// Caller 1 enrols.
const ENROLS: Row = (1, Enrol, Done, None);

/// Caller 1 leaves.
const LEAVES: Row = (1, Leave, Done, None);

/// A caller leaves that never enrolled.
const STRANGER_LEAVES: Row = (2, Leave, Done, None);

/// Caller 1 books the first stay.
const BOOKS_0: Row = (
    1,
    Do(Book { stay: 0 }),
    Accepted {
        vector: 0,
        sum: 100,
    },
    None,
);

/// Caller 1 books a stay that the house does not have.
const BOOKS_9: Row = (
    1,
    Do(Book { stay: 9 }),
    Accepted {
        vector: 0,
        sum: 100,
    },
    None,
);

/// The opener's vector where the house counts in hundredths.
const OPENS_HALVES: Row = (
    0,
    Publish { position: 0 },
    Vector { number: 0 },
    Some((24500, [50, 50, 100, 150], [0, 100, 40])),
);

/// The opener's vector where rooms are sold already.
const OPENS_SOLD: Row = (
    0,
    Publish { position: 0 },
    Vector { number: 0 },
    Some((100, [0, 0, 1, 1], [0, 110, 40])),
);

/// The journals. A comment above each says what is in it.
pub(crate) const CASES: [Case; 29] = [
    // Two bookings and a full night, three vectors.
    (
        TIGHT,
        &[
            OPENS,
            ENROLS,
            BOOKS_0,
            (
                1,
                Do(Book { stay: 1 }),
                NoRoom {
                    vector: 0,
                    sum: 140,
                    night: 1,
                },
                None,
            ),
            (
                0,
                Publish { position: 4 },
                Vector { number: 1 },
                Some((140, [0, 0, 1, 2], [60, 40, 40])),
            ),
            (
                1,
                Do(Book { stay: 3 }),
                Accepted { vector: 1, sum: 40 },
                None,
            ),
            LEAVES,
            (
                0,
                Publish { position: 7 },
                Vector { number: 2 },
                Some((100, [0, 0, 1, 1], [60, 40, 40])),
            ),
        ],
        None,
    ),
    // The value of vector 1 is one too great.
    (
        TIGHT,
        &[
            OPENS,
            ENROLS,
            BOOKS_0,
            (
                1,
                Do(Book { stay: 1 }),
                NoRoom {
                    vector: 0,
                    sum: 140,
                    night: 1,
                },
                None,
            ),
            (
                0,
                Publish { position: 4 },
                Vector { number: 1 },
                Some((141, [0, 0, 1, 2], [60, 40, 40])),
            ),
            (
                1,
                Do(Book { stay: 3 }),
                Accepted { vector: 1, sum: 40 },
                None,
            ),
            LEAVES,
            (
                0,
                Publish { position: 7 },
                Vector { number: 2 },
                Some((100, [0, 0, 1, 1], [60, 40, 40])),
            ),
        ],
        Some((4, Cause::Certificate)),
    ),
    // The reply of a booking that found a full night is that of one that found a room.
    (
        TIGHT,
        &[
            OPENS,
            ENROLS,
            BOOKS_0,
            (
                1,
                Do(Book { stay: 1 }),
                Accepted {
                    vector: 0,
                    sum: 140,
                },
                None,
            ),
            (
                0,
                Publish { position: 4 },
                Vector { number: 1 },
                Some((140, [0, 0, 1, 2], [60, 40, 40])),
            ),
            (
                1,
                Do(Book { stay: 3 }),
                Accepted { vector: 1, sum: 40 },
                None,
            ),
            LEAVES,
            (
                0,
                Publish { position: 7 },
                Vector { number: 2 },
                Some((100, [0, 0, 1, 1], [60, 40, 40])),
            ),
        ],
        Some((3, Cause::Reply)),
    ),
    // No line at all.
    (TIGHT, &[], Some((0, Cause::Opening))),
    // One booking.
    (TIGHT, &[OPENS, ENROLS, BOOKS_0, LEAVES], None),
    // The opening vector's value is one too great; a caller leaves that was never there.
    (
        TIGHT,
        &[
            (
                0,
                Publish { position: 0 },
                Vector { number: 0 },
                Some((251, [0, 1, 1, 1], [0, 100, 40])),
            ),
            ENROLS,
            STRANGER_LEAVES,
        ],
        Some((0, Cause::Certificate)),
    ),
    // A stay that the house has not; a later line has an earlier cause.
    (
        TIGHT,
        &[OPENS, ENROLS, BOOKS_9, STRANGER_LEAVES],
        Some((2, Cause::Range)),
    ),
    // Another sum; a later line has an earlier cause.
    (
        TIGHT,
        &[
            OPENS,
            ENROLS,
            (
                1,
                Do(Book { stay: 0 }),
                Accepted { vector: 0, sum: 99 },
                None,
            ),
            STRANGER_LEAVES,
        ],
        Some((2, Cause::Reply)),
    ),
    // A caller leaves that was never there.
    (
        TIGHT,
        &[OPENS, ENROLS, BOOKS_0, STRANGER_LEAVES],
        Some((3, Cause::Caller)),
    ),
    // A night gets fewer rooms.
    (
        TIGHT,
        &[
            OPENS,
            ENROLS,
            (1, Do(Resize { night: 0, rooms: 1 }), Done, None),
            LEAVES,
        ],
        None,
    ),
    // A night with a sold room keeps its rooms.
    (
        SOLD,
        &[
            OPENS_SOLD,
            ENROLS,
            (
                1,
                Do(Resize { night: 1, rooms: 0 }),
                BelowSold { sold: 1 },
                None,
            ),
            LEAVES,
        ],
        None,
    ),
    // It gets more.
    (
        SOLD,
        &[
            OPENS_SOLD,
            ENROLS,
            (1, Do(Resize { night: 1, rooms: 2 }), Done, None),
            LEAVES,
        ],
        None,
    ),
    // Another forecast.
    (
        SOLD,
        &[
            OPENS_SOLD,
            ENROLS,
            (1, Do(Reforecast { stay: 1, count: 7 }), Done, None),
            LEAVES,
        ],
        None,
    ),
    // It could have had more.
    (
        SOLD,
        &[
            OPENS_SOLD,
            ENROLS,
            (
                1,
                Do(Resize { night: 1, rooms: 2 }),
                BelowSold { sold: 1 },
                None,
            ),
            LEAVES,
        ],
        Some((2, Cause::Reply)),
    ),
    // Forecasts of halves.
    (
        HALVES,
        &[
            OPENS_HALVES,
            ENROLS,
            (
                1,
                Do(Book { stay: 1 }),
                Accepted {
                    vector: 0,
                    sum: 140,
                },
                None,
            ),
            LEAVES,
            (
                0,
                Publish { position: 4 },
                Vector { number: 1 },
                Some((10000, [0, 0, 100, 100], [0, 100, 40])),
            ),
        ],
        None,
    ),
    // Groups in hundredths.
    (
        HALVES,
        &[
            OPENS_HALVES,
            ENROLS,
            (
                1,
                Do(Group {
                    span: Span { from: 1, to: 3 },
                    rooms: 1,
                    amount: 144,
                }),
                GroupTooLow {
                    displacement: 14500,
                },
                None,
            ),
            (
                1,
                Do(Group {
                    span: Span { from: 1, to: 3 },
                    rooms: 1,
                    amount: 145,
                }),
                GroupAccepted {
                    displacement: 14500,
                },
                None,
            ),
            (
                1,
                Do(Group {
                    span: Span { from: 1, to: 2 },
                    rooms: 1,
                    amount: 0,
                }),
                GroupNoRoom { night: 1 },
                None,
            ),
            LEAVES,
        ],
        None,
    ),
    // The same in whole rooms.
    (
        WIDE,
        &[
            OPENS,
            ENROLS,
            (
                1,
                Do(Group {
                    span: Span { from: 1, to: 3 },
                    rooms: 1,
                    amount: 149,
                }),
                GroupTooLow { displacement: 150 },
                None,
            ),
            (
                1,
                Do(Group {
                    span: Span { from: 1, to: 3 },
                    rooms: 1,
                    amount: 150,
                }),
                GroupAccepted { displacement: 150 },
                None,
            ),
            (
                1,
                Do(Group {
                    span: Span { from: 1, to: 2 },
                    rooms: 1,
                    amount: 0,
                }),
                GroupNoRoom { night: 1 },
                None,
            ),
            LEAVES,
        ],
        None,
    ),
    // A group's displacement without the unit.
    (
        HALVES,
        &[
            OPENS_HALVES,
            ENROLS,
            (
                1,
                Do(Group {
                    span: Span { from: 1, to: 3 },
                    rooms: 1,
                    amount: 145,
                }),
                GroupAccepted { displacement: 145 },
                None,
            ),
        ],
        Some((2, Cause::Reply)),
    ),
    // A rate is changed between two bookings.
    (
        WIDE,
        &[
            OPENS,
            ENROLS,
            BOOKS_0,
            (1, Do(Reprice { stay: 0, rate: 99 }), Done, None),
            (
                1,
                Do(Book { stay: 0 }),
                TooLow {
                    vector: 0,
                    sum: 100,
                    rate: 99,
                },
                None,
            ),
            LEAVES,
            (
                0,
                Publish { position: 6 },
                Vector { number: 1 },
                Some((140, [0, 0, 1, 2], [0, 110, 40])),
            ),
        ],
        None,
    ),
    // Groups after a change that moves few units, and after one that moves a million.
    (
        WIDE,
        &[
            OPENS,
            ENROLS,
            (
                1,
                Do(Group {
                    span: Span { from: 2, to: 3 },
                    rooms: 1,
                    amount: 39,
                }),
                GroupTooLow { displacement: 40 },
                None,
            ),
            BOOKS_0,
            (
                1,
                Do(Group {
                    span: Span { from: 2, to: 3 },
                    rooms: 1,
                    amount: 39,
                }),
                GroupTooLow { displacement: 40 },
                None,
            ),
            (
                1,
                Do(Reforecast {
                    stay: 3,
                    count: 1000000,
                }),
                Done,
                None,
            ),
            (
                1,
                Do(Group {
                    span: Span { from: 2, to: 3 },
                    rooms: 1,
                    amount: 40,
                }),
                GroupAccepted { displacement: 40 },
                None,
            ),
            LEAVES,
        ],
        None,
    ),
    // A booking took the room of a group.
    (
        WIDE,
        &[
            OPENS,
            ENROLS,
            (
                1,
                Do(Group {
                    span: Span { from: 2, to: 3 },
                    rooms: 1,
                    amount: 39,
                }),
                GroupTooLow { displacement: 40 },
                None,
            ),
            BOOKS_0,
            (
                1,
                Do(Group {
                    span: Span { from: 1, to: 2 },
                    rooms: 1,
                    amount: 99,
                }),
                GroupTooLow { displacement: 100 },
                None,
            ),
            (
                1,
                Do(Reforecast {
                    stay: 3,
                    count: 1000000,
                }),
                Done,
                None,
            ),
            (
                1,
                Do(Group {
                    span: Span { from: 2, to: 3 },
                    rooms: 1,
                    amount: 40,
                }),
                GroupAccepted { displacement: 40 },
                None,
            ),
            LEAVES,
        ],
        Some((4, Cause::Reply)),
    ),
    // The first line is an enrolment.
    (TIGHT, &[ENROLS], Some((0, Cause::Opening))),
    // A caller acts that did not enrol, with a stay that the house has not.
    (TIGHT, &[OPENS, BOOKS_9], Some((1, Cause::Caller))),
    // One command more than the house allows; then a caller that did not enrol.
    (
        TIGHT,
        &[
            OPENS,
            ENROLS,
            (1, Do(Cancel { nth: 1 }), NotBooked, None),
            (1, Do(Cancel { nth: 1 }), NotBooked, None),
            (1, Do(Cancel { nth: 1 }), NotBooked, None),
            BOOKS_0,
            STRANGER_LEAVES,
        ],
        Some((5, Cause::Limit)),
    ),
    // One vector more than the house allows, for a position to come.
    (
        WIDE,
        &[
            OPENS,
            ENROLS,
            BOOKS_0,
            (1, Do(Reprice { stay: 0, rate: 99 }), Done, None),
            (
                1,
                Do(Book { stay: 0 }),
                TooLow {
                    vector: 0,
                    sum: 100,
                    rate: 99,
                },
                None,
            ),
            (
                0,
                Publish { position: 4 },
                Vector { number: 1 },
                Some((140, [0, 0, 1, 2], [0, 110, 40])),
            ),
            (
                0,
                Publish { position: 9 },
                Vector { number: 2 },
                Some((0, [0, 0, 0, 0], [0, 0, 0])),
            ),
        ],
        Some((6, Cause::Limit)),
    ),
    // A booking after two changes; then a stay that the house has not.
    (
        TIGHT,
        &[
            OPENS,
            ENROLS,
            (1, Do(Reforecast { stay: 0, count: 3 }), Done, None),
            (1, Do(Reforecast { stay: 0, count: 3 }), Done, None),
            BOOKS_0,
            BOOKS_9,
        ],
        Some((4, Cause::Behind)),
    ),
    // A vector for a position to come; then one booking too many.
    (
        TIGHT,
        &[
            OPENS,
            ENROLS,
            (1, Do(Reforecast { stay: 0, count: 3 }), Done, None),
            (
                0,
                Publish { position: 4 },
                Vector { number: 1 },
                Some((250, [0, 1, 1, 1], [0, 100, 40])),
            ),
            STRANGER_LEAVES,
        ],
        Some((3, Cause::Position)),
    ),
    // A vector with no change before it.
    (
        TIGHT,
        &[
            OPENS,
            ENROLS,
            (1, Do(Reforecast { stay: 0, count: 3 }), Done, None),
            (
                0,
                Publish { position: 2 },
                Vector { number: 1 },
                Some((250, [0, 1, 1, 1], [0, 100, 40])),
            ),
        ],
        Some((3, Cause::Position)),
    ),
    // A vector that is right at its place, and not at its position.
    (
        TIGHT,
        &[
            OPENS,
            ENROLS,
            (1, Do(Reforecast { stay: 0, count: 3 }), Done, None),
            BOOKS_0,
            (
                0,
                Publish { position: 3 },
                Vector { number: 1 },
                Some((140, [0, 0, 1, 2], [0, 110, 40])),
            ),
        ],
        Some((4, Cause::Certificate)),
    ),
];
