//! A hundred calls, each with its reply worked out by hand from the rules.
use crate::desk::{Claimed, Row};
use crate::hotel::{N0, N01, N1, N012, three_nights};
use crate::rows::{
    ALREADY_CANCELLED, CANCELLED, DONE, ENROL, HISTORY_FULL, LEAVE, NOT_BOOKED, UNQUOTED, accepted,
    below_sold, book, cancel, group, group_no_room, no_room, reforecast, reprice, resize,
    superseded, too_low, vector,
};
use bp_types::Limits;
use std::test::Fail;

/// The first 61 calls, under the first vector.
const ONE_VECTOR: [Row; 61] = [
    (1, ENROL, DONE),
    (2, ENROL, DONE),
    (1, book!(0), accepted!(vector 0, sum 100)),
    (1, book!(0), no_room!(vector 0, sum 100, night 1)),
    (2, book!(1), no_room!(vector 0, sum 140, night 1)),
    (2, book!(2), accepted!(vector 0, sum 0)),
    (1, book!(2), no_room!(vector 0, sum 0, night 0)),
    (1, book!(0), no_room!(vector 0, sum 100, night 0)),
    (2, book!(3), accepted!(vector 0, sum 40)),
    (0, book!(3), accepted!(vector 0, sum 40)),
    (0, book!(3), no_room!(vector 0, sum 40, night 2)),
    (1, cancel!(2), NOT_BOOKED),
    (1, cancel!(5), NOT_BOOKED),
    (2, cancel!(1), NOT_BOOKED),
    (1, cancel!(1), CANCELLED),
    (1, cancel!(1), ALREADY_CANCELLED),
    (2, book!(0), accepted!(vector 0, sum 100)),
    (1, cancel!(1), ALREADY_CANCELLED),
    (2, cancel!(4), CANCELLED),
    (1, reprice!(0, rate 99), DONE),
    (1, book!(0), too_low!(vector 0, sum 100, rate 99)),
    (2, reprice!(0, rate 101), DONE),
    (1, book!(0), accepted!(vector 0, sum 100)),
    (1, reprice!(1, rate 139), DONE),
    (1, book!(1), too_low!(vector 0, sum 140, rate 139)),
    (1, resize!(1, rooms 0), below_sold!(1)),
    (1, resize!(1, rooms 1), DONE),
    (2, resize!(2, rooms 1), below_sold!(2)),
    (2, resize!(2, rooms 3), DONE),
    (2, book!(3), accepted!(vector 0, sum 40)),
    (1, group!(N012, rooms 1, amount 1000), group_no_room!(0)),
    (1, cancel!(6), CANCELLED),
    (1, group!(N012, rooms 1, amount 1000), group_no_room!(2)),
    (1, group!(N01, rooms 2, amount 1000), group_no_room!(0)),
    (1, group!(N01, rooms 1, amount 1000), UNQUOTED),
    (1, resize!(0, rooms 4), DONE),
    (1, group!(N01, rooms 2, amount 0), group_no_room!(1)),
    (1, group!(N0, rooms 4, amount 0), group_no_room!(0)),
    (1, group!(N0, rooms 3, amount 0), UNQUOTED),
    (2, reforecast!(2, count 0), DONE),
    (2, book!(2), accepted!(vector 0, sum 0)),
    (2, reforecast!(2, count 7), DONE),
    (2, book!(2), accepted!(vector 0, sum 0)),
    (3, ENROL, DONE),
    (3, cancel!(1), NOT_BOOKED),
    (3, book!(2), accepted!(vector 0, sum 0)),
    (3, book!(2), no_room!(vector 0, sum 0, night 0)),
    (3, cancel!(1), CANCELLED),
    (3, LEAVE, DONE),
    (0, resize!(0, rooms 3), DONE),
    (2, book!(2), no_room!(vector 0, sum 0, night 0)),
    (2, cancel!(8), NOT_BOOKED),
    (2, cancel!(7), CANCELLED),
    (2, cancel!(2), CANCELLED),
    (2, cancel!(3), CANCELLED),
    (2, cancel!(4), ALREADY_CANCELLED),
    (2, cancel!(5), CANCELLED),
    (2, cancel!(6), CANCELLED),
    (2, cancel!(9), NOT_BOOKED),
    (0, cancel!(1), CANCELLED),
    (0, cancel!(2), NOT_BOOKED),
];

/// All rooms are free, three guests are awaited of the third stay and one of the fourth.
const SECOND: Claimed<'static> = (220, &[0, 0, 3, 1], &[60, 0, 0]);

/// The other 39, under the next one.
const NEXT_VECTOR: [Row; 39] = [
    (0, resize!(2, rooms 0), DONE),
    (1, book!(3), no_room!(vector 1, sum 0, night 2)),
    (1, reprice!(2, rate 59), DONE),
    (1, book!(2), too_low!(vector 1, sum 60, rate 59)),
    (1, reprice!(2, rate 60), DONE),
    (1, book!(2), accepted!(vector 1, sum 60)),
    (1, book!(1), no_room!(vector 1, sum 0, night 2)),
    (1, resize!(2, rooms 1), DONE),
    (1, book!(1), accepted!(vector 1, sum 0)),
    (1, resize!(1, rooms 0), below_sold!(1)),
    (1, cancel!(12), CANCELLED),
    (1, resize!(1, rooms 0), DONE),
    (1, book!(0), no_room!(vector 1, sum 60, night 1)),
    (2, group!(N1, rooms 1, amount 0), group_no_room!(1)),
    (2, reprice!(0, rate 59), DONE),
    (2, book!(0), too_low!(vector 1, sum 60, rate 59)),
    (2, cancel!(9), NOT_BOOKED),
    (2, book!(3), accepted!(vector 1, sum 0)),
    (2, cancel!(10), CANCELLED),
    (1, cancel!(10), CANCELLED),
    (1, cancel!(12), ALREADY_CANCELLED),
    (2, group!(N0, rooms 3, amount 0), UNQUOTED),
    (2, group!(N0, rooms 4, amount 0), group_no_room!(0)),
    (0, book!(2), accepted!(vector 1, sum 60)),
    (0, cancel!(3), CANCELLED),
    (1, book!(2), HISTORY_FULL),
    (1, cancel!(1), HISTORY_FULL),
    (2, group!(N0, rooms 4, amount 0), HISTORY_FULL),
    (2, group!(N0, rooms 1, amount 0), HISTORY_FULL),
    (0, reforecast!(0, count 1), HISTORY_FULL),
    (0, reprice!(0, rate 1), HISTORY_FULL),
    (0, resize!(0, rooms 0), HISTORY_FULL),
    (1, LEAVE, DONE),
    (4, ENROL, DONE),
    (2, LEAVE, DONE),
    (4, LEAVE, DONE),
    (63, ENROL, DONE),
    (63, book!(0), HISTORY_FULL),
    (63, LEAVE, DONE),
];

#[test]
fn a_hundred_calls_with_two_vectors(rt: HostRuntime) -> Result<(), Fail> {
    let alloc = rt.alloc();
    let limits = Limits {
        stale_after: 100,
        entries: 79,
        publications: 2,
        unit: 1,
    };
    let mut desk = three_nights(alloc, limits)?;
    desk.run(&rt, &ONE_VECTOR);
    let early = desk.publish(alloc, 2, SECOND, 39)?;
    assert_eq!(rt; early, Some(superseded!(position 0, changes 38)));
    let second = desk.publish(alloc, 2, SECOND, 38)?;
    assert_eq!(rt; second, Some(vector!(1)));
    desk.run(&rt, &NEXT_VECTOR);
    let book = desk.book();
    assert!(rt; book.length() == 91);
    assert_eq!(rt; book.commands(), 79);
    assert_eq!(rt; book.changes_after(60), 19);
    assert_eq!(rt; (book.left(3), book.left(63)), (3, 5));
    Ok(())
}
