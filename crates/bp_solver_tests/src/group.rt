//! Groups, against displacements that are worked out by hand.
ghost use Rattle.std.specs.Prelude.{◌≡◌, ◌<◌};

use crate::instances::{expect_certificate, three_nights};
use bp_flow::Solver;
use bp_group::{GroupQuote, QuoteError, quote};
use bp_types::{Instance, Quoted, Span, Steps};
use std::alloc::Global;
use std::marker::Brand;
use std::sync::ledger::{Blank, Ledger};
use std::test::Fail;

/// The position that each quote is for.
const POSITION: u64 = 7;

/// One room on each night of a span: the displacement, and the value, sales and prices without those rooms.
const GROUPS: [(Span, u128, u128, [u64; 4], [u64; 3]); 3] = [
    (
        Span { from: 1, to: 3 },
        150,
        100,
        [0, 0, 1, 1],
        [0, 110, 40],
    ),
    (
        Span { from: 0, to: 2 },
        110,
        140,
        [0, 0, 1, 2],
        [0, 110, 40],
    ),
    (Span { from: 0, to: 1 }, 0, 250, [0, 1, 1, 1], [60, 40, 40]),
];

/// The quote of a group from a cold solver; None where the span is not within the nights.
fn quoted<L: Ledger>(
    alloc: Global,
    instance: &Instance,
    span: Span,
    rooms: u64,
    blank: Blank,
) -> Result<Option<GroupQuote>, QuoteError>
    requires name { blank.name ≡ L.name }
    requires parts { blank.parts ≡ L.parts }
    requires some { 0 < blank.parts }
{
    if span.from >= span.to || span.to > instance.nights() {
        return Ok(None);
    }
    let mut steps: Steps<L> = Steps::new(blank);
    let solver = Solver::cold(alloc, instance, &mut steps)?;
    let found = quote(alloc, &solver, POSITION, span, rooms, &mut steps)?;
    Ok(Some(found))
}

#[test]
fn groups_of_one_room(rt: HostRuntime) -> Result<(), Fail> {
    let alloc = rt.alloc();
    let instance = three_nights(alloc)?;
    for (span, displacement, value, sell, prices) in &GROUPS {
        let found = quoted::<Brand>(alloc, &instance, *span, 1, Blank::new(1))?;
        let Some(found) = found else {
            assert!(rt; false, "{span:?} is not within the nights");
            continue;
        };
        assert_eq!(rt;
            found.quoted(),
            Quoted {
                position: POSITION,
                displacement: *displacement
            }
        );
        expect_certificate(&rt, &found.before, 250, &[0, 1, 1, 1], &[0, 100, 40]);
        expect_certificate(&rt, &found.after, *value, sell, prices);
    }
    Ok(())
}

#[test]
fn a_group_is_refused_at_the_first_night_that_lacks_the_rooms(rt: HostRuntime) -> Result<(), Fail> {
    let alloc = rt.alloc();
    let instance = three_nights(alloc)?;
    for (from, to, rooms, night) in [(1, 2, 2, 1), (0, 3, 2, 1), (0, 3, 3, 0)] {
        let found = quoted::<Brand>(alloc, &instance, Span { from, to }, rooms, Blank::new(1));
        assert_eq!(rt; found.err(), Some(QuoteError::NoRoom { night }));
    }
    Ok(())
}
