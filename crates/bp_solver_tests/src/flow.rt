//! Cold solves and single changes, against certificates that are worked out by hand.
ghost use Rattle.std.specs.Prelude.{◌≡◌, ◌<◌};

use crate::instances::{
    FOUR_STAYS, RESTARTS, Row, cold_certificate, expect_certificate, instance_of, three_nights,
};
use bp_flow::Solver;
use bp_types::{Certificate, Change, Instance, Memory, Span, Steps};
use std::alloc::Global;
use std::marker::Brand;
use std::sync::ledger::{Blank, Ledger};
use std::test::Fail;

/// Rooms and stays, and the value, sales and prices of the certificate.
type Case = (
    &'static [u64],
    &'static [Row],
    u128,
    &'static [u64],
    &'static [u64],
);

/// No room, no stay, a forecast above the rooms, and the instance with four stays.
const CASES: [Case; 4] = [
    (&[0], &[(0, 1, 100, 1)], 0, &[0], &[100]),
    (&[1, 1, 1], &[], 0, &[], &[0, 0, 0]),
    (&[1, 1], &[(0, 2, 90, 2)], 90, &[1], &[90, 0]),
    (&[2, 1, 2], &FOUR_STAYS, 250, &[0, 1, 1, 1], &[0, 100, 40]),
];

/// The certificate of a cold solve.
fn solved<L: Ledger>(
    alloc: Global,
    instance: &Instance,
    blank: Blank,
) -> Result<Certificate, Memory>
    requires name { blank.name ≡ L.name }
    requires parts { blank.parts ≡ L.parts }
    requires some { 0 < blank.parts }
{
    let mut steps: Steps<L> = Steps::new(blank);
    cold_certificate(alloc, instance, &mut steps)
}

#[test]
fn worked_examples(rt: HostRuntime) -> Result<(), Fail> {
    let alloc = rt.alloc();
    for (rooms, rows, value, sell, prices) in &CASES {
        let instance = instance_of(alloc, rooms, rows)?;
        let found = solved::<Brand>(alloc, &instance, Blank::new(1))?;
        expect_certificate(&rt, &found, *value, sell, prices);
    }
    Ok(())
}

#[test]
fn the_longest_and_dearest_stay(rt: HostRuntime) -> Result<(), Fail> {
    let alloc = rt.alloc();
    let rooms = vec![in alloc; 10_000u64; 400]?;
    let instance = instance_of(alloc, &rooms, &[(0, 400, 1_000_000_000, 1_000_000)])?;
    let found = solved::<Brand>(alloc, &instance, Blank::new(1))?;
    assert_eq!(rt; found.value, 10_000_000_000_000);
    assert!(rt; found.sell.as_slice() == [10_000].as_slice());
    assert_eq!(rt; found.prices.first().copied(), Some(1_000_000_000));
    assert!(rt; found.prices.iter().skip(1).all(|price| *price == 0));
    assert_eq!(rt; found.prices.len(), 400);
    Ok(())
}

/// Takes so many units of one night, where it has them; answers whether it did.
fn lowered<L: Ledger>(solver: &mut Solver, span: Span, units: u64, steps: &mut Steps<L>) -> bool {
    let Span { from, to } = span;
    if from >= to || to > solver.nights() || to - from > 1 || units > solver.rooms(from) {
        return false;
    }
    solver.lower(span, units, steps);
    true
}

/// Sets the forecast of a stay, where both are within their limits; answers whether it did.
fn demanded<L: Ledger>(solver: &mut Solver, stay: u32, value: u64, steps: &mut Steps<L>) -> bool {
    if stay >= solver.stays() || value > 1_000_000 {
        return false;
    }
    solver.demand(stay, value, steps);
    true
}

/// Sets the rate of a stay, where both are within their limits; answers whether it did.
fn repriced<L: Ledger>(solver: &mut Solver, stay: u32, value: u64, steps: &mut Steps<L>) -> bool {
    if stay >= solver.stays() || value == 0 || value > 1_000_000_000 {
        return false;
    }
    solver.reprice(stay, value, steps);
    true
}

/// Makes a change that takes rooms of one night, or sets a number; answers whether it fits.
fn changed<L: Ledger>(solver: &mut Solver, change: Change, steps: &mut Steps<L>) -> bool {
    match change {
        Change::Rooms { span, up, units } => !up && lowered(solver, span, units, steps),
        Change::Demand { stay, value } => demanded(solver, stay, value, steps),
        Change::Rate { stay, value } => repriced(solver, stay, value, steps),
    }
}

/// A copy of a cold solver.
fn copied<L: Ledger>(
    alloc: Global,
    instance: &Instance,
    steps: &mut Steps<L>,
) -> Result<Solver, Memory> {
    let cold = Solver::cold(alloc, instance, steps)?;
    cold.copy(alloc)
}

/// The certificate of a solver after a change; None where the change does not fit.
fn certificate_after<L: Ledger>(
    alloc: Global,
    solver: &mut Solver,
    change: Change,
    steps: &mut Steps<L>,
) -> Result<Option<Certificate>, Memory> {
    if !changed(solver, change, steps) {
        return Ok(None);
    }
    solver.settle(steps);
    let certificate = solver.certificate(alloc)?;
    Ok(Some(certificate))
}

/// The certificate of a copy of a cold solver after a change; None where the change does not fit.
fn restarted<L: Ledger>(
    alloc: Global,
    instance: &Instance,
    change: Change,
    blank: Blank,
) -> Result<Option<Certificate>, Memory>
    requires name { blank.name ≡ L.name }
    requires parts { blank.parts ≡ L.parts }
    requires some { 0 < blank.parts }
{
    let mut steps: Steps<L> = Steps::new(blank);
    let mut solver = copied(alloc, instance, &mut steps)?;
    certificate_after(alloc, &mut solver, change, &mut steps)
}

#[test]
fn restarts(rt: HostRuntime) -> Result<(), Fail> {
    let alloc = rt.alloc();
    let instance = three_nights(alloc)?;
    for (change, value, sell, prices, _) in &RESTARTS {
        let found = restarted::<Brand>(alloc, &instance, *change, Blank::new(1))?;
        let Some(found) = found else {
            assert!(rt; false, "{change:?} does not fit");
            continue;
        };
        expect_certificate(&rt, &found, *value, sell, prices);
    }
    Ok(())
}

/// The optimum of a cold solver, after a change if there is one, and without settling again.
fn valued<L: Ledger>(
    alloc: Global,
    instance: &Instance,
    change: Option<Change>,
    blank: Blank,
) -> Result<u128, Memory>
    requires name { blank.name ≡ L.name }
    requires parts { blank.parts ≡ L.parts }
    requires some { 0 < blank.parts }
{
    let mut steps: Steps<L> = Steps::new(blank);
    let mut solver = Solver::cold(alloc, instance, &mut steps)?;
    if let Some(change) = change {
        changed(&mut solver, change, &mut steps);
    }
    Ok(solver.value())
}

#[test]
fn the_optimum_without_settling(rt: HostRuntime) -> Result<(), Fail> {
    let alloc = rt.alloc();
    for (rooms, rows, value, _, _) in &CASES {
        let instance = instance_of(alloc, rooms, rows)?;
        let found = valued::<Brand>(alloc, &instance, None, Blank::new(1))?;
        assert_eq!(rt; found, *value);
    }
    let instance = three_nights(alloc)?;
    for (change, value, _, _, _) in &RESTARTS {
        let found = valued::<Brand>(alloc, &instance, Some(*change), Blank::new(1))?;
        assert_eq!(rt; found, *value);
    }
    Ok(())
}
