//! Restarts, with the searches that each may count.
ghost use Rattle.std.specs.Prelude.{◌≡◌, ◌+◌, ◌<◌, ◌≤◌, length, slice_index, IsTrue, MatchBool};
ghost use Rattle.bp_types.specs.declared.limits.TheConstants.{MOST_UNITS};
ghost use Rattle.bp_types.specs.declared.change.Change.TheVariants.{Rooms};
ghost use Rattle.bp_types.specs.Changes.{Fits};
ghost use Rattle.bp_flow.specs.Settled.{IsSettled};
ghost use Rattle.bp_warm.specs.Turns.{units_moved};

use crate::instances::{RESTARTS, cold_certificate, expect_certificate, three_nights};
use bp_flow::Solver;
use bp_types::{Certificate, Change, Instance, Memory, Span, Steps};
use bp_warm::catch_up;
use std::alloc::Global;
use std::marker::Brand;
use std::process::Abort;
use std::sync::ledger::{Blank, Ledger};
use std::test::Fail;

/// Whether a night may have so many units more or fewer.
fn night_takes(instance: &Instance, night: u32, up: bool, units: u64) -> bool
    requires { night < length instance.now.rooms }
    ensures { IsTrue result →
        MatchBool up (slice_index instance.now.rooms night + units ≤ MOST_UNITS)
        (units ≤ slice_index instance.now.rooms night) }
{
    let rooms = instance.rooms(night);
    if up {
        rooms <= 1_000_000 && units <= 1_000_000 - rooms
    } else {
        units <= rooms
    }
}

/// Whether a change of the rooms of one night or two keeps to the limits.
fn rooms_fit(instance: &Instance, span: Span, up: bool, units: u64) -> bool
    ensures { IsTrue result → Fits instance.now (Rooms span up units) }
{
    if span.from >= span.to || span.to > instance.nights() || span.to - span.from > 2 {
        return false;
    }
    if !night_takes(instance, span.from, up, units) {
        return false;
    }
    night_takes(instance, span.to - 1, up, units)
}

/// Whether a change keeps to the limits of an instance.
fn fits(instance: &Instance, change: Change) -> bool
    ensures { IsTrue result → Fits instance.now change }
{
    match change {
        Change::Rooms { span, up, units } => rooms_fit(instance, span, up, units),
        Change::Demand { stay, value } => stay < instance.stays() && value <= 1_000_000,
        Change::Rate { stay, value } => {
            stay < instance.stays() && 1 <= value && value <= 1_000_000_000
        }
    }
}

/// How many searches a restart after the change may count.
fn most_searches(instance: &Instance, change: Change) -> u128
    requires { Fits instance.now change }
    ensures { result ≡ units_moved instance.now change + 1 }
{
    match change {
        Change::Rooms { units, .. } => u128::from(units) + 1,
        Change::Demand { stay, value } => {
            let forecast = instance.stay(stay).forecast;
            u128::from(forecast.abs_diff(value)) + 1
        }
        Change::Rate { stay, .. } => 2 * u128::from(instance.stay(stay).forecast) + 1,
    }
}

/// Makes a change of the instance and of its solver, and answers how many searches were counted at most.
fn restart<L: Ledger>(
    instance: &mut Instance,
    solver: &mut Solver,
    change: Change,
    steps: &mut Steps<L>,
) -> u128
    requires fits { Fits instance.old change }
    requires same { solver.old.flow.program ≡ instance.old }
    ensures same { solver.new.flow.program ≡ instance.new }
    ensures settled { IsSettled solver.new }
    ensures counted { steps.new ≤ steps.old + result }
{
    let searches = most_searches(instance, change);
    instance.apply(change);
    catch_up(solver, &[change], steps);
    searches
}

/// The certificate after a change, with the searches that it may count; None where the change does not fit.
fn certificate_after<L: Ledger>(
    alloc: Global,
    instance: &mut Instance,
    solver: &mut Solver,
    change: Change,
    steps: &mut Steps<L>,
) -> Result<Option<(Certificate, u128)>, Memory>
    requires same { solver.old.flow.program ≡ instance.old }
{
    if !fits(instance, change) {
        return Ok(None);
    }
    let searches = restart(instance, solver, change, steps);
    let certificate = solver.certificate(alloc)?;
    Ok(Some((certificate, searches)))
}

/// The certificate after a change of the instance with four stays; None where the change does not fit.
fn restarted<L: Ledger>(
    alloc: Global,
    change: Change,
    blank: Blank,
) -> Result<Option<(Certificate, u128)>, Fail>
    requires name { blank.name ≡ L.name }
    requires parts { blank.parts ≡ L.parts }
    requires some { 0 < blank.parts }
{
    let mut steps: Steps<L> = Steps::new(blank);
    let mut instance = three_nights(alloc)?;
    let mut solver = Solver::cold(alloc, &instance, &mut steps)?;
    let found = certificate_after(alloc, &mut instance, &mut solver, change, &mut steps)?;
    Ok(found)
}

#[test]
fn restarts_after_one_change(rt: HostRuntime) -> Result<(), Fail> {
    let alloc = rt.alloc();
    for (change, value, sell, prices, most) in &RESTARTS {
        let found = restarted::<Brand>(alloc, *change, Blank::new(1))?;
        let Some((certificate, searches)) = found else {
            assert!(rt; false, "{change:?} does not fit");
            continue;
        };
        expect_certificate(&rt, &certificate, *value, sell, prices);
        assert!(rt; searches <= *most);
    }
    Ok(())
}

/// The certificate after no change of the instance with four stays, in one search.
fn settled_again<L: Ledger>(alloc: Global, blank: Blank) -> Result<Certificate, Fail>
    requires name { blank.name ≡ L.name }
    requires parts { blank.parts ≡ L.parts }
    requires some { 0 < blank.parts }
{
    let mut steps: Steps<L> = Steps::new(blank);
    let instance = three_nights(alloc)?;
    let mut solver = Solver::cold(alloc, &instance, &mut steps)?;
    catch_up(&mut solver, &[], &mut steps);
    let certificate = solver.certificate(alloc)?;
    Ok(certificate)
}

#[test]
fn no_change_leaves_the_optimum(rt: HostRuntime) -> Result<(), Fail> {
    let found = settled_again::<Brand>(rt.alloc(), Blank::new(1))?;
    expect_certificate(&rt, &found, 250, &[0, 1, 1, 1], &[0, 100, 40]);
    Ok(())
}

/// One of many small changes of three nights and four stays.
fn small_change(random: u64) -> Change {
    let stay = (random / 4 % 4) as u32;
    match random % 4 {
        0 => Change::Demand {
            stay,
            value: random / 16 % 5,
        },
        1 => Change::Rate {
            stay,
            value: 1 + random / 16 % 200,
        },
        _ => {
            let from = (random / 4 % 3) as u32;
            Change::Rooms {
                span: Span {
                    from,
                    to: from + 1 + (random / 12 % 2) as u32,
                },
                up: random / 24 % 2 == 0,
                units: random / 48 % 3,
            }
        }
    }
}

/// Compares the certificate of a solver with that of a cold solve of its instance.
fn agree<L: Ledger, R: Abort>(
    rt: &R,
    alloc: Global,
    instance: &Instance,
    solver: &Solver,
    number: u32,
    steps: &mut Steps<L>,
) -> Result<(), Memory> {
    let warm = solver.certificate(alloc)?;
    let cold = cold_certificate(alloc, instance, steps)?;
    assert_eq!(rt; warm.value, cold.value, "after change {number}");
    assert!(rt;
        warm.prices.as_slice() == cold.prices.as_slice(),
        "after change {number}"
    );
    Ok(())
}

/// Makes many small changes, and compares each restart with a cold solve.
fn follow<L: Ledger, R: Abort>(rt: &R, alloc: Global, blank: Blank) -> Result<(), Fail>
    requires name { blank.name ≡ L.name }
    requires parts { blank.parts ≡ L.parts }
    requires some { 0 < blank.parts }
{
    let mut steps: Steps<L> = Steps::new(blank);
    let mut instance = three_nights(alloc)?;
    let mut solver = Solver::cold(alloc, &instance, &mut steps)?;
    let mut random = 1u64;
    for number in 0..400u32 {
        random = random
            .wrapping_mul(6_364_136_223_846_793_005)
            .wrapping_add(1_442_695_040_888_963_407);
        let change = small_change(random >> 33);
        if !fits(&instance, change) {
            continue;
        }
        let _ = restart(&mut instance, &mut solver, change, &mut steps);
        agree(rt, alloc, &instance, &solver, number, &mut steps)?;
    }
    Ok(())
}

#[test]
fn restarts_agree_with_cold_solves(rt: HostRuntime) -> Result<(), Fail> {
    follow::<Brand, _>(&rt, rt.alloc(), Blank::new(1))
}
