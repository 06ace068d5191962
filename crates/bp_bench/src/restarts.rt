//! Restarts beside a cold solve: a booking is one room less on each night of a stay that the first prices accept, and one
//! less in its forecast, with the prices settled; a change is another rate of one stay; a group is ten rooms on the nights
//! of a stay.
ghost use Rattle.std.specs.Prelude.{◌≡◌, ◌<◌, length, IsTrue};
ghost use Rattle.bp_types.specs.Spans.{IsSpanWithin};
ghost use Rattle.bp_types.specs.Changes.{HasUnits};
ghost use Rattle.bp_flow.specs.Settled.{IsSettled};

use crate::draws::Draws;
use crate::timed::{Timed, since};
use crate::year::{SEED, year};
use bp_flow::Solver;
use bp_group::quote;
use bp_types::limits::{MOST_FORECAST, MOST_RATE};
use bp_types::{Change, Instance, Span, Stay, Steps};
use bp_warm::catch_up;
use std::alloc::Global;
use std::marker::Brand;
use std::sync::ledger::{Blank, Ledger};
use std::test::Fail;
use std::time::{Clock, Instant};

/// Times a cold solve, and so many of each kind from it on.
pub(crate) fn run<C: Clock>(clock: &C, alloc: Global, rounds: u32) -> Result<Vec<Timed>, Fail> {
    measure::<Brand, C>(clock, alloc, Blank::new(1), rounds)
}

fn measure<L: Ledger, C: Clock>(
    clock: &C,
    alloc: Global,
    blank: Blank,
    rounds: u32,
) -> Result<Vec<Timed>, Fail>
    requires name { blank.name ≡ L.name }
    requires parts { blank.parts ≡ L.parts }
    requires some { 0 < blank.parts }
{
    let mut steps: Steps<L> = Steps::new(blank);
    let instance = year(alloc, &mut Draws { last: SEED })?;
    let mut lines = Vec::new(alloc);
    let (cold, mut solver) = time_cold(clock, alloc, &instance, &mut steps)?;
    lines.push(cold)?;
    let accepted = accepted(alloc, &solver, &instance, rounds)?;
    lines.push(time_bookings(clock, &mut solver, &instance, &accepted, &mut steps)?)?;
    lines.push(time_rates(clock, &mut solver, &instance, rounds, &mut steps)?)?;
    solver.settle(&mut steps);
    lines.push(time_groups(clock, alloc, &solver, &instance, rounds, &mut steps)?)?;
    Ok(lines)
}

fn time_cold<L: Ledger, C: Clock>(
    clock: &C,
    alloc: Global,
    instance: &Instance,
    steps: &mut Steps<L>,
) -> Result<(Timed, Solver), Fail> {
    let start = Instant::now(clock)?;
    let solver = Solver::cold(alloc, instance, steps)?;
    let taken = since(clock, start)?;
    Ok((line("cold", taken, &solver), solver))
}

fn time_bookings<L: Ledger, C: Clock>(
    clock: &C,
    solver: &mut Solver,
    instance: &Instance,
    accepted: &[u32],
    steps: &mut Steps<L>,
) -> Result<Timed, Fail> {
    let start = Instant::now(clock)?;
    book_all(solver, instance, accepted, steps);
    let taken = since(clock, start)?;
    Ok(line("booking", taken, solver))
}

fn time_rates<L: Ledger, C: Clock>(
    clock: &C,
    solver: &mut Solver,
    instance: &Instance,
    rounds: u32,
    steps: &mut Steps<L>,
) -> Result<Timed, Fail> {
    let start = Instant::now(clock)?;
    reprice_all(solver, instance, rounds, steps);
    let taken = since(clock, start)?;
    Ok(line("rate", taken, solver))
}

fn time_groups<L: Ledger, C: Clock>(
    clock: &C,
    alloc: Global,
    solver: &Solver,
    instance: &Instance,
    rounds: u32,
    steps: &mut Steps<L>,
) -> Result<Timed, Fail>
    requires { IsSettled solver.now }
{
    let start = Instant::now(clock)?;
    let count = quote_all(alloc, solver, instance, rounds, steps);
    Ok(Timed {
        name: "group",
        nanoseconds: since(clock, start)?,
        count,
    })
}

/// What was timed, with the optimum that the solver then has.
fn line(name: &'static str, nanoseconds: u128, solver: &Solver) -> Timed {
    Timed {
        name,
        nanoseconds,
        count: solver.value(),
    }
}

/// Whether each night of the span has a room.
fn has_room(solver: &Solver, span: Span) -> bool
    requires { IsSpanWithin (length solver.now.flow.program.rooms) span }
    ensures { IsTrue result → HasUnits solver.now.flow.program span 1 }
{
    for night in span.from..span.to {
        if solver.rooms(night) < 1 {
            return false;
        }
    }
    true
}

/// Books a stay, where there is room.
fn book<L: Ledger>(solver: &mut Solver, number: u32, stay: Stay, steps: &mut Steps<L>) {
    let span = stay.span;
    if span.from < span.to
        && span.to <= solver.nights()
        && number < solver.stays()
        && stay.forecast <= MOST_FORECAST
        && has_room(solver, span)
    {
        let rooms = Change::Rooms {
            span,
            up: false,
            units: 1,
        };
        let demand = Change::Demand {
            stay: number,
            value: stay.forecast.saturating_sub(1),
        };
        catch_up(solver, &[rooms, demand], steps);
    }
}

/// What a span costs at these prices.
fn price(prices: &[u64], span: Span) -> u64 {
    let mut sum: u64 = 0;
    for night in span.from..span.to {
        if let Some(price) = prices.get(night as usize) {
            sum = sum.saturating_add(*price);
        }
    }
    sum
}

/// The first stays whose rates cover the prices, at most so many: those that a desk books.
fn accepted(
    alloc: Global,
    solver: &Solver,
    instance: &Instance,
    most: u32,
) -> Result<Vec<u32>, Fail> {
    let prices = solver.prices(alloc)?;
    let mut accepted = Vec::new(alloc);
    for number in 0..instance.stays() {
        let stay = instance.stay(number);
        if accepted.len() < most as usize && price(&prices, stay.span) <= stay.rate {
            accepted.push(number)?;
        }
    }
    Ok(accepted)
}

/// Books these stays, one each.
fn book_all<L: Ledger>(
    solver: &mut Solver,
    instance: &Instance,
    numbers: &[u32],
    steps: &mut Steps<L>,
) {
    for number in numbers {
        if *number < instance.stays() {
            book(solver, *number, instance.stay(*number), steps);
        }
    }
}

/// Sets the rate of a stay to two thirds.
fn reprice<L: Ledger>(solver: &mut Solver, number: u32, stay: Stay, steps: &mut Steps<L>) {
    let value = (stay.rate / 3).saturating_mul(2).clamp(1, MOST_RATE);
    if number < solver.stays() {
        let rate = Change::Rate {
            stay: number,
            value,
        };
        catch_up(solver, &[rate], steps);
    }
}

/// Sets the rates of the stays behind those that were booked.
fn reprice_all<L: Ledger>(
    solver: &mut Solver,
    instance: &Instance,
    rounds: u32,
    steps: &mut Steps<L>,
) {
    let stays = instance.stays();
    for number in rounds.min(stays)..rounds.saturating_mul(2).min(stays) {
        reprice(solver, number, instance.stay(number), steps);
    }
}

/// What ten rooms on the nights of a stay cost; nothing, where a night has fewer.
fn displacement<L: Ledger>(alloc: Global, solver: &Solver, span: Span, steps: &mut Steps<L>) -> u128
    requires { IsSettled solver.now }
{
    if span.from >= span.to || span.to > solver.nights() {
        return 0;
    }
    match quote(alloc, solver, 0, span, 10, steps) {
        Ok(quote) => quote.displacement,
        Err(_) => 0,
    }
}

/// What groups on the nights of the first stays cost, one by one.
fn quote_all<L: Ledger>(
    alloc: Global,
    solver: &Solver,
    instance: &Instance,
    rounds: u32,
    steps: &mut Steps<L>,
) -> u128
    requires { IsSettled solver.now }
{
    let mut sum: u128 = 0;
    for number in 0..rounds.min(instance.stays()) {
        let span = instance.stay(number).span;
        sum = sum.saturating_add(displacement(alloc, solver, span, steps));
    }
    sum
}
