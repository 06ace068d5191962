//! Bookings at shared desks of 400 nights and 4,000 stays, by threads that each have a pass of their own.
ghost use Rattle.std.specs.Prelude.{◌≡◌, ◌<◌, length, All, IfOk};
ghost use Rattle.bp_bench_desk.specs.Passing.{IsPassOf};

use crate::draws::Draws;
use crate::hotel::{Hotel, house, opening_board, wide_hotel};
use crate::measured::{Measured, one};
use bp_core::Book;
use bp_desk::{BookReply, Desk, Pass};
use bp_types::House;
use bp_types::limits::MOST_STALE_AFTER;
use std::alloc::Global;
use std::sync::Wait;
use std::test::Fail;
use std::thread::{Threads, for_each_mut};
use std::time::{Clock, Instant};

/// The loads: each desk is called so often, in equal parts by the threads. After so many changes without a new vector
/// all bookings are refused as Behind.
#[derive(Clone, Copy, Drop)]
pub(crate) struct Bookings {
    pub(crate) threads: u32,
    pub(crate) calls: u32,
    pub(crate) desks: u32,
    pub(crate) stale_after: u32,
}

/// A caller, and how many of its bookings were accepted.
#[derive(Drop)]
struct Worker {
    pass: Pass,
    draws: Draws,
    accepted: u64,
}

/// Opens a hotel's desk. The house is a second copy, since the desk has the first.
fn open_desk(alloc: Global, hotel: &Hotel) -> Result<(House, Desk, Pass), Fail>
    ensures { IfOk result (λ r. IsPassOf r.1 r.0 r.2 × (r.2.caller ≡ 0)) }
{
    let of_desk = house(alloc, hotel)?;
    let house = house(alloc, hotel)?;
    let start = house.instance(alloc)?;
    let board = opening_board(alloc, &start, hotel)?;
    let (desk, opener) = Desk::new(alloc, of_desk, board)?;
    Ok((house, desk, opener))
}

/// Books one stay; whether it was accepted.
#[tactic(auto, using(crate::proofs::Keeping::by_call))]
fn book<R: Wait>(rt: &R, desk: &Desk, house: &House, pass: &mut Pass, stay: u32) -> bool
    requires pass { IsPassOf desk.now house.now pass.old }
    requires stay { stay < length house.now.stays }
    ensures { IsPassOf desk.now house.now pass.new }
{
    let answer = desk.book(rt, pass, stay);
    matches!(answer, Ok(BookReply::Accepted { .. }))
}

/// Makes so many bookings.
fn work<R: Wait>(rt: &R, desk: &Desk, house: &House, worker: &mut Worker, calls: u32)
    requires { IsPassOf desk.now house.now worker.old.pass }
{
    let stays = house.stays();
    if stays == 0 {
        return;
    }
    for _ in 0..calls {
        let stay = worker.draws.below(stays);
        if book(rt, desk, house, &mut worker.pass, stay) {
            worker.accepted = worker.accepted.saturating_add(1);
        }
    }
}

/// Lets all callers work, each in a thread of its own where one can be made.
fn work_all<R: Threads + Wait + Sync>(
    rt: &R,
    desk: &Desk,
    house: &House,
    workers: &mut [Worker],
    calls: u32,
)
    requires { All (λ w. IsPassOf desk.now house.now w.pass) workers.old }
{
    let threads = workers.len().max(1);
    for_each_mut(
        rt,
        workers,
        threads,
        &|_, worker| work(rt, desk, house, worker, calls),
    );
}

/// The pass of the next caller.
#[tactic(auto, using(crate::proofs::Keeping::by_enrolment, crate::proofs::Keeping::by_handing))]
fn enrol<R: Wait>(
    rt: &R,
    alloc: Global,
    desk: &Desk,
    house: &House,
    opener: &mut Pass,
) -> Result<Pass, Fail>
    requires { IsPassOf desk.now house.now opener.old × (opener.old.caller ≡ 0) }
    ensures opener { IsPassOf desk.now house.now opener.new × (opener.new.caller ≡ 0) }
    ensures pass { IfOk result (λ p. IsPassOf desk.now house.now p) }
{
    match desk.enrol(rt, alloc, opener) {
        Ok(pass) => Ok(pass),
        Err(error) => Err(Fail::new(format_args!("{error:?}"))),
    }
}

/// The callers from 1 on.
fn hire<R: Wait>(
    rt: &R,
    alloc: Global,
    desk: &Desk,
    house: &House,
    opener: &mut Pass,
    threads: u32,
) -> Result<Vec<Worker>, Fail>
    requires { IsPassOf desk.now house.now opener.old × (opener.old.caller ≡ 0) }
    ensures { IfOk result (λ v. All (λ w. IsPassOf desk.now house.now w.pass) v.items) }
{
    let mut workers = Vec::new(alloc);
    for caller in 0..threads {
        let pass = enrol(rt, alloc, desk, house, opener)?;
        let draws = Draws {
            state: u64::from(caller).saturating_add(1),
        };
        workers.push(Worker {
            pass,
            draws,
            accepted: 0,
        })?;
    }
    Ok(workers)
}

/// How many bookings were accepted.
fn count_accepted(workers: &[Worker]) -> u64 {
    let mut accepted: u64 = 0;
    for worker in workers {
        accepted = accepted.saturating_add(worker.accepted);
    }
    accepted
}

/// The nanoseconds in which all workers make so many bookings each.
fn time_work<R: Threads + Wait + Clock + Sync>(
    rt: &R,
    desk: &Desk,
    house: &House,
    workers: &mut [Worker],
    calls: u32,
) -> Result<u128, Fail>
    requires { All (λ w. IsPassOf desk.now house.now w.pass) workers.old }
{
    let start = Instant::now(rt)?;
    work_all(rt, desk, house, workers, calls);
    Ok(start.elapsed(rt)?.as_nanos())
}

/// Has a desk called; the nanoseconds of the calls, and how many were accepted.
fn call<R: Threads + Wait + Clock + Sync>(
    rt: &R,
    alloc: Global,
    desk: &Desk,
    house: &House,
    opener: &mut Pass,
    load: (u32, u32),
) -> Result<(u128, u64), Fail>
    requires { IsPassOf desk.now house.now opener.old × (opener.old.caller ≡ 0) }
{
    let mut workers = hire(rt, alloc, desk, house, opener, load.0)?;
    let taken = time_work(rt, desk, house, &mut workers, load.1)?;
    Ok((taken, count_accepted(&workers)))
}

/// Opens a desk and has it called by so many threads, so often by each.
fn open_and_call<R: Threads + Wait + Clock + Sync>(
    rt: &R,
    alloc: Global,
    hotel: &Hotel,
    load: (u32, u32),
) -> Result<(u128, u64), Fail> {
    let (house, desk, mut opener) = open_desk(alloc, hotel)?;
    call(rt, alloc, &desk, &house, &mut opener, load)
}

/// Times the bookings. The count is of those that were accepted.
pub(crate) fn run<R: Threads + Wait + Clock + Sync>(
    rt: &R,
    alloc: Global,
    bookings: Bookings,
) -> Result<Vec<Measured>, Fail> {
    let Some(calls) = bookings.calls.checked_div(bookings.threads) else {
        return Err(Fail::new("some threads"));
    };
    let hotel = wide_hotel(alloc, u64::from(bookings.stale_after))?;
    let mut taken: u128 = 0;
    let mut accepted: u64 = 0;
    for _ in 0..bookings.desks {
        let (took, some) = open_and_call(rt, alloc, &hotel, (bookings.threads, calls))?;
        taken = taken.saturating_add(took);
        accepted = accepted.saturating_add(some);
    }
    one(alloc, "shared", taken, accepted)
}

/// Opens a book with the greatest limits, and lets it go; how many entries it has.
fn open_book(alloc: Global, hotel: &Hotel) -> Result<u64, Fail> {
    let of_book = house(alloc, hotel)?;
    let house = house(alloc, hotel)?;
    let start = house.instance(alloc)?;
    let board = opening_board(alloc, &start, hotel)?;
    let book = Book::new(alloc, of_book, board)?;
    Ok(book.length())
}

/// Opens a desk of the greatest limits, or its book alone: how little memory is enough for it tells what it takes.
pub(crate) fn open(alloc: Global, with_desk: bool) -> Result<Vec<Measured>, Fail> {
    let hotel = wide_hotel(alloc, MOST_STALE_AFTER)?;
    let entries = if with_desk {
        let _opened = open_desk(alloc, &hotel)?;
        1
    } else {
        open_book(alloc, &hotel)?
    };
    one(alloc, "open", 0, entries)
}
