//! What the scripts of bench/ time where threads wait for one another: the history lock, a shared desk, and displays.
//! The first word chooses what is run, the others are its loads; each line that it prints has what was measured, and a
//! number that does not depend on time or on the order of the threads.
//!
//!     bp_bench_desk turns THREADS ENTRIES                 so many entries under one history lock
//!     bp_bench_desk shared THREADS CALLS DESKS STALE      so many bookings at each of so many desks
//!     bp_bench_desk open WHAT                             opens a book of the greatest limits, or a desk with it
//!     bp_bench_desk show THREADS MILLISECONDS VECTORS     looks while a screen follows so many vectors
//!     bp_bench_desk tiny                                  a little of each, and only the numbers that stay the same
#![tactic(auto)]

mod draws;
mod hotel;
mod lobby;
mod measured;
mod shared;
mod show;
mod turns;

use measured::Measured;
use std::alloc::Global;
use std::env;
use std::env::Env;
use std::sync::Wait;
use std::test::Fail;
use std::thread::Threads;
use std::time::Clock;

/// The words behind the program's name.
fn words<R: Env + AllocGlobal>(rt: &R) -> Result<Vec<String>, Fail> {
    let mut words = Vec::new(rt.alloc());
    for word in env::args(rt)?.skip(1) {
        words.push(word)?;
    }
    Ok(words)
}

/// The load at a place of the words.
fn load(words: &[String], place: usize) -> Result<u32, Fail> {
    match words.get(place) {
        Some(word) => Ok(word.parse::<u32>()?),
        None => Err(Fail::new("a load is missing")),
    }
}

/// What a word says; none where there is no such word.
fn text(words: &[String], place: usize) -> &str {
    match words.get(place) {
        Some(word) => word.as_str(),
        None => "",
    }
}

/// What the words choose, as a line for each thing that was measured.
fn run<R: Clock + Threads + Wait + Sync>(
    rt: &R,
    alloc: Global,
    words: &[String],
) -> Result<Vec<Measured>, Fail> {
    match text(words, 0) {
        "turns" => turns::run(rt, alloc, load(words, 1)?, load(words, 2)?),
        "shared" => {
            let bookings = shared::Bookings {
                threads: load(words, 1)?,
                calls: load(words, 2)?,
                desks: load(words, 3)?,
                stale_after: load(words, 4)?,
            };
            shared::run(rt, alloc, bookings)
        }
        "open" => shared::open(alloc, text(words, 1) == "desk"),
        "show" => show::run(rt, alloc, load(words, 1)?, load(words, 2)?, load(words, 3)?),
        _ => Err(Fail::new("turns, shared, open, show or tiny")),
    }
}

/// A little of everything, without what depends on time.
fn run_tiny<R: Clock + Threads + Wait + Sync + Print>(rt: &R, alloc: Global) -> Result<(), Fail> {
    print_counts(rt, &turns::run(rt, alloc, 2, 50)?)?;
    let bookings = shared::Bookings {
        threads: 2,
        calls: 50,
        desks: 1,
        stale_after: 100_000,
    };
    print_counts(rt, &shared::run(rt, alloc, bookings)?)?;
    print_counts(rt, &shared::open(alloc, true)?)?;
    print_counts(rt, &show::run(rt, alloc, 2, 1, 2)?)
}

/// Prints of each line what depends neither on time nor on the order of threads.
fn print_counts<R: Print>(rt: &R, lines: &[Measured]) -> Result<(), Fail> {
    for line in lines {
        println!(rt; "{} {}", line.name, line.count)?;
    }
    Ok(())
}

/// Prints each line whole.
fn print_all<R: Print>(rt: &R, lines: &[Measured]) -> Result<(), Fail> {
    for line in lines {
        println!(rt; "{} {} {}", line.name, line.figure, line.count)?;
    }
    Ok(())
}

/// Does what the words ask for.
fn main(rt: HostRuntime) -> Result<(), Fail> {
    let words = words(&rt)?;
    if text(&words, 0) == "tiny" {
        return run_tiny(&rt, rt.alloc());
    }
    let lines = run(&rt, rt.alloc(), &words)?;
    print_all(&rt, &lines)
}
