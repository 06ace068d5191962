//! What the scripts of bench/ time on one thread, and scenarios on several. The first word chooses what is run, the
//! others are its loads; each line that it prints has the nanoseconds that were taken, and a number that does not
//! depend on them.
//!
//!     bp_bench restarts ROUNDS          a cold solve, then so many bookings, changes of a rate and quotes of groups
//!     bp_bench scenarios LISTS          so many lists of five changes
//!     bp_bench spans LEAST MOST VISITS  so many visits to a ledger, on spans of so many nights at least and at most
//!     bp_bench book BOOKS BATCHES       so many batches of 200 calls and a vector, on each of so many books
//!     bp_bench tables TIMES FILE...     so many readings of three tables, of which the fastest is told: the files are
//!                                       those of the hotel, its stays, their forecasts and the bookings
//!     bp_bench tiny                     a little of each, and only the numbers that do not depend on time
#![tactic(auto)]

mod busy;
mod desk;
mod draws;
mod hotel;
mod restarts;
mod scenarios;
mod spans;
mod tables;
mod timed;
mod year;

use std::alloc::Global;
use std::env;
use std::env::Env;
use std::rt::Files;
use std::test::Fail;
use std::thread::Threads;
use std::time::Clock;
use tables::Texts;
use timed::Timed;

/// The words behind the program's name.
fn words<R: Env + AllocGlobal>(rt: &R) -> Result<Vec<String>, Fail> {
    let mut words = Vec::new(rt.alloc());
    for word in env::args(rt)?.skip(1) {
        words.push(word)?;
    }
    Ok(words)
}

/// The load at a place of the words.
fn load(words: &[String], place: usize) -> Result<u32, Fail> {
    match words.get(place) {
        Some(word) => Ok(word.parse::<u32>()?),
        None => Err(Fail::new("a load is missing")),
    }
}

/// What a word says; nothing where there is no such word.
fn text(words: &[String], place: usize) -> &str {
    match words.get(place) {
        Some(word) => word.as_str(),
        None => "",
    }
}

/// Times the readings of the tables in the files that the words name.
fn run_tables<R: Clock + Files + AllocGlobal>(
    rt: &R,
    words: &[String],
) -> Result<Vec<Timed>, Fail> {
    let (hotel, stays) = (text(words, 2), text(words, 3));
    let (forecast, bookings) = (text(words, 4), text(words, 5));
    let texts = Texts::read(rt, hotel, stays, forecast, bookings)?;
    tables::run(rt, rt.alloc(), &texts, load(words, 1)?)
}

/// What the words choose, as a line for each thing that was timed.
fn run<R: Clock + Threads + Files + AllocGlobal + Sync>(
    rt: &R,
    words: &[String],
) -> Result<Vec<Timed>, Fail> {
    let alloc = rt.alloc();
    match text(words, 0) {
        "restarts" => restarts::run(rt, alloc, load(words, 1)?),
        "scenarios" => scenarios::run(rt, alloc, load(words, 1)?),
        "spans" => spans::run(rt, alloc, load(words, 1)?, load(words, 2)?, load(words, 3)?),
        "book" => busy::run(rt, alloc, load(words, 1)?, load(words, 2)?),
        "tables" => run_tables(rt, words),
        _ => Err(Fail::new("restarts, scenarios, spans, book, tables or tiny")),
    }
}

/// A little of everything, without times.
fn run_tiny<R: Clock + Threads + Sync + Print>(rt: &R, alloc: Global) -> Result<(), Fail> {
    print_counts(rt, &restarts::run(rt, alloc, 2)?)?;
    print_counts(rt, &scenarios::run(rt, alloc, 3)?)?;
    print_counts(rt, &spans::run(rt, alloc, 100, 400, 50)?)?;
    print_counts(rt, &busy::run(rt, alloc, 1, 2)?)?;
    print_counts(rt, &tables::run(rt, alloc, &Texts::tiny(alloc)?, 2)?)
}

/// Prints of each line what does not depend on time.
fn print_counts<R: Print>(rt: &R, lines: &[Timed]) -> Result<(), Fail> {
    for line in lines {
        println!(rt; "{} {}", line.name, line.count)?;
    }
    Ok(())
}

/// Prints each line with its time.
fn print_times<R: Print>(rt: &R, lines: &[Timed]) -> Result<(), Fail> {
    for line in lines {
        println!(rt; "{} {} {}", line.name, line.nanoseconds, line.count)?;
    }
    Ok(())
}

/// Does what the words ask for.
fn main(rt: HostRuntime) -> Result<(), Fail> {
    let words = words(&rt)?;
    if text(&words, 0) == "tiny" {
        return run_tiny(&rt, rt.alloc());
    }
    let lines = run(&rt, &words)?;
    print_times(&rt, &lines)
}
