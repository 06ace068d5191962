//! Answers to many lists of five changes on a year, by as many threads as there are processors.
use crate::draws::Draws;
use crate::timed::{Timed, since};
use crate::year::{SEED, STAYS, stay, year};
use bp_scenarios::{Outcome, read_scenarios, scenarios};
use std::alloc::Global;
use std::test::Fail;
use std::thread::Threads;
use std::time::{Clock, Instant};

/// Changes of a list.
const CHANGES: u32 = 5;

/// The line of a change: rooms of some nights, a forecast, or a rate.
fn change_line(alloc: Global, draws: &mut Draws) -> Result<String, Fail> {
    let kind = draws.below(4);
    if kind < 2 {
        let span = stay(draws).span;
        let way = if kind == 0 { "up" } else { "down" };
        let units = 1 + draws.below(3);
        return Ok(format!(in alloc; "rooms {} {} {way} {units}\n", span.from, span.to)?);
    }
    let stay = draws.below(u64::from(STAYS));
    if kind == 2 {
        let value = draws.below(20);
        return Ok(format!(in alloc; "demand {stay} {value}\n")?);
    }
    let value = 5000 + draws.below(60000);
    Ok(format!(in alloc; "rate {stay} {value}\n")?)
}

/// A text of so many scenarios.
fn change_text(alloc: Global, draws: &mut Draws, lists: u32) -> Result<Vec<u8>, Fail> {
    let mut text = Vec::new(alloc);
    text.extend_from_slice(b"scenarios 1\n")?;
    for _ in 0..lists {
        text.extend_from_slice(b"scenario\n")?;
        for _ in 0..CHANGES {
            let line = change_line(alloc, draws)?;
            text.extend_from_slice(line.as_bytes())?;
        }
    }
    text.extend_from_slice(b"end\n")?;
    Ok(text)
}

/// How many lists are refused.
fn count_refused(outcomes: &[Outcome]) -> u128 {
    let mut refused: u128 = 0;
    for outcome in outcomes {
        if let Outcome::Refused { .. } = outcome {
            refused = refused.saturating_add(1);
        }
    }
    refused
}

/// Times the call alone, without reading and writing. The count is of the lists that are refused.
pub(crate) fn run<R: Clock + Threads + Sync>(
    rt: &R,
    alloc: Global,
    lists: u32,
) -> Result<Vec<Timed>, Fail> {
    let mut draws = Draws { last: SEED };
    let base = year(alloc, &mut draws)?;
    let text = change_text(alloc, &mut draws, lists)?;
    let Ok(lists) = read_scenarios(alloc, &base, &text) else {
        return Err(Fail::new("no scenarios"));
    };
    let start = Instant::now(rt)?;
    let outcomes = scenarios(rt, alloc, &base, &lists)?;
    let nanoseconds = since(rt, start)?;
    let mut lines = Vec::new(alloc);
    lines.push(Timed {
        name: "scenarios",
        nanoseconds,
        count: count_refused(&outcomes),
    })?;
    Ok(lines)
}
