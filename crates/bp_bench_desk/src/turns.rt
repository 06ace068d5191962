//! Turns at one history lock: each thread adds pairs to one list, a pair a turn, until the list is full.
ghost use Rattle.std.specs.Prelude.{◌≤◌, All, IfOk};
ghost use Rattle.bp_types.specs.declared.limits.TheConstants.{CALLERS};
ghost use Rattle.bp_bench_desk.specs.Turning.{IsReady};

use crate::measured::Measured;
use bp_turn::{Memory, Story, Turn, TurnSeat};
use bp_types::limits::CALLERS;
use std::alloc::Global;
use std::sync::Wait;
use std::test::Fail;
use std::thread::{Threads, for_each_mut};
use std::time::{Clock, Instant};

/// The list: of each entry who added it, and how many it had added before.
#[derive(Drop)]
struct Log {
    pairs: Vec<(u32, u32)>,
}

impl Story for Log {
    type Fixed = ();

    type Entry = (u32, u32);

    ghost fixed = { λ _. tt };

    ghost story = { λ s. s.pairs.items };

    ghost caller = { λ e. e.0 };

    fn length(&self) -> u64 {
        self.pairs.len() as u64
    }
}

/// A seat at the lock, its number, and how many turns it has had in which it added an entry.
#[derive(Drop)]
struct Worker {
    seat: TurnSeat<Log>,
    caller: u32,
    turns: u64,
}

/// Adds entries until there are enough.
fn work<R: Wait>(rt: &R, turn: &Turn<Log>, worker: &mut Worker, enough: usize)
    requires { IsReady turn.now worker.old.caller worker.old.seat }
{
    for number in 0..u32::MAX {
        let mut log = turn.take(rt, &mut worker.seat);
        if log.pairs.len() >= enough || log.pairs.push((worker.caller, number)).is_err() {
            turn.give(&mut worker.seat, log);
            return;
        }
        turn.give_logged(&mut worker.seat, log);
        worker.turns = worker.turns.saturating_add(1);
    }
}

/// Lets all workers work, each in a thread of its own where one can be made.
fn work_all<R: Threads + Wait + Sync>(
    rt: &R,
    turn: &Turn<Log>,
    workers: &mut [Worker],
    enough: usize,
)
    requires { All (λ w. IsReady turn.now w.caller w.seat) workers.old }
{
    let threads = workers.len().max(1);
    for_each_mut(
        rt,
        workers,
        threads,
        &|_, worker| work(rt, turn, worker, enough),
    );
}

/// A lock over an empty log, and the workers with the numbers below `threads`.
fn hire(alloc: Global, threads: u32) -> Result<(Turn<Log>, Vec<Worker>), Memory>
    requires { threads ≤ CALLERS }
    ensures { IfOk result (λ r. All (λ w. IsReady r.0 w.caller w.seat) r.1.items) }
{
    let pairs = Vec::new(alloc);
    let (turn, mut first) = Turn::new(alloc, Log { pairs })?;
    let mut workers = Vec::new(alloc);
    for caller in 1..threads {
        let seat = turn.split(alloc, &mut first, caller)?;
        let Ok(()) = workers.push(Worker {
            seat,
            caller,
            turns: 0,
        }) else {
            return Err(Memory);
        };
    }
    let Ok(()) = workers.push(Worker {
        seat: first,
        caller: 0,
        turns: 0,
    }) else {
        return Err(Memory);
    };
    Ok((turn, workers))
}

/// The turns of all workers, and of the one that had the fewest.
fn count_turns(workers: &[Worker]) -> (u64, u64) {
    let mut all: u64 = 0;
    let mut fewest = u64::MAX;
    for worker in workers {
        all = all.saturating_add(worker.turns);
        fewest = fewest.min(worker.turns);
    }
    (all, fewest)
}

/// Times so many entries by so many threads. The second line has the turns of the thread that had the fewest.
pub(crate) fn run<R: Clock + Threads + Wait + Sync>(
    rt: &R,
    alloc: Global,
    threads: u32,
    entries: u32,
) -> Result<Vec<Measured>, Fail> {
    if threads < 1 || threads > CALLERS as u32 {
        return Err(Fail::new(format_args!("1 to {CALLERS} threads")));
    }
    let (turn, mut workers) = hire(alloc, threads)?;
    let start = Instant::now(rt)?;
    work_all(rt, &turn, &mut workers, entries as usize);
    let figure = start.elapsed(rt)?.as_nanos();
    let (count, fewest) = count_turns(&workers);
    let mut lines = Vec::new(alloc);
    lines.push(Measured {
        name: "turns",
        figure,
        count,
    })?;
    lines.push(Measured {
        name: "fewest",
        figure: u128::from(fewest),
        count: u64::from(threads),
    })?;
    Ok(lines)
}
