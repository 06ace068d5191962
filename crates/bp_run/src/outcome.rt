//! How the words end over a shelf.
ghost use Rattle.std.specs.Prelude.{◌≡◌, ◌≢◌, List, IfOk, MatchOption};
ghost use Rattle.bp_cli.specs.Words.{Word, texts};
ghost use Rattle.bp_cli.specs.Asked.{asked};
ghost use Rattle.bp_cli.specs.Tasks.{Asks};
ghost use Rattle.bp_inputs.specs.Fetches.{over};
ghost use Rattle.bp_run.specs.Served.{IsPlainTask, MayStartThreads, IsDesk, AreScenarios, IsPortfolio};
ghost use Rattle.bp_run.specs.Demo.{HasDemoNumbers};
ghost use Rattle.bp_run.specs.Lines.{end_status};
ghost use Rattle.bp_run.specs.Ends.{
  HasEnd,
  HasTaskEnd,
  HoldsAll,
  HasStopped,
  IsPlainEnd,
  IsDeskOf,
  AreScenariosOf,
  IsPortfolioOf,
};
ghost use Rattle.bp_run.specs.declared.status.Status.TheVariants.{Fault};

use crate::commands::{desk, portfolio, scenarios};
use crate::{Answer, End, commands};
use bp_cli::{Task, WordsError, law, parse};
use bp_edges::{Gate, Shelf};
use bp_inputs::{HotelFiles, Stop};
use bp_types::Memory;
use std::alloc::Global;
use std::sync::Wait;
use std::thread::Threads;

/// The names and the number of workers of a desk's line.
#[derive(Clone, Copy, Debug)]
pub struct DeskLine<'a> {
    /// The names of the hotel's four files.
    pub hotel: HotelFiles<'a>,
    /// The name of the script.
    pub script: &'a str,
    /// How many optimisers run beside the sessions.
    pub workers: u32,
}

/// The names of a line of scenarios.
#[derive(Clone, Copy, Debug)]
pub struct ScenariosLine<'a> {
    /// The name of the problem.
    pub problem: &'a str,
    /// The name of the file with their changes.
    pub changes: &'a str,
}

/// The name of the list and the number of workers of a portfolio's line.
#[derive(Clone, Copy, Debug)]
pub struct PortfolioLine<'a> {
    /// The name of the list.
    pub list: &'a str,
    /// How many optimisers run beside the sessions of each hotel.
    pub workers: u32,
}

/// How a call ends that was stopped at a file.
fn stopped(stop: Stop) -> Result<End, Memory>
    ensures { HasStopped stop result }
{
    match stop {
        Stop::Memory => Err(Memory),
        Stop::Fault { file } => Ok(End::Fault { file }),
        Stop::Refused { file, cause } => Ok(End::Refused { file, cause }),
    }
}

/// How a task that one thread can do ends over the shelf, before anything is written. The one error is `Memory`.
pub fn end_of<S: Shelf>(alloc: Global, task: &Task<'_>, shelf: &mut S) -> Result<End, Memory>
    requires plain { IsPlainTask (asked task.now) }
    requires numbers { HasDemoNumbers (asked task.now) }
    ensures end { IfOk result
        (HasTaskEnd (asked task.now) (over S.held S.faults S.fetches S.last S.steady shelf.old shelf.new)) }
    ensures unfailing { S.steady shelf.old → (words : List Word) → Asks words (asked task.now)
        → HoldsAll words (S.held shelf.old) → IfOk result (λ end. end_status end ≢ Fault) }
    ensures plain { IfOk result IsPlainEnd }
{
    match commands::answer(alloc, shelf, task) {
        Ok(answer) => Ok(End::Answered(answer)),
        Err(stop) => stopped(stop),
    }
}

/// What a desk's line names, where the task is that of one.
fn desk_of<'a>(task: &Task<'a>) -> Option<DeskLine<'a>>
    ensures { MatchOption result (IsDesk (asked task.now) → ⊥) (IsDeskOf (asked task.now)) }
{
    match task {
        Task::Desk {
            hotel,
            stays,
            forecast,
            bookings,
            script,
            workers,
        } => Some(DeskLine {
            hotel: commands::hotel_files(hotel, stays, forecast, bookings),
            script: script.text(),
            workers: *workers,
        }),
        _ => None,
    }
}

/// What a line of scenarios names, where the task is that of one.
fn scenarios_of<'a>(task: &Task<'a>) -> Option<ScenariosLine<'a>>
    ensures { MatchOption result (AreScenarios (asked task.now) → ⊥) (AreScenariosOf (asked task.now)) }
{
    match task {
        Task::Scenarios { problem, changes } => Some(ScenariosLine {
            problem: problem.text(),
            changes: changes.text(),
        }),
        _ => None,
    }
}

/// What a portfolio's line names, where the task is that of one.
fn portfolio_of<'a>(task: &Task<'a>) -> Option<PortfolioLine<'a>>
    ensures { MatchOption result (IsPortfolio (asked task.now) → ⊥) (IsPortfolioOf (asked task.now)) }
{
    match task {
        Task::Portfolio { list, workers } => Some(PortfolioLine {
            list: list.text(),
            workers: *workers,
        }),
        _ => None,
    }
}

/// How the words of a line end that may start threads and is no desk's and none of scenarios.
#[tactic(auto, using(crate::proofs::EndLemmas::not_threads_task, crate::proofs::EndLemmas::few_workers_each, crate::proofs::EndLemmas::ran_all_has, crate::proofs::EndLemmas::ran_all_stopped, crate::proofs::EndLemmas::stopped_has, crate::proofs::EndLemmas::stopped_unfailing, crate::proofs::EndLemmas::answer_is_no_fault))]
fn end_of_portfolio<R: Wait + Threads + Sync, S: Shelf, G: Gate>(
    rt: &R,
    alloc: Global,
    words: &[String],
    shelf: &mut S,
    task: &Task<'_>,
    gate: &G,
) -> Result<End, Memory>
    requires may { MayStartThreads (texts words.now) }
    requires asks { Asks (texts words.now) (asked task.now) }
    requires no_desk { IsDesk (asked task.now) → ⊥ }
    requires no_scenarios { AreScenarios (asked task.now) → ⊥ }
    ensures end { IfOk result
        (HasEnd (texts words.now) (over S.held S.faults S.fetches S.last S.steady shelf.old shelf.new)) }
    ensures unfailing { S.steady shelf.old → HoldsAll (texts words.now) (S.held shelf.old) →
        IfOk result (λ end. end_status end ≢ Fault) }
{
    law::tasks_are_unique();
    let Some(line) = portfolio_of(task) else {
        return Ok(End::NotPlain);
    };
    match portfolio::answer(rt, alloc, shelf, line.list, line.workers, gate) {
        Ok(runs) => Ok(End::Answered(Answer::RanAll(runs))),
        Err(stop) => stopped(stop),
    }
}

/// How the words of a line end that may start threads and is no desk's.
#[tactic(auto, using(crate::proofs::EndLemmas::foreseen_has, crate::proofs::EndLemmas::foreseen_stopped, crate::proofs::EndLemmas::stopped_has, crate::proofs::EndLemmas::stopped_unfailing, crate::proofs::EndLemmas::answer_is_no_fault))]
fn end_beside_desk<R: Wait + Threads + Sync, S: Shelf, G: Gate>(
    rt: &R,
    alloc: Global,
    words: &[String],
    shelf: &mut S,
    task: &Task<'_>,
    gate: &G,
) -> Result<End, Memory>
    requires may { MayStartThreads (texts words.now) }
    requires asks { Asks (texts words.now) (asked task.now) }
    requires no_desk { IsDesk (asked task.now) → ⊥ }
    ensures end { IfOk result
        (HasEnd (texts words.now) (over S.held S.faults S.fetches S.last S.steady shelf.old shelf.new)) }
    ensures unfailing { S.steady shelf.old → HoldsAll (texts words.now) (S.held shelf.old) →
        IfOk result (λ end. end_status end ≢ Fault) }
{
    let Some(line) = scenarios_of(task) else {
        return end_of_portfolio(rt, alloc, words, shelf, task, gate);
    };
    match scenarios::answer(rt, alloc, shelf, line.problem, line.changes) {
        Ok(outcomes) => Ok(End::Answered(Answer::Foreseen(outcomes))),
        Err(stop) => stopped(stop),
    }
}

/// How the words of a line that may start threads end over the shelf, before anything is written. The one error is
/// `Memory`.
#[tactic(auto, using(crate::proofs::EndLemmas::few_workers, crate::proofs::EndLemmas::ran_has, crate::proofs::EndLemmas::ran_stopped, crate::proofs::EndLemmas::stopped_has, crate::proofs::EndLemmas::stopped_unfailing, crate::proofs::EndLemmas::answer_is_no_fault))]
pub fn end_with_threads<R: Wait + Threads + Sync, S: Shelf, G: Gate>(
    rt: &R,
    alloc: Global,
    words: &[String],
    shelf: &mut S,
    gate: &G,
) -> Result<End, Memory>
    requires { MayStartThreads (texts words.now) }
    ensures end { IfOk result
        (HasEnd (texts words.now) (over S.held S.faults S.fetches S.last S.steady shelf.old shelf.new)) }
    ensures unfailing { S.steady shelf.old → HoldsAll (texts words.now) (S.held shelf.old) →
        IfOk result (λ end. end_status end ≢ Fault) }
{
    law::tasks_are_unique();
    let task = match parse(alloc, words) {
        Ok(task) => task,
        Err(WordsError::Usage) => return Ok(End::NotPlain),
        Err(WordsError::Memory) => return Err(Memory),
    };
    let Some(line) = desk_of(&task) else {
        return end_beside_desk(rt, alloc, words, shelf, &task, gate);
    };
    match desk::answer(
        rt,
        alloc,
        shelf,
        &line.hotel,
        line.script,
        line.workers,
        gate,
    ) {
        Ok(ran) => Ok(End::Answered(Answer::Ran(ran))),
        Err(stop) => stopped(stop),
    }
}
