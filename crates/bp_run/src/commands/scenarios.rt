//! `scenarios PROBLEM CHANGES`: the optimum and the least prices of a problem after each list of changes.
ghost use Rattle.std.specs.Prelude.{◌≡◌, IfOk, All};
ghost use Rattle.std.specs.List.{AllZip};
ghost use Rattle.bp_scenarios.specs.Refused.{IsAskable};
ghost use Rattle.bp_scenarios.specs.Outcomes.{IsOutcome};
ghost use Rattle.bp_inputs.specs.Fetches.{over};
ghost use Rattle.bp_run.specs.Command.{Brings};
ghost use Rattle.bp_run.specs.Scenarios.{scenarios_command};

use bp_edges::Shelf;
use bp_inputs::{ProblemFile, ScenariosFile, Stop, WhatIfLists, load};
use bp_scenarios::Outcome;
use bp_types::{Instance, Memory};
use std::alloc::Global;
use std::marker::Model;
use std::thread::Threads;

/// The outcomes of scenarios, in their order. Contracts see the list.
#[derive(Debug, Drop)]
pub struct Outcomes {
    list: Vec<Outcome>,
}

impl Model for Outcomes {
    ghost use Rattle.std.specs.Prelude.{List};
    ghost use Rattle.bp_scenarios.specs.declared.outcome.Outcome.{Outcome};

    ghost Value = { List Outcome };

    ghost view = { λ o. o.list.items };
}

impl Outcomes {
    /// The outcomes, in the order of the scenarios.
    pub fn list(&self) -> &[Outcome]
        ensures { result.now ≡ self.now }
    {
        &self.list
    }
}

/// Reads a problem and scenarios of it, and answers each.
pub fn answer<R: Threads + Sync, S: Shelf>(
    rt: &R,
    alloc: Global,
    shelf: &mut S,
    problem: &str,
    changes: &str,
) -> Result<Outcomes, Stop>
    ensures { Brings (over S.held S.faults S.fetches S.last S.steady shelf.old shelf.new)
        (scenarios_command problem.now changes.now) result }
{
    let base = load(alloc, shelf, &ProblemFile, 1, problem)?;
    let file = ScenariosFile { problem: &base };
    let lists = load(alloc, shelf, &file, 2, changes)?;
    Ok(foreseen(rt, alloc, &base, &lists)?)
}

/// The outcome of each list of changes.
fn foreseen<R: Threads + Sync>(
    rt: &R,
    alloc: Global,
    base: &Instance,
    lists: &WhatIfLists,
) -> Result<Outcomes, Memory>
    requires { All (IsAskable base.now) lists.now }
    ensures { IfOk result (λ o. AllZip (IsOutcome base.now) lists.now o) }
{
    let list = bp_scenarios::scenarios(rt, alloc, base, lists.as_slice())?;
    Ok(Outcomes { list })
}

/// Reads a problem and scenarios of it, and answers each after the one before it. It starts no thread.
pub fn answer_alone<S: Shelf>(
    alloc: Global,
    shelf: &mut S,
    problem: &str,
    changes: &str,
) -> Result<Outcomes, Stop>
    ensures { Brings (over S.held S.faults S.fetches S.last S.steady shelf.old shelf.new)
        (scenarios_command problem.now changes.now) result }
{
    let base = load(alloc, shelf, &ProblemFile, 1, problem)?;
    let lists = load(alloc, shelf, &ScenariosFile { problem: &base }, 2, changes)?;
    Ok(foreseen_alone(alloc, &base, &lists)?)
}

/// The outcome of each list of changes, one after another.
fn foreseen_alone(alloc: Global, base: &Instance, lists: &WhatIfLists) -> Result<Outcomes, Memory>
    requires { All (IsAskable base.now) lists.now }
    ensures { IfOk result (λ o. AllZip (IsOutcome base.now) lists.now o) }
{
    let list = bp_scenarios::scenarios_alone(alloc, base, lists.as_slice())?;
    Ok(Outcomes { list })
}
