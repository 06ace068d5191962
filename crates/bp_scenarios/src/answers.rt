//! The answers to lists of changes, from as many threads as there are processors.
ghost use Rattle.std.specs.Prelude.{◌≡◌, ◌<◌, IfOk, All, None};
ghost use Rattle.std.specs.List.{AllZip};
ghost use Rattle.bp_types.specs.Changes.{FitInTurn};
ghost use Rattle.bp_scenarios.specs.Refused.{first_refused, IsAskable};
ghost use Rattle.bp_scenarios.specs.Outcomes.{IsOutcome};

use crate::changes::Changes;
use crate::outcome::{Outcome, Prices};
use crate::refused::first_refused;
use bp_flow::Solver;
use bp_types::{Instance, Memory, Steps};
use bp_warm::catch_up;
use rayon::prelude::*;
use std::alloc::Global;
use std::marker::Brand;
use std::sync::ledger::{Blank, Ledger};
use std::thread::Threads;

/// The outcome of each list of changes, in their order. Each is of the base after its own list alone. The one error is
/// `Memory`.
///
/// The base is solved once. Each piece of the lists has one copy of that solver, which is set to the base for each list
/// and restarted from there; a restart costs what the list's changes move.
pub fn scenarios(
    rt: &(impl Threads + Sync),
    alloc: Global,
    base: &Instance,
    lists: &[Changes],
) -> Result<Vec<Outcome>, Memory>
    requires { All (IsAskable base.now) lists.now }
    ensures { IfOk result (λ v. AllZip (IsOutcome base.now) lists.now v.items) }
{
    let solver = solved::<Brand>(alloc, base, Blank::new(1))?;
    outcomes(rt, alloc, base, &solver, lists)
}

/// The solver of an instance, by a cold solve.
pub(crate) fn solved<L: Ledger>(
    alloc: Global,
    instance: &Instance,
    blank: Blank,
) -> Result<Solver, Memory>
    requires name { blank.name ≡ L.name }
    requires parts { blank.parts ≡ L.parts }
    requires some { 0 < blank.parts }
    ensures { IfOk result (λ s. s.flow.program ≡ instance.now) }
{
    let mut steps: Steps<L> = Steps::new(blank);
    Solver::cold(alloc, instance, &mut steps)
}

/// The outcome of each list of changes, of a base that is solved.
fn outcomes(
    rt: &(impl Threads + Sync),
    alloc: Global,
    base: &Instance,
    solver: &Solver,
    lists: &[Changes],
) -> Result<Vec<Outcome>, Memory>
    requires same { solver.now.flow.program ≡ base.now }
    requires askable { All (IsAskable base.now) lists.now }
    ensures { IfOk result (λ v. AllZip (IsOutcome base.now) lists.now v.items) }
{
    let all: Result<Vec<Outcome>, Memory> = lists
        .par_iter()
        .with_min_len(1)
        .map_init(
            || -> Option<Solver> { None },
            |own: &mut Option<Solver>, changes: &Changes| -> Result<Outcome, Memory>
                requires { (solver.now.flow.program ≡ base.now) × IsAskable base.now changes.now }
                ensures { IfOk result (IsOutcome base.entry.now changes.now) }
            { outcome_of(alloc, base, solver, own, changes) },
        )
        .collect(rt, alloc)?;
    all
}

/// The outcome of one list of changes. `own` is a copy of some solver that this call may use as it likes, and leaves
/// for the next one; none before the first.
pub(crate) fn outcome_of(
    alloc: Global,
    base: &Instance,
    solver: &Solver,
    own: &mut Option<Solver>,
    changes: &Changes,
) -> Result<Outcome, Memory>
    requires same { solver.now.flow.program ≡ base.now }
    requires askable { IsAskable base.now changes.now }
    ensures { IfOk result (IsOutcome base.now changes.now) }
{
    let mut instance = base.copy(alloc)?;
    match first_refused(&mut instance, changes.list()) {
        Some(change) => Ok(Outcome::Refused { change }),
        None => restarted(alloc, solver, own, changes),
    }
}

/// A solver that is the same as the base's: the one that is kept, set to it, or else a copy.
fn same_solver(alloc: Global, base: &Solver, kept: Option<Solver>) -> Result<Solver, Memory>
    ensures { IfOk result (λ s. s.flow ≡ base.now.flow) }
{
    match kept {
        Some(mut solver) => {
            if solver.set_to(base) {
                Ok(solver)
            } else {
                base.copy(alloc)
            }
        }
        None => base.copy(alloc),
    }
}

/// The outcome of changes that the rooms allow.
fn restarted(
    alloc: Global,
    solver: &Solver,
    own: &mut Option<Solver>,
    changes: &Changes,
) -> Result<Outcome, Memory>
    requires allowed { first_refused 1 solver.now.flow.program changes.now ≡ None }
    requires fit { FitInTurn solver.now.flow.program changes.now }
    ensures { IfOk result (IsOutcome solver.now.flow.program changes.now) }
{
    restarted_by::<Brand>(alloc, solver, own, changes, Blank::new(1))
}

/// The same, with the searches counted in a ledger.
fn restarted_by<L: Ledger>(
    alloc: Global,
    base: &Solver,
    own: &mut Option<Solver>,
    changes: &Changes,
    blank: Blank,
) -> Result<Outcome, Memory>
    requires name { blank.name ≡ L.name }
    requires parts { blank.parts ≡ L.parts }
    requires some { 0 < blank.parts }
    requires allowed { first_refused 1 base.now.flow.program changes.now ≡ None }
    requires fit { FitInTurn base.now.flow.program changes.now }
    ensures { IfOk result (IsOutcome base.now.flow.program changes.now) }
{
    let mut steps: Steps<L> = Steps::new(blank);
    let mut solver = same_solver(alloc, base, own.take())?;
    catch_up(&mut solver, changes.list(), &mut steps);
    let value = solver.value();
    let prices = Prices::new(solver.prices(alloc)?);
    *own = Some(solver);
    Ok(Outcome::Solved { value, prices })
}
