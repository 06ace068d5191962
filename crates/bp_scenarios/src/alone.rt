//! The answers to lists of changes, from the caller's own thread.
ghost use Rattle.std.specs.Prelude.{◌≡◌, IfOk, All};
ghost use Rattle.std.specs.List.{AllZip};
ghost use Rattle.bp_scenarios.specs.Refused.{IsAskable};
ghost use Rattle.bp_scenarios.specs.Outcomes.{IsOutcome};

use crate::answers::{outcome_of, solved};
use crate::changes::Changes;
use crate::outcome::Outcome;
use bp_flow::Solver;
use bp_types::{Instance, Memory};
use std::alloc::Global;
use std::marker::Brand;
use std::sync::ledger::Blank;

/// The outcome of each list of changes, in their order, as `scenarios` gives them. It starts no thread and wants no
/// runtime. The one error is `Memory`.
pub fn scenarios_alone(
    alloc: Global,
    base: &Instance,
    lists: &[Changes],
) -> Result<Vec<Outcome>, Memory>
    requires { All (IsAskable base.now) lists.now }
    ensures { IfOk result (λ v. AllZip (IsOutcome base.now) lists.now v.items) }
{
    let solver = solved::<Brand>(alloc, base, Blank::new(1))?;
    in_turn(alloc, base, &solver, lists)
}

/// The outcome of each list of changes, one after another, of a base that is solved.
fn in_turn(
    alloc: Global,
    base: &Instance,
    solver: &Solver,
    lists: &[Changes],
) -> Result<Vec<Outcome>, Memory>
    requires same { solver.now.flow.program ≡ base.now }
    requires askable { All (IsAskable base.now) lists.now }
    ensures { IfOk result (λ v. AllZip (IsOutcome base.now) lists.now v.items) }
{
    let mut outcomes = Vec::with_capacity(alloc, lists.len())?;
    let mut own: Option<Solver> = None;
    for changes in lists {
        outcomes.push(outcome_of(alloc, base, solver, &mut own, changes)?)?;
    }
    Ok(outcomes)
}
