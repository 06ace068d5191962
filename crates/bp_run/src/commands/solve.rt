//! `solve PROBLEM`: a certificate with the least prices.
ghost use Rattle.std.specs.Prelude.{◌≡◌, ◌<◌, IfOk};
ghost use Rattle.bp_inputs.specs.Fetches.{over};
ghost use Rattle.bp_run.specs.Command.{Brings};
ghost use Rattle.bp_types.specs.Claim.{IsLeastCertificate};
ghost use Rattle.bp_run.specs.Solve.{solve_command};

use bp_edges::Shelf;
use bp_flow::Solver;
use bp_inputs::{ProblemFile, Stop, load};
use bp_types::{Certificate, Instance, Memory, Steps};
use std::alloc::Global;
use std::marker::Brand;
use std::sync::ledger::{Blank, Ledger};

/// Reads the problem and solves it.
pub fn answer<S: Shelf>(alloc: Global, shelf: &mut S, problem: &str) -> Result<Certificate, Stop>
    ensures { Brings (over S.held S.faults S.fetches S.last S.steady shelf.old shelf.new) (solve_command problem.now)
        result }
{
    let instance = load(alloc, shelf, &ProblemFile, 1, problem)?;
    Ok(least_certificate(alloc, &instance)?)
}

/// A certificate of the instance with its least prices, by a cold solve.
pub fn least_certificate(alloc: Global, instance: &Instance) -> Result<Certificate, Memory>
    ensures { IfOk result (IsLeastCertificate instance.now) }
{
    solved::<Brand>(alloc, instance, Blank::new(1))
}

/// The same, with the searches counted in a ledger.
fn solved<L: Ledger>(
    alloc: Global,
    instance: &Instance,
    blank: Blank,
) -> Result<Certificate, Memory>
    requires name { blank.name ≡ L.name }
    requires parts { blank.parts ≡ L.parts }
    requires some { 0 < blank.parts }
    ensures { IfOk result (IsLeastCertificate instance.now) }
{
    let mut steps: Steps<L> = Steps::new(blank);
    let solver = Solver::cold(alloc, instance, &mut steps)?;
    solver.certificate(alloc)
}
