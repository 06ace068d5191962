//! A certificate with the least prices, by a cold solve.
ghost use Rattle.std.specs.Prelude.{◌≡◌, ◌<◌, IfOk};
ghost use Rattle.bp_types.specs.Claim.{IsLeastCertificate};

use bp_flow::Solver;
use bp_types::{Certificate, Instance, Memory, Steps};
use std::alloc::Global;
use std::marker::Brand;
use std::sync::ledger::{Blank, Ledger};

/// A certificate of the instance with its least prices.
pub(crate) fn least_certificate(alloc: Global, instance: &Instance) -> Result<Certificate, Memory>
    ensures { IfOk result (IsLeastCertificate instance.now) }
{
    solved::<Brand>(alloc, instance, Blank::new(1))
}

/// The same, with the searches counted in a ledger.
fn solved<L: Ledger>(
    alloc: Global,
    instance: &Instance,
    blank: Blank,
) -> Result<Certificate, Memory>
    requires name { blank.name ≡ L.name }
    requires parts { blank.parts ≡ L.parts }
    requires some { 0 < blank.parts }
    ensures { IfOk result (IsLeastCertificate instance.now) }
{
    let mut steps: Steps<L> = Steps::new(blank);
    let solver = Solver::cold(alloc, instance, &mut steps)?;
    solver.certificate(alloc)
}
