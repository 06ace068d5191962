//! The displacement of a group, as the difference of two optima.
ghost use Rattle.std.specs.Prelude.{◌≡◌, ◌+◌, None, length, slice_index, IfOk, IfErr, OnOk};
ghost use Rattle.bp_types.specs.Claim.{IsLeastCertificate};
ghost use Rattle.bp_types.specs.Spans.{IsSpanWithin, first_short};
ghost use Rattle.bp_types.specs.Changes.{HasUnits};
ghost use Rattle.bp_types.specs.Displacement.{IsDisplacement, without};
ghost use Rattle.bp_flow.specs.Settled.{IsSettled};
ghost use Rattle.bp_flow.specs.Solvers.{CountsUpTo};
ghost use Rattle.bp_group.specs.Quotes.{night_of};

use crate::rooms::first_short;
use crate::{GroupQuote, QuoteError};
use bp_flow::Solver;
use bp_types::{Certificate, Memory, Span, Steps, law};
use std::alloc::Global;
use std::sync::ledger::Ledger;

/// What a group of so many units on each night of a span costs a settled solver's instance, as of a position of a
/// history. The solver stays as it is.
///
/// It answers `NoRoom` where a night has fewer units, before memory is asked for, and `Memory` where there is none for
/// a copy of the solver and the two certificates. It makes as many searches as units, and one more, at most, all on the
/// copy.
pub fn quote<L: Ledger>(
    alloc: Global,
    solver: &Solver,
    position: u64,
    span: Span,
    rooms: u64,
    steps: &mut Steps<L>,
) -> Result<GroupQuote, QuoteError>
    requires settled { IsSettled solver.now }
    requires span { IsSpanWithin (length solver.now.flow.program.rooms) span }
    ensures displacement { IfOk result (λ q. IsDisplacement solver.now.flow.program span rooms q.displacement) }
    ensures position { IfOk result (λ q. q.position ≡ position) }
    ensures span { IfOk result (λ q. q.span ≡ span) }
    ensures rooms { IfOk result (λ q. q.rooms ≡ rooms) }
    ensures before { IfOk result (λ q. IsLeastCertificate solver.now.flow.program q.before) }
    ensures after { IfOk result (λ q. IsLeastCertificate (without solver.now.flow.program span rooms) q.after) }
    ensures room { OnOk result (first_short (slice_index solver.now.flow.program.rooms) span rooms ≡ None) }
    ensures no_room { IfErr result (λ e. first_short (slice_index solver.now.flow.program.rooms) span rooms ≡
        night_of e) }
    ensures counted { CountsUpTo steps.old steps.new (rooms + 1) }
{
    law::certificates_tell_displacement();
    if let Some(night) = first_short(solver, span, rooms) {
        return Err(QuoteError::NoRoom { night });
    }
    let before = solver.certificate(alloc)?;
    let after = optimum_without(alloc, solver, span, rooms, steps)?;
    let displacement = before.value - after.value;
    Ok(GroupQuote {
        position,
        span,
        rooms,
        displacement,
        before,
        after,
    })
}

/// The certificate of the instance with so many units fewer on each night of a span.
fn optimum_without<L: Ledger>(
    alloc: Global,
    solver: &Solver,
    span: Span,
    units: u64,
    steps: &mut Steps<L>,
) -> Result<Certificate, Memory>
    requires span { IsSpanWithin (length solver.now.flow.program.rooms) span }
    requires units { HasUnits solver.now.flow.program span units }
    ensures least { IfOk result (IsLeastCertificate (without solver.now.flow.program span units)) }
    ensures counted { CountsUpTo steps.old steps.new (units + 1) }
{
    let mut without = solver.copy(alloc)?;
    without.lower(span, units, steps);
    without.settle(steps);
    without.certificate(alloc)
}
