//! What one unit more or fewer on a night makes of the optimum.
ghost use Rattle.std.specs.Prelude.{◌≡◌, ◌<◌, ◌≤◌, ◌^◌, length, slice_index, MatchOption, IfOk};
ghost use Rattle.bp_types.specs.declared.limits.TheConstants.{MOST_ROOMS, MOST_NIGHTS};
ghost use Rattle.bp_types.specs.Displacement.{IsGain, IsLoss, with_more, without, night_span};
ghost use Rattle.bp_types.specs.Optimum.{IsOptimum};

use bp_flow::Solver;
use bp_types::limits::MOST_ROOMS;
use bp_types::{Memory, Span, Steps};
use std::alloc::Global;
use std::sync::ledger::Ledger;

/// What one unit more on the night brings, beside the optimum of the solver's program; None where the night has as many
/// as a problem may have.
pub(crate) fn gain_of<L: Ledger>(
    alloc: Global,
    solver: &Solver,
    value: u128,
    night: u32,
    steps: &mut Steps<L>,
) -> Result<Option<u128>, Memory>
    requires optimum { IsOptimum solver.now.flow.program value }
    requires in_range { night < length solver.now.flow.program.rooms }
    requires rooms { slice_index solver.now.flow.program.rooms night ≤ MOST_ROOMS }
    ensures { IfOk result (λ gain. MatchOption gain (slice_index solver.now.flow.program.rooms night ≡
        MOST_ROOMS) (IsGain solver.now.flow.program night)) }
{
    if solver.rooms(night) == MOST_ROOMS {
        return Ok(None);
    }
    let more = value_with_more(alloc, solver, night, steps)?;
    Ok(Some(more.saturating_sub(value)))
}

/// What one unit fewer on the night costs, beside the optimum of the solver's program; None where the night has none.
pub(crate) fn loss_of<L: Ledger>(
    alloc: Global,
    solver: &Solver,
    value: u128,
    night: u32,
    steps: &mut Steps<L>,
) -> Result<Option<u128>, Memory>
    requires optimum { IsOptimum solver.now.flow.program value }
    requires in_range { night < length solver.now.flow.program.rooms }
    ensures { IfOk result (λ loss. MatchOption loss (slice_index solver.now.flow.program.rooms night ≡
        0) (IsLoss solver.now.flow.program night)) }
{
    if solver.rooms(night) == 0 {
        return Ok(None);
    }
    let fewer = value_without(alloc, solver, night, steps)?;
    Ok(Some(value.saturating_sub(fewer)))
}

/// The optimum with one unit more on the night.
fn value_with_more<L: Ledger>(
    alloc: Global,
    solver: &Solver,
    night: u32,
    steps: &mut Steps<L>,
) -> Result<u128, Memory>
    requires in_range { night < length solver.now.flow.program.rooms }
    requires space { slice_index solver.now.flow.program.rooms night < MOST_ROOMS }
    ensures { IfOk result (IsOptimum (with_more solver.now.flow.program (night_span night) 1)) }
{
    let _nights = solver.nights();
    let mut more = solver.copy(alloc)?;
    more.raise(night_span(night), 1, steps);
    Ok(more.value())
}

/// The optimum with one unit fewer on the night.
fn value_without<L: Ledger>(
    alloc: Global,
    solver: &Solver,
    night: u32,
    steps: &mut Steps<L>,
) -> Result<u128, Memory>
    requires in_range { night < length solver.now.flow.program.rooms }
    requires room { 0 < slice_index solver.now.flow.program.rooms night }
    ensures { IfOk result (IsOptimum (without solver.now.flow.program (night_span night) 1)) }
{
    let _nights = solver.nights();
    let mut fewer = solver.copy(alloc)?;
    fewer.lower(night_span(night), 1, steps);
    Ok(fewer.value())
}

/// The span of one night alone.
fn night_span(night: u32) -> Span
    requires { night < MOST_NIGHTS }
    ensures { result ≡ night_span night }
{
    Span {
        from: night,
        to: night + 1,
    }
}
