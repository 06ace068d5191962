//! The flow that a cold solve begins with.
ghost use Rattle.std.specs.Prelude.{◌≡◌, ℕ, ◌+◌, ◌<◌, ◌≤◌, length, slice_index, IfOk, IsTrue};
ghost use Rattle.bp_types.specs.declared.change.Change.TheVariants.{Rooms};
ghost use Rattle.bp_types.specs.declared.limits.TheConstants.{MOST_UNITS};
ghost use Rattle.bp_types.specs.Changes.{TakesUnits};
ghost use Rattle.bp_residual.specs.Network.{
  Priced,
  Admits,
  IsNonNegative,
  IsSlack,
  arcs,
  sell_more,
  sell_less,
  spare_more,
  spare_less,
};
ghost use Rattle.bp_flow.specs.Solvers.{ColdSoFar, IsCarrying, IsSolvedFlow};
ghost use Rattle.bp_flow.specs.Rising.{repairs, rises};

use crate::guess::take_over;
use crate::repairs::repairs_of;
use bp_residual::{Flow, Hop};
use bp_simplex::Simplex;
use bp_types::limits::MOST_UNITS;
use bp_types::{Instance, Memory, Span};
use std::alloc::Global;

/// Whether each night of a span has room for so many units more.
fn takes_units(flow: &Flow, span: Span, units: u64) -> bool
    requires { span.to ≤ length flow.now.flow.program.rooms }
    ensures takes { IsTrue result → TakesUnits flow.now.flow.program span units }
    ensures few { IsTrue result → units ≤ MOST_UNITS }
{
    if units > MOST_UNITS {
        return false;
    }
    for night in span.from..span.to {
        if flow.rooms(night) + units > MOST_UNITS {
            return false;
        }
    }
    true
}

/// Sends units over an arc, and adds as many rooms on its nights; where they do not fit it does nothing.
pub(crate) fn grow(flow: &mut Flow, arc: u32, units: u64, instance: &Instance)
    requires arc { arc < arcs flow.old.flow.program }
    requires carrying { IsCarrying instance.now flow.old }
    ensures { IsCarrying instance.now flow.new }
{
    let _nights = flow.nights();
    let hop = Hop { arc, forward: true };
    let span = Span {
        from: flow.tail(hop),
        to: flow.head(hop),
    };
    if units <= flow.room(hop) && takes_units(flow, span, units) {
        flow.move_rooms(span, true, units);
        let _moved = flow.nights();
        flow.push(&[hop], units);
    }
}

/// Whether no residual hop over a stay has a negative reduced cost.
fn stay_is_slack(flow: &Flow, stay: u32) -> bool
    requires { stay < length flow.now.flow.program.stays }
    ensures more { IsTrue result → Admits flow.now.flow (sell_more stay) 1 →
        IsNonNegative flow.now.flow.program (slice_index flow.now.potentials) (sell_more stay) }
    ensures less { IsTrue result → Admits flow.now.flow (sell_less stay) 1 →
        IsNonNegative flow.now.flow.program (slice_index flow.now.potentials) (sell_less stay) }
{
    let terms = flow.stay(stay);
    let sold = flow.sold(stay);
    let from = u128::from(flow.level(terms.span.from));
    let to = u128::from(flow.level(terms.span.to)) + u128::from(terms.rate);
    (terms.forecast <= sold || to <= from) && (sold == 0 || from <= to)
}

/// Whether no residual hop over a night has a negative reduced cost.
fn night_is_slack(flow: &Flow, night: u32) -> bool
    requires { night < length flow.now.flow.program.rooms }
    ensures { IsTrue result → Admits flow.now.flow (spare_less night) 1 →
        IsNonNegative flow.now.flow.program (slice_index flow.now.potentials) (spare_less night) }
{
    let _nights = flow.nights();
    flow.spare(night) == 0 || flow.level(night) <= flow.level(night + 1)
}

/// The same of all stays.
fn stays_are_slack(flow: &Flow) -> bool
    ensures more { IsTrue result → (j : ℕ) → Admits flow.now.flow (sell_more j) 1 →
        IsNonNegative flow.now.flow.program (slice_index flow.now.potentials) (sell_more j) }
    ensures less { IsTrue result → (j : ℕ) → Admits flow.now.flow (sell_less j) 1 →
        IsNonNegative flow.now.flow.program (slice_index flow.now.potentials) (sell_less j) }
{
    for stay in 0..flow.stays() {
        if !stay_is_slack(flow, stay) {
            return false;
        }
    }
    true
}

/// The same of all nights.
fn nights_are_slack(flow: &Flow) -> bool
    ensures { IsTrue result → (n : ℕ) → Admits flow.now.flow (spare_less n) 1 →
        IsNonNegative flow.now.flow.program (slice_index flow.now.potentials) (spare_less n) }
{
    for night in 0..flow.nights() {
        if !night_is_slack(flow, night) {
            return false;
        }
    }
    true
}

/// Whether no residual hop has a negative reduced cost.
fn is_slack(flow: &Flow) -> bool
    ensures { IsTrue result → IsSlack flow.now.flow (slice_index flow.now.potentials) }
{
    let _nights = flow.nights();
    stays_are_slack(flow) && nights_are_slack(flow)
}

/// The flow that carries nothing, on the instance without rooms.
fn empty(alloc: Global, instance: &Instance) -> Result<Flow, Memory>
    ensures so_far { IfOk result (ColdSoFar instance.now 0) }
    ensures few { IfOk result (λ f. repairs f.flow.program.rooms instance.now.rooms ≤ rises instance.now.rooms) }
{
    let flow = Flow::empty(alloc, instance.copy(alloc)?)?;
    let _nights = flow.nights();
    Ok(flow)
}

/// A flow on the stays of the instance that carries exactly rooms of its own, without negative reduced costs: what a
/// simplex found, where that is one, and where it takes no more searches to repair its rooms than to raise them from
/// none; else the empty one.
pub(crate) fn started(alloc: Global, instance: &Instance, simplex: &Simplex) -> Result<Flow, Memory>
    ensures so_far { IfOk result (ColdSoFar instance.now 0) }
    ensures few { IfOk result (λ f. repairs f.flow.program.rooms instance.now.rooms ≤ rises instance.now.rooms) }
{
    let mut flow = empty(alloc, instance)?;
    let most = repairs_of(&flow, instance);
    take_over(simplex, &mut flow, instance);
    if is_slack(&flow) && repairs_of(&flow, instance) <= most {
        let _nights = flow.nights();
        return Ok(flow);
    }
    empty(alloc, instance)
}
