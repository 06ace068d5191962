//! The forecast of a stay, set in a flow, and what is sold of the stay with it.
ghost use Rattle.std.specs.Prelude.{◌≡◌, ℕ, ◌+◌, ◌-◌, ◌<◌, ◌≤◌, false, length, slice_index};
ghost use Rattle.bp_types.specs.declared.limits.TheConstants.{MOST_FORECAST};
ghost use Rattle.bp_types.specs.declared.change.Change.TheVariants.{Rooms, Demand};
ghost use Rattle.bp_types.specs.Program.{stay_at};
ghost use Rattle.bp_types.specs.Changes.{changed, Fits};
ghost use Rattle.bp_residual.specs.Network.{Priced, HasImbalance, IsBalanced, IsSlack, nodes};
ghost use Rattle.bp_flow.specs.Solvers.{IsSolvedFlow, SetsDemand, CountsSearches, difference};

use crate::moves::shift;
use bp_paths::Scratch;
use bp_residual::Flow;
use bp_types::{Span, Steps};
use std::sync::ledger::Ledger;

/// Sets the forecast of a stay, and how much of it is sold.
fn set_demand(flow: &mut Flow, stay: u32, value: u64, units: u64)
    requires stay { stay < length flow.old.flow.program.stays }
    requires value { value ≤ MOST_FORECAST }
    requires units { units ≤ value }
    ensures { SetsDemand flow.old flow.new stay value units }
{
    let _nights = flow.nights();
    let forecast = flow.stay(stay).forecast;
    if value < forecast {
        flow.set_sold(stay, units);
        flow.set_forecast(stay, value);
    } else {
        flow.set_forecast(stay, value);
        flow.set_sold(stay, units);
    }
}

/// Sets a stay's forecast, in units; what is sold follows it where the stay is worth more than its nights. It makes at
/// most as many searches as the two forecasts differ by.
pub(crate) fn reforecast<L: Ledger>(
    flow: &mut Flow,
    scratch: &mut Scratch,
    stay: u32,
    value: u64,
    steps: &mut Steps<L>,
)
    requires stay { stay < length flow.old.flow.program.stays }
    requires value { value ≤ MOST_FORECAST }
    requires size { length scratch.old.distances ≡ nodes flow.old }
    requires solved { IsSolvedFlow flow.old }
    ensures program { flow.new.flow.program ≡ changed flow.old.flow.program (Demand stay value) }
    ensures balanced { IsBalanced flow.new.flow }
    ensures slack { IsSlack flow.new.flow (slice_index flow.new.potentials) }
    ensures size { length scratch.new.distances ≡ length scratch.old.distances }
    ensures counted { CountsSearches steps.old steps.new scratch.old.served scratch.new.served
        (difference (stay_at flow.old.flow.program stay).forecast value) }
{
    let terms = flow.stay(stay);
    let sold = flow.sold(stay);
    let arrival = terms.span.from;
    let departure = terms.span.to;
    let from = u128::from(flow.level(arrival));
    let to = u128::from(flow.level(departure));
    if value < sold {
        set_demand(flow, stay, value, value);
        shift(flow, scratch, arrival, departure, sold - value, steps);
    } else if from < to + u128::from(terms.rate) {
        set_demand(flow, stay, value, value);
        shift(flow, scratch, departure, arrival, value - sold, steps);
    } else {
        set_demand(flow, stay, value, sold);
    }
}

/// Takes as many units from the rooms of a stay's nights, from what is sold of it, and from its forecast: each night
/// carries its rooms as before, and no residual hop appears.
pub(crate) fn book_sold(flow: &mut Flow, span: Span, stay: u32, units: u64, forecast: u64)
    requires stay { stay < length flow.old.flow.program.stays }
    requires span { (stay_at flow.old.flow.program stay).span ≡ span }
    requires rooms { Fits flow.old.flow.program (Rooms span false units) }
    requires sold { units ≤ slice_index flow.old.flow.sell stay }
    requires forecast { (stay_at flow.old.flow.program stay).forecast ≡ forecast }
    requires solved { IsSolvedFlow flow.old }
    ensures program { flow.new.flow.program ≡
        changed (changed flow.old.flow.program (Rooms span false units)) (Demand stay (forecast - units)) }
    ensures nights { length flow.new.flow.program.rooms ≡ length flow.old.flow.program.rooms }
    ensures balanced { IsBalanced flow.new.flow }
    ensures slack { IsSlack flow.new.flow (slice_index flow.new.potentials) }
{
    let _nights = flow.nights();
    let sold = flow.sold(stay);
    flow.move_rooms(span, false, units);
    set_demand(flow, stay, forecast - units, sold - units);
}
