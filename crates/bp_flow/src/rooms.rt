//! More or fewer rooms on the nights of a span.
ghost use Rattle.std.specs.Prelude.{◌≡◌, ℕ, ◌<◌, ◌≤◌, true, false, length, slice_index};
ghost use Rattle.bp_types.specs.declared.limits.TheConstants.{MOST_UNITS};
ghost use Rattle.bp_types.specs.declared.change.Change.TheVariants.{Rooms};
ghost use Rattle.bp_types.specs.Changes.{changed, Fits};
ghost use Rattle.bp_residual.specs.Network.{Priced, HasImbalance, IsSlack};
ghost use Rattle.bp_flow.specs.Solvers.{IsSolvedFlow};

use bp_residual::Flow;
use bp_types::Span;

/// Adds units on each night of a span; they are to go from its first node to its last.
pub(crate) fn add_rooms(flow: &mut Flow, span: Span, units: u64)
    requires fits { Fits flow.old.flow.program (Rooms span true units) }
    requires solved { IsSolvedFlow flow.old }
    ensures program { flow.new.flow.program ≡ changed flow.old.flow.program (Rooms span true units) }
    ensures nights { length flow.new.flow.program.rooms ≡ length flow.old.flow.program.rooms }
    ensures slack { IsSlack flow.new.flow (slice_index flow.new.potentials) }
    ensures imbalance { HasImbalance flow.new.flow span.from span.to units }
    ensures few { units ≤ MOST_UNITS }
{
    flow.move_rooms(span, true, units);
}

/// Takes units away on each night of a span; they are to go back from its last node to its first.
pub(crate) fn take_rooms(flow: &mut Flow, span: Span, units: u64)
    requires fits { Fits flow.old.flow.program (Rooms span false units) }
    requires solved { IsSolvedFlow flow.old }
    ensures program { flow.new.flow.program ≡ changed flow.old.flow.program (Rooms span false units) }
    ensures nights { length flow.new.flow.program.rooms ≡ length flow.old.flow.program.rooms }
    ensures slack { IsSlack flow.new.flow (slice_index flow.new.potentials) }
    ensures imbalance { HasImbalance flow.new.flow span.to span.from units }
    ensures few { units ≤ MOST_UNITS }
{
    flow.move_rooms(span, false, units);
}
