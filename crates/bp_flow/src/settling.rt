//! The least optimal prices, found by the distances to the last node.
ghost use Rattle.std.specs.Prelude.{◌≡◌, ℕ, ◌+◌, ◌-◌, ◌<◌, ◌≤◌, length, slice_index};
ghost use Rattle.bp_residual.specs.Network.{Priced, IsSlack, IsBalanced, nodes};
ghost use Rattle.bp_paths.specs.Paths.{far};
ghost use Rattle.bp_flow.specs.Settled.{IsSettledFlow, AreFalls};
ghost use Rattle.bp_flow.specs.Solvers.{CountsSearches};

use crate::ways::ways_stand;
use bp_paths::{Scratch, search_to};
use bp_residual::Flow;
use bp_types::Steps;
use bp_types::limits::MOST_NODES;
use std::sync::ledger::Ledger;

/// The raises that lower each potential by its node's distance to the last one, but for one number that all get.
fn fill_falls(scratch: &Scratch, top: u128, by: &mut [u128])
    requires size { length by.old ≡ length scratch.now.distances }
    requires few { length by.old ≤ MOST_NODES }
    ensures { AreFalls scratch.now.distances top by.new (length by.new) }
{
    for node in 0..by.len() {
        by[node] = top - scratch.distance(node as u32).unwrap_or(top).min(top);
    }
}

/// Lowers each potential by its node's distance to the last one. A function of its own, since one with a table pays for
/// it at each call.
fn lower_by_search<L: Ledger>(flow: &mut Flow, scratch: &mut Scratch, steps: &mut Steps<L>)
    requires size { length scratch.old.distances ≡ nodes flow.old }
    requires slack { IsSlack flow.old.flow (slice_index flow.old.potentials) }
    requires balanced { IsBalanced flow.old.flow }
    ensures flow { flow.new.flow ≡ flow.old.flow }
    ensures settled { IsSettledFlow flow.new }
    ensures slack { IsSlack flow.new.flow (slice_index flow.new.potentials) }
    ensures size { length scratch.new.distances ≡ length scratch.old.distances }
    ensures counted { CountsSearches steps.old steps.new scratch.old.served scratch.new.served 1 }
{
    let nights = flow.nights();
    let top = u128::from(flow.level(0));
    search_to(flow, nights, scratch, steps);
    let mut by = [0u128; MOST_NODES];
    let raises = &mut by[..nights as usize + 1];
    fill_falls(scratch, top, raises);
    flow.lift(raises);
}

/// Makes the prices the least optimal ones: tests the kept ways, and searches only where one of them does not stand.
pub(crate) fn settle_flow<L: Ledger>(flow: &mut Flow, scratch: &mut Scratch, steps: &mut Steps<L>)
    requires size { length scratch.old.distances ≡ nodes flow.old }
    requires slack { IsSlack flow.old.flow (slice_index flow.old.potentials) }
    requires balanced { IsBalanced flow.old.flow }
    ensures flow { flow.new.flow ≡ flow.old.flow }
    ensures settled { IsSettledFlow flow.new }
    ensures slack { IsSlack flow.new.flow (slice_index flow.new.potentials) }
    ensures size { length scratch.new.distances ≡ length scratch.old.distances }
    ensures counted { CountsSearches steps.old steps.new scratch.old.served scratch.new.served 1 }
{
    if !ways_stand(flow, scratch) {
        lower_by_search(flow, scratch, steps);
    }
}
