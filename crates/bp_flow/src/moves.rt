//! Units moved from one node to another by successive shortest paths.
ghost use Rattle.std.specs.Prelude.{◌≡◌, ℕ, ◌+◌, ◌-◌, ◌*◌, ◌^◌, ◌<◌, ◌≤◌, length, slice_index, min};
ghost use Rattle.bp_residual.specs.Network.{Priced, IsSlack, IsPriced, IsBalanced, HasImbalance, nodes};
ghost use Rattle.bp_paths.specs.Paths.{far, Serves};
ghost use Rattle.bp_flow.specs.Shift.{IsShifting, AreRaises, IsLiftedBy};
ghost use Rattle.bp_flow.specs.Solvers.{CountsSearches};

use crate::ways::walk;
use bp_paths::{Found, Scratch, reach};
use bp_residual::{Flow, law};
use bp_types::Steps;
use bp_types::limits::MOST_NODES;
use std::sync::ledger::Ledger;

/// The raises of a lift: the distances of the last search, cut off at the target's.
fn fill_raises(scratch: &Scratch, target: u128, by: &mut [u128])
    requires size { length by.old ≡ length scratch.now.distances }
    requires few { length by.old ≤ MOST_NODES }
    requires target { target < far }
    ensures { AreRaises scratch.now.distances target by.new (length by.new) }
{
    for node in 0..by.len() {
        by[node] = scratch.distance(node as u32).unwrap_or(target).min(target);
    }
}

/// Raises the potentials by the distances of the last search, cut off at the target's.
fn lift_by_distances(flow: &mut Flow, scratch: &Scratch, to: u32)
    requires to { to < nodes flow.old }
    requires size { length scratch.now.distances ≡ nodes flow.old }
    requires near { slice_index scratch.now.distances to < far }
    requires small { slice_index scratch.now.distances to ≤ 10 ^ 30 }
    ensures flow { flow.new.flow ≡ flow.old.flow }
    ensures lifted { IsLiftedBy (length flow.old.flow.program.rooms) flow.old.potentials flow.new.potentials
        (slice_index scratch.now.distances) (slice_index scratch.now.distances to) }
{
    let nodes = flow.nights() as usize + 1;
    let target = scratch.distance(to).unwrap_or(0);
    let mut by = [0u128; MOST_NODES];
    let raises = &mut by[..nodes];
    fill_raises(scratch, target, raises);
    flow.lift(raises);
}

/// One augmentation: a push along a shortest residual path, and a lift by the distances. Answers the units pushed.
fn augment<L: Ledger>(
    flow: &mut Flow,
    scratch: &mut Scratch,
    from: u32,
    to: u32,
    left: u64,
    steps: &mut Steps<L>,
) -> u64
    requires from { from < nodes flow.old }
    requires to { to < nodes flow.old }
    requires size { length scratch.old.distances ≡ nodes flow.old }
    requires slack { IsSlack flow.old.flow (slice_index flow.old.potentials) }
    requires some { 0 < left }
    requires few { left ≤ 10 ^ 11 }
    requires imbalance { HasImbalance flow.old.flow from to left }
    ensures amount { (1 ≤ result) × (result ≤ left) }
    ensures shifting { IsShifting flow.old flow.new from to (left - result) }
    ensures size { length scratch.new.distances ≡ length scratch.old.distances }
    ensures counted { steps.new ≡ steps.old + 1 }
    ensures served { Serves scratch.old.served scratch.new.served 1 }
{
    let _nights = flow.nights();
    law::paths_exist();
    match reach(flow, from, to, scratch, steps) {
        Found::Reached { units } => {
            let amount = units.min(left);
            flow.push(scratch.path(), amount);
            lift_by_distances(flow, scratch, to);
            amount
        }
        Found::Unreached => unreachable!(),
    }
}

/// Moves units from one node to another, by successive shortest paths with potentials, where the flow has that
/// imbalance: on each night between the nodes it carries so many units too few, or too many where `to` is the earlier.
/// Afterwards it carries exactly the rooms. It makes as many searches as there are units at most, and takes no memory.
pub fn shift<L: Ledger>(
    flow: &mut Flow,
    scratch: &mut Scratch,
    from: u32,
    to: u32,
    units: u64,
    steps: &mut Steps<L>,
)
    requires from { from < nodes flow.old }
    requires to { to < nodes flow.old }
    requires size { length scratch.old.distances ≡ nodes flow.old }
    requires slack { IsSlack flow.old.flow (slice_index flow.old.potentials) }
    requires few { units ≤ 10 ^ 11 }
    requires imbalance { HasImbalance flow.old.flow from to units }
    ensures program { flow.new.flow.program ≡ flow.old.flow.program }
    ensures balanced { IsBalanced flow.new.flow }
    ensures slack { IsSlack flow.new.flow (slice_index flow.new.potentials) }
    ensures size { length scratch.new.distances ≡ length scratch.old.distances }
    ensures counted { CountsSearches steps.old steps.new scratch.old.served scratch.new.served units }
{
    let mut left = units;
    let mut start = from;
    let mut end = to;
    while left > 0 {
        (start, end) = walk(flow, scratch, start, end, left);
        if start == end {
            return;
        }
        left -= augment(flow, scratch, start, end, left, steps);
    }
}
