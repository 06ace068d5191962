//! A restart: a list of changes made on a solver, and its prices settled once.
ghost use Rattle.std.specs.Prelude.{◌≡◌, ◌+◌, ◌<◌, ◌≤◌, length, drop};
ghost use Rattle.bp_types.specs.Changes.{changed, changed_by_all, Fits, FitInTurn};
ghost use Rattle.bp_flow.specs.Settled.{IsSettled, IsSolvable};
ghost use Rattle.bp_flow.specs.Solvers.{CountsSearches, IsSolved};
ghost use Rattle.bp_warm.specs.Turns.{IsOnWay, moved_so_far, units_moved, units_moved_by_all};

use bp_flow::Solver;
use bp_types::{Change, Steps};
use std::sync::ledger::Ledger;

/// Makes the changes in turn, and then the prices the least optimal ones. It takes no memory.
///
/// It makes as many searches as the changes move units, and one more, at most. A change of rooms moves its units, one
/// of a forecast the difference of the two, and one of a rate twice the forecast of its stay.
pub fn catch_up<L: Ledger>(solver: &mut Solver, changes: &[Change], steps: &mut Steps<L>)
    requires { FitInTurn solver.old.flow.program changes.now }
    ensures program { solver.new.flow.program ≡ changed_by_all solver.old.flow.program changes.now }
    ensures settled { IsSettled solver.new }
    ensures solved { IsSolved solver.new }
    ensures solvable { IsSolvable solver.new.flow.program }
    ensures counted { CountsSearches steps.old steps.new solver.old.served solver.new.served
        (units_moved_by_all solver.old.flow.program changes.now + 1) }
{
    let mut made = 0;
    while made < changes.len() {
        made += make_next(solver, &changes[made..], steps);
    }
    solver.settle(steps);
}

/// Makes the first of some changes, or the first two at once where they are a booking of a stay that is sold: that
/// moves no unit, where the two apart would move the stay's units away and back. Answers how many it made.
fn make_next<L: Ledger>(solver: &mut Solver, left: &[Change], steps: &mut Steps<L>) -> usize
    requires fit { FitInTurn solver.old.flow.program left.now }
    requires some { 0 < length left.now }
    ensures made { (1 ≤ result) × (result ≤ length left.now) }
    ensures on_way { IsOnWay solver.old.flow.program left.now solver.new.flow.program (drop result left.now) }
    ensures counted { CountsSearches steps.old steps.new solver.old.served solver.new.served
        (moved_so_far solver.old.flow.program left.now solver.new.flow.program (drop result left.now)) }
{
    if let [
        Change::Rooms {
            span,
            up: false,
            units,
        },
        Change::Demand { stay, value },
        ..
    ] = left
        && solver.book(*span, *units, *stay, *value)
    {
        return 2;
    }
    make(solver, left[0], steps);
    1
}

/// Makes one change.
fn make<L: Ledger>(solver: &mut Solver, change: Change, steps: &mut Steps<L>)
    requires { Fits solver.old.flow.program change }
    ensures program { solver.new.flow.program ≡ changed solver.old.flow.program change }
    ensures counted { CountsSearches steps.old steps.new solver.old.served solver.new.served
        (units_moved solver.old.flow.program change) }
{
    match change {
        Change::Rooms {
            span,
            up: true,
            units,
        } => solver.raise(span, units, steps),
        Change::Rooms {
            span,
            up: false,
            units,
        } => solver.lower(span, units, steps),
        Change::Demand { stay, value } => solver.demand(stay, value, steps),
        Change::Rate { stay, value } => solver.reprice(stay, value, steps),
    }
}
