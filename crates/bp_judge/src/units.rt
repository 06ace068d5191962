//! How many units the changes of a history move.
ghost use Rattle.std.specs.Prelude.{◌≡◌, ◌<◌, ◌≤◌, ◌*◌, ◌^◌, length};
ghost use Rattle.bp_types.specs.Changes.{Fits, FitInTurn, changed_by_all};
ghost use Rattle.bp_warm.specs.Turns.{units_moved, units_moved_by_all};

use bp_types::{Change, Instance};

/// Makes the changes in turn, and answers how many units they move.
pub(crate) fn apply_all(instance: &mut Instance, changes: &[Change]) -> u128
    requires { FitInTurn instance.old changes.now }
    ensures changed { instance.new ≡ changed_by_all instance.old changes.now }
    ensures moved { result ≡ units_moved_by_all instance.old changes.now }
{
    let mut moved = 0;
    for change in changes {
        moved += units_moved(instance, *change);
        instance.apply(*change);
    }
    moved
}

/// How many units a change moves at most.
fn units_moved(instance: &Instance, change: Change) -> u128
    requires { Fits instance.now change }
    ensures value { result ≡ units_moved instance.now change }
    ensures fits { result < 2 ^ 65 }
{
    match change {
        Change::Rooms { units, .. } => u128::from(units),
        Change::Demand { stay, value } => {
            let forecast = instance.stay(stay).forecast;
            u128::from(forecast.abs_diff(value))
        }
        Change::Rate { stay, .. } => 2 * u128::from(instance.stay(stay).forecast),
    }
}
