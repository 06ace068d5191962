//! Nights in a row that lack rooms, or have too many.
ghost use Rattle.std.specs.Prelude.{◌≡◌, ℕ, ◌<◌, ◌≤◌, length, slice_index};
ghost use Rattle.bp_types.specs.declared.change.Change.TheVariants.{Rooms};
ghost use Rattle.bp_types.specs.Changes.{Fits};
ghost use Rattle.bp_flow.specs.Solvers.{IsShortage, HasAll, lack_at};

use crate::Solver;
use bp_types::Instance;

/// Nights in a row that all lack rooms, or all have too many.
pub(crate) struct Shortage {
    /// The night after the last of them.
    pub(crate) to: u32,
    /// How many units each of them lacks, or has too many, at least.
    pub(crate) units: u64,
}

/// The shortage from a night on, which is as long as nights lack rooms of the instance's, or have too many.
pub(crate) fn shortage_at(solver: &Solver, instance: &Instance, up: bool, night: u32) -> Shortage
    requires each { length solver.now.flow.program.rooms ≡ length instance.now.rooms }
    requires in_range { night < length instance.now.rooms }
    requires lacks { 0 < lack_at up solver.now.flow.program.rooms instance.now.rooms night }
    ensures shortage { IsShortage instance.now solver.now.flow.program.rooms up night result.to result.units }
    ensures whole { HasAll up instance.now.rooms solver.now.flow.program.rooms result.to }
    ensures fits { Fits solver.now.flow.program (Rooms (record { from = night; to = result.to }) up result.units) }
{
    let nights = instance.nights();
    let mut units = solver.lacking(instance, up, night);
    for to in night + 1..nights {
        let lack = solver.lacking(instance, up, to);
        if lack == 0 {
            return Shortage { to, units };
        }
        units = units.min(lack);
    }
    Shortage { to: nights, units }
}
