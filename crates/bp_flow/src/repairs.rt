//! From a flow that carries rooms of its own to one that carries those of the instance.
ghost use Rattle.std.specs.Prelude.{◌≡◌, ◌+◌, ◌*◌, ◌<◌, ◌≤◌, length};
ghost use Rattle.bp_types.specs.declared.limits.TheConstants.{MOST_NIGHTS, MOST_UNITS};
ghost use Rattle.bp_types.specs.Sums.{sum_below};
ghost use Rattle.bp_flow.specs.Solvers.{lack_at};
ghost use Rattle.bp_flow.specs.Rising.{rise_of, repairs};

use bp_residual::Flow;
use bp_types::Instance;

/// How many rooms a night of a flow lacks of the instance's, or (not `up`) has too many.
pub(crate) fn lacking_at(flow: &Flow, instance: &Instance, up: bool, night: u32) -> u64
    requires each { length flow.now.flow.program.rooms ≡ length instance.now.rooms }
    requires in_range { night < length instance.now.rooms }
    ensures value { result ≡ lack_at up flow.now.flow.program.rooms instance.now.rooms night }
    ensures few { result ≤ MOST_UNITS }
{
    let _nights = flow.nights();
    let _nights = instance.nights();
    let has = flow.rooms(night);
    let wants = instance.rooms(night);
    if up {
        wants.saturating_sub(has)
    } else {
        has.saturating_sub(wants)
    }
}

/// By how many units the nights of a flow lack rooms more than the night before them, or (not `up`) have more too
/// many, added up.
fn rises_of(flow: &Flow, instance: &Instance, up: bool) -> u64
    requires each { length flow.now.flow.program.rooms ≡ length instance.now.rooms }
    ensures value { result ≡
        sum_below (rise_of (lack_at up flow.now.flow.program.rooms instance.now.rooms)) (length instance.now.rooms) }
    ensures few { result ≤ MOST_NIGHTS * MOST_UNITS }
{
    let mut sum = 0;
    let mut before = 0;
    for night in 0..instance.nights() {
        let lack = lacking_at(flow, instance, up, night);
        let rise = lack.saturating_sub(before);
        sum += rise;
        before = lack;
    }
    sum
}

/// How many searches lead the rooms of a flow to those of an instance, at most.
pub(crate) fn repairs_of(flow: &Flow, instance: &Instance) -> u64
    requires each { length flow.now.flow.program.rooms ≡ length instance.now.rooms }
    ensures { result ≡ repairs flow.now.flow.program.rooms instance.now.rooms }
{
    rises_of(flow, instance, true) + rises_of(flow, instance, false)
}
