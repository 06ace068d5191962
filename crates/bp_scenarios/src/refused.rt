//! The first change of a list that the rooms of some night do not allow.
ghost use Rattle.std.specs.Prelude.{◌≡◌, ◌≤◌, ◌<◌, ◌||◌, nat_lt, if◌then◌else◌, length, slice_index, None};
ghost use Rattle.bp_types.specs.declared.limits.TheConstants.{MOST_ROOMS, MOST_UNITS};
ghost use Rattle.bp_types.specs.Rooms.{moved};
ghost use Rattle.bp_types.specs.Changes.{FitInTurn};
ghost use Rattle.bp_scenarios.specs.Refused.{is_past, breaks, first_refused, IsChangeWithin, IsAskable};

use bp_types::limits::MOST_ROOMS;
use bp_types::{Change, Instance};

/// The number of the first change, from 1, after which a night would have fewer rooms than none or too many. The
/// instance is changed on the way.
pub(crate) fn first_refused(instance: &mut Instance, changes: &[Change]) -> Option<u32>
    requires { IsAskable instance.old changes.now }
    ensures first { result ≡ first_refused 1 instance.old changes.now }
    ensures fit { result ≡ None → FitInTurn instance.old changes.now }
{
    let mut number = 1;
    for change in changes {
        if breaks_limit(instance, *change) {
            return Some(number);
        }
        instance.apply(*change);
        number += 1;
    }
    None
}

/// Whether some night would have fewer rooms than none after a change, or too many.
fn breaks_limit(instance: &Instance, change: Change) -> bool
    requires { IsChangeWithin instance.now change }
    ensures { result ≡ breaks instance.now change }
{
    for night in 0..instance.nights() {
        if is_past(instance, change, night) {
            return true;
        }
    }
    false
}

/// Whether a night would.
fn is_past(instance: &Instance, change: Change, night: u32) -> bool
    requires change { IsChangeWithin instance.now change }
    requires in_range { night < length instance.now.rooms }
    ensures { result ≡ is_past instance.now change night }
{
    let rooms = rooms_of(instance, night);
    match change {
        Change::Rooms { span, up, units } => moves_past(rooms, span.covers(night), up, units),
        Change::Demand { .. } | Change::Rate { .. } => rooms > MOST_ROOMS,
    }
}

/// The rooms of a night.
fn rooms_of(instance: &Instance, night: u32) -> u64
    requires { night < length instance.now.rooms }
    ensures value { result ≡ slice_index instance.now.rooms night }
    ensures limit { result ≤ MOST_UNITS }
{
    let _nights = instance.nights();
    instance.rooms(night)
}

/// Whether rooms would leave their limits that get so many more or fewer, where the night is one of the span's.
fn moves_past(rooms: u64, covered: bool, up: bool, units: u64) -> bool
    requires rooms { rooms ≤ MOST_UNITS }
    requires units { units ≤ MOST_ROOMS }
    ensures { result ≡ (nat_lt rooms (if up then 0 else (if covered then units else 0)) || nat_lt MOST_ROOMS
        (if covered then moved rooms up units else rooms)) }
{
    if !covered {
        return rooms > MOST_ROOMS;
    }
    if up {
        return rooms + units > MOST_ROOMS;
    }
    rooms < units || rooms - units > MOST_ROOMS
}
