//! The rooms of an instance, set night by night.
ghost use Rattle.std.specs.Prelude.{◌≡◌, ℕ, ◌≤◌, ◌<◌, length, slice_index, slice_set};
ghost use Rattle.bp_types.specs.declared.limits.TheConstants.{MOST_UNITS};
ghost use Rattle.bp_types.specs.Limits.{IsWithinLimits};

use bp_types::{Change, Instance, Span};

/// Sets the rooms of one night, in units.
pub(crate) fn set_rooms(instance: &mut Instance, night: u32, rooms: u64)
    requires night { night < length instance.old.rooms }
    requires rooms { rooms ≤ MOST_UNITS }
    ensures rooms { instance.new.rooms ≡ slice_set instance.old.rooms night rooms }
    ensures stays { instance.new.stays ≡ instance.old.stays }
    ensures limits { IsWithinLimits instance.new }
{
    let _nights = instance.nights();
    let now = instance.rooms(night);
    let span = Span {
        from: night,
        to: night + 1,
    };
    if now <= rooms {
        let units = rooms - now;
        instance.apply(Change::Rooms {
            span,
            up: true,
            units,
        });
    } else {
        let units = now - rooms;
        instance.apply(Change::Rooms {
            span,
            up: false,
            units,
        });
    }
}

/// Takes away all rooms.
pub(crate) fn clear_rooms(instance: &mut Instance)
    ensures rooms { (n : ℕ) → slice_index instance.new.rooms n ≡ 0 }
    ensures each { length instance.new.rooms ≡ length instance.old.rooms }
    ensures stays { instance.new.stays ≡ instance.old.stays }
    ensures limits { IsWithinLimits instance.new }
{
    for night in 0..instance.nights() {
        set_rooms(instance, night, 0);
    }
    let _nights = instance.nights();
}
