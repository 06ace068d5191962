//! A change of an instance: of the rooms of a span, or of the forecast or the rate of a stay.
ghost use Rattle.std.specs.Prelude.{◌≡◌, ℕ, ◌+◌, ◌≤◌, ◌<◌, ◌^◌, MatchBool, length, slice_index};
ghost use Rattle.bp_types.specs.Rooms.{moved, rooms_moved};

use crate::Span;

/// One change of an instance. Stays are named by their numbers, from 0.
#[derive(Clone, Copy, Debug, PartialEq, Eq)]
pub enum Change {
    /// So many units more (`up`), or fewer, on each night of the span.
    Rooms { span: Span, up: bool, units: u64 },
    /// The forecast of a stay becomes this, in units.
    Demand { stay: u32, value: u64 },
    /// The rate of a stay becomes this, in minor units of money.
    Rate { stay: u32, value: u64 },
}

/// So many units more (`up`), or fewer, on each night of the span: `rooms` has one number per night. It takes the time
/// of the span's nights.
pub(crate) fn move_rooms(rooms: &mut [u64], span: Span, up: bool, units: u64)
    requires ordered { span.from ≤ span.to }
    requires within { span.to ≤ length rooms.old }
    requires fits { (n : ℕ) → span.from ≤ n → n < span.to →
        MatchBool up (slice_index rooms.old n + units < 2 ^ 64) (units ≤ slice_index rooms.old n) }
    ensures { rooms.new ≡ rooms_moved rooms.old span up units }
{
    for night in span.from..span.to {
        let place = night as usize;
        rooms[place] = moved(rooms[place], up, units);
    }
}

/// The rooms of one night with so many units more (`up`), or fewer.
fn moved(rooms: u64, up: bool, units: u64) -> u64
    requires { MatchBool up (rooms + units < 2 ^ 64) (units ≤ rooms) }
    ensures { result ≡ moved rooms up units }
{
    if up { rooms + units } else { rooms - units }
}
