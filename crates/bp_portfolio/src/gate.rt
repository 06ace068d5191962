//! The gate of one hotel among several.
ghost use Rattle.std.specs.Prelude.{◌≡◌, ◌<◌};
ghost use Rattle.bp_types.specs.declared.limits.TheConstants.{CALLERS, MOST_HOTELS};
ghost use Rattle.bp_portfolio.specs.Desks.{number_at_gate};

use bp_edges::Gate;
use bp_types::limits::CALLERS;
use std::sync::Wait;

/// The gate of all hotels, as the callers of one of them pass it. The first hotel has the index 0.
#[derive(Clone, Copy)]
pub struct HotelGate<'a, G> {
    /// The gate of all.
    pub gate: &'a G,
    /// The hotel's index.
    pub hotel: u32,
}

/// The number with which a caller of a hotel arrives at the gate of all.
pub fn number_of(hotel: u32, caller: u32) -> u32
    ensures { hotel < MOST_HOTELS → caller < CALLERS → result ≡ number_at_gate hotel caller }
{
    hotel.wrapping_mul(CALLERS as u32).wrapping_add(caller)
}

impl<'a, G: Gate> Gate for HotelGate<'a, G> {
    fn arrive(&self, rt: &impl Wait, caller: u32, nth: u64) {
        self.gate.arrive(rt, number_of(self.hotel, caller), nth)
    }
}
