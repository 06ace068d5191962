//! The replies to bookings, counted by kind.
ghost use Rattle.std.specs.Prelude.{◌≡◌, ◌<◌, ◌^◌};
ghost use Rattle.bp_demo.specs.Bookings.{no_counts, with_reply};

use bp_core::Reply;

/// How many bookings were answered in each way.
#[derive(Clone, Copy, Debug, PartialEq, Eq)]
pub struct Counts {
    /// The stay was booked.
    pub accepted: u64,
    /// The rate was below the prices.
    pub too_low: u64,
    /// A night had no room.
    pub no_room: u64,
}

impl Counts {
    /// No booking answered.
    pub(crate) fn none() -> Counts
        ensures { result ≡ no_counts }
    {
        Counts {
            accepted: 0,
            too_low: 0,
            no_room: 0,
        }
    }

    /// One reply more.
    pub(crate) fn with(self, reply: Reply) -> Counts
        requires accepted { self.accepted < 2 ^ 63 }
        requires too_low { self.too_low < 2 ^ 63 }
        requires no_room { self.no_room < 2 ^ 63 }
        ensures { result ≡ with_reply self reply }
    {
        let mut counts = self;
        match reply {
            Reply::Accepted { .. } => counts.accepted += 1,
            Reply::TooLow { .. } => counts.too_low += 1,
            Reply::NoRoom { .. } => counts.no_room += 1,
            _ => {}
        }
        counts
    }
}
