//! The Books of a stay, counted by what became of them.
ghost use Rattle.std.specs.Prelude.{◌≡◌, ◌-◌, ◌^◌};
ghost use Rattle.bp_report.specs.Tallies.{no_tally, with_book, IsSmall};

use bp_core::Reply;

/// The Books of a stay, and what became of them.
#[derive(Clone, Copy)]
pub(crate) struct Tally {
    /// How many Books there are.
    pub asked: u64,
    /// How many of them were accepted, whether given up later or not.
    pub accepted: u64,
    /// How many had a rate below the prices.
    pub too_low: u64,
    /// How many found a night with no room.
    pub no_room: u64,
    /// How many were given up later.
    pub cancelled: u64,
}

impl Tally {
    /// The tally of no Book.
    pub(crate) fn none() -> Tally
        ensures { result ≡ no_tally }
    {
        Tally {
            asked: 0,
            accepted: 0,
            too_low: 0,
            no_room: 0,
            cancelled: 0,
        }
    }

    /// One Book more, with its reply, and whether its caller gave it up.
    pub(crate) fn with(self, reply: Reply, given_up: bool) -> Tally
        requires { IsSmall self (2 ^ 64 - 2) }
        ensures { result ≡ with_book self reply given_up }
    {
        let mut tally = self;
        tally.asked += 1;
        match reply {
            Reply::Accepted { .. } => tally.accepted += 1,
            Reply::TooLow { .. } => tally.too_low += 1,
            Reply::NoRoom { .. } => tally.no_room += 1,
            _ => {}
        }
        if given_up {
            tally.cancelled += 1;
        }
        tally
    }
}
