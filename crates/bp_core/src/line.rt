//! The lines of a history: who, what and which reply, and the certificate of a vector.
use bp_types::{Certificate, Command};

/// What an entry of the history was about.
#[derive(Clone, Copy, Debug, PartialEq, Eq)]
pub enum Act {
    /// A command of a session.
    Do(Command),
    /// A new vector of prices, for the instance at this position.
    Publish { position: u64 },
    /// The caller's first entry.
    Enrol,
    /// The caller's last entry.
    Leave,
}

/// What was answered. Vectors are numbered from 0, sums and rates are in minor units of money.
#[derive(Clone, Copy, Debug, PartialEq, Eq)]
pub enum Reply {
    /// The stay is booked: its rate is at least the sum of its prices in the vector.
    Accepted { vector: u64, sum: u64 },
    /// The rate is below the sum of the stay's prices in the vector.
    TooLow { vector: u64, sum: u64, rate: u64 },
    /// The price is covered, and this is the first night with no room left.
    NoRoom { vector: u64, sum: u64, night: u32 },
    /// The booking is given up.
    Cancelled,
    /// The caller has no such booking, or it was not accepted.
    NotBooked,
    /// The booking was given up before.
    AlreadyCancelled,
    /// It is done: the forecast, the rate or the rooms are set, or the caller has enrolled or left.
    Done,
    /// So many rooms of the night are sold, more than were asked for, and the rooms stay as they are.
    BelowSold { sold: u64 },
    /// The group is booked. Its displacement is in minor units of money times the unit of the house.
    GroupAccepted { displacement: u128 },
    /// The amount times the unit is below this displacement.
    GroupTooLow { displacement: u128 },
    /// The first night of the span with fewer rooms left.
    GroupNoRoom { night: u32 },
    /// The number of the vector published.
    Vector { number: u64 },
}

/// One entry of the history: who, what, and what was answered.
#[derive(Clone, Copy, Debug, PartialEq, Eq)]
pub struct Entry {
    /// 0 is the opener, the others below `CALLERS` are those that enrolled.
    pub caller: u32,
    pub act: Act,
    pub reply: Reply,
}

/// An entry, with the certificate of a vector: there is one exactly where the act is a Publish.
#[derive(Debug, Drop)]
pub struct Line {
    pub entry: Entry,
    pub certificate: Option<Certificate>,
}
