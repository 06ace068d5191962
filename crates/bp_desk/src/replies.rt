//! The replies of the calls at a shared desk, and why a call made no entry.

/// The reply to a booking. Vectors and nights are numbered from 0, sums and rates are in minor units of money.
#[derive(Clone, Copy, Debug, PartialEq, Eq)]
pub enum BookReply {
    /// The stay is booked: its rate is at least the sum of its prices in the vector.
    Accepted { vector: u64, sum: u64 },
    /// The rate is below the sum of the stay's prices in the vector.
    TooLow { vector: u64, sum: u64, rate: u64 },
    /// The price is covered, and this is the first night with no room left.
    NoRoom { vector: u64, sum: u64, night: u32 },
}

/// Why a booking made no entry.
#[derive(Clone, Copy, Debug, PartialEq, Eq)]
pub enum BookStop {
    /// As many commands as the limits allow are logged.
    HistoryFull,
    /// So many changes stand after this position, the last vector's: a new vector has to come first.
    Behind { position: u64, changes: u64 },
}

/// The reply to a cancellation. Each of them makes an entry.
#[derive(Clone, Copy, Debug, PartialEq, Eq)]
pub enum CancelReply {
    /// The booking is given up.
    Cancelled,
    /// The caller has no such booking, or it was not accepted.
    NotBooked,
    /// The booking was given up before.
    AlreadyCancelled,
}

/// As many commands as the limits allow are logged, and this one is not.
#[derive(Clone, Copy, Debug, PartialEq, Eq)]
pub struct HistoryFull;

/// The reply to a change of a night's rooms, in whole rooms.
#[derive(Clone, Copy, Debug, PartialEq, Eq)]
pub enum ResizeReply {
    /// The night has the rooms that were asked for.
    Done,
    /// So many rooms of the night are sold, more than were asked for, and the rooms stay as they are.
    BelowSold { sold: u64 },
}

/// The reply to a group. Displacements are in minor units of money, times the unit of the house.
#[derive(Clone, Copy, Debug, PartialEq, Eq)]
pub enum GroupReply {
    /// The group is booked.
    Accepted { displacement: u128 },
    /// The amount times the unit is below this displacement.
    TooLow { displacement: u128 },
    /// The first night of the span with fewer rooms left.
    NoRoom { night: u32 },
}

/// Why a group made no entry.
#[derive(Clone, Copy, Debug, PartialEq, Eq)]
pub enum GroupStop {
    /// As many commands as the limits allow are logged.
    HistoryFull,
    /// There are rooms for it, and it came without a quote.
    Unquoted,
    /// So many changes stand after the quote's position.
    Stale { changes: u64 },
}

/// Why a board was not published.
#[derive(Clone, Copy, Debug, PartialEq, Eq)]
pub enum PublishStop {
    /// So many changes stand from this position, the last vector's, to the board's, fewer than were asked for.
    Superseded { position: u64, changes: u64 },
    /// As many vectors as the limits allow are published.
    PublicationsFull,
}
