//! What a caller asks of a desk, what a quote says of a group, and what bounds a desk's history.
use crate::Span;

/// What a caller asks of the desk.
#[derive(Clone, Copy, Debug, PartialEq, Eq)]
pub enum Command {
    /// A room for a stay, by its number.
    Book { stay: u32 },
    /// To give up the caller's own booking, counted from 1 over its booking calls, accepted or not.
    Cancel { nth: u64 },
    /// The forecast of a stay becomes this, in units.
    Reforecast { stay: u32, count: u64 },
    /// The rate of a stay becomes this, in minor units of money.
    Reprice { stay: u32, rate: u64 },
    /// The rooms of a night become this, in whole rooms.
    Resize { night: u32, rooms: u64 },
    /// So many rooms on each night of the span, for one amount in minor units of money.
    Group { span: Span, rooms: u64, amount: u64 },
}

/// What a group costs the hotel, as of a position of the history.
#[derive(Clone, Copy, Debug, PartialEq, Eq)]
pub struct Quoted {
    /// How many entries of the history the quote knows.
    pub position: u64,
    /// By how much the optimum falls, in minor units of money, times the unit of the house.
    pub displacement: u128,
}

/// What bounds the history of a desk, and how it counts.
#[derive(Clone, Copy, Debug, PartialEq, Eq)]
pub struct Limits {
    /// After so many changes a booking waits for a new vector.
    pub stale_after: u64,
    /// The greatest number of command entries.
    pub entries: u64,
    /// The greatest number of vectors.
    pub publications: u64,
    /// How many units make one room: 1, or 100 where a house counts in hundredths.
    pub unit: u64,
}
