//! The limits of what the program takes and makes. Code, contracts and definitions of every crate cite these.

/// Nights of an instance, at most.
pub const MOST_NIGHTS: usize = 400;

/// Nodes of an instance's network, at most: one for each night, and one for the morning after the last.
pub const MOST_NODES: usize = MOST_NIGHTS + 1;

/// Stays of an instance, at most.
pub const MOST_STAYS: usize = 4_000;

/// Rooms of a night in units, of an instance, at most.
pub const MOST_UNITS: u64 = 1_000_000;

/// Rooms of a night in whole rooms, of a house or a problem text, at most.
pub const MOST_ROOMS: u64 = 10_000;

/// The rate of a stay, at most, in minor units of money. A rate is 1 at least.
pub const MOST_RATE: u64 = 1_000_000_000;

/// The price of a night, at most, in minor units of money.
pub const MOST_PRICE: u64 = MOST_RATE;

/// The forecast of a stay, at most, in units.
pub const MOST_FORECAST: u64 = MOST_UNITS;

/// The number of changes after which a booking waits for a new vector, at most. It is 1 at least.
pub const MOST_STALE_AFTER: u64 = 100_000;

/// Command entries of a history, at most. A house allows 1 at least.
pub const MOST_ENTRIES: u64 = 200_000;

/// Vectors of a history, at most. A house allows 1 at least.
pub const MOST_PUBLICATIONS: u64 = 1_000;

/// Units of one room where a house counts in hundredths.
pub const HUNDREDTHS: u64 = 100;

/// Numbers of callers: 0 is the opener's, the others are handed out.
pub const CALLERS: usize = 64;

/// Rooms of a group, at most. A group has 1 at least.
pub const MOST_GROUP_ROOMS: u64 = MOST_ROOMS;

/// The amount that a group pays, at most, in minor units of money.
pub const MOST_AMOUNT: u64 = 1_000_000_000_000_000;

/// The value of a certificate or a displacement, at most, as a text has it: in minor units of money times the unit of
/// the house.
pub const MOST_VALUE: u128 = 1_000_000_000_000_000_000_000_000_000_000;

/// Sessions of a run, at most.
pub const MOST_SESSIONS: u32 = 32;

/// Optimisers of a hotel's run, at most.
pub const MOST_WORKERS: u32 = 16;

/// Views of a screen, at most. A screen has 1 at least.
pub const MOST_VIEWS: u32 = 16;

/// Bytes of the code of a stay, at most. A code has 1 at least.
pub const MOST_CODE: usize = 16;

/// Scenarios of a text of changes, at most.
pub const MOST_SCENARIOS: usize = 20_000;

/// Change lines of a text of changes, and changes of one list, at most.
pub const MOST_CHANGES: usize = 100_000;

/// Hotels of a portfolio, at most. A portfolio has 1 at least.
pub const MOST_HOTELS: usize = 8;

/// Bytes of the name of a file in a portfolio's list, at most. A name has 1 at least.
pub const MOST_NAME: usize = 200;

/// Bytes of a journal's file, at most: 64 MiB.
pub const MOST_JOURNAL_BYTES: u64 = 1 << 26;

/// Bytes of any other file, at most: 16 MiB.
pub const MOST_FILE_BYTES: u64 = 1 << 24;
