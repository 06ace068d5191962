//! The report of a desk: a table of the nights, a table of the stays, and the value of the last vector.
//!
//! It is made from a book, so every number in it comes of the house and of the history that the book holds. Rooms are
//! whole rooms, prices are in minor units of money, forecasts and the value are in units of the house.
//!
//! The report of a book of this hotel.
//!
//! ```
//! let mut sink = MemorySink::new(Vec::new(alloc));
//! report(alloc, hotel, codes, book, &mut sink)?;
//! ```
#![tactic(auto)]

mod cells;
mod counting;
mod dates;
pub mod law;
mod nights;
mod ready;
mod stays;
mod tables;
mod tally;
#[cfg(test)]
mod tests;

pub use ready::Report;
pub use tables::report;
