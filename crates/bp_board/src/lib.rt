//! A vector of bid prices on the board: what it was worth, for which position, and the price of a span at once.
//!
//! Prices are in minor units of money, one per night; nights are numbered from 0.
//!
//! The sum of the prices 0, 100 and 40 from each night to the last.
//!
//! ```
//! for (night, sum) in [(0, 140), (1, 140), (2, 40), (3, 0)] {
//!     if night <= board.nights() {
//!         assert_eq!(rt; board.sum_from(night), sum);
//!     }
//! }
//! ```
#![tactic(auto)]

mod board;

pub use board::Board;

#[cfg(test)]
mod tests;
