//! Two small hotels that the tests of several crates share, with prices that were worked out by hand.
//!
//! Four stays on three nights, of which the second has one room alone, and one stay on one night. A test opens either
//! as a house or an instance, and has the claim of its opening checked:
//!
//! ```
//! let house = three_nights(alloc, LIMITS)?;
//! let instance = house.instance(alloc)?;
//! let board = board_of(alloc, &instance, 0, OPENING)?;
//! assert_eq!(rt; board.certificate().value, 250);
//! ```
#![tactic(auto)]

mod displacing;
mod hotels;
mod openings;
#[cfg(test)]
mod tests;

pub use displacing::displacement;
pub use hotels::{
    AFTER_ONE, Claimed, LIMITS, N0, N01, N1, N2, N012, N12, NOTHING_SOLD, Numbers, ONE_ROOM,
    OPENING, ROOMS, STAYS, THREE_NIGHTS, WITHOUT_ONE_EACH,
};
pub use openings::{board_of, certificate, house, instance, opening_board, optimal, three_nights};
