//! A ticket lock whose value carries a history: who takes the lock knows that the history begins with all that it had
//! seen before, and that its own entries stand in it each once and in order.
//!
//! Source of the ticket lock: Mellor-Crummey and Scott, *Algorithms for scalable synchronization on shared-memory
//! multiprocessors*, 1991.
//!
//! A turn that adds an entry to a log: who takes it waits for those before it, and each turn is given back.
//!
//! ```
//! let mut log = turn.take(rt, seat);
//! if log.pairs.push((caller, number)).is_err() {
//!     turn.give(seat, log);
//!     return false;
//! }
//! turn.give_logged(seat, log);
//! ```
#![tactic(auto)]

mod bell;
mod plays;
mod seat;
mod seats;
mod story;
mod table;
mod turn;

pub use seat::TurnSeat;
pub use story::Story;
pub use turn::{Memory, Turn};

#[cfg(test)]
mod tests;
