//! Sessions and optimisers: who calls at a shared desk while it is open.
//!
//! An optimiser is a solver that follows the history of a desk from position to position, and publishes its bid prices
//! where enough has changed. A session makes its commands in order; a worker makes rounds beside the sessions until all
//! of them have left. Rooms are whole rooms, units those of the house.
//!
//! A session makes its commands, and publishes where it comes upon stale prices.
//!
//! ```
//! let mut steps: Steps<L> = Steps::new(blank);
//! session(
//!     rt, alloc, desk, pass, commands, optimiser, lead, unit, gate, &mut steps,
//! )
//! ```
#![tactic(auto)]

pub mod law;
mod optimiser;
mod round;
mod sessions;
mod threads;
mod tries;
mod worker;

pub use optimiser::Optimiser;
pub use round::Round;
pub use sessions::{SessionEnd, Stop, session};
pub use threads::optimiser_crosses_threads;
pub use worker::{WorkEnd, work};
