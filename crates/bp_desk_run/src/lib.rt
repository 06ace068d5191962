//! The whole run of a desk: sessions make the commands of their scripts beside workers that publish, each in a thread
//! of its own where one can be made, and the desk is closed.
//!
//! Callers have numbers: 0 is the opener's, which opens and closes the desk, the sessions have 1 and on, and the
//! workers the numbers after theirs. What a history is that a run may leave is defined in `specs/DeskRun.antt`.
//!
//! A whole run, whose commands were tested against the house.
//!
//! ```
//! let house = house(alloc, limits)?;
//! let scripts = scripts(alloc, &house, sessions)?;
//! match run_desk(rt, alloc, house, scripts, workers, &NoGate) {
//!     Ok(ran) => Ok(ran),
//!     Err(_) => Err("memory".into()),
//! }
//! ```
#![tactic(auto)]

mod actor;
mod callers;
mod crew;
mod finish;
pub mod law;
mod run;
mod start;

pub use callers::Ran;
pub use run::run_desk;
