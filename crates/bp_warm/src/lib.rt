//! Restarts: from the optimum of an instance to that of the instance after some changes.
//!
//! A booking, a cancellation, a new forecast or a new rate changes the linear program a little. The flow of
//! the solver is mended for each change in turn, and its prices are settled once at the end, so a restart
//! costs what the changes move and not what the instance is large.
//!
//! The optimum after one change, of an instance and of its solver.
//!
//! ```
//! instance.apply(change);
//! catch_up(solver, &[change], steps);
//! ```
#![tactic(auto)]

pub mod law;
mod restart;

pub use restart::catch_up;
