//! The solver: an optimal allocation and the least optimal bid prices of an instance, kept through changes.
//!
//! A flow on the interval network carries exactly the rooms, under potentials that leave no residual hop a
//! negative reduced cost; so its allocation and its prices have one value. A cold solve takes over what a network
//! simplex found, as far as it is such a flow; what is wrong about its rooms is repaired. Units are moved by
//! successive shortest paths, and prices are brought down to the least ones by distances to the last node.
//!
//! A certificate of the optimum, with the least prices, from nothing.
//!
//! ```
//! let solver = Solver::cold(alloc, instance, steps)?;
//! solver.certificate(alloc)
//! ```
#![tactic(auto)]

mod demand;
mod guess;
pub mod law;
mod moves;
mod repairs;
mod rooms;
mod settling;
mod shortage;
mod solver;
mod standing;
mod start;
mod threads;
mod ways;

pub use moves::shift;
pub use solver::Solver;
pub use threads::solver_crosses_threads;
