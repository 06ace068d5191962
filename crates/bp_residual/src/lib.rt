//! The interval network of an instance, a flow on it with potentials, and its residual hops.
//!
//! Nodes are the mornings 0 to N. An arc leads from the arrival of each stay to its departure, at a cost
//! of minus its rate, with the forecast as its room. A free arc leads over each night, and carries the
//! rooms that nobody sleeps in. Stays are arcs 0 to M - 1, and the free arc of night n is arc M + n.
//! Potentials fall by the price of each night, and end at 0.
//!
//! Taking differences of the rows of neighbouring nights makes this minimum-cost flow of the linear program, since its
//! matrix has consecutive ones in each column: a standard reduction, which also shows why whole numbers suffice.
//!
//! The flow that sells nothing, under prices at which no stay is worth more than its nights.
//!
//! ```
//! let copy = copied(alloc)?;
//! let certificate = copy.certificate(alloc)?;
//! expect_certificate(&rt, &certificate, 0, &[0, 0], &[90, 90]);
//! assert_eq!(rt; copy.arcs(), 4);
//! assert_eq!(rt; copy.nights(), 2);
//! ```
#![tactic(auto)]

mod alike;
mod arc;
mod flow;
mod hop;
pub mod law;
mod lift;
mod network;
mod rooms;

pub use arc::ArcView;
pub use flow::Flow;
pub use hop::Hop;
