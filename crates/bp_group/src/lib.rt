//! What a group costs a hotel: the displacement of its rooms, with a certificate of both optima.
//!
//! A group takes the same number of rooms on each night of a span. It is worth having where it pays at least what the
//! optimum of the instance loses by it. That loss is no less than its rooms at their bid prices, and may be more.
//!
//! What a group displaces, from a solver of the instance.
//!
//! ```
//! let solver = Solver::cold(alloc, instance, &mut steps)?;
//! let found = quote(alloc, &solver, POSITION, span, rooms, &mut steps)?;
//! ```
#![tactic(auto)]

mod error;
mod group_quote;
pub mod law;
mod quoting;
mod rooms;

pub use error::QuoteError;
pub use group_quote::GroupQuote;
pub use quoting::quote;
