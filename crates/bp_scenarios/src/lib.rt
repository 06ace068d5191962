//! Many what-if questions on one problem: each a list of changes, answered by the optimum and the least prices after
//! it.
//!
//!     let lists = read_scenarios(alloc, &base, bytes)?;            // or `Changes::new` of one's own lists
//!     for outcome in &scenarios(&rt, alloc, &base, &lists)? { .. } // one for each list, in order
//!
//! Each answer is of the base after its own list alone, so how many threads work on the lists changes nothing.
//!
//! The answers to the scenarios of a text, written one a line.
//!
//! ```
//! let base = three_nights(alloc, rooms)?;
//! let lists = read_scenarios(alloc, &base, text)?;
//! let outcomes = scenarios(rt, alloc, &base, &lists)?;
//! let mut out = MemorySink::new(Vec::new(alloc));
//! write_outcomes(alloc, &outcomes, &mut out)?;
//! ```
#![tactic(auto)]

mod alone;
mod answers;
mod changes;
pub mod law;
mod outcome;
mod printed;
mod reading;
mod refused;
mod row;
mod told;

pub use alone::scenarios_alone;
pub use answers::scenarios;
pub use bp_text::TextError;
pub use changes::Changes;
pub use outcome::{Outcome, Prices};
pub use printed::write_outcomes;
pub use reading::read_scenarios;
