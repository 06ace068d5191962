//! Whether a journal is a legal history of a house, and if not, its first place with a cause and that cause.
//!
//! Nothing of the desk that wrote the lines is trusted. The history is made anew, line by line, by a book of the house;
//! a vector is judged by its certificate, and what a group displaces is found by a solver.
//!
//! A journal that is legal for a house is the history of a book.
//!
//! ```
//! let journal = read(alloc, text)?;
//! let Judgement::Legal(book) = judge(alloc, house(alloc, setting)?, journal, &mut steps)? else {
//!     return Ok(false);
//! };
//! ```
#![tactic(auto)]

mod certified;
mod course;
mod judgement;
pub mod law;
mod replay;
mod solved;
mod trail;
mod units;

pub use judgement::{Cause, Judgement};
pub use replay::judge;
