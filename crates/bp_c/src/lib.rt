//! The program's commands and its solver, as calls for programs in other languages.
//!
//! A problem of numbers, as C hands it over: three nights and four stays.
//!
//! ```
//! let status = bidprice_solve_numbers(
//!     rt.alloc(),
//!     &[2, 1, 2],
//!     &[0, 1, 0, 2],
//!     &[2, 3, 1, 3],
//!     &[100, 150, 60, 40],
//!     &[3, 1, 1, 5],
//!     &mut value,
//!     &mut sell,
//!     &mut prices,
//!     &mut refused,
//! );
//! ```
#![tactic(auto)]

mod buffer;
mod group;
mod least;
mod numbers;
mod refusal;
mod reply;
mod shelf;
#[cfg(test)]
mod tests;
mod texts;

pub use group::bidprice_group;
pub use numbers::bidprice_solve_numbers;
pub use refusal::Refusal;
pub use texts::{
    bidprice_check, bidprice_judge, bidprice_scenarios, bidprice_sheet, bidprice_solve,
};
