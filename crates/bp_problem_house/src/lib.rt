//! The house of a problem: the desk that opens with nothing sold, in whole rooms, with the greatest limits.
//!
//! `judge` judges a problem's journal by this house, and `demo` books on it.
//!
//! A problem that was drawn becomes a house, at whose desk each stay is booked.
//!
//! ```
//! let problem = generate(alloc, seed, nights, rooms, stays)?;
//! let _limits = problem.nights();
//! let house = house_of_problem(alloc, &problem)?;
//! let summary = sum_up(alloc, house)?;
//! ```
#![tactic(auto)]

mod house;

pub use house::house_of_problem;
