//! A demo: a large hotel made of four numbers, whose stays are each booked once, in order.
//!
//! What the bookings come to can be asked of any house. A demo is that of the house that four numbers make, and its
//! text is the same at each call.
//!
//!     let text = demo(alloc, 7, 120, 50, 800)?;            // seed, nights, rooms on each night, stays
//!
//! The demo of seed 0: one night, one room, one stay.
//!
//! ```
//! let text = demo(rt.alloc(), 0, 1, 1, 1)?;
//! assert!(rt; text.text() == ONE_STAY);
//! ```
#![tactic(auto)]

mod booking;
mod closing;
mod counts;
pub mod law;
mod summary;
#[cfg(test)]
mod tests;
mod text;

pub use counts::Counts;
pub use summary::{Summary, sum_up};
pub use text::{DemoText, demo};
