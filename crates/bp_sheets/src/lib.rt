//! What a desk without the program can sell by: the band of each night's price, and sheets by length of stay.
//!
//! The *gain* of a night is what the optimum gains by one room more on it, its *loss* what the optimum loses by one
//! fewer; the night's bid price lies between. A *hurdle* is what a stay of so many nights has to pay.
//!
//!     for band in &bands(alloc, &problem)? { .. }          // one for each night
//!     sheet(alloc, &problem, out)?;                        // night 0 price 60 gain 60 loss 90 ..
//!
//! The bands of a night without rooms and of one with all of them.
//!
//! ```
//! let found = bands(alloc, &instance)?;
//! assert_eq!(rt; found.len(), 2);
//! assert_eq!(rt; found[0].price, 100);
//! assert_eq!(rt; found[0].gain, Some(100));
//! assert_eq!(rt; found[0].loss, None);
//! ```
#![tactic(auto)]

mod band;
mod hurdles;
pub mod law;
mod lengths;
mod lines;
mod margins;
mod paper;

pub use band::{Band, bands};
pub use paper::{SheetText, sheet, sheet_of};
