//! The tables of a hotel: its stays, their forecasts, and the bookings on file.
//!
//! Tables are CSV with a header. Nights are numbered from 0, money is in minor units, forecasts are in units of the
//! house, and rooms sold are whole rooms.
//!
//! The rows of a table, one by one.
//!
//! ```
//! let at = header(rt.alloc(), b"code\na", &[Column::Code])?;
//! let Some(row) = at.next()? else {
//!     return Err(Fail::new("no row"));
//! };
//! assert_eq!(rt; row.line(), 2);
//! assert!(rt; row.next()?.is_none());
//! ```
#![tactic(auto)]

mod bookings;
pub mod cells;
mod codes;
mod column;
mod counts;
mod error;
mod forecast;
pub mod law;
mod sold;
mod stays;
mod stays_file;
pub mod tables;

pub use bookings::read_bookings;
pub use codes::Codes;
pub use column::Column;
pub use error::{TableError, TableRefusal};
pub use forecast::read_forecast;
pub use sold::Sold;
pub use stays::Stays;
pub use stays_file::read_stays;
