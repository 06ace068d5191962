//! The hotel file: a name, the first night, the rooms of each night and the limits of the desk.
//!
//! The file is TOML. Nights are numbered from 0, and days are counted on the civil calendar.
//!
//! A hotel of three nights, with a night on which other rooms are open.
//!
//! ```
//! let hotel = read_hotel(rt.alloc(), text.as_bytes())?;
//! assert_eq!(rt; hotel.nights(), 3);
//! for (night, rooms, date) in [
//!     (0, 2, b"2025-02-27"),
//!     (1, 0, b"2025-02-28"),
//!     (2, 2, b"2025-03-01"),
//! ] {
//!     assert_eq!(rt; hotel.rooms(night), rooms);
//!     assert_eq!(rt; hotel.date_of(night), *date);
//! }
//! ```
#![tactic(auto)]

mod date;
mod error;
mod hotel;
mod key;
pub mod law;
mod nights;
mod settings;
mod tree;

pub use error::{DateError, HotelError, HotelRefusal};
pub use hotel::{Hotel, read_hotel};
pub use key::Key;
