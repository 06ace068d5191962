//! The pure desk: a history of entries, each the answer of its moment, with no thread and no clock.
//!
//! Nights, stays and places are numbered from 0, rooms are whole rooms, forecasts and displacements are counted in the
//! units of the house, and money is in minor units.
//!
//! Bookings are judged by bid-price control (Talluri and van Ryzin, *The Theory and Practice of Revenue Management*,
//! 2004): one is accepted where its rate is at least the sum of the prices of its nights, and each night has a room.
//!
//! A book opens with a board that is right for its house.
//!
//! ```
//! let house = house(alloc, rooms, sold, stays, limits)?;
//! let board = board_of(alloc, &house.instance(alloc)?, 0, claimed)?;
//! let book = Book::new(alloc, house, board)?;
//! ```
#![tactic(auto)]

mod book;
mod call;
mod calls;
mod deltas;
pub mod law;
mod line;
mod log;
mod range;
mod roll;
mod threads;

pub use book::Book;
pub use call::{Answer, Call};
pub use calls::{Made, make_all};
pub use line::{Act, Entry, Line, Reply};
pub use range::is_in_range;
pub use threads::book_crosses_threads;
