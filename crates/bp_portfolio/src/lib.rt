//! Portfolios: the names of several hotels' files, and their desks beside one another.
//!
//! A list is a text of lines, one for each hotel with the names of its five files.
//!
//!     portfolio 1
//!     hotels 2
//!     lindenhof.toml stays.csv forecast.csv bookings.csv script.csv
//!     seeblick.toml stays.csv forecast.csv bookings.csv script.csv
//!     end
//!
//! `read_list` gives the names. A `Staged` is a hotel's house with what its sessions ask, and `run_desks` runs the
//! desks of several hotels beside one another. Nothing is shared between them: what is said of each is said of its own
//! house, script and workers alone. `run_all` does the same for other sites, of whatever kind.
//!
//! A list of eight hotels.
//!
//! ```
//! let Ok(hotels) = read_list(alloc, list_of(alloc, 8, 200)?.as_bytes()) else {
//!     return Err("refused".into());
//! };
//! assert!(rt; hotels.len() == 8);
//! ```
#![tactic(auto)]

mod crew;
mod desk;
mod gate;
pub mod law;
mod list;
mod names;
mod site;
#[cfg(test)]
mod tests;

pub use crew::run_desks;
pub use desk::Staged;
pub use list::read_list;
pub use names::Names;
pub use site::{Site, run_all};
