//! The script of a desk's run: what each session asks of the desk, in its order.
//!
//! Beside it stands the generator of a demo: a problem that is made of four numbers.
//!
//! A script is a table with a header. Nights are numbered from 0, money is in minor units, forecasts are in units of
//! the house, and rooms are whole rooms.
//!
//! The problem that a seed draws: one night, one room, one stay.
//!
//! ```
//! let one = generate(rt.alloc(), 0, 1, 1, 1)?;
//! assert_eq!(rt; (one.nights(), one.rooms(0), one.stays()), (1, 1, 1));
//! assert_eq!(rt; one.stay(0), stay(0, 1, 5_073, 18));
//! ```
#![tactic(auto)]

mod cells;
mod command;
mod commands;
mod generator;
pub mod law;
mod request;
mod script;
mod verb;

pub use commands::Commands;
pub use generator::{SEEDS, generate};
pub use script::read_script;
