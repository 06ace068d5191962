//! The deterministic linear program of a hotel: rooms by night, stays, allocations and bid prices.
//!
//! Nights are numbered from 0. Money is in minor units, rooms and forecasts are counted in units: one
//! room is one unit, or a hundred where a house counts in hundredths. Source of the program, its dual
//! and its use for bid prices: Talluri and van Ryzin, The Theory and Practice of Revenue Management, 2004.
//!
//! Three nights with 2, 1 and 2 rooms: an allocation is worth the rates of what it sells, and loads its nights.
//!
//! ```
//! let sell = [1, 1, 0, 3];
//! assert_eq!(rt; instance.worth(&sell), 370);
//! assert_eq!(rt; instance.load(&sell, 0), 1);
//! assert_eq!(rt; instance.load(&sell, 1), 2);
//! ```
#![tactic(auto)]

mod certificate;
mod change;
mod command;
mod house;
mod instance;
pub mod law;
pub mod limits;
mod memory;
mod prices;
mod refusal;
mod stay;
mod steps;
#[cfg(test)]
mod tests;

pub use certificate::Certificate;
pub use change::Change;
pub use command::{Command, Limits, Quoted};
pub use house::{House, HouseError};
pub use instance::Instance;
pub use memory::Memory;
pub use refusal::InstanceError;
pub use stay::{Span, Stay};
pub use steps::Steps;
