//! Displays that never go back: one screen that follows a pass of the shared desk, and views that read it without
//! waiting, taking a turn or taking memory.
//!
//! Nights are numbered from 0, and money is in minor units.
//!
//! What views read is kept by left-right, two copies of which readers enter one while the writer changes the other
//! (Ramalhete and Correia, *Left-Right: a concurrency control technique with wait-free population oblivious reads*,
//! 2015).
//!
//! A session books, publishes the prices for the history since, and has them shown; `docs/displays.md` shows the whole
//! program.
//!
//! ```
//! desk.book(rt, session, TRADE_FAIR)?;
//! let position = desk.lag(rt, session).length;
//! desk.submit(rt, alloc, session, start, position, later)?;
//! Ok(screen.follow(session)?)
//! ```
#![tactic(auto)]

mod face;
mod follow;
mod gifts;
pub mod law;
mod name;
mod naming;
mod order;
mod screen;
mod stage;
mod sums;
mod threads;
mod view;

pub use screen::{Follow, Screen};
pub use threads::display_crosses_threads;
pub use view::{Look, View};
