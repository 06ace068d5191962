//! The shared desk: a book under a ticket lock, at which any number of threads call, each through a pass of its own.
//!
//! Every answer is that of the one history of the desk, at the place of the call in it. Nights, stays and places are
//! numbered from 0, rooms are whole rooms, and money is in minor units.
//!
//! Two callers at one desk, from its opening to its closed book; `docs/desk.md` shows the whole program.
//!
//! ```
//! let start = house.instance(alloc)?;
//! let board = opening_board(alloc, &start, morning)?;
//! let (desk, mut opener) = Desk::new(alloc, house, board)?;
//!
//! // Each pass may go to a thread of its own.
//! let mut one = desk.enrol(rt, alloc, &mut opener)?;
//! let mut other = desk.enrol(rt, alloc, &mut opener)?;
//! sell(rt, &desk, &start, &mut one, &mut other)?;
//! offer(rt, alloc, &desk, &start, &mut other, evening)?;
//!
//! end(rt, &desk, &mut opener, one);
//! end(rt, &desk, &mut opener, other);
//! Ok(desk.close(rt, opener))
//! ```
#![tactic(auto)]

mod calls;
mod carried;
mod desk;
mod newest;
mod pass;
mod reading;
mod replies;
mod shared;
mod submitting;
mod threads;

pub use desk::{Desk, EnrolError};
pub use pass::{Left, Pass, Quote};
pub use reading::Lag;
pub use replies::{
    BookReply, BookStop, CancelReply, GroupReply, GroupStop, HistoryFull, PublishStop, ResizeReply,
};
pub use submitting::SubmitError;
pub use threads::desk_crosses_threads;
