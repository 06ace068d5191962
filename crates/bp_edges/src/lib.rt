//! The edges of the program: where bytes come from and go to.
//!
//! A sink in memory whose second and fourth put fail.
//!
//! ```
//! let mut sink = MemorySink::new([2, 4].to_vec(alloc)?);
//! for (piece, taken) in &PUTS {
//!     assert!(rt;
//!         sink.put(alloc, piece.as_bytes()).is_ok() == *taken,
//!         "{piece}"
//!     );
//! }
//! ```
#![tactic(auto)]

mod file_shelf;
mod gate;
mod held_file;
mod memory_shelf;
mod memory_sink;
mod out_sink;
mod reading;
mod schedule;
mod shelf;
mod sink;
mod tally;

pub use file_shelf::FileShelf;
pub use gate::{Gate, NoGate};
pub use held_file::HeldFile;
pub use memory_shelf::MemoryShelf;
pub use memory_sink::MemorySink;
pub use out_sink::OutSink;
pub use shelf::{Shelf, ShelfError};
pub use sink::{MOST_PIECE, Sink, SinkError, WriteError};

#[cfg(test)]
mod tests;
