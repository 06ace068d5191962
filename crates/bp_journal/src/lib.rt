//! The text of a journal, read and written.
//!
//! The journal of a book that was opened, and of which nobody asked anything yet.
//!
//! ```
//! let mut out = MemorySink::new(Vec::new(alloc));
//! write(alloc, &book, &mut out)?;
//! let want =
//!     b"journal 2\n0 0 publish 0 vector 0\nvalue 250\nsell 0 1 1 1\nprices 0 100 40\nend\n";
//! assert!(rt; out.written() == want.as_slice());
//! ```
#![tactic(auto)]

mod acts;
mod entry_line;
mod found;
mod journal;
pub mod law;
mod limits;
mod next;
mod numbers;
mod reading;
mod replies;
mod spell;
mod told;
mod version;
mod writing;

pub use bp_text::TextError;
pub use journal::{Journal, JournalLines};
pub use reading::read;
pub use version::Version;
pub use writing::write;
