//! The words of a command line, and the task that a plain line of them asks for.
//!
//! No words ask for no task.
//!
//! ```
//! let none: [String; 0] = [];
//! let read = parse(rt.alloc(), &none);
//! assert!(rt; matches!(read, Err(WordsError::Usage)));
//! ```
#![tactic(auto)]

mod desk;
mod desk_words;
mod error;
mod form;
pub mod law;
mod line;
mod name;
mod number;
mod plain;
mod task;
#[cfg(test)]
mod tests;

pub use error::WordsError;
pub use line::parse;
pub use name::Name;
pub use number::WORKERS;
pub use task::Task;
