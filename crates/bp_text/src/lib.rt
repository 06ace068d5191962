//! Texts of lines: each line is a word and numbers, apart by one space, and ends with the byte 10.
//!
//! To read: `Lines` gives the lines of a text one by one, the readers of `read` take the next one in a form, and
//! `Words` splits a line where several forms may stand. `number` and `digits` read a number.
//!
//! To write: the spellers put numbers and lines at the end of a `Vec`, and `write_text` hands it to a sink in pieces; a
//! `Draft` hands a text on as it is spelt, and never holds more than one piece of it.
//!
//!     let mut draft = Draft::new(alloc)?;
//!     draft.push_line(b"nights", &[365], out)?;            // behind the draft, or written once that is full
//!     draft.hand_on(out)                                   // what is left
//!
//! A new kind of text says which lines spell a value, and which values are within the limits. What its reader answers
//! is then `IsText` (`specs/Reading.antt`), and what its proofs cite stands at the head of `proofs/Lib.antt`.
//!
//! The words of a line, one by one, numbers up to a greatest among them.
//!
//! ```
//! let mut words = Words::new(b"3 book 12 ");
//! assert!(rt; words.number(9).map(|counted| counted.value) == Some(3));
//! assert!(rt; words.next() == Some(b"book".as_slice()));
//! assert!(rt; words.number(11).map(|counted| counted.great) == Some(true));
//! ```
#![tactic(auto)]

mod cursor;
mod decimal;
mod draft;
mod found;
mod numbers;
mod read;
mod spaced;
mod spell;
mod text_error;
mod words;
mod write;

pub use cursor::Lines;
pub use decimal::{digits, number};
pub use draft::Draft;
pub use found::{Bounds, Number};
pub use read::{at_end, exact_line, number_line, open_line, wide_number_line, word_line};
pub use spell::{push_line, push_number, push_numbers, push_wide_line};
pub use text_error::TextError;
pub use words::{Counted, Words};
pub use write::write_text;
