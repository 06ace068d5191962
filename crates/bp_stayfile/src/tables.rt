//! Tables in text: rows of fields under named columns, read one after the other.
//!
//! The script of a run is a table too, so these parts serve its reader as well.
mod fields;
mod named;
mod reading;
mod row;

pub use fields::{is_code, number_of};
pub use named::header;
pub use row::Row;
