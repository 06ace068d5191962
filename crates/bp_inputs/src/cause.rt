//! Why a file is refused.
use bp_hotelfile::HotelRefusal;
use bp_stayfile::TableRefusal;
use bp_text::TextError;

/// Why a reader refuses a file, in the reader's own words.
#[derive(Clone, Copy, Debug, PartialEq, Eq)]
pub enum FileError {
    /// A text of lines. No end has its want of memory.
    Text(TextError),
    /// A hotel file.
    Hotel(HotelRefusal),
    /// A table.
    Table(TableRefusal),
}

/// Why a file is refused.
#[derive(Clone, Copy, Debug, PartialEq, Eq)]
pub enum Cause {
    /// It has more bytes than its limit.
    TooLong,
    /// Its reader refuses it.
    Reader(FileError),
}
