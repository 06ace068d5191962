//! Why a text is refused.
ghost use Rattle.std.specs.Prelude.{◌≡◌};
ghost use Rattle.bp_text.specs.declared.text_error.TextError.TheVariants.{Memory as NoMemory};

use std::alloc::{AllocError, AllocFailed};
use thiserror::Error;

/// Why a text was refused: its first wrong line, counted from 1.
#[derive(Clone, Copy, Debug, PartialEq, Eq, Error)]
pub enum TextError {
    /// The line has not the form of the one that stands in its place.
    #[error("line {line} has not the form of its place")]
    BadLine { line: u64 },
    /// The form is right, and a number or a count of numbers is outside its limit.
    #[error("line {line} has a number outside its limit")]
    Limit { line: u64 },
    /// The text ends before the end of its last line.
    #[error("the text is too short")]
    TooShort,
    /// Bytes follow the last line.
    #[error("line {line} follows the last one")]
    Trailing { line: u64 },
    /// There was no memory. It says nothing of the text.
    #[error("out of memory")]
    Memory,
}

impl From<AllocError> for TextError {
    ghost from_gives = { λ _ e. e ≡ NoMemory };

    fn from(_error: AllocError) -> TextError {
        TextError::Memory
    }
}

impl<T: Drop> From<AllocFailed<T>> for TextError {
    ghost from_gives = { λ _ e. e ≡ NoMemory };

    fn from(_error: AllocFailed<T>) -> TextError {
        TextError::Memory
    }
}
