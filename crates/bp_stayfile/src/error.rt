//! Why a table is refused, and why it gives nothing.
ghost use Rattle.std.specs.Prelude.{◌≡◌};
ghost use Rattle.bp_stayfile.specs.declared.error.TableError.TheVariants.{Refused, Memory as NoMemory};

use crate::Column;
use bp_types::Memory;
use thiserror::Error;

/// Why a table is refused: at its first record that is wrong, the first thing that is wrong with it.
///
/// A line is the number of the record, the header being 1.
#[derive(Clone, Copy, Debug, PartialEq, Eq, Error)]
pub enum TableRefusal {
    /// The header lacks this column, or there is no header.
    #[error("the column {} is missing", column.text())]
    Column { column: Column },
    /// The record has another number of fields than the header, or a field that is not UTF-8.
    #[error("line {line} is no record of the table")]
    NotCsv { line: u64 },
    /// It is not 1 to 16 letters, digits, dots, underscores or dashes.
    #[error("line {line} has no code")]
    Code { line: u64 },
    /// No stay has this code.
    #[error("line {line} has a code that no stay has")]
    NoCode { line: u64 },
    /// It is not ten characters, as 2025-07-01, of a day that the calendar has.
    #[error("line {line} has no date")]
    Date { line: u64 },
    /// It is not 1 to 18 decimal digits.
    #[error("line {line} has no number")]
    Number { line: u64 },
    /// A number is outside its range, or there are too many records.
    #[error("line {line} is outside a limit")]
    Limit { line: u64 },
    /// A night is none of the hotel's.
    #[error("line {line} is outside the nights")]
    Outside { line: u64 },
    /// An earlier record has this code.
    #[error("line {line} has a code that an earlier line has")]
    TwiceCode { line: u64 },
    /// Of a script alone.
    #[error("line {line} has no verb")]
    Verb { line: u64 },
    /// Of a script alone.
    #[error("line {line} has no session")]
    Session { line: u64 },
    /// Of bookings alone: more rooms are sold on this night than there are.
    #[error("night {night} has more rooms sold than it has")]
    Overbooked { night: u32 },
}

/// Why a table gives nothing.
#[derive(Clone, Copy, Debug, PartialEq, Eq, Error)]
pub enum TableError {
    /// The table is refused.
    #[error("{0}")]
    Refused(TableRefusal),
    /// No memory was left. Nothing is said of the table.
    #[error("no memory is left")]
    Memory,
}

impl From<TableRefusal> for TableError {
    ghost from_gives = { λ refusal e. e ≡ Refused refusal };

    fn from(refusal: TableRefusal) -> TableError {
        TableError::Refused(refusal)
    }
}

impl From<Memory> for TableError {
    ghost from_gives = { λ _ e. e ≡ NoMemory };

    fn from(_error: Memory) -> TableError {
        TableError::Memory
    }
}
