//! Why a reader gives no value of a file.
ghost use Rattle.std.specs.Prelude.{◌≡◌};
ghost use Rattle.bp_inputs.specs.Unread.{of_text, of_hotel, of_table};
ghost use Rattle.bp_inputs.specs.declared.unread.Unread.TheVariants.{Memory as NoMemory};

use crate::cause::FileError;
use bp_hotelfile::HotelError;
use bp_stayfile::TableError;
use bp_text::TextError;
use bp_types::Memory;

/// Why a reader gives no value of a file.
#[derive(Clone, Copy, Debug, PartialEq, Eq)]
pub enum Unread {
    /// There was no memory. Nothing is said of the file.
    Memory,
    /// The file is refused.
    Refused(FileError),
}

impl From<Memory> for Unread {
    ghost from_gives = { λ _ u. u ≡ NoMemory };

    fn from(_error: Memory) -> Unread {
        Unread::Memory
    }
}

impl From<TextError> for Unread {
    ghost from_gives = { λ e u. u ≡ of_text e };

    fn from(error: TextError) -> Unread {
        match error {
            TextError::Memory => Unread::Memory,
            _ => Unread::Refused(FileError::Text(error)),
        }
    }
}

impl From<HotelError> for Unread {
    ghost from_gives = { λ e u. u ≡ of_hotel e };

    fn from(error: HotelError) -> Unread {
        match error {
            HotelError::Memory => Unread::Memory,
            HotelError::Refused(refusal) => Unread::Refused(FileError::Hotel(refusal)),
        }
    }
}

impl From<TableError> for Unread {
    ghost from_gives = { λ e u. u ≡ of_table e };

    fn from(error: TableError) -> Unread {
        match error {
            TableError::Memory => Unread::Memory,
            TableError::Refused(refusal) => Unread::Refused(FileError::Table(refusal)),
        }
    }
}
