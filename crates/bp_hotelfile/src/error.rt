//! Why a hotel file is refused, and why a text names no night.
ghost use Rattle.std.specs.Prelude.{◌≡◌};
ghost use Rattle.bp_hotelfile.specs.declared.error.HotelError.TheVariants.{Refused, Memory as NoMemory};

use crate::Key;
use bp_types::Memory;
use thiserror::Error;

/// Why a hotel file is refused: the first thing that is wrong with it.
///
/// Keys are looked at in the order of [`Key`]: what is missing, of the wrong kind, no date, or outside its range. Only
/// then come the tables of `night`, by their index from 0.
#[derive(Clone, Copy, Debug, PartialEq, Eq, Error)]
pub enum HotelRefusal {
    /// The bytes are no UTF-8, or no TOML.
    #[error("the file is no TOML")]
    NotToml,
    /// The key has to be there, and is not.
    #[error("the key {} is missing", key.text())]
    Missing { key: Key },
    /// A text stands where a number is wanted, or the like.
    #[error("the key {} has a value of another kind", key.text())]
    Kind { key: Key },
    /// A text that is no date stands under the key.
    #[error("the key {} is no date", key.text())]
    Date { key: Key },
    /// A number is outside its limits, or the day after the last night has no date.
    #[error("the key {} is out of range", key.text())]
    Range { key: Key },
    /// The table of this index, counted from 0, has no date or no number of rooms within its limit.
    #[error("the night table {index} has no date or no number of rooms")]
    NightShape { index: u32 },
    /// Its date is none of the hotel's nights.
    #[error("the night table {index} is of no night of the hotel")]
    NightOutside { index: u32 },
    /// An earlier table is of the same night.
    #[error("the night table {index} is of a night that has a table")]
    TwiceNight { index: u32 },
}

/// Why a hotel file gives no hotel.
#[derive(Clone, Copy, Debug, PartialEq, Eq, Error)]
pub enum HotelError {
    /// The file is refused.
    #[error("{0}")]
    Refused(HotelRefusal),
    /// No memory was left. Nothing is said of the file.
    #[error("no memory is left")]
    Memory,
}

impl From<HotelRefusal> for HotelError {
    ghost from_gives = { λ refusal e. e ≡ Refused refusal };

    fn from(refusal: HotelRefusal) -> HotelError {
        HotelError::Refused(refusal)
    }
}

impl From<Memory> for HotelError {
    ghost from_gives = { λ _ e. e ≡ NoMemory };

    fn from(_error: Memory) -> HotelError {
        HotelError::Memory
    }
}

/// Why a text names no night of the hotel.
#[derive(Clone, Copy, Debug, PartialEq, Eq, Error)]
pub enum DateError {
    /// It is not ten characters, as 2025-07-01, of a day that the calendar has.
    #[error("this is no date")]
    NotADate,
    /// It is a date, and none of the nights.
    #[error("the date is none of the nights")]
    Outside,
}
