//! The hotel of three nights and its four stays, as files, and what the tests of files share.
ghost use Rattle.std.specs.Prelude.{◌≡◌, length, IfOk};

use bp_hotelfile::{Hotel, read_hotel};
use bp_stayfile::{Stays, TableError, TableRefusal, read_stays};
use bp_types::{Span, Stay};
use std::alloc::{AllocError, Global};
use std::test::Fail;

/// Three nights of two rooms.
pub(crate) const TWO_ROOMS: &str =
    "name = \"A\"\nfirst_night = \"2025-07-01\"\nnights = 3\nrooms = 2\n";

/// One room on the second night.
const ONE_ROOM: &str = "[[night]]\ndate = \"2025-07-02\"\nrooms = 1\n";

/// Four stays in a hotel of three nights.
pub(crate) const FOUR_STAYS: &str =
    "code,arrival,nights,rate\nP0,2025-07-01,2,100\nP1,2025-07-02,2,150\nP2,2025-07-01,1,60\nP3,2025-07-03,1,40\n";

/// The hotel: three nights of two rooms, but one room on the second.
pub(crate) fn hotel(alloc: Global) -> Result<Hotel, Fail> {
    let text = joined(alloc, TWO_ROOMS, ONE_ROOM)?;
    Ok(read_hotel(alloc, text.as_bytes())?)
}

/// Its four stays.
pub(crate) fn stays(alloc: Global, hotel: &Hotel) -> Result<Stays, TableError>
    ensures of_hotel { IfOk result (λ s. s.nights ≡ length hotel.now.rooms) }
{
    read_stays(alloc, hotel, FOUR_STAYS.as_bytes())
}

/// The first lines of a file with further ones behind them, or a header with its records.
pub(crate) fn joined(alloc: Global, lines: &str, more: &str) -> Result<String, AllocError> {
    let mut text = String::from_str(alloc, lines)?;
    text.push_str(more)?;
    Ok(text)
}

/// The refusal of a table that is read.
pub(crate) fn refusal<T: Drop>(read: Result<T, TableError>) -> Option<TableRefusal> {
    match read {
        Err(TableError::Refused(refusal)) => Some(refusal),
        _ => None,
    }
}

/// A stay from a night up to another.
pub(crate) fn stay(from: u32, to: u32, rate: u64, forecast: u64) -> Stay {
    let span = Span { from, to };
    Stay {
        span,
        rate,
        forecast,
    }
}
