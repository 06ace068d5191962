//! The dates of a hotel's nights.
ghost use Rattle.bp_report.specs.Tables.{AreDates};
ghost use Rattle.std.specs.Prelude.{◌≡◌, length};

use bp_hotelfile::Hotel;
use bp_types::limits::MOST_NIGHTS;

/// The date of each night; behind the last night it says nothing.
pub(crate) fn dates_of(hotel: &Hotel) -> [[u8; 10]; MOST_NIGHTS]
    ensures { AreDates hotel.now (length hotel.now.rooms) result }
{
    let mut dates = [[0; 10]; MOST_NIGHTS];
    for night in 0..hotel.nights() {
        dates[night as usize] = hotel.date_of(night);
    }
    dates
}
