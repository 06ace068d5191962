//! Laws over the definitions, as the contracts of functions that do nothing.
ghost use Rattle.bp_stayfile.specs.Laws.{FilesGiveStays, ForecastsKeepLimits, BookingsFit, HousesAreInLimits};

/// What a stays file says keeps to every limit, within the nights of its hotel.
pub fn files_give_stays()
    ensures { FilesGiveStays }
{}

/// A forecast file leaves codes and nights as they are, and every stay within its limits.
pub fn forecasts_keep_limits()
    ensures { ForecastsKeepLimits }
{}

/// The rooms that a bookings file takes are there.
pub fn bookings_fit()
    ensures { BookingsFit }
{}

/// A house of what a hotel's files say breaks no limit: `House::new` has nothing to refuse.
pub fn houses_are_in_limits()
    ensures { HousesAreInLimits }
{}
