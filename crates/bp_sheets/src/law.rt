//! Laws over the definitions, as the contracts of functions that do nothing.
ghost use Rattle.bp_sheets.specs.Laws.{BandsHoldPrices, SheetsAreUnique};

use bp_types::law;

/// In each band the price is at least the gain and at most the loss, where these are given.
pub fn bands_hold_prices()
    ensures { BandsHoldPrices }
{
    law::prices_lie_in_the_band();
}

/// An instance has one sheet.
pub fn sheets_are_unique()
    ensures { SheetsAreUnique }
{
    law::optimum_is_unique();
    law::least_prices_are_unique();
    law::displacement_is_unique();
}
