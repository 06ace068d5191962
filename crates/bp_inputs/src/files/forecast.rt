//! The forecast file.
ghost use Rattle.std.specs.Prelude.{◌≡◌, Ok};
ghost use Rattle.bp_stayfile.specs.Forecasts.{forecast_file};
ghost use Rattle.bp_types.specs.declared.limits.TheConstants.{MOST_FILE_BYTES};
ghost use Rattle.bp_inputs.specs.HotelFiles.{IsNoForecast};

use crate::files::Kind;
use crate::unread::Unread;
use bp_stayfile::{Stays, law, read_forecast};
use bp_types::limits::MOST_FILE_BYTES;
use std::alloc::Global;

/// The forecasts of these stays. The value is the stays with their forecasts.
#[derive(Clone, Copy)]
pub struct ForecastFile<'a> {
    /// The stays, whose codes the file names.
    pub stays: &'a Stays,
}

impl<'a> Kind for ForecastFile<'a> {
    type Value = Stays;

    ghost most = { λ k. MOST_FILE_BYTES };

    ghost needs = { λ k. Unit {0} };

    ghost accepts = { λ k bytes stays. forecast_file k.stays.now bytes ≡ Ok stays };

    ghost refuses = { λ k. IsNoForecast k.stays.now };

    ghost keeps = { λ k stays. stays.nights ≡ k.stays.now.nights };

    fn most_bytes(&self) -> u64 {
        MOST_FILE_BYTES
    }

    fn read(&self, alloc: Global, bytes: &[u8]) -> Result<Stays, Unread> {
        law::forecasts_keep_limits();
        let _nights = self.stays.nights();
        let mut stays = self.stays.copy(alloc)?;
        read_forecast(alloc, &mut stays, bytes)?;
        Ok(stays)
    }
}
