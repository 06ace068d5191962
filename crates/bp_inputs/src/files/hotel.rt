//! The hotel file.
ghost use Rattle.std.specs.Prelude.{◌≡◌, Ok};
ghost use Rattle.bp_hotelfile.specs.Season.{season_of};
ghost use Rattle.bp_types.specs.declared.limits.TheConstants.{MOST_FILE_BYTES};
ghost use Rattle.bp_inputs.specs.HotelFiles.{IsNoHotel};

use crate::files::Kind;
use crate::unread::Unread;
use bp_hotelfile::{Hotel, read_hotel};
use bp_types::limits::MOST_FILE_BYTES;
use std::alloc::Global;

/// The hotel file. The value is the hotel: nights, rooms and limits.
#[derive(Clone, Copy)]
pub struct HotelFile;

impl Kind for HotelFile {
    type Value = Hotel;

    ghost most = { λ k. MOST_FILE_BYTES };

    ghost needs = { λ k. Unit {0} };

    ghost accepts = { λ k bytes season. season_of bytes ≡ Ok season };

    ghost refuses = { λ k. IsNoHotel };

    ghost keeps = { λ k season. Unit {0} };

    fn most_bytes(&self) -> u64 {
        MOST_FILE_BYTES
    }

    fn read(&self, alloc: Global, bytes: &[u8]) -> Result<Hotel, Unread> {
        Ok(read_hotel(alloc, bytes)?)
    }
}
