//! The stays file.
ghost use Rattle.std.specs.Prelude.{◌≡◌, length, Ok};
ghost use Rattle.bp_stayfile.specs.Stays.{stays_file};
ghost use Rattle.bp_types.specs.declared.limits.TheConstants.{MOST_FILE_BYTES};
ghost use Rattle.bp_inputs.specs.HotelFiles.{AreNoStays};

use crate::files::Kind;
use crate::unread::Unread;
use bp_hotelfile::Hotel;
use bp_stayfile::{Stays, read_stays};
use bp_types::limits::MOST_FILE_BYTES;
use std::alloc::Global;

/// The stays of a hotel. The value is the stays with their codes, without forecasts.
#[derive(Clone, Copy)]
pub struct StaysFile<'a> {
    /// The hotel, within whose nights they are.
    pub hotel: &'a Hotel,
}

impl<'a> Kind for StaysFile<'a> {
    type Value = Stays;

    ghost most = { λ k. MOST_FILE_BYTES };

    ghost needs = { λ k. Unit {0} };

    ghost accepts = { λ k bytes stays. stays_file k.hotel.now bytes ≡ Ok stays };

    ghost refuses = { λ k. AreNoStays k.hotel.now };

    ghost keeps = { λ k stays. stays.nights ≡ length k.hotel.now.rooms };

    fn most_bytes(&self) -> u64 {
        MOST_FILE_BYTES
    }

    fn read(&self, alloc: Global, bytes: &[u8]) -> Result<Stays, Unread> {
        Ok(read_stays(alloc, self.hotel, bytes)?)
    }
}
