//! The bookings file.
ghost use Rattle.std.specs.Prelude.{◌≡◌, length, Ok};
ghost use Rattle.bp_stayfile.specs.Bookings.{bookings_file, AreSold};
ghost use Rattle.bp_types.specs.declared.limits.TheConstants.{MOST_FILE_BYTES};
ghost use Rattle.bp_inputs.specs.HotelFiles.{AreNoBookings};

use crate::files::Kind;
use crate::unread::Unread;
use bp_hotelfile::Hotel;
use bp_stayfile::{Sold, Stays, law, read_bookings};
use bp_types::limits::MOST_FILE_BYTES;
use std::alloc::Global;

/// The bookings of these stays of a hotel. The value is the rooms sold of each night.
#[derive(Clone, Copy)]
pub struct BookingsFile<'a> {
    /// The hotel, whose rooms are sold.
    pub hotel: &'a Hotel,
    /// Its stays, whose codes the file names.
    pub stays: &'a Stays,
}

impl<'a> Kind for BookingsFile<'a> {
    type Value = Sold;

    ghost most = { λ k. MOST_FILE_BYTES };

    ghost needs = { λ k. k.stays.now.nights ≡ length k.hotel.now.rooms };

    ghost accepts = { λ k bytes sold. bookings_file k.hotel.now.rooms k.stays.now bytes ≡ Ok sold };

    ghost refuses = { λ k. AreNoBookings k.hotel.now k.stays.now };

    ghost keeps = { λ k sold. AreSold k.hotel.now.rooms sold };

    fn most_bytes(&self) -> u64 {
        MOST_FILE_BYTES
    }

    fn read(&self, alloc: Global, bytes: &[u8]) -> Result<Sold, Unread> {
        law::bookings_fit();
        Ok(read_bookings(alloc, self.hotel, self.stays, bytes)?)
    }
}
