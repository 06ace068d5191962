//! The bookings file: the rooms that are sold of each night.
ghost use Rattle.std.specs.Prelude.{
  ◌≡◌,
  ◌<◌,
  ◌≤◌,
  ◌+◌,
  ◌*◌,
  ◌^◌,
  ℕ,
  List,
  find,
  if◌then◌else◌,
  length,
  slice_index,
  IfOk,
  IfErr,
  Ok,
  Err,
};
ghost use Rattle.std.specs.List.{range_with_len};
ghost use Rattle.bp_types.specs.Program.{covers};
ghost use Rattle.bp_types.specs.House.{is_oversold};
ghost use Rattle.bp_stayfile.specs.declared.counts.Counted.{Counted};
ghost use Rattle.bp_stayfile.specs.StayList.{AreStays};
ghost use Rattle.bp_stayfile.specs.Bookings.{bookings_file, AreSold};
ghost use Rattle.bp_stayfile.specs.LaidOut.{AreLaidOut, sold_at};
ghost use Rattle.bp_stayfile.specs.Refusals.{IfRefused};

use crate::counts::counts_of;
use crate::{Sold, Stays, TableError, TableRefusal};
use bp_hotelfile::Hotel;
use bp_types::{Memory, Span, Stay};
use std::alloc::Global;

/// Adds so many rooms to each night of a span.
fn add(sold: &mut [u64], span: Span, rooms: u64)
    requires some_night { span.from < span.to }
    requires within { span.to ≤ length sold.old }
    requires fits { (n : ℕ) → n < length sold.old → slice_index sold.old n + rooms < 2 ^ 64 }
    ensures { (n : ℕ) → n < length sold.old
        → slice_index sold.new n ≡ slice_index sold.old n + (if covers span n then rooms else 0) }
{
    for night in span.from as usize..span.to as usize {
        sold[night] += rooms;
    }
}

/// No room sold on any night.
fn nothing_sold(alloc: Global, nights: u32) -> Result<Vec<u64>, Memory>
    ensures { IfOk result (λ v. (length v.items ≡ nights) × ((n : ℕ) → slice_index v.items n ≡ 0)) }
{
    Ok(vec![in alloc; 0; nights as usize]?)
}

/// The rooms sold on each night, where each stay is sold as often as its count says.
fn sold_by_night(
    alloc: Global,
    nights: u32,
    stays: &[Stay],
    counts: &[Option<u64>],
) -> Result<Vec<u64>, Memory>
    requires stays { AreStays nights stays.now }
    requires counts { (named : List Counted) × AreLaidOut (length stays.now) named counts.now }
    ensures { IfOk result (λ v. (length v.items ≡ nights)
        × ((n : ℕ) → n < nights → slice_index v.items n ≡ sold_at counts.now stays.now (length stays.now) n)) }
{
    let mut sold = nothing_sold(alloc, nights)?;
    for stay in 0..stays.len() {
        add(&mut sold, stays[stay].span, counts[stay].unwrap_or(0));
    }
    Ok(sold)
}

/// The first night on which more rooms are sold than there are.
fn overbooked(hotel: &Hotel, sold: &[u64]) -> Option<u32>
    requires { length sold.now ≡ length hotel.now.rooms }
    ensures { result ≡ find (is_oversold hotel.now.rooms sold.now) (range_with_len 0 (length hotel.now.rooms)) }
{
    for night in 0..hotel.nights() {
        if hotel.rooms(night) < sold[night as usize] {
            return Some(night);
        }
    }
    None
}

/// The rooms that the bookings of a bookings file take of each night, in whole rooms, or the first thing that is wrong
/// with the file. Beside that of reading, its time grows with the nights of all stays.
///
/// The stays are this hotel's: they are within as many nights as it has.
pub fn read_bookings(
    alloc: Global,
    hotel: &Hotel,
    stays: &Stays,
    bytes: &[u8],
) -> Result<Sold, TableError>
    requires of_hotel { stays.now.nights ≡ length hotel.now.rooms }
    ensures read { IfOk result (λ sold. bookings_file hotel.now.rooms stays.now bytes.now ≡ Ok sold) }
    ensures refused { IfErr result (λ e. IfRefused e (λ r. bookings_file hotel.now.rooms stays.now bytes.now ≡ Err r)) }
{
    let counts = counts_of(alloc, stays.codes(), bytes)?;
    let rooms = sold_by_night(alloc, hotel.nights(), stays.as_slice(), &counts)?;
    match overbooked(hotel, &rooms) {
        Some(night) => Err(TableError::Refused(TableRefusal::Overbooked { night })),
        None => Ok(Sold { rooms }),
    }
}
