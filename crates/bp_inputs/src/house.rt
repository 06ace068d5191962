//! The house of a hotel's files.
ghost use Rattle.std.specs.Prelude.{◌≡◌, ◌+◌, ◌<◌, ◌^◌, IfOk, length};
ghost use Rattle.bp_stayfile.specs.Bookings.{AreSold};
ghost use Rattle.bp_inputs.specs.Fetches.{over};
ghost use Rattle.bp_inputs.specs.Stops.{Follows};
ghost use Rattle.bp_inputs.specs.HotelPlan.{hotel_plan, named, house_of};

use crate::files::bookings::BookingsFile;
use crate::files::forecast::ForecastFile;
use crate::files::hotel::HotelFile;
use crate::files::load;
use crate::files::stays::StaysFile;
use crate::stop::Stop;
use bp_edges::Shelf;
use bp_hotelfile::Hotel;
use bp_stayfile::{Sold, Stays, law};
use bp_types::{House, Memory};
use std::alloc::Global;

/// The names of a hotel's four files.
#[derive(Clone, Copy, Debug)]
pub struct HotelFiles<'a> {
    /// The hotel file.
    pub hotel: &'a str,
    /// The stays file.
    pub stays: &'a str,
    /// The forecast file.
    pub forecast: &'a str,
    /// The bookings file.
    pub bookings: &'a str,
}

/// What a hotel's four files say: its nights, its stays with their codes and forecasts, and the house that a desk opens
/// with.
#[derive(Drop)]
pub struct OpenHotel {
    /// The nights with their rooms, and the limits.
    pub hotel: Hotel,
    /// The stays with their codes and forecasts.
    pub stays: Stays,
    /// The house, whose stays are these without their codes.
    pub house: House,
}

/// The house. Its parts break no limit.
fn make_house(alloc: Global, hotel: &Hotel, stays: &Stays, sold: Sold) -> Result<House, Memory>
    requires of_hotel { stays.now.nights ≡ length hotel.now.rooms }
    requires sold { AreSold hotel.now.rooms sold }
    ensures { IfOk result (λ h. h ≡ house_of hotel.now stays.now sold) }
{
    law::houses_are_in_limits();
    let rooms = Vec::from_slice(alloc, hotel.rooms_by_night())?;
    let list = Vec::from_slice(alloc, stays.as_slice())?;
    match House::new(rooms, sold.into_vec(), list, hotel.limits()) {
        Ok(house) => Ok(house),
        Err(_) => unreachable!(),
    }
}

/// What a hotel's four files say, the first of which has this number; else why the first of them that gives no value
/// gives none.
pub fn load_house<S: Shelf>(
    alloc: Global,
    shelf: &mut S,
    first: u64,
    names: &HotelFiles<'_>,
) -> Result<OpenHotel, Stop>
    requires { first + 4 < 2 ^ 64 }
    ensures { Follows (over S.held S.faults S.fetches S.last S.steady shelf.old shelf.new)
        (hotel_plan (named names.now)) first (first + 4) result }
{
    let hotel = load(alloc, shelf, &HotelFile, first, names.hotel)?;
    let file = StaysFile { hotel: &hotel };
    let listed = load(alloc, shelf, &file, first + 1, names.stays)?;
    let file = ForecastFile { stays: &listed };
    let stays = load(alloc, shelf, &file, first + 2, names.forecast)?;
    let file = BookingsFile {
        hotel: &hotel,
        stays: &stays,
    };
    let sold = load(alloc, shelf, &file, first + 3, names.bookings)?;
    let house = make_house(alloc, &hotel, &stays, sold)?;
    Ok(OpenHotel {
        hotel,
        stays,
        house,
    })
}
