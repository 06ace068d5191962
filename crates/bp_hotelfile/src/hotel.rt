//! The hotel that a hotel file gives, and its reader.
ghost use Rattle.std.specs.Prelude.{◌≡◌, ◌+◌, ◌<◌, length, slice_index, IfOk, IfErr, Ok, Err, Some};
ghost use Rattle.bp_hotelfile.specs.Refusals.{IfRefused};
ghost use Rattle.bp_hotelfile.specs.Dates.{day_of};
ghost use Rattle.bp_hotelfile.specs.Season.{season_of, night_of, IsSeason};

use crate::date::{day_of, text_of};
use crate::nights::{night_on, rooms_by_night, tables_at};
use crate::settings::settings_of;
use crate::tree::tree_of;
use crate::{DateError, HotelError};
use bp_types::Limits;
use std::alloc::Global;
use std::marker::Model;

/// The nights of a hotel, the rooms of each, and the limits of its desk.
///
/// Contracts see the day number of the first night, one number of rooms per night, and the limits.
#[derive(Debug, Drop)]
pub struct Hotel {
    first: u32,
    rooms: Vec<u64>,
    limits: Limits,
}

impl Model for Hotel {
    ghost use Rattle.bp_hotelfile.specs.Season.{Season, IsSeason};

    ghost Value = { Season };

    ghost view = { λ h. record { first = h.first; rooms = h.rooms.items; limits = h.limits } };

    ghost invariant = { λ h. IsSeason (record { first = h.first; rooms = h.rooms.items; limits = h.limits }) };
}

/// The hotel of a hotel file, or the first thing that is wrong with it. `Memory` says nothing of the file.
pub fn read_hotel(alloc: Global, bytes: &[u8]) -> Result<Hotel, HotelError>
    ensures read { IfOk result (λ h. season_of bytes.now ≡ Ok h) }
    ensures season { IfOk result (λ h. IsSeason h) }
    ensures refused { IfErr result (λ e. IfRefused e (λ r. season_of bytes.now ≡ Err r)) }
{
    let table = tree_of(alloc, bytes)?;
    let settings = settings_of(&table)?;
    let tables = tables_at(alloc, &table)?;
    let rooms = rooms_by_night(alloc, settings, &tables)?;
    Ok(Hotel {
        first: settings.first,
        rooms,
        limits: settings.limits,
    })
}

impl Hotel {
    /// How many nights there are.
    pub fn nights(&self) -> u32
        ensures value { result ≡ length self.now.rooms }
        ensures limits { IsSeason self.now }
    {
        self.rooms.len() as u32
    }

    /// The rooms of a night, in whole rooms.
    pub fn rooms(&self, night: u32) -> u64
        requires { night < length self.now.rooms }
        ensures { result ≡ slice_index self.now.rooms night }
    {
        self.rooms[night as usize]
    }

    /// The rooms of each night, from the first on, in whole rooms.
    pub fn rooms_by_night(&self) -> &[u64]
        ensures value { result.now ≡ self.now.rooms }
        ensures season { IsSeason self.now }
    {
        &self.rooms
    }

    /// The limits of the desk: commands, vectors, stale changes, and the unit.
    pub fn limits(&self) -> Limits
        ensures { result ≡ self.now.limits }
    {
        self.limits
    }

    /// The night of a date, as `2025-07-01`, counted from 0; an error where it is no date or none of the nights.
    pub fn night_of(&self, text: &str) -> Result<u32, DateError>
        ensures { result ≡ night_of self.now text.now }
    {
        let Some(day) = day_of(text) else {
            return Err(DateError::NotADate);
        };
        night_on(self.first, self.rooms.len(), day).ok_or(DateError::Outside)
    }

    /// The date of a night, as `2025-07-01`.
    pub fn date_of(&self, night: u32) -> [u8; 10]
        requires { night < length self.now.rooms }
        ensures { day_of result ≡ Some (self.now.first + night) }
    {
        text_of(self.first + night)
    }
}
