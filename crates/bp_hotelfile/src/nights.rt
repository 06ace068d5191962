//! The tables of nights that have rooms of their own, and the rooms of every night.
ghost use Rattle.std.specs.Prelude.{
  ◌≡◌,
  ◌≢◌,
  ◌≤◌,
  ◌<◌,
  length,
  map,
  IfOk,
  IfErr,
  MatchResult,
  OnOk,
  Ok,
  Err,
  Some,
  None,
  slice_index_or,
  unwrap_or,
  replicate,
};
ghost use Rattle.bp_hotelfile.specs.Refusals.{IfRefused};
ghost use Rattle.bp_types.specs.declared.limits.TheConstants.{MOST_NIGHTS};
ghost use Rattle.toml.specs.View.{view, table_view};
ghost use Rattle.bp_hotelfile.specs.Nights.{
  day_under,
  rooms_under,
  night_table,
  tables_in,
  tables_at,
  night_on,
  refused_table,
  rooms_by_night,
  wrong_by_rooms,
  Places,
};

use crate::date::day_of;
use crate::settings::Settings;
use crate::tree::{value_at, within};
use crate::{HotelError, HotelRefusal, Key};
use bp_types::Memory;
use bp_types::limits::{MOST_NIGHTS, MOST_ROOMS};
use std::alloc::Global;
use toml::{Table, Value};

/// A night that has rooms of its own.
#[derive(Clone, Copy)]
pub(crate) struct NightTable {
    /// The day number of the night.
    pub day: u32,
    /// Its rooms, in whole rooms.
    pub rooms: u64,
}

/// The day number of the date in a table.
fn day_under(value: &Value) -> Option<u32>
    ensures { result ≡ day_under (view value.now) }
{
    day_of(value.get("date")?.as_str()?)
}

/// The number of rooms in a table, where it is within its limit.
fn rooms_under(value: &Value) -> Option<u64>
    ensures { result ≡ rooms_under (view value.now) }
{
    within(0, MOST_ROOMS, value.get("rooms")?.as_integer()?)
}

/// A table with a date and a number of rooms.
fn night_table(value: &Value) -> Option<NightTable>
    ensures { result ≡ night_table (view value.now) }
{
    let day = day_under(value)?;
    let rooms = rooms_under(value)?;
    Some(NightTable { day, rooms })
}

/// Each item, read as such a table.
fn night_tables(alloc: Global, values: &[Value]) -> Result<Vec<Option<NightTable>>, Memory>
    ensures { IfOk result (λ v. v.items ≡ map (λ d. night_table (view d)) values.now) }
{
    let mut tables = Vec::new(alloc);
    for value in values {
        tables.push(night_table(value))?;
    }
    Ok(tables)
}

/// The tables in what stands under `night`, which has to be a list.
fn tables_in(alloc: Global, value: &Value) -> Result<Vec<Option<NightTable>>, HotelError>
    ensures ok { IfOk result (λ v. tables_in (Some (view value.now)) ≡ Ok v.items) }
    ensures err { IfErr result (λ e. IfRefused e (λ r. tables_in (Some (view value.now)) ≡ Err r)) }
{
    match value.as_array() {
        Some(values) => Ok(night_tables(alloc, values)?),
        None => Err(HotelError::Refused(HotelRefusal::Kind { key: Key::Night })),
    }
}

/// The tables of nights, in the order of the file.
pub(crate) fn tables_at(alloc: Global, table: &Table) -> Result<Vec<Option<NightTable>>, HotelError>
    ensures ok { IfOk result (λ v. tables_at (table_view table.now) ≡ Ok v.items) }
    ensures err { IfErr result (λ e. IfRefused e (λ r. tables_at (table_view table.now) ≡ Err r)) }
{
    match value_at(table, Key::Night) {
        Some(value) => tables_in(alloc, value),
        None => Ok(Vec::new(alloc)),
    }
}

/// The night of a day, where it is one of the nights.
pub(crate) fn night_on(first: u32, nights: usize, day: u32) -> Option<u32>
    ensures { result ≡ night_on first nights day }
{
    let night = day.checked_sub(first)?;
    if (night as usize) < nights {
        Some(night)
    } else {
        None
    }
}

/// Puts the rooms of a table at its night, or says what is wrong with it.
fn place(
    first: u32,
    own: &mut [Option<u64>],
    index: u32,
    table: Option<NightTable>,
) -> Result<(), HotelRefusal>
    ensures { MatchResult result
        (λ _. Places first own.old table own.new)
        (λ e. wrong_by_rooms first index own.old table ≡ Some e) }
{
    let Some(table) = table else {
        return Err(HotelRefusal::NightShape { index });
    };
    let Some(night) = night_on(first, own.len(), table.day) else {
        return Err(HotelRefusal::NightOutside { index });
    };
    if own[night as usize].is_some() {
        return Err(HotelRefusal::TwiceNight { index });
    }
    own[night as usize] = Some(table.rooms);
    Ok(())
}

/// The rooms of each night: its own, and else the same for all.
fn with_default(alloc: Global, own: &[Option<u64>], rooms: u64) -> Result<Vec<u64>, Memory>
    ensures { IfOk result (λ v. v.items ≡ map (λ o. unwrap_or o rooms) own.now) }
{
    Ok(own.iter().map(|own| own.unwrap_or(rooms)).collect(alloc)?)
}

/// No night with rooms of its own.
fn no_rooms(alloc: Global, nights: usize) -> Result<Vec<Option<u64>>, Memory>
    ensures { IfOk result (λ v. v.items ≡ replicate nights None) }
{
    Ok(vec![in alloc; None; nights]?)
}

/// The rooms of each night, or the first table that is refused.
pub(crate) fn rooms_by_night(
    alloc: Global,
    settings: Settings,
    tables: &[Option<NightTable>],
) -> Result<Vec<u64>, HotelError>
    requires { settings.nights ≤ MOST_NIGHTS }
    ensures ok { IfOk result
        (λ v. (refused_table settings.first settings.nights tables.now ≡ None)
        × (v.items ≡ rooms_by_night settings.first settings.nights settings.rooms tables.now)) }
    ensures err { IfErr result
        (λ e. IfRefused e (λ r. refused_table settings.first settings.nights tables.now ≡ Some r)) }
{
    let nights = settings.nights as usize;
    let mut own = no_rooms(alloc, nights)?;
    for index in 0..tables.len() {
        place(settings.first, &mut own, index as u32, tables[index])?;
    }
    Ok(with_default(alloc, &own, settings.rooms)?)
}
