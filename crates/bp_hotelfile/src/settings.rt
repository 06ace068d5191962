//! What stands under the keys, in their order: the first night, nights, rooms and limits.
ghost use Rattle.std.specs.Prelude.{◌≡◌, Ok};
ghost use Rattle.toml.specs.View.{view, table_view};
ghost use Rattle.bp_hotelfile.specs.Settings.{
  day_at,
  number_at,
  number_or,
  unit_in,
  unit_at,
  first_with,
  limits_of,
  settings_of,
};

use crate::date::{LAST_DAY, day_of};
use crate::tree::{number_in, text_at, value_at};
use crate::{HotelRefusal, Key};
use bp_types::Limits;
use bp_types::limits::{
    HUNDREDTHS, MOST_ENTRIES, MOST_NIGHTS, MOST_PUBLICATIONS, MOST_ROOMS, MOST_STALE_AFTER,
};
use toml::{Table, Value};

/// The number of changes after which a booking waits for a new vector, where the file does not say it.
const STALE_AFTER: u64 = 20;

/// What stands under the keys, but for the nights that have rooms of their own.
#[derive(Clone, Copy)]
pub(crate) struct Settings {
    /// The day number of the first night.
    pub first: u32,
    /// How many nights there are.
    pub nights: u64,
    /// The rooms of a night without a table of its own, in whole rooms.
    pub rooms: u64,
    /// The limits of the desk.
    pub limits: Limits,
}

/// The day number of a date that must be there.
fn day_at(table: &Table, key: Key) -> Result<u32, HotelRefusal>
    ensures { result ≡ day_at key (table_view table.now) }
{
    let text = text_at(table, key)?;
    day_of(text).ok_or(HotelRefusal::Date { key })
}

/// A number that must be there.
fn number_at(table: &Table, key: Key, least: u64, most: u64) -> Result<u64, HotelRefusal>
    ensures { result ≡ number_at key least most (table_view table.now) }
{
    match value_at(table, key) {
        Some(value) => number_in(key, least, most, value),
        None => Err(HotelRefusal::Missing { key }),
    }
}

/// A number that may be absent, which then is the one given.
fn number_or(
    table: &Table,
    absent: u64,
    key: Key,
    least: u64,
    most: u64,
) -> Result<u64, HotelRefusal>
    ensures { result ≡ number_or absent key least most (table_view table.now) }
{
    match value_at(table, key) {
        Some(value) => number_in(key, least, most, value),
        None => Ok(absent),
    }
}

/// A unit: 1, or a hundred.
fn unit_in(value: &Value) -> Result<u64, HotelRefusal>
    ensures { result ≡ unit_in (view value.now) }
{
    let unit = number_in(Key::Unit, 1, HUNDREDTHS, value)?;
    if unit == 1 || unit == HUNDREDTHS {
        Ok(unit)
    } else {
        Err(HotelRefusal::Range { key: Key::Unit })
    }
}

/// The unit, 1 where the key is absent.
fn unit_at(table: &Table) -> Result<u64, HotelRefusal>
    ensures { result ≡ unit_at (table_view table.now) }
{
    match value_at(table, Key::Unit) {
        Some(value) => unit_in(value),
        None => Ok(1),
    }
}

/// The first night, where the day after the last one still has a date.
fn first_with(first: u32, nights: u64) -> Result<u32, HotelRefusal>
    ensures { result ≡ first_with first nights }
{
    if u128::from(first) + u128::from(nights) <= u128::from(LAST_DAY) {
        Ok(first)
    } else {
        Err(HotelRefusal::Range {
            key: Key::FirstNight,
        })
    }
}

/// The limits of the desk. Where their keys are absent, entries and publications are the most that may be,
/// `stale_after` is 20 and the unit 1.
fn limits_of(table: &Table) -> Result<Limits, HotelRefusal>
    ensures { result ≡ limits_of (table_view table.now) }
{
    let stale_after = number_or(table, STALE_AFTER, Key::StaleAfter, 1, MOST_STALE_AFTER)?;
    let entries = number_or(table, MOST_ENTRIES, Key::Entries, 1, MOST_ENTRIES)?;
    let publications = number_or(
        table,
        MOST_PUBLICATIONS,
        Key::Publications,
        1,
        MOST_PUBLICATIONS,
    )?;
    let unit = unit_at(table)?;
    Ok(Limits {
        stale_after,
        entries,
        publications,
        unit,
    })
}

/// The settings, or the first key that is refused.
pub(crate) fn settings_of(table: &Table) -> Result<Settings, HotelRefusal>
    ensures { result ≡ settings_of (table_view table.now) }
{
    let _name = text_at(table, Key::Name)?;
    let first = day_at(table, Key::FirstNight)?;
    let nights = number_at(table, Key::Nights, 1, MOST_NIGHTS as u64)?;
    let first = first_with(first, nights)?;
    let rooms = number_at(table, Key::Rooms, 0, MOST_ROOMS)?;
    let limits = limits_of(table)?;
    Ok(Settings {
        first,
        nights,
        rooms,
        limits,
    })
}
