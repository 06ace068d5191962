//! The file as a tree of TOML, and the values under its keys.
ghost use Rattle.std.specs.Prelude.{◌≡◌, ◌≢◌, option_map, IfOk, IfErr, MatchResult, Ok, Err};
ghost use Rattle.bp_hotelfile.specs.Refusals.{IfRefused};
ghost use Rattle.toml.specs.View.{view, table_view};
ghost use Rattle.bp_hotelfile.specs.Numbers.{within};
ghost use Rattle.bp_hotelfile.specs.Settings.{value_at, text_at, number_in};
ghost use Rattle.bp_hotelfile.specs.Season.{tree_of};

use crate::{HotelError, HotelRefusal, Key};
use std::alloc::Global;
use toml::{Table, Value};

/// The tree of a file, which has to be UTF-8 and TOML.
pub(crate) fn tree_of(alloc: Global, bytes: &[u8]) -> Result<Table, HotelError>
    ensures ok { IfOk result (λ t. tree_of bytes.now ≡ Ok (table_view t)) }
    ensures err { IfErr result (λ e. IfRefused e (λ r. tree_of bytes.now ≡ Err r)) }
{
    let Ok(text) = str::from_utf8(bytes) else {
        return Err(HotelError::Refused(HotelRefusal::NotToml));
    };
    match toml::table_from_str(alloc, text) {
        Ok(table) => Ok(table),
        Err(error) if error.is_memory() => Err(HotelError::Memory),
        Err(_) => Err(HotelError::Refused(HotelRefusal::NotToml)),
    }
}

/// What stands under a key.
pub(crate) fn value_at(table: &Table, key: Key) -> Option<&Value>
    ensures { option_map (λ v. view v.now) result ≡ value_at key (table_view table.now) }
{
    table.get(key.text())
}

/// A text under a key.
pub(crate) fn text_at(table: &Table, key: Key) -> Result<&str, HotelRefusal>
    ensures { MatchResult result
        (λ s. text_at key (table_view table.now) ≡ Ok s.now)
        (λ e. text_at key (table_view table.now) ≡ Err e) }
{
    let Some(value) = value_at(table, key) else {
        return Err(HotelRefusal::Missing { key });
    };
    match value.as_str() {
        Some(text) => Ok(text),
        None => Err(HotelRefusal::Kind { key }),
    }
}

/// The whole number, where it is from least to most.
pub(crate) fn within(least: u64, most: u64, whole: i64) -> Option<u64>
    ensures { result ≡ within least most whole }
{
    match u64::try_from(whole) {
        Ok(number) if least <= number && number <= most => Some(number),
        _ => None,
    }
}

/// A whole number from least to most.
pub(crate) fn number_in(key: Key, least: u64, most: u64, value: &Value) -> Result<u64, HotelRefusal>
    ensures { result ≡ number_in key least most (view value.now) }
{
    match value.as_integer() {
        Some(whole) => within(least, most, whole).ok_or(HotelRefusal::Range { key }),
        None => Err(HotelRefusal::Kind { key }),
    }
}
