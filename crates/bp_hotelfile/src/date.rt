//! Dates in text, as `2025-07-01`, and their day numbers.
ghost use Rattle.std.specs.Prelude.{◌≡◌, ◌≤◌, ◌<◌, ◌+◌, ◌*◌, ◌==◌, length, pos, ◌+ℤ◌, Some, None, if◌then◌else◌};
ghost use Rattle.std.specs.Str.{all_ascii_digits};
ghost use Rattle.bp_hotelfile.specs.Numbers.{number};
ghost use Rattle.bp_hotelfile.specs.Dates.{day_of, day_of_parts, first_day};

use bp_text::Number;
use jiff::civil::Date;
use jiff_core::civil;

/// The day number of 9999-12-31, counted from -9999-01-01.
pub(crate) const LAST_DAY: u32 = 7_304_483;

/// The number that four decimal digits at most write; None where a byte is no digit.
fn digits(bytes: &[u8]) -> Option<u16>
    requires { length bytes.now ≤ 4 }
    ensures { result ≡ (if all_ascii_digits bytes.now then Some (number bytes.now) else None) }
{
    match bp_text::digits(bytes, 9_999) {
        Number::Value(value) => Some(value as u16),
        Number::Bad => None,
        Number::Great => unreachable!(),
    }
}

/// The day number of a year, a month and a day, where they are a date.
fn day_of_parts(year: u16, month: u16, day: u16) -> Option<u32>
    requires year { year < 10000 }
    requires month { month < 100 }
    requires day { day < 100 }
    ensures { result ≡ day_of_parts year month day }
{
    if year == 0 {
        return None;
    }
    match Date::new(year as i16, month as i8, day as i8) {
        Ok(date) => Some(date.to_plain().days_since_min()),
        Err(_) => None,
    }
}

/// The day number of a text, where it is a date.
pub(crate) fn day_of(text: &str) -> Option<u32>
    ensures value { result ≡ day_of text.now }
{
    let bytes = text.as_bytes();
    if bytes.len() != 10 || bytes[4] != b'-' || bytes[7] != b'-' {
        return None;
    }
    let year = digits(&bytes[0..4])?;
    let month = digits(&bytes[5..7])?;
    let day = digits(&bytes[8..10])?;
    day_of_parts(year, month, day)
}

/// The two digits of a number below a hundred.
fn two_digits(number: u16) -> (u8, u8)
    requires { number < 100 }
    ensures tens { (48 ≤ result.0) × (result.0 ≤ 57) }
    ensures ones { (48 ≤ result.1) × (result.1 ≤ 57) }
    ensures value { 10 * result.0 + result.1 ≡ number + 528 }
{
    (b'0' + (number / 10) as u8, b'0' + (number % 10) as u8)
}

/// The text of a day, as `2025-07-01`.
pub(crate) fn text_of(day: u32) -> [u8; 10]
    requires from { first_day ≤ day }
    requires to { day ≤ LAST_DAY }
    ensures { day_of result ≡ Some day }
{
    let date = civil::Date::from_days_since_min(day);
    let year = date.year as u16;
    let (y1, y2) = two_digits(year / 100);
    let (y3, y4) = two_digits(year % 100);
    let (m1, m2) = two_digits(u16::from(date.month));
    let (d1, d2) = two_digits(u16::from(date.day));
    [y1, y2, y3, y4, b'-', m1, m2, b'-', d1, d2]
}
