//! The tests of a record's fields. The line of a refusal is the record's.
ghost use Rattle.std.specs.Prelude.{◌≡◌, ◌^◌, ◌<◌, ◌≤◌};
ghost use Rattle.bp_stayfile.specs.Cells.{code_in, number_in, date_in, span_in, limits_in};

use crate::TableRefusal;
use crate::tables::{is_code, number_of};
use bp_hotelfile::DateError;
use bp_types::Span;
use bp_types::limits::{MOST_RATE, MOST_STAYS};

/// A code, whether or not a stay has it; else `Code`.
pub fn code_in(line: u64, text: &str) -> Result<(), TableRefusal>
    ensures { result ≡ code_in line text.now }
{
    if is_code(text) {
        Ok(())
    } else {
        Err(TableRefusal::Code { line })
    }
}

/// A number of 1 to 18 decimal digits; else `Number`.
pub fn number_in(line: u64, text: &str) -> Result<u64, TableRefusal>
    ensures { result ≡ number_in line text.now }
{
    number_of(text).ok_or(TableRefusal::Number { line })
}

/// A date, whether or not it is one of the hotel's nights; else `Date`.
pub fn date_in(line: u64, night: Result<u32, DateError>) -> Result<(), TableRefusal>
    ensures { result ≡ date_in line night }
{
    match night {
        Err(DateError::NotADate) => Err(TableRefusal::Date { line }),
        _ => Ok(()),
    }
}

/// The nights from an arrival, so many of them and all within the hotel's, of which there are `total`; else `Outside`.
pub fn span_in(
    line: u64,
    total: u32,
    arrival: Result<u32, DateError>,
    nights: u64,
) -> Result<Span, TableRefusal>
    ensures { result ≡ span_in line total arrival nights }
{
    let Ok(from) = arrival else {
        return Err(TableRefusal::Outside { line });
    };
    if u128::from(from) + u128::from(nights) <= u128::from(total) {
        let to = from + nights as u32;
        Ok(Span { from, to })
    } else {
        Err(TableRefusal::Outside { line })
    }
}

/// One night at least, a rate in range, and room for a stay more.
pub(crate) fn limits_in(line: u64, before: u64, nights: u64, rate: u64) -> Result<(), TableRefusal>
    ensures { result ≡ limits_in line before nights rate }
{
    if 1 <= nights && 1 <= rate && rate <= MOST_RATE && before < MOST_STAYS as u64 {
        Ok(())
    } else {
        Err(TableRefusal::Limit { line })
    }
}
