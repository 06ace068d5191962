//! The tests of a script's cells. The line of a refusal is the record's.
ghost use Rattle.std.specs.Prelude.{◌≡◌};
ghost use Rattle.bp_script.specs.Commands.{stay_in, number_within, nights_in, night_in};

use bp_hotelfile::DateError;
use bp_stayfile::cells::{code_in, number_in};
use bp_stayfile::{Codes, TableRefusal};

/// The stay that a code names, counted from 0; else `Code` or `NoCode`.
pub(crate) fn stay_in(codes: &Codes, line: u64, text: &str) -> Result<u32, TableRefusal>
    ensures { result ≡ stay_in codes.now line text.now }
{
    code_in(line, text)?;
    codes.find(text).ok_or(TableRefusal::NoCode { line })
}

/// A number from least to most; else `Number` or `Limit`.
pub(crate) fn number_within(
    least: u64,
    most: u64,
    line: u64,
    text: &str,
) -> Result<u64, TableRefusal>
    ensures { result ≡ number_within least most line text.now }
{
    let number = number_in(line, text)?;
    if least <= number && number <= most {
        Ok(number)
    } else {
        Err(TableRefusal::Limit { line })
    }
}

/// A number of nights, one at least; else `Number` or `Limit`.
pub(crate) fn nights_in(line: u64, text: &str) -> Result<u64, TableRefusal>
    ensures { result ≡ nights_in line text.now }
{
    let nights = number_in(line, text)?;
    if 1 <= nights {
        Ok(nights)
    } else {
        Err(TableRefusal::Limit { line })
    }
}

/// A night of the hotel, counted from 0; else `Outside`.
pub(crate) fn night_in(line: u64, night: Result<u32, DateError>) -> Result<u32, TableRefusal>
    ensures { result ≡ night_in line night }
{
    match night {
        Ok(night) => Ok(night),
        Err(_) => Err(TableRefusal::Outside { line }),
    }
}
