//! The next line of a text, read in one of its forms.
//!
//! Where there is no further end of a line, each reader answers `TooShort`, and nothing is given. Else the line is
//! given, and a refusal has its number: `BadLine` where it has not the form, `Limit` where it has and a number, or how
//! many there are, is outside the limits. A reader takes the time of its line.
ghost use Rattle.std.specs.Prelude.{◌≡◌, ◌≢◌, ◌==◌, ◌+◌, MatchResult, if◌then◌else◌, length, [], ◌∷◌, ◌≤◌, All};
ghost use Rattle.bp_text.specs.Forms.{IsLine, IsNumberBehind, AreWithin, holding};
ghost use Rattle.bp_text.specs.Reading.{seen_as};

use crate::TextError;
use crate::cursor::Lines;
use crate::decimal::number;
use crate::found::{Bounds, Found, Number};
use crate::numbers::{SPACE, behind, numbers_behind};

/// The next line, which is a word and just as many numbers as there may be; they are put in place of what `into` has.
/// Another count of numbers is another form, so it is a `BadLine`.
pub fn exact_line(
    lines: &mut Lines<'_>,
    word: &[u8],
    bounds: Bounds,
    into: &mut Vec<u64>,
) -> Result<(), TextError>
    ensures { IsLine word.now (λ ns. length ns ≡ bounds.most) (AreWithin bounds) lines.old lines.new
        (holding into.new.items result) }
{
    let Some(line) = lines.take_line() else {
        return Err(TextError::TooShort);
    };
    let place = lines.given();
    match numbers_behind(word, line, bounds, into)? {
        Found::Bad => Err(TextError::BadLine { line: place }),
        Found::Great { count } => Err(wrong_numbers(count, bounds, place)),
        Found::Whole if into.len() == bounds.most => Ok(()),
        Found::Whole => Err(TextError::BadLine { line: place }),
    }
}

/// The next line, which is a word and any number of numbers up to the most; they are put in place of what `into` has.
/// More of them are outside the limit.
pub fn open_line(
    lines: &mut Lines<'_>,
    word: &[u8],
    bounds: Bounds,
    into: &mut Vec<u64>,
) -> Result<(), TextError>
    ensures { IsLine word.now (λ _. Unit {0}) (AreWithin bounds) lines.old lines.new (holding into.new.items result) }
{
    let Some(line) = lines.take_line() else {
        return Err(TextError::TooShort);
    };
    let place = lines.given();
    match numbers_behind(word, line, bounds, into)? {
        Found::Bad => Err(TextError::BadLine { line: place }),
        Found::Great { .. } => Err(TextError::Limit { line: place }),
        Found::Whole => Ok(()),
    }
}

/// Why so many numbers, which are not within the bounds, are refused where there are to be as many as there may be.
fn wrong_numbers(count: u64, bounds: Bounds, place: u64) -> TextError
    ensures { result ≡ (if count == bounds.most then TextError.Limit place else TextError.BadLine place) }
{
    if count == bounds.most as u64 {
        TextError::Limit { line: place }
    } else {
        TextError::BadLine { line: place }
    }
}

/// The next line, which is a word alone.
pub fn word_line(lines: &mut Lines<'_>, word: &[u8]) -> Result<(), TextError>
    ensures { IsLine word.now (λ ns. length ns ≡ 0) (λ _. Unit {0}) lines.old lines.new (holding [] result) }
{
    let Some(line) = lines.take_line() else {
        return Err(TextError::TooShort);
    };
    let place = lines.given();
    if line == word {
        Ok(())
    } else {
        Err(TextError::BadLine { line: place })
    }
}

/// The next line, which is a word and one number, from the least up to the greatest.
pub fn number_line(
    lines: &mut Lines<'_>,
    word: &[u8],
    least: u64,
    greatest: u64,
) -> Result<u64, TextError>
    ensures { IsLine word.now (λ ns. length ns ≡ 1) (λ ns. All (λ n. (least ≤ n) × (n ≤ greatest)) ns)
        lines.old lines.new (seen_as (λ n. n ∷ []) result) }
{
    let number = wide_number_line(lines, word, u128::from(greatest))? as u64;
    if number < least {
        return Err(TextError::Limit {
            line: lines.given(),
        });
    }
    Ok(number)
}

/// The next line, which is a word and one number of up to 128 bits, up to the greatest.
pub fn wide_number_line(
    lines: &mut Lines<'_>,
    word: &[u8],
    greatest: u128,
) -> Result<u128, TextError>
    ensures { IsLine word.now (λ ns. length ns ≡ 1) (λ ns. All (λ n. n ≤ greatest) ns) lines.old lines.new
        (seen_as (λ n. n ∷ []) result) }
{
    let Some(line) = lines.take_line() else {
        return Err(TextError::TooShort);
    };
    let place = lines.given();
    match one_number(word, line, greatest) {
        Number::Bad => Err(TextError::BadLine { line: place }),
        Number::Great => Err(TextError::Limit { line: place }),
        Number::Value(value) => Ok(value),
    }
}

/// The one number behind a word.
fn one_number(word: &[u8], line: &[u8], greatest: u128) -> Number
    ensures { IsNumberBehind word.now line.now greatest result }
{
    let Some(text) = behind(word, line) else {
        return Number::Bad;
    };
    if text.is_empty() {
        return Number::Bad;
    }
    if text[0] != SPACE {
        return Number::Bad;
    }
    let (_, digits) = text.split_at(1);
    number(digits, greatest)
}

/// Whether nothing is left behind the last line; else `Trailing`, with the number of the line after it.
pub fn at_end(lines: &Lines<'_>) -> Result<(), TextError>
    ensures { MatchResult result (λ _. lines.now.rest ≡ []) (λ e. (e ≡ TextError.Trailing (lines.now.given + 1)) ×
        (lines.now.rest ≢ [])) }
{
    if lines.rest().is_empty() {
        return Ok(());
    }
    Err(TextError::Trailing {
        line: lines.given() + 1,
    })
}
