//! The text of a portfolio's list.
ghost use Rattle.std.specs.Prelude.{◌≡◌, IsTrue, MatchResult, IfOk, MatchOption, length, map, ◌++◌, Err};
ghost use Rattle.std.specs.List.{list_all};
ghost use Rattle.bp_text.specs.Lines.{Given};
ghost use Rattle.bp_text.specs.Reading.{IsReading, GivesLines, seen_as};
ghost use Rattle.bp_portfolio.specs.Lists.{
  AreNamesRead,
  IsListText,
  IsManyHotels,
  IsNamesLine,
  IsPortfolio,
  head_lines,
  hotel_lines,
  is_named,
  list_lines,
  names_line,
};

use crate::names::{Names, names_on};
use bp_text::{Lines, TextError, at_end, number_line, word_line};
use bp_types::limits::MOST_HOTELS;
use std::alloc::{AllocError, Global};

/// The names on a line, where it has five and no more.
fn line_names(alloc: Global, line: &[u8]) -> Result<Option<Names>, AllocError>
    ensures { IfOk result (λ o. MatchOption o (¬ IsNamesLine line.now) (λ n. IsTrue (is_named n) ×
        (line.now ≡ names_line n))) }
{
    match names_on(line) {
        Some(names) => Ok(Some(Names::copied(alloc, names)?)),
        None => Ok(None),
    }
}

/// Reads the line of a hotel.
fn read_names(alloc: Global, lines: &mut Lines<'_>) -> Result<Names, TextError>
    ensures { AreNamesRead lines.old lines.new result }
{
    let Some(line) = lines.take_line() else {
        return Err(TextError::TooShort);
    };
    let place = lines.given();
    match line_names(alloc, line)? {
        Some(names) => Ok(names),
        None => Err(TextError::BadLine { line: place }),
    }
}

/// Reads the lines before those of the hotels, and gives how many hotels follow.
fn read_head(lines: &mut Lines<'_>) -> Result<u64, TextError>
    ensures { MatchResult result
        (λ k. IsManyHotels k × GivesLines lines.old lines.new (head_lines k) lines.new.rest)
        (λ e. IsReading list_lines IsPortfolio lines.old lines.new (Err e)) }
{
    word_line(lines, b"portfolio 1")?;
    let hotels = number_line(lines, b"hotels", 1, MOST_HOTELS as u64)?;
    Ok(hotels)
}

/// Reads the lines of so many hotels.
fn read_hotels(alloc: Global, lines: &mut Lines<'_>, count: u64) -> Result<Vec<Names>, TextError>
    requires { IsManyHotels count }
    ensures { MatchResult result
        (λ hs. (length hs.items ≡ count) × IsTrue (list_all is_named hs.items) ×
        GivesLines lines.old lines.new (map names_line hs.items) lines.new.rest)
        (λ e. (start : Given) → GivesLines start lines.old (head_lines count) lines.old.rest →
        IsReading list_lines IsPortfolio start lines.new (Err e)) }
{
    let mut hotels = Vec::new(alloc);
    for _ in 0..count {
        let names = read_names(alloc, lines)?;
        hotels.push(names)?;
    }
    Ok(hotels)
}

/// Reads the lines of a list.
fn read_lines(alloc: Global, lines: &mut Lines<'_>) -> Result<Vec<Names>, TextError>
    ensures { MatchResult result
        (λ hs. IsManyHotels (length hs.items) × IsTrue (list_all is_named hs.items) ×
        GivesLines lines.old lines.new (head_lines (length hs.items) ++ hotel_lines hs.items) lines.new.rest)
        (λ e. IsReading list_lines IsPortfolio lines.old lines.new (Err e)) }
{
    let count = read_head(lines)?;
    let hotels = read_hotels(alloc, lines, count)?;
    word_line(lines, b"end")?;
    Ok(hotels)
}

/// Reads the list of a portfolio: the names of each hotel's files, the first hotel first, or which line of the text is
/// the first wrong one, counted from 1.
pub fn read_list(alloc: Global, bytes: &[u8]) -> Result<Vec<Names>, TextError>
    ensures { IsListText bytes.now (seen_as (λ hs. hs.items) result) }
{
    let mut lines = Lines::new(bytes);
    let hotels = read_lines(alloc, &mut lines)?;
    at_end(&lines)?;
    Ok(hotels)
}
