//! Scenarios, read from their text.
ghost use Rattle.std.specs.Prelude.{◌≡◌, ◌<◌, ◌⊎◌, ◌++◌, ◌∷◌, [], length, codes, IfOk, OnOk, All, MatchResult};
ghost use Rattle.bp_text.specs.Lines.{GivesLine};
ghost use Rattle.bp_text.specs.Places.{IsRefusedLine};
ghost use Rattle.bp_text.specs.Reading.{IsText, IsReading, seen_as};
ghost use Rattle.bp_scenarios.specs.declared.row.Row.TheVariants.{Opens, Makes};
ghost use Rattle.bp_scenarios.specs.Refused.{IsAskable, IsChangeOf, IsChangeWithin};
ghost use Rattle.bp_scenarios.specs.Texts.{rows, scenario_lines, AreWithin};
ghost use Rattle.bp_scenarios.specs.Rows.{IsFirst, IsAnyLine, IsRowRead, AreRead, makes};

use crate::changes::Changes;
use crate::row::Row;
use crate::told::{Found, Size, change_line};
use bp_text::{Lines, TextError, at_end};
use bp_types::limits::{MOST_CHANGES, MOST_SCENARIOS};
use bp_types::{Change, Instance};
use std::alloc::{AllocError, Global};

/// Reads the text of scenarios of a problem, or says which line of it is the first wrong one, counted from 1. Rooms are
/// whole rooms, rates are in minor units of money; whether the rooms of the nights allow a change is not asked here.
pub fn read_scenarios(
    alloc: Global,
    base: &Instance,
    bytes: &[u8],
) -> Result<Vec<Changes>, TextError>
    ensures text { IsText scenario_lines (AreWithin (IsChangeWithin base.now)) bytes.now
        (seen_as (λ v. v.items) result) }
    ensures askable { IfOk result (λ v. All (IsAskable base.now) v.items) }
{
    read_of(
        alloc,
        bytes,
        Size {
            nights: base.nights(),
            stays: base.stays(),
        },
    )
}

/// The same, of a problem of this size.
fn read_of(alloc: Global, bytes: &[u8], size: Size) -> Result<Vec<Changes>, TextError>
    ensures { IsText scenario_lines (AreWithin (IsChangeOf size.nights size.stays)) bytes.now
        (seen_as (λ v. v.items) result) }
{
    let mut lines = Lines::new(bytes);
    let lists = read_lines(alloc, &mut lines, size)?;
    at_end(&lines)?;
    Ok(lists)
}

/// Reads all lines, from the first one to the last.
fn read_lines(alloc: Global, lines: &mut Lines<'_>, size: Size) -> Result<Vec<Changes>, TextError>
    ensures { IsReading scenario_lines (AreWithin (IsChangeOf size.nights size.stays)) lines.old lines.new
        (seen_as (λ v. v.items) result) }
{
    first_line(lines)?;
    read_rows(alloc, lines, size)
}

/// Reads the first line.
fn first_line(lines: &mut Lines<'_>) -> Result<(), TextError>
    ensures { MatchResult result (λ _. GivesLine lines.old lines.new (codes "scenarios 1")) (IsRefusedLine IsFirst IsAnyLine lines.old lines.new) }
{
    let Some(line) = lines.take_line() else {
        return Err(TextError::TooShort);
    };
    if line == b"scenarios 1".as_slice() {
        return Ok(());
    }
    Err(TextError::BadLine {
        line: lines.given(),
    })
}

/// Reads what stands behind the first line, up to the last one.
fn read_rows(alloc: Global, lines: &mut Lines<'_>, size: Size) -> Result<Vec<Changes>, TextError>
    ensures { AreRead (IsChangeOf size.nights size.stays) lines.old lines.new (seen_as (λ v. v.items) result) }
{
    let mut lists = Vec::new(alloc);
    let mut changes = 0;
    while let Some(row) = next_row(lines, size, lists.len(), changes)? {
        changes += changes_of(row);
        add(alloc, &mut lists, row)?;
    }
    Ok(lists)
}

/// The next row behind so many scenarios with so many changes in all, or none where the last line is there.
fn next_row(
    lines: &mut Lines<'_>,
    size: Size,
    scenarios: usize,
    changes: usize,
) -> Result<Option<Row>, TextError>
    ensures { IsRowRead (IsChangeOf size.nights size.stays) scenarios changes lines.old lines.new result }
{
    let Some(line) = lines.take_line() else {
        return Err(TextError::TooShort);
    };
    let place = lines.given();
    if line == b"end".as_slice() {
        return Ok(None);
    }
    if line == b"scenario".as_slice() {
        if scenarios >= MOST_SCENARIOS {
            return Err(TextError::Limit { line: place });
        }
        return Ok(Some(Row::Opens));
    }
    if scenarios == 0 {
        return Err(TextError::BadLine { line: place });
    }
    match change_line(line, size) {
        Found::Bad => Err(TextError::BadLine { line: place }),
        Found::Great => Err(TextError::Limit { line: place }),
        Found::Whole(change) => {
            if changes >= MOST_CHANGES {
                return Err(TextError::Limit { line: place });
            }
            Ok(Some(Row::Makes(change)))
        }
    }
}

/// How many changes a row makes.
fn changes_of(row: Row) -> usize
    ensures { result ≡ length (makes (row ∷ [])) }
{
    match row {
        Row::Opens => 0,
        Row::Makes(_) => 1,
    }
}

/// Adds a row to the scenarios so far; a change needs one of them to go on.
fn add(alloc: Global, lists: &mut Vec<Changes>, row: Row) -> Result<(), AllocError>
    requires { (row ≡ Opens) ⊎ (0 < length lists.old.items) }
    ensures { OnOk result (rows lists.new.items ≡ rows lists.old.items ++ row ∷ []) }
{
    match row {
        Row::Opens => open(alloc, lists),
        Row::Makes(change) => make(lists, change),
    }
}

/// Begins a scenario.
fn open(alloc: Global, lists: &mut Vec<Changes>) -> Result<(), AllocError>
    ensures { OnOk result (rows lists.new.items ≡ rows lists.old.items ++ Opens ∷ []) }
{
    lists.push(Changes::new(Vec::new(alloc)))?;
    Ok(())
}

/// Adds a change to the last scenario.
fn make(lists: &mut Vec<Changes>, change: Change) -> Result<(), AllocError>
    requires { 0 < length lists.old.items }
    ensures { OnOk result (rows lists.new.items ≡ rows lists.old.items ++ Makes change ∷ []) }
{
    let Some(mut last) = lists.pop() else {
        unreachable!();
    };
    last.push(change)?;
    lists.push(last)?;
    Ok(())
}
