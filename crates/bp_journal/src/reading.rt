//! Journals, read from their text.
ghost use Rattle.std.specs.Prelude.{◌≡◌, ◌∷◌, [], ◌++◌, codes, IfOk, IsTrue, All, MatchResult, Err};
ghost use Rattle.bp_text.specs.Lines.{Given};
ghost use Rattle.bp_text.specs.Reading.{IsReading, GivesLines};
ghost use Rattle.bp_journal.specs.Journals.{version_line, lines_from, noted_lines, is_journal};
ghost use Rattle.bp_journal.specs.Limits.{IsNotedWithin, IsLineWithin};
ghost use Rattle.bp_journal.specs.Read.{IsJournalText, IsLineRead, IsNoted, IsCertificateRead};

use crate::journal::Journal;
use crate::{Version, next};
use bp_cert::lines::certificate_lines;
use bp_core::{Act, Line};
use bp_text::{Lines, TextError, at_end};
use bp_types::Certificate;
use bp_types::limits::{MOST_ENTRIES, MOST_PUBLICATIONS};
use std::alloc::{AllocError, Global};

/// Bytes of the shortest line of an entry, with its end: `0 0 enrol done`.
const SHORTEST: usize = 15;

/// Vectors of a legal history, at most.
const VECTORS: usize = MOST_PUBLICATIONS as usize;

/// Lines of a legal history, at most: commands, vectors, and the Enrol and the Leave of each caller.
const LINES: usize = MOST_ENTRIES as usize + VECTORS + 126;

/// Reads the text of a journal, of version 1 or 2, line by line and once, or says which line of it is the first wrong
/// one. Whether the history is legal is not asked.
pub fn read(alloc: Global, bytes: &[u8]) -> Result<Journal, TextError>
    ensures { IsJournalText bytes.now result }
{
    let mut journal = room_for(alloc, bytes.len())?;
    let mut lines = Lines::new(bytes);
    read_lines(alloc, &mut lines, &mut journal)?;
    at_end(&lines)?;
    Ok(journal)
}

/// An empty journal, with room for as many lines as a legal history of so many bytes may have.
fn room_for(alloc: Global, bytes: usize) -> Result<Journal, AllocError>
    ensures { IfOk result (λ journal. journal ≡ []) }
{
    let lines = (bytes / SHORTEST).min(LINES);
    Journal::with_capacity(alloc, lines, lines.min(VECTORS))
}

/// Reads the first line, the entries and the last line.
fn read_lines(alloc: Global, lines: &mut Lines<'_>, journal: &mut Journal) -> Result<(), TextError>
    requires { journal.old ≡ [] }
    ensures { MatchResult result (λ _. IsNoted lines.old lines.new journal.new)
        (λ e. IsReading noted_lines IsNotedWithin lines.old lines.new (Err e)) }
{
    let version = next::version(lines)?;
    read_entries(alloc, lines, version, journal)
}

/// Reads the entries, up to the last line.
fn read_entries(
    alloc: Global,
    lines: &mut Lines<'_>,
    version: Version,
    journal: &mut Journal,
) -> Result<(), TextError>
    requires { journal.old ≡ [] }
    ensures { MatchResult result
        (λ _. IsTrue (is_journal version journal.new) × All IsLineWithin journal.new ×
        GivesLines lines.old lines.new (lines_from 0 journal.new ++ codes "end" ∷ []) lines.new.rest)
        (λ e. (start : Given) → GivesLines start lines.old (version_line version ∷ []) lines.old.rest →
        IsReading noted_lines IsNotedWithin start lines.new (Err e)) }
{
    while let Some(line) = read_line(alloc, lines, journal.len() as u64, version)? {
        journal.push(line)?;
    }
    Ok(())
}

/// Reads an entry with the lines that go with it, or the last line.
fn read_line(
    alloc: Global,
    lines: &mut Lines<'_>,
    place: u64,
    version: Version,
) -> Result<Option<Line>, TextError>
    ensures { IsLineRead version place lines.old lines.new result }
{
    let Some(entry) = next::entry(lines, place, version)? else {
        return Ok(None);
    };
    let certificate = certificate_of(alloc, lines, entry.act)?;
    Ok(Some(Line { entry, certificate }))
}

/// The certificate of a Publish, and none of another act.
fn certificate_of(
    alloc: Global,
    lines: &mut Lines<'_>,
    act: Act,
) -> Result<Option<Certificate>, TextError>
    ensures { IsCertificateRead act lines.old lines.new result }
{
    match act {
        Act::Publish { .. } => {
            let certificate = certificate_lines(alloc, lines)?;
            Ok(Some(certificate))
        }
        Act::Do(_) | Act::Enrol | Act::Leave => Ok(None),
    }
}
