//! The next line of a journal's text: the version, an entry, or the last one.
ghost use Rattle.std.specs.Prelude.{◌≡◌, codes, IsTrue, MatchOption, MatchResult};
ghost use Rattle.bp_text.specs.Lines.{GivesLine};
ghost use Rattle.bp_text.specs.Places.{IsRefusedLine};
ghost use Rattle.bp_journal.specs.Journals.{entry_text, version_line, is_form};
ghost use Rattle.bp_journal.specs.Limits.{IsEntryWithin};
ghost use Rattle.bp_journal.specs.Found.{IsEntryOrEnd, IsFineLine, IsVersionLine, IsAnyLine};

use crate::Version;
use crate::entry_line::entry_line;
use crate::found::Found;
use bp_core::Entry;
use bp_text::{Lines, TextError};

/// The version that the first line names.
pub(crate) fn version(lines: &mut Lines<'_>) -> Result<Version, TextError>
    ensures { MatchResult result (λ version. GivesLine lines.old lines.new (version_line version))
        (IsRefusedLine IsVersionLine IsAnyLine lines.old lines.new) }
{
    let Some(line) = lines.take_line() else {
        return Err(TextError::TooShort);
    };
    if line == b"journal 1".as_slice() {
        return Ok(Version::One);
    }
    if line == b"journal 2".as_slice() {
        return Ok(Version::Two);
    }
    Err(TextError::BadLine {
        line: lines.given(),
    })
}

/// The next entry, or none where the last line is there.
pub(crate) fn entry(
    lines: &mut Lines<'_>,
    place: u64,
    version: Version,
) -> Result<Option<Entry>, TextError>
    ensures { MatchResult result
        (λ o. MatchOption o (GivesLine lines.old lines.new (codes "end")) (λ e. IsTrue (is_form version e) ×
        IsEntryWithin e × GivesLine lines.old lines.new (entry_text place e)))
        (IsRefusedLine (IsEntryOrEnd version place) (IsFineLine version place) lines.old lines.new) }
{
    let Some(line) = lines.take_line() else {
        return Err(TextError::TooShort);
    };
    if line == b"end".as_slice() {
        return Ok(None);
    }
    match entry_line(line, place, version) {
        Found::Bad => Err(TextError::BadLine {
            line: lines.given(),
        }),
        Found::Great => Err(TextError::Limit {
            line: lines.given(),
        }),
        Found::Whole(entry) => Ok(Some(entry)),
    }
}
