//! The table of the stays.
ghost use Rattle.std.specs.Prelude.{◌≡◌, ◌<◌, ◌≤◌, ◌++◌, ◌∷◌, [], length, slice_index_or, IfOk, IsErrOf};
ghost use Rattle.bp_edges.specs.Counts.{Rose};
ghost use Rattle.bp_text.specs.Drafts.{Drafts};
ghost use Rattle.bp_text.specs.Lines.{text_of};
ghost use Rattle.bp_core.specs.Instance.{forecast_of};
ghost use Rattle.bp_report.specs.Tallies.{tallies_of};
ghost use Rattle.bp_report.specs.Tables.{stay_header, stay_line, stay_lines};

use crate::cells::{LINE_END, push_left, push_number};
use crate::tally::Tally;
use bp_core::Book;
use bp_edges::{Sink, WriteError};
use bp_stayfile::Codes;
use bp_text::Draft;
use std::alloc::{AllocError, Global};

/// The line above the stays.
const HEADER: &[u8] = b"stay              asked accepted toolow noroom cancelled forecast\n";

/// The line of a stay, with its end.
fn line_of(alloc: Global, code: &str, tally: Tally, forecast: u64) -> Result<Vec<u8>, AllocError>
    ensures { IfOk result (λ v. v.items ≡ stay_line code.now tally forecast ++ 10 ∷ []) }
{
    let mut line = Vec::new(alloc);
    push_left(&mut line, 16, code.as_bytes())?;
    push_number(&mut line, 7, tally.asked)?;
    push_number(&mut line, 9, tally.accepted)?;
    push_number(&mut line, 7, tally.too_low)?;
    push_number(&mut line, 7, tally.no_room)?;
    push_number(&mut line, 10, tally.cancelled)?;
    push_number(&mut line, 9, forecast)?;
    line.push(LINE_END)?;
    Ok(line)
}

/// Puts the line of a stay behind a draft.
fn draft_stay<K: Sink>(
    draft: &mut Draft,
    alloc: Global,
    code: &str,
    tally: Tally,
    forecast: u64,
    out: &mut K,
) -> Result<(), WriteError>
    ensures writes { Drafts (K.written out.old) (K.written out.new) draft.old draft.new
        (stay_line code.now tally forecast ++ 10 ∷ []) result }
    ensures failed { IsErrOf result WriteError.Failed → Rose (K.faults out.old) (K.faults out.new) }
    ensures unfailing { K.steady out.old → ¬ IsErrOf result WriteError.Failed }
    ensures steady { K.steady out.old → K.steady out.new }
    ensures faults { K.faults out.old ≤ K.faults out.new }
{
    let line = line_of(alloc, code, tally, forecast)?;
    draft.push(&line, out)
}

/// Puts the lines of the stays behind a draft.
fn draft_lines<K: Sink>(
    draft: &mut Draft,
    alloc: Global,
    codes: &Codes,
    book: &Book,
    tallies: &[Tally],
    out: &mut K,
) -> Result<(), WriteError>
    requires stays { length book.now.house.stays ≡ length codes.now }
    requires tallies { tallies.now ≡ tallies_of book.now.history (length codes.now) (length book.now.history) }
    ensures writes { Drafts (K.written out.old) (K.written out.new) draft.old draft.new
        (text_of (stay_lines codes.now book.now.house book.now.history (length codes.now))) result }
    ensures failed { IsErrOf result WriteError.Failed → Rose (K.faults out.old) (K.faults out.new) }
    ensures unfailing { K.steady out.old → ¬ IsErrOf result WriteError.Failed }
    ensures steady { K.steady out.old → K.steady out.new }
    ensures faults { K.faults out.old ≤ K.faults out.new }
{
    for stay in 0..codes.count() {
        let tally = tallies[stay as usize];
        draft_stay(
            draft,
            alloc,
            codes.code(stay),
            tally,
            book.forecast(stay),
            out,
        )?;
    }
    Ok(())
}

/// Puts the table of the stays behind a draft: `tallies` has one tally per stay.
pub(crate) fn draft_stays<K: Sink>(
    draft: &mut Draft,
    alloc: Global,
    codes: &Codes,
    book: &Book,
    tallies: &[Tally],
    out: &mut K,
) -> Result<(), WriteError>
    requires stays { length book.now.house.stays ≡ length codes.now }
    requires tallies { tallies.now ≡ tallies_of book.now.history (length codes.now) (length book.now.history) }
    ensures writes { Drafts (K.written out.old) (K.written out.new) draft.old draft.new
        (text_of (stay_header ∷ stay_lines codes.now book.now.house book.now.history (length codes.now))) result }
    ensures failed { IsErrOf result WriteError.Failed → Rose (K.faults out.old) (K.faults out.new) }
    ensures unfailing { K.steady out.old → ¬ IsErrOf result WriteError.Failed }
    ensures steady { K.steady out.old → K.steady out.new }
    ensures faults { K.faults out.old ≤ K.faults out.new }
{
    draft.push(HEADER, out)?;
    draft_lines(draft, alloc, codes, book, tallies, out)
}
