//! The whole report: both tables and the value.
ghost use Rattle.std.specs.Prelude.{◌≡◌, ◌≤◌, ◌++◌, ◌∷◌, [], ℕ, List, length, IsErrOf};
ghost use Rattle.bp_edges.specs.Counts.{Rose};
ghost use Rattle.bp_edges.specs.Writing.{Writes};
ghost use Rattle.bp_text.specs.Drafts.{Drafts};
ghost use Rattle.bp_text.specs.Lines.{text_of};
ghost use Rattle.bp_report.specs.Tallies.{tallies_of};
ghost use Rattle.bp_report.specs.Tables.{report_lines, IsReport, AreReady};

use crate::counting::tallies_of;
use crate::dates::dates_of;
use crate::nights::draft_nights;
use crate::stays::draft_stays;
use crate::tally::Tally;
use bp_core::Book;
use bp_edges::{Sink, WriteError};
use bp_hotelfile::Hotel;
use bp_stayfile::Codes;
use bp_text::Draft;
use std::alloc::Global;

/// Puts the whole report behind a draft.
fn draft_report<K: Sink>(
    draft: &mut Draft,
    alloc: Global,
    codes: &Codes,
    book: &Book,
    dates: &[[u8; 10]],
    tallies: &[Tally],
    out: &mut K,
) -> Result<(), WriteError>
    requires nights { length book.now.house.rooms ≤ length dates.now }
    requires stays { length book.now.house.stays ≡ length codes.now }
    requires tallies { tallies.now ≡ tallies_of book.now.history (length codes.now) (length book.now.history) }
    ensures writes { Drafts (K.written out.old) (K.written out.new) draft.old draft.new
        (text_of (report_lines dates.now codes.now book.now.house book.now.history)) result }
    ensures failed { IsErrOf result WriteError.Failed → Rose (K.faults out.old) (K.faults out.new) }
    ensures unfailing { K.steady out.old → ¬ IsErrOf result WriteError.Failed }
    ensures steady { K.steady out.old → K.steady out.new }
    ensures faults { K.faults out.old ≤ K.faults out.new }
{
    draft_nights(draft, alloc, book, dates, out)?;
    draft_stays(draft, alloc, codes, book, tallies, out)?;
    draft.push_wide_line(b"value", book.last_board().certificate().value, out)
}

/// Writes the whole report as it is spelt: `dates` has the date of each night, `tallies` one tally per stay.
pub(crate) fn write_tables<K: Sink>(
    alloc: Global,
    codes: &Codes,
    book: &Book,
    dates: &[[u8; 10]],
    tallies: &[Tally],
    out: &mut K,
) -> Result<(), WriteError>
    requires { AreReady dates.now codes.now book.now.house book.now.history tallies.now }
    ensures writes { Writes (K.written out.old) (K.written out.new)
        (text_of (report_lines dates.now codes.now book.now.house book.now.history)) result }
    ensures failed { IsErrOf result WriteError.Failed → Rose (K.faults out.old) (K.faults out.new) }
    ensures unfailing { K.steady out.old → ¬ IsErrOf result WriteError.Failed }
    ensures steady { K.steady out.old → K.steady out.new }
    ensures faults { K.faults out.old ≤ K.faults out.new }
{
    let mut draft = Draft::new(alloc)?;
    draft_report(&mut draft, alloc, codes, book, dates, tallies, out)?;
    draft.hand_on(out)
}

/// Writes the report of a book as it is spelt: its nights are the hotel's, and its stays are those of the codes. Its
/// time grows with entries, nights and stays. The error is `Memory`, or `Failed` where the sink failed.
pub fn report<K: Sink>(
    alloc: Global,
    hotel: &Hotel,
    codes: &Codes,
    book: &Book,
    out: &mut K,
) -> Result<(), WriteError>
    requires nights { length book.now.house.rooms ≡ length hotel.now.rooms }
    requires stays { length book.now.house.stays ≡ length codes.now }
    ensures writes { (text : List ℕ) × IsReport hotel.now codes.now book.now.house book.now.history text ×
        Writes (K.written out.old) (K.written out.new) text result }
    ensures failed { IsErrOf result WriteError.Failed → Rose (K.faults out.old) (K.faults out.new) }
    ensures unfailing { K.steady out.old → ¬ IsErrOf result WriteError.Failed }
    ensures steady { K.steady out.old → K.steady out.new }
    ensures faults { K.faults out.old ≤ K.faults out.new }
{
    let dates = dates_of(hotel);
    let tallies = match tallies_of(alloc, book) {
        Ok(tallies) => tallies,
        Err(_) => return Err(WriteError::Memory),
    };
    write_tables(alloc, codes, book, &dates, &tallies, out)
}
