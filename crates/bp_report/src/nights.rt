//! The table of the nights.
ghost use Rattle.std.specs.Prelude.{◌≡◌, ◌<◌, ◌≤◌, ◌++◌, ◌∷◌, [], length, slice_index_or, IfOk, IsErrOf};
ghost use Rattle.bp_edges.specs.Counts.{Rose};
ghost use Rattle.bp_text.specs.Drafts.{Drafts};
ghost use Rattle.bp_text.specs.Lines.{text_of};
ghost use Rattle.bp_report.specs.Tables.{night_header, night_line, night_lines};

use crate::cells::{LINE_END, SPACE, push_number};
use bp_core::Book;
use bp_edges::{Sink, WriteError};
use bp_text::Draft;
use std::alloc::{AllocError, Global};

/// The line above the nights.
const HEADER: &[u8] = b"night date        rooms   sold   left       price\n";

/// The line of a night, with its end.
fn line_of(alloc: Global, book: &Book, date: &[u8], night: u32) -> Result<Vec<u8>, AllocError>
    requires { night < length book.now.house.rooms }
    ensures { IfOk result (λ v. v.items ≡ night_line book.now.house book.now.history date.now night ++ 10 ∷ []) }
{
    book.facts();
    let rooms = book.rooms(night);
    let sold = book.sold(night);
    let price = book.last_board().certificate().prices[night as usize];
    let mut line = Vec::new(alloc);
    push_number(&mut line, 5, u64::from(night))?;
    line.push(SPACE)?;
    line.extend_from_slice(date)?;
    push_number(&mut line, 7, rooms)?;
    push_number(&mut line, 7, sold)?;
    push_number(&mut line, 7, rooms - sold)?;
    push_number(&mut line, 12, price)?;
    line.push(LINE_END)?;
    Ok(line)
}

/// Puts the line of a night behind a draft.
fn draft_night<K: Sink>(
    draft: &mut Draft,
    alloc: Global,
    book: &Book,
    date: &[u8],
    night: u32,
    out: &mut K,
) -> Result<(), WriteError>
    requires { night < length book.now.house.rooms }
    ensures writes { Drafts (K.written out.old) (K.written out.new) draft.old draft.new
        (night_line book.now.house book.now.history date.now night ++ 10 ∷ []) result }
    ensures failed { IsErrOf result WriteError.Failed → Rose (K.faults out.old) (K.faults out.new) }
    ensures unfailing { K.steady out.old → ¬ IsErrOf result WriteError.Failed }
    ensures steady { K.steady out.old → K.steady out.new }
    ensures faults { K.faults out.old ≤ K.faults out.new }
{
    let line = line_of(alloc, book, date, night)?;
    draft.push(&line, out)
}

/// Puts the lines of the nights behind a draft.
fn draft_lines<K: Sink>(
    draft: &mut Draft,
    alloc: Global,
    book: &Book,
    dates: &[[u8; 10]],
    out: &mut K,
) -> Result<(), WriteError>
    requires { length book.now.house.rooms ≤ length dates.now }
    ensures writes { Drafts (K.written out.old) (K.written out.new) draft.old draft.new
        (text_of (night_lines dates.now book.now.house book.now.history (length book.now.house.rooms))) result }
    ensures failed { IsErrOf result WriteError.Failed → Rose (K.faults out.old) (K.faults out.new) }
    ensures unfailing { K.steady out.old → ¬ IsErrOf result WriteError.Failed }
    ensures steady { K.steady out.old → K.steady out.new }
    ensures faults { K.faults out.old ≤ K.faults out.new }
{
    for night in 0..book.house().nights() {
        draft_night(draft, alloc, book, &dates[night as usize], night, out)?;
    }
    Ok(())
}

/// Puts the table of the nights behind a draft: `dates` has the date of each night.
pub(crate) fn draft_nights<K: Sink>(
    draft: &mut Draft,
    alloc: Global,
    book: &Book,
    dates: &[[u8; 10]],
    out: &mut K,
) -> Result<(), WriteError>
    requires { length book.now.house.rooms ≤ length dates.now }
    ensures writes { Drafts (K.written out.old) (K.written out.new) draft.old draft.new
        (text_of (night_header ∷ night_lines dates.now book.now.house book.now.history (length book.now.house.rooms)))
        result }
    ensures failed { IsErrOf result WriteError.Failed → Rose (K.faults out.old) (K.faults out.new) }
    ensures unfailing { K.steady out.old → ¬ IsErrOf result WriteError.Failed }
    ensures steady { K.steady out.old → K.steady out.new }
    ensures faults { K.faults out.old ≤ K.faults out.new }
{
    draft.push(HEADER, out)?;
    draft_lines(draft, alloc, book, dates, out)
}
