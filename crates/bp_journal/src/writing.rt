//! The text of a book's history, written as it is spelt.
ghost use Rattle.std.specs.Prelude.{◌≡◌, ◌≤◌, ◌<◌, [], length, IsErrOf};
ghost use Rattle.bp_edges.specs.Counts.{Rose};
ghost use Rattle.bp_edges.specs.Writing.{Writes};
ghost use Rattle.bp_text.specs.Lines.{text_of};
ghost use Rattle.bp_text.specs.Drafts.{Drafts};
ghost use Rattle.bp_journal.specs.Journals.{place_lines, lines_from, journal_text};

use crate::spell::push_entry;
use bp_cert::lines::draft_claim;
use bp_core::Book;
use bp_edges::{Sink, WriteError};
use bp_text::Draft;
use std::alloc::Global;

/// Writes the text of the book's history, of version 2, in pieces. It holds one piece of it beside the line of one
/// entry, and no more, however long the history is. The error is `Memory`, or `Failed` where the sink failed.
pub fn write<K: Sink>(alloc: Global, book: &Book, out: &mut K) -> Result<(), WriteError>
    ensures writes { Writes (K.written out.old) (K.written out.new) (journal_text book.now.history) result }
    ensures failed { IsErrOf result WriteError.Failed → Rose (K.faults out.old) (K.faults out.new) }
    ensures unfailing { K.steady out.old → ¬ IsErrOf result WriteError.Failed }
    ensures steady { K.steady out.old → K.steady out.new }
    ensures faults { K.faults out.old ≤ K.faults out.new }
{
    let mut draft = Draft::new(alloc)?;
    draft_journal(alloc, &mut draft, book, out)?;
    draft.hand_on(out)
}

/// Puts the text behind a draft.
fn draft_journal<K: Sink>(
    alloc: Global,
    draft: &mut Draft,
    book: &Book,
    out: &mut K,
) -> Result<(), WriteError>
    ensures writes { Drafts (K.written out.old) (K.written out.new) draft.old draft.new (journal_text book.now.history)
        result }
    ensures failed { IsErrOf result WriteError.Failed → Rose (K.faults out.old) (K.faults out.new) }
    ensures unfailing { K.steady out.old → ¬ IsErrOf result WriteError.Failed }
    ensures steady { K.steady out.old → K.steady out.new }
    ensures faults { K.faults out.old ≤ K.faults out.new }
{
    draft.push_line(b"journal 2", &[], out)?;
    draft_history(alloc, draft, book, out)?;
    draft.push_line(b"end", &[], out)
}

/// Puts the lines of all entries behind a draft.
fn draft_history<K: Sink>(
    alloc: Global,
    draft: &mut Draft,
    book: &Book,
    out: &mut K,
) -> Result<(), WriteError>
    ensures writes { Drafts (K.written out.old) (K.written out.new) draft.old draft.new
        (text_of (lines_from 0 book.now.history)) result }
    ensures failed { IsErrOf result WriteError.Failed → Rose (K.faults out.old) (K.faults out.new) }
    ensures unfailing { K.steady out.old → ¬ IsErrOf result WriteError.Failed }
    ensures steady { K.steady out.old → K.steady out.new }
    ensures faults { K.faults out.old ≤ K.faults out.new }
{
    let mut line = Vec::new(alloc);
    for place in 0..book.length() {
        line.clear();
        draft_place(draft, &mut line, book, place, out)?;
    }
    Ok(())
}

/// Puts the lines of the entry at a place behind a draft; its own line is spelt in an empty text first.
fn draft_place<K: Sink>(
    draft: &mut Draft,
    line: &mut Vec<u8>,
    book: &Book,
    place: u64,
    out: &mut K,
) -> Result<(), WriteError>
    requires within { place < length book.now.history }
    requires empty { line.old.items ≡ [] }
    ensures writes { Drafts (K.written out.old) (K.written out.new) draft.old draft.new
        (text_of (place_lines book.now.history place)) result }
    ensures failed { IsErrOf result WriteError.Failed → Rose (K.faults out.old) (K.faults out.new) }
    ensures unfailing { K.steady out.old → ¬ IsErrOf result WriteError.Failed }
    ensures steady { K.steady out.old → K.steady out.new }
    ensures faults { K.faults out.old ≤ K.faults out.new }
{
    let Some(entry) = book.entry(place) else {
        unreachable!();
    };
    push_entry(line, place, entry)?;
    draft.push(line, out)?;
    match book.certificate(place) {
        None => Ok(()),
        Some(certificate) => draft_claim(draft, certificate, out),
    }
}
