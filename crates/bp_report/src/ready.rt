//! A report that is ready to be written.
ghost use Rattle.std.specs.Prelude.{◌≡◌, ◌≤◌, length, IfOk, IsErrOf};
ghost use Rattle.bp_edges.specs.Counts.{Rose};
ghost use Rattle.bp_edges.specs.Writing.{Writes};
ghost use Rattle.bp_report.specs.Tables.{IsReport};

use crate::counting::tallies_of;
use crate::dates::dates_of;
use crate::tables::write_tables;
use crate::tally::Tally;
use bp_core::Book;
use bp_edges::{Sink, WriteError};
use bp_hotelfile::Hotel;
use bp_stayfile::Stays;
use bp_types::Memory;
use bp_types::limits::MOST_NIGHTS;
use std::alloc::Global;
use std::marker::Model;

/// All that a report is written from: a book, the dates of its nights, and its stays with their codes and tallies.
///
/// Contracts see the text. It is never built whole.
#[derive(Drop)]
pub struct Report {
    dates: [[u8; 10]; MOST_NIGHTS],
    stays: Stays,
    book: Book,
    tallies: Vec<Tally>,
}

impl Model for Report {
    ghost use Rattle.std.specs.Prelude.{ℕ, List};
    ghost use Rattle.bp_text.specs.Lines.{text_of};
    ghost use Rattle.bp_report.specs.Tables.{report_lines, AreReady};

    ghost Value = { List ℕ };

    ghost view = { λ r. text_of (report_lines r.dates r.stays.codes r.book.house r.book.history) };

    ghost invariant = { λ r. AreReady r.dates r.stays.codes r.book.house r.book.history r.tallies.items };
}

impl Report {
    /// The report of a book whose nights are the hotel's, and whose stays are these. The one error is `Memory`.
    pub fn new(alloc: Global, hotel: &Hotel, stays: Stays, book: Book) -> Result<Report, Memory>
        requires nights { length book.house.rooms ≡ length hotel.now.rooms }
        requires stays { length book.house.stays ≡ length stays.codes }
        ensures { IfOk result (IsReport hotel.now stays.codes book.house book.history) }
    {
        let tallies = tallies_of(alloc, &book)?;
        Ok(Report {
            dates: dates_of(hotel),
            stays,
            book,
            tallies,
        })
    }

    /// Writes the report as it is spelt. The error is `Memory`, or `Failed` where the sink failed.
    pub fn write<K: Sink>(&self, alloc: Global, out: &mut K) -> Result<(), WriteError>
        ensures writes { Writes (K.written out.old) (K.written out.new) self.now result }
        ensures failed { IsErrOf result WriteError.Failed → Rose (K.faults out.old) (K.faults out.new) }
        ensures unfailing { K.steady out.old → ¬ IsErrOf result WriteError.Failed }
        ensures steady { K.steady out.old → K.steady out.new }
        ensures faults { K.faults out.old ≤ K.faults out.new }
    {
        write_tables(
            alloc,
            self.stays.codes(),
            &self.book,
            &self.dates,
            &self.tallies,
            out,
        )
    }
}
