//! A row of a table, with what stands behind it.
ghost use Rattle.std.specs.Prelude.{◌≡◌, ◌<◌, [], length, slice_index_or, MatchOption, IfOk, IfErr};
ghost use Rattle.csv.specs.Records.{fields_of};
ghost use Rattle.bp_stayfile.specs.Refusals.{IfRefused};
ghost use Rattle.bp_stayfile.specs.Tables.{is_taken, IsNext, IsLast, IsBeforeStop};

use super::reading::{field_at, is_text, next_record};
use crate::{TableError, TableRefusal};
use csv::{ByteRecord, Reader};
use std::marker::Model;

/// A row of a table, with what stands behind it: one row per record, each with one field per named column, in the order
/// of the columns. The header is the row before the first.
///
/// One row is held at a time. Contracts see its line, its fields as texts, and the table behind it.
#[derive(Drop)]
pub struct Row<'a> {
    /// On the heap: a reader holds its buffer and its tables in itself, and a row moves from record to record.
    pub(super) reader: Box<Reader<&'a [u8]>>,
    /// The place of each named column in a record.
    pub(super) places: Vec<usize>,
    pub(super) raw: ByteRecord,
    /// The header's line is 1, and each record is a line.
    pub(super) line: u64,
}

impl<'a> Model for Row<'a> {
    ghost use Rattle.std.specs.Prelude.{◌≡◌, ◌+◌, ◌<◌, ◌^◌, true, length, All};
    ghost use Rattle.csv.specs.Records.{fields_of};
    ghost use Rattle.bp_stayfile.specs.Records.{IsReading, records_left};
    ghost use Rattle.bp_stayfile.specs.Tables.{TableRow, is_text, row_at, rows_behind};

    ghost Value = { TableRow };

    ghost view = { λ a. record { line = a.line; fields = row_at a.places.items (fields_of a.raw); behind = rows_behind a.line a.places.items (length (fields_of a.raw)) (records_left a.reader.value) } };

    ghost invariant = { λ a. record {
      reading : IsReading a.reader.value;
      text : is_text (fields_of a.raw) ≡ true;
      wide : All (λ p. p < length (fields_of a.raw)) a.places.items;
      few : a.line + length (records_left a.reader.value) < 2 ^ 64;
    } };
}

/// Whether a record has as many fields as the header, each of them UTF-8.
fn is_taken(width: usize, raw: &ByteRecord) -> bool
    ensures { result ≡ is_taken width (fields_of raw.now) }
{
    raw.len() == width && is_text(raw)
}

impl<'a> Row<'a> {
    /// The line of the row: the number of its record, the header being 1.
    pub fn line(&self) -> u64
        ensures { result ≡ self.now.line }
    {
        self.line
    }

    /// A field of the row, by the place of its column among the named ones, and without the spaces at its ends.
    pub fn field(&self, column: u32) -> &str
        requires { column < length self.now.fields }
        ensures { result.now ≡ slice_index_or self.now.fields column [] }
    {
        field_at(&self.raw, self.places[column as usize])
    }

    /// The row behind this one, if there is one.
    ///
    /// A record is refused, as `NotCsv`, that has another number of fields than the header, or a field that is not
    /// UTF-8.
    pub fn next(self) -> Result<Option<Row<'a>>, TableError>
        ensures next { IfOk result (λ next. MatchOption next (IsLast self.entry) (λ row. IsNext self.entry row)) }
        ensures refused { IfErr result (λ e. IfRefused e (λ r. IsBeforeStop self.entry r)) }
    {
        let Row {
            reader,
            places,
            raw,
            line,
        } = self;
        let (mut reader, mut raw) = (reader, raw);
        let width = raw.len();
        if !next_record(&mut reader, &mut raw)? {
            return Ok(None);
        }
        let line = line + 1;
        if !is_taken(width, &raw) {
            return Err(TableError::Refused(TableRefusal::NotCsv { line }));
        }
        Ok(Some(Row {
            reader,
            places,
            raw,
            line,
        }))
    }
}
