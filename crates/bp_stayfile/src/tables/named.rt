//! The header of a table, and its columns found by name.
ghost use Rattle.std.specs.Prelude.{◌≡◌, ◌<◌, true, List, length, None, IfOk, IfErr, IsTrue, Err};
ghost use Rattle.csv.specs.Records.{fields_of};
ghost use Rattle.bp_stayfile.specs.Refusals.{IfRefused};
ghost use Rattle.bp_stayfile.specs.Tables.{
  Record,
  IsHeaderOf,
  is_text,
  place_of,
  lacking,
  places_of,
  table_under,
  table_of,
};

use super::reading::{field_at, is_text, next_record, reader_of};
use super::row::Row;
use crate::{Column, TableError, TableRefusal};
use bp_types::Memory;
use csv::ByteRecord;
use std::alloc::Global;

/// The place of a column in a header, or past its last field.
fn place_of(header: &ByteRecord, column: Column) -> usize
    requires { IsTrue (is_text (fields_of header.now)) }
    ensures { result ≡ place_of (fields_of header.now) column }
{
    let name = column.text();
    for place in 0..header.len() {
        if field_at(header, place) == name {
            return place;
        }
    }
    header.len()
}

/// The first column that a header lacks.
fn lacking(header: &ByteRecord, columns: &[Column]) -> Option<Column>
    requires { IsTrue (is_text (fields_of header.now)) }
    ensures { result ≡ lacking (fields_of header.now) columns.now }
{
    for column in columns {
        if place_of(header, *column) == header.len() {
            return Some(*column);
        }
    }
    None
}

/// The place of each column in a header that has them all.
fn places_of(alloc: Global, header: &ByteRecord, columns: &[Column]) -> Result<Vec<usize>, Memory>
    requires { IsTrue (is_text (fields_of header.now)) }
    ensures { IfOk result (λ v. v.items ≡ places_of (fields_of header.now) columns.now) }
{
    Ok(
        columns
            .iter()
            .map(|column| place_of(header, *column))
            .collect(alloc)?,
    )
}

/// The places of the columns in a header, or what is wrong with it.
fn places_under(
    alloc: Global,
    columns: &[Column],
    header: &ByteRecord,
) -> Result<Vec<usize>, TableError>
    ensures text { IfOk result (λ v. is_text (fields_of header.now) ≡ true) }
    ensures all { IfOk result (λ v. lacking (fields_of header.now) columns.now ≡ None) }
    ensures places { IfOk result (λ v. v.items ≡ places_of (fields_of header.now) columns.now) }
    ensures refused { IfErr result
        (λ e. IfRefused e (λ r. (records : List Record) →
        table_under columns.now (fields_of header.now) records ≡ Err r)) }
{
    if !is_text(header) {
        return Err(TableError::Refused(TableRefusal::NotCsv { line: 1 }));
    }
    if let Some(column) = lacking(header, columns) {
        return Err(TableError::Refused(TableRefusal::Column { column }));
    }
    Ok(places_of(alloc, header, columns)?)
}

/// The header of a text with the named columns, of which there is at least one, before the first row.
///
/// A refusal is of the header: a field that is not UTF-8, or a column that it lacks.
pub fn header<'a>(alloc: Global, bytes: &'a [u8], columns: &[Column]) -> Result<Row<'a>, TableError>
    requires { 0 < length columns.now }
    ensures read { IfOk result (λ h. IsHeaderOf columns.now bytes.now h) }
    ensures refused { IfErr result (λ e. IfRefused e (λ r. table_of columns.now bytes.now ≡ Err r)) }
{
    let Ok(mut reader) = Box::new(alloc, reader_of(alloc, bytes)) else {
        return Err(TableError::Memory);
    };
    let mut raw = ByteRecord::new(alloc);
    if !next_record(&mut reader, &mut raw)? {
        let column = columns[0];
        return Err(TableError::Refused(TableRefusal::Column { column }));
    }
    let places = places_under(alloc, columns, &raw)?;
    let line = 1;
    Ok(Row {
        reader,
        places,
        raw,
        line,
    })
}
