//! The records of a table, as the crate `csv` reads them from bytes in memory.
ghost use Rattle.std.specs.Prelude.{
  ◌≡◌,
  ◌<◌,
  ◌≤◌,
  ◌+◌,
  ◌∷◌,
  IfOk,
  MatchOption,
  IsTrue,
  slice_index_or,
  length,
  [],
  true,
  false,
};
ghost use Rattle.std.specs.Bool.{MatchBool};
ghost use Rattle.std.specs.Str.{is_utf8};
ghost use Rattle.csv.specs.Reading.{error_kind};
ghost use Rattle.csv.specs.Records.{fields_of};
ghost use Rattle.bp_stayfile.specs.Fields.{stripped};
ghost use Rattle.bp_stayfile.specs.Records.{IsReading, IsWantOfMemory, records_left};
ghost use Rattle.bp_stayfile.specs.Tables.{records_of, is_text, field_at};

use super::fields::stripped;
use bp_types::Memory;
use csv::{ByteRecord, Error, ErrorKind, Reader, ReaderBuilder};
use std::alloc::Global;

/// A reader of the records of a text, the header first.
pub(super) fn reader_of(alloc: Global, bytes: &[u8]) -> Reader<&[u8]>
    ensures reading { IsReading result }
    ensures records { records_left result ≡ records_of bytes.now }
    ensures few { length (records_left result) ≤ length bytes.now + 1 }
{
    ReaderBuilder::new()
        .has_headers(false)
        .flexible(true)
        .from_reader(alloc, bytes)
}

/// Why a read fails that allows records of any length and asks for no text.
fn want_of_memory(error: Error) -> Memory
    requires { IsWantOfMemory (error_kind error) }
{
    match error.into_kind() {
        ErrorKind::Io(_) | ErrorKind::OutOfMemory => Memory,
        _ => unreachable!(),
    }
}

/// Reads the next record of a reader, if there is one.
pub(super) fn next_record(reader: &mut Reader<&[u8]>, raw: &mut ByteRecord) -> Result<bool, Memory>
    requires { IsReading reader.old }
    ensures { IfOk result (λ found. MatchBool found
        (IsReading reader.new × (records_left reader.old ≡ fields_of raw.new ∷ records_left reader.new))
        (records_left reader.old ≡ [])) }
{
    match reader.read_byte_record(raw) {
        Ok(true) => Ok(true),
        Ok(false) => Ok(false),
        Err(error) => Err(want_of_memory(error)),
    }
}

/// A field as text, where it is UTF-8.
fn text_at(raw: &ByteRecord, place: usize) -> Option<&str>
    requires { place < length (fields_of raw.now) }
    ensures { MatchOption result
        (is_utf8 (slice_index_or (fields_of raw.now) place []) ≡ false)
        (λ text. (is_utf8 (slice_index_or (fields_of raw.now) place []) ≡ true)
        × (text.now ≡ slice_index_or (fields_of raw.now) place [])) }
{
    let Some(field) = raw.get(place) else {
        unreachable!()
    };
    match str::from_utf8(field) {
        Ok(text) => Some(text),
        Err(_) => None,
    }
}

/// Whether each field is UTF-8.
pub(super) fn is_text(raw: &ByteRecord) -> bool
    ensures { result ≡ is_text (fields_of raw.now) }
{
    for place in 0..raw.len() {
        if text_at(raw, place).is_none() {
            return false;
        }
    }
    true
}

/// A field without the spaces at its ends.
pub(super) fn field_at(raw: &ByteRecord, place: usize) -> &str
    requires text { IsTrue (is_text (fields_of raw.now)) }
    requires place { place < length (fields_of raw.now) }
    ensures { result.now ≡ field_at (fields_of raw.now) place }
{
    let Some(text) = text_at(raw, place) else {
        unreachable!()
    };
    stripped(text)
}
