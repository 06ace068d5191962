//! The rows of a forecast or a bookings file: a count for each stay that is named.
ghost use Rattle.std.specs.Prelude.{
  ◌≡◌,
  ◌<◌,
  List,
  length,
  slice_index_or,
  MatchResult,
  IfOk,
  IfErr,
  Ok,
  Err,
  Some,
  None,
  is_some,
  slice_set,
  true,
  replicate,
};
ghost use Rattle.bp_stayfile.specs.declared.counts.Counted.{Counted};
ghost use Rattle.bp_stayfile.specs.Reading.{table_read, IsRefusedAfter};
ghost use Rattle.bp_stayfile.specs.Tables.{IsHeaderOf, table_of};
ghost use Rattle.bp_stayfile.specs.Counts.{count_of, count_in, counted_in, count_rule, count_columns, counts_file};
ghost use Rattle.bp_stayfile.specs.LaidOut.{AreLaidOut};
ghost use Rattle.bp_stayfile.specs.Refusals.{IfRefused};

use crate::cells::{code_in, number_in};
use crate::tables::{Row, header};
use crate::{Codes, Column, TableError, TableRefusal};
use bp_types::Memory;
use bp_types::limits::MOST_FORECAST;
use std::alloc::Global;

/// The columns of both files.
const COLUMNS: [Column; 2] = [Column::Code, Column::Count];

/// What a row of a forecast or a bookings file says of a stay.
#[derive(Clone, Copy)]
pub(crate) struct Counted {
    /// The stay that its code names, counted from 0.
    pub stay: u32,
    /// Units of a forecast, or bookings.
    pub count: u64,
}

/// A count within its limit.
fn count_in(line: u64, counted: Counted) -> Result<Counted, TableRefusal>
    ensures { result ≡ count_in line counted }
{
    if counted.count <= MOST_FORECAST {
        Ok(counted)
    } else {
        Err(TableRefusal::Limit { line })
    }
}

/// The count of a row, whatever the rows before it say.
fn counted_in(codes: &Codes, row: &Row<'_>) -> Result<Counted, TableRefusal>
    requires { length row.now.fields ≡ 2 }
    ensures { result ≡ counted_in codes.now row.now.line row.now.fields }
{
    let line = row.line();
    let code = row.field(0);
    code_in(line, code)?;
    let stay = codes.find(code).ok_or(TableRefusal::NoCode { line })?;
    let count = number_in(line, row.field(1))?;
    count_in(line, Counted { stay, count })
}

/// Puts a count at its stay, unless the stay has one.
fn put(counts: &mut [Option<u64>], line: u64, counted: Counted) -> Result<(), TableRefusal>
    requires { counted.stay < length counts.old }
    ensures { MatchResult result
        (λ _. (slice_index_or counts.old counted.stay None ≡ None)
        × (counts.new ≡ slice_set counts.old counted.stay (Some counted.count)))
        (λ e. (e ≡ TableRefusal.TwiceCode line) × (is_some (slice_index_or counts.old counted.stay None) ≡ true) ×
        (counts.new ≡ counts.old)) }
{
    let stay = counted.stay as usize;
    if counts[stay].is_some() {
        return Err(TableRefusal::TwiceCode { line });
    }
    counts[stay] = Some(counted.count);
    Ok(())
}

/// No count for any stay.
pub(crate) fn no_counts(alloc: Global, stays: usize) -> Result<Vec<Option<u64>>, Memory>
    ensures { IfOk result (λ v. v.items ≡ replicate stays None) }
{
    Ok(vec![in alloc; None; stays]?)
}

/// Puts the counts of the rows behind a header at their stays, and stops at the first refusal.
pub(crate) fn put_counts(
    codes: &Codes,
    header: Row<'_>,
    counts: &mut [Option<u64>],
) -> Result<(), TableError>
    requires line { header.line ≡ 1 }
    requires columns { header.behind.columns ≡ 2 }
    requires empty { counts.old ≡ replicate (length codes.now) None }
    ensures read { IfOk result (λ _. (named : List Counted) ×
        (table_read (count_rule codes.now) header.entry.behind ≡ Ok named) ×
        AreLaidOut (length codes.now) named counts.new) }
    ensures refused { IfErr result (λ e. IfRefused e
        (λ r. (named : List Counted) × IsRefusedAfter (count_rule codes.now) header.entry.behind named r ×
        AreLaidOut (length codes.now) named counts.new)) }
{
    let mut at = header;
    while let Some(row) = at.next()? {
        let counted = counted_in(codes, &row)?;
        put(counts, row.line(), counted)?;
        at = row;
    }
    Ok(())
}

/// The header of a forecast or a bookings file.
pub(crate) fn count_header(alloc: Global, bytes: &[u8]) -> Result<Row<'_>, TableError>
    ensures read { IfOk result (λ h. IsHeaderOf count_columns bytes.now h) }
    ensures columns { IfOk result (λ h. h.behind.columns ≡ 2) }
    ensures refused { IfErr result (λ e. IfRefused e (λ r. table_of count_columns bytes.now ≡ Err r)) }
{
    header(alloc, bytes, &COLUMNS)
}

/// The counts of a forecast or a bookings file, one place per stay.
pub(crate) fn counts_of(
    alloc: Global,
    codes: &Codes,
    bytes: &[u8],
) -> Result<Vec<Option<u64>>, TableError>
    ensures read { IfOk result (λ v. (counts : List Counted) × (counts_file codes.now bytes.now ≡ Ok counts)
        × AreLaidOut (length codes.now) counts v.items) }
    ensures refused { IfErr result (λ e. IfRefused e (λ r. counts_file codes.now bytes.now ≡ Err r)) }
{
    let header = count_header(alloc, bytes)?;
    let mut counts = no_counts(alloc, codes.count() as usize)?;
    put_counts(codes, header, &mut counts)?;
    Ok(counts)
}
