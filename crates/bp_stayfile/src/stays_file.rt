//! The stays file: a code, an arrival, a number of nights and a rate for each stay.
ghost use Rattle.std.specs.Prelude.{◌≡◌, ◌+◌, length, IfOk, IfErr, Ok, Err};
ghost use Rattle.bp_stayfile.specs.Refusals.{IfRefused};
ghost use Rattle.bp_stayfile.specs.Stays.{stay_in, stay_columns, stays_under, stays_file};
ghost use Rattle.bp_stayfile.specs.Tables.{IsHeaderOf, table_of};

use crate::cells::{code_in, date_in, limits_in, number_in, span_in};
use crate::tables::{Row, header};
use crate::{Codes, Column, Stays, TableError, TableRefusal};
use bp_hotelfile::Hotel;
use bp_types::Stay;
use std::alloc::Global;

/// The columns of the file.
const COLUMNS: [Column; 4] = [Column::Code, Column::Arrival, Column::Nights, Column::Rate];

/// The stay of a row, after as many codes as there are rows before it.
fn stay_in(hotel: &Hotel, codes: &Codes, row: &Row<'_>) -> Result<Stay, TableRefusal>
    requires columns { length row.now.fields ≡ 4 }
    requires line { row.now.line ≡ length codes.now + 2 }
    ensures { result ≡ stay_in hotel.now codes.now row.now.fields }
{
    let line = row.line();
    let code = row.field(0);
    code_in(line, code)?;
    let arrival = hotel.night_of(row.field(1));
    date_in(line, arrival)?;
    let nights = number_in(line, row.field(2))?;
    let rate = number_in(line, row.field(3))?;
    limits_in(line, u64::from(codes.count()), nights, rate)?;
    let span = span_in(line, hotel.nights(), arrival, nights)?;
    if codes.find(code).is_some() {
        return Err(TableRefusal::TwiceCode { line });
    }
    let forecast = 0;
    Ok(Stay {
        span,
        rate,
        forecast,
    })
}

/// The stays of the rows behind a header.
fn stays_under(alloc: Global, hotel: &Hotel, header: Row<'_>) -> Result<Stays, TableError>
    requires line { header.line ≡ 1 }
    requires columns { header.behind.columns ≡ 4 }
    ensures read { IfOk result (λ s. stays_under hotel.now header.entry.behind ≡ Ok s) }
    ensures refused { IfErr result (λ e. IfRefused e (λ r. stays_under hotel.now header.entry.behind ≡ Err r)) }
{
    let mut codes = Codes::new(alloc);
    let mut stays = Vec::new(alloc);
    let mut at = header;
    while let Some(row) = at.next()? {
        let stay = stay_in(hotel, &codes, &row)?;
        codes.add(alloc, row.field(0))?;
        if stays.push(stay).is_err() {
            return Err(TableError::Memory);
        }
        at = row;
    }
    Ok(Stays {
        nights: hotel.nights(),
        codes,
        stays,
    })
}

/// The header of a stays file.
fn stay_header(alloc: Global, bytes: &[u8]) -> Result<Row<'_>, TableError>
    ensures read { IfOk result (λ h. IsHeaderOf stay_columns bytes.now h) }
    ensures columns { IfOk result (λ h. h.behind.columns ≡ 4) }
    ensures refused { IfErr result (λ e. IfRefused e (λ r. table_of stay_columns bytes.now ≡ Err r)) }
{
    header(alloc, bytes, &COLUMNS)
}

/// The stays of a stays file, in the order of the file, or the first thing that is wrong with it. Rates are for the
/// whole stay, in minor units of money.
///
/// Nothing is forecast for them yet.
pub fn read_stays(alloc: Global, hotel: &Hotel, bytes: &[u8]) -> Result<Stays, TableError>
    ensures read { IfOk result (λ s. stays_file hotel.now bytes.now ≡ Ok s) }
    ensures of_hotel { IfOk result (λ s. s.nights ≡ length hotel.now.rooms) }
    ensures refused { IfErr result (λ e. IfRefused e (λ r. stays_file hotel.now bytes.now ≡ Err r)) }
{
    let header = stay_header(alloc, bytes)?;
    stays_under(alloc, hotel, header)
}
