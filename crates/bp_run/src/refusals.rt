//! What the refusal of a file says.
ghost use Rattle.std.specs.Prelude.{◌≡◌, IfOk, string_bytes};
ghost use Rattle.bp_run.specs.Refusals.{refusal_line, text_refusal, hotel_refusal, table_refusal};

use bp_hotelfile::HotelRefusal;
use bp_inputs::{Cause, FileError};
use bp_stayfile::TableRefusal;
use bp_text::TextError;
use std::alloc::{AllocError, Global};

/// The line of a refused text of lines.
fn text_line(alloc: Global, file: u64, error: TextError) -> Result<String, AllocError>
    ensures { IfOk result (λ text. string_bytes text ≡ text_refusal file error) }
{
    match error {
        TextError::BadLine { line } => format!(in alloc; "refused {file} badline {line}\n"),
        TextError::Limit { line } => format!(in alloc; "refused {file} limit {line}\n"),
        TextError::TooShort => format!(in alloc; "refused {file} tooshort\n"),
        TextError::Trailing { line } => format!(in alloc; "refused {file} trailing {line}\n"),
        TextError::Memory => format!(in alloc; "refused {file} memory\n"),
    }
}

/// The line of a refused hotel file.
fn hotel_line(alloc: Global, file: u64, refusal: HotelRefusal) -> Result<String, AllocError>
    ensures { IfOk result (λ text. string_bytes text ≡ hotel_refusal file refusal) }
{
    match refusal {
        HotelRefusal::NotToml => format!(in alloc; "refused {file} nottoml\n"),
        HotelRefusal::Missing { key } => {
            format!(in alloc; "refused {file} missing {}\n", key.text())
        }
        HotelRefusal::Kind { key } => format!(in alloc; "refused {file} kind {}\n", key.text()),
        HotelRefusal::Date { key } => format!(in alloc; "refused {file} date {}\n", key.text()),
        HotelRefusal::Range { key } => format!(in alloc; "refused {file} range {}\n", key.text()),
        HotelRefusal::NightShape { index } => {
            format!(in alloc; "refused {file} nightshape {index}\n")
        }
        HotelRefusal::NightOutside { index } => {
            format!(in alloc; "refused {file} nightoutside {index}\n")
        }
        HotelRefusal::TwiceNight { index } => {
            format!(in alloc; "refused {file} twicenight {index}\n")
        }
    }
}

/// The line of a refused table.
fn table_line(alloc: Global, file: u64, refusal: TableRefusal) -> Result<String, AllocError>
    ensures { IfOk result (λ text. string_bytes text ≡ table_refusal file refusal) }
{
    match refusal {
        TableRefusal::Column { column } => {
            format!(in alloc; "refused {file} column {}\n", column.text())
        }
        TableRefusal::NotCsv { line } => format!(in alloc; "refused {file} notcsv {line}\n"),
        TableRefusal::Code { line } => format!(in alloc; "refused {file} code {line}\n"),
        TableRefusal::NoCode { line } => format!(in alloc; "refused {file} nocode {line}\n"),
        TableRefusal::Date { line } => format!(in alloc; "refused {file} date {line}\n"),
        TableRefusal::Number { line } => format!(in alloc; "refused {file} number {line}\n"),
        TableRefusal::Limit { line } => format!(in alloc; "refused {file} limit {line}\n"),
        TableRefusal::Outside { line } => format!(in alloc; "refused {file} outside {line}\n"),
        TableRefusal::TwiceCode { line } => format!(in alloc; "refused {file} twicecode {line}\n"),
        TableRefusal::Verb { line } => format!(in alloc; "refused {file} verb {line}\n"),
        TableRefusal::Session { line } => format!(in alloc; "refused {file} session {line}\n"),
        TableRefusal::Overbooked { night } => {
            format!(in alloc; "refused {file} overbooked {night}\n")
        }
    }
}

/// The line of a refusal, with its end: the number of the file, counted from 1, a word for the cause, and where in the
/// file it is.
pub fn refused_line(alloc: Global, file: u64, cause: Cause) -> Result<String, AllocError>
    ensures { IfOk result (λ text. string_bytes text ≡ refusal_line file cause) }
{
    match cause {
        Cause::TooLong => format!(in alloc; "refused {file} toolong\n"),
        Cause::Reader(FileError::Text(error)) => text_line(alloc, file, error),
        Cause::Reader(FileError::Hotel(refusal)) => hotel_line(alloc, file, refusal),
        Cause::Reader(FileError::Table(refusal)) => table_line(alloc, file, refusal),
    }
}
