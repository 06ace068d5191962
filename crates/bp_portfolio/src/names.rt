//! The names of a hotel's files.
ghost use Rattle.std.specs.Prelude.{◌≡◌, ◌≢◌, ◌∷◌, ◌<◌, List, IsTrue, IfOk, MatchOption};
ghost use Rattle.std.specs.List.{list_all};
ghost use Rattle.bp_text.specs.Words.{Word};
ghost use Rattle.bp_portfolio.specs.Lists.{IsNamesLine, is_name, is_name_byte, is_named, name_at, names_line};
ghost use Rattle.bp_portfolio.specs.Borrowed.{named};

use bp_text::Words;
use bp_types::limits::MOST_NAME;
use std::alloc::{AllocError, Global};
use std::marker::Model;

/// The names of one hotel's files: its hotel, stays, forecast, bookings and script.
///
/// Contracts see five texts.
#[derive(Debug, Drop)]
pub struct Names {
    hotel: String,
    stays: String,
    forecast: String,
    bookings: String,
    script: String,
}

impl Model for Names {
    ghost use Rattle.std.specs.Prelude.{string_bytes};
    ghost use Rattle.bp_portfolio.specs.Lists.{FiveNames};

    ghost Value = { FiveNames };

    ghost view = { λ n. record {
      hotel = string_bytes n.hotel;
      stays = string_bytes n.stays;
      forecast = string_bytes n.forecast;
      bookings = string_bytes n.bookings;
      script = string_bytes n.script;
    } };
}

/// The same, as a line has them.
#[derive(Clone, Copy, Debug)]
pub struct NamesOf<'a> {
    /// The hotel file.
    pub hotel: &'a str,
    /// The stays file.
    pub stays: &'a str,
    /// The forecast file.
    pub forecast: &'a str,
    /// The bookings file.
    pub bookings: &'a str,
    /// The script.
    pub script: &'a str,
}

impl Names {
    /// A copy of what a line has. The one error is want of memory.
    pub fn copied(alloc: Global, names: NamesOf<'_>) -> Result<Names, AllocError>
        ensures { IfOk result (λ n. n ≡ named names.entry) }
    {
        Ok(Names {
            hotel: String::from_str(alloc, names.hotel)?,
            stays: String::from_str(alloc, names.stays)?,
            forecast: String::from_str(alloc, names.forecast)?,
            bookings: String::from_str(alloc, names.bookings)?,
            script: String::from_str(alloc, names.script)?,
        })
    }

    /// The name of a file by its index: the hotel's is 0, the script's 4.
    pub fn name(&self, file: u32) -> &str
        requires { file < 5 }
        ensures { result.now ≡ name_at self.now file }
    {
        match file {
            0 => self.hotel.as_str(),
            1 => self.stays.as_str(),
            2 => self.forecast.as_str(),
            3 => self.bookings.as_str(),
            _ => self.script.as_str(),
        }
    }
}

/// Whether each byte is printed, and none is a space.
fn has_name_bytes(word: &[u8]) -> bool
    ensures { result ≡ list_all is_name_byte word.now }
{
    word.iter().all(|byte| *byte >= 33 && *byte <= 126)
}

/// Whether a word is the name of a file: 1 to `MOST_NAME` printed bytes of ASCII, the first of them no dash.
fn is_name(word: &[u8]) -> bool
    ensures { result ≡ is_name word.now }
{
    match word {
        [] => false,
        [first, ..] => word.len() <= MOST_NAME && *first != b'-' && has_name_bytes(word),
    }
}

/// The next word of a line, where it is the name of a file.
fn file_name<'a>(words: &mut Words<'a>) -> Option<&'a str>
    ensures { MatchOption result
        ((w : Word) (more : List Word) → IsTrue (is_name w) → words.old ≢ w ∷ more)
        (λ name. IsTrue (is_name name.now) × (words.old ≡ name.now ∷ words.new)) }
{
    let word = words.next()?;
    if !is_name(word) {
        return None;
    }
    match str::from_utf8(word) {
        Ok(name) => Some(name),
        Err(_) => unreachable!(),
    }
}

/// The five names of a line; None where it has not just these.
pub fn names_on<'a>(line: &'a [u8]) -> Option<NamesOf<'a>>
    ensures { MatchOption result (¬ IsNamesLine line.entry.now) (λ n. IsTrue (is_named (named n)) ×
        (line.entry.now ≡ names_line (named n))) }
{
    let mut words = Words::new(line);
    let hotel = file_name(&mut words)?;
    let stays = file_name(&mut words)?;
    let forecast = file_name(&mut words)?;
    let bookings = file_name(&mut words)?;
    let script = file_name(&mut words)?;
    match words.next() {
        None => Some(NamesOf {
            hotel,
            stays,
            forecast,
            bookings,
            script,
        }),
        Some(_) => None,
    }
}
