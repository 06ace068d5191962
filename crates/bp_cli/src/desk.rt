//! The lines that hold five names: those of a desk, and of what is done with its journal.
ghost use Rattle.std.specs.Prelude.{◌≡◌, ◌↔◌, ◌∷◌, [], codes, ℕ, IsTrue, MatchOption, Some};
ghost use Rattle.std.specs.Option.{option_map};
ghost use Rattle.bp_cli.specs.Words.{IsFileName, texts};
ghost use Rattle.bp_cli.specs.Tasks.{Asks, IsPlain, AreFileNames, GiveWorkers, AsksWorkers};
ghost use Rattle.bp_cli.specs.Asked.{asked, IsReadOf, IsAnswered};
ghost use Rattle.bp_cli.specs.Clap.{DeskLine, words_of, Gives};

use crate::desk_words::{DeskWords, desk_words};
use crate::name::is_file_name;
use crate::number::{WORKERS, number_of, number_within};
use crate::{Name, Task, WordsError};
use bp_types::limits::MOST_WORKERS;
use std::alloc::Global;

/// Whether each of the five is a name that a file may have.
fn are_file_names(hotel: &str, stays: &str, forecast: &str, bookings: &str, last: &str) -> bool
    ensures { IsTrue result ↔ AreFileNames (record {
      hotel = hotel.now;
      stays = stays.now;
      forecast =
          forecast.now;
      bookings = bookings.now;
      last = last.now;
    }) }
{
    is_file_name(hotel)
        && is_file_name(stays)
        && is_file_name(forecast)
        && is_file_name(bookings)
        && is_file_name(last)
}

/// A replay, where each name is one that a file may have.
fn replay_of<'a>(
    hotel: &'a str,
    stays: &'a str,
    forecast: &'a str,
    bookings: &'a str,
    journal: &'a str,
) -> Option<Task<'a>>
    ensures { IsReadOf
        (codes "replay" ∷ hotel.now ∷ stays.now ∷ forecast.now ∷ bookings.now ∷ journal.now ∷ []) result }
{
    if !are_file_names(hotel, stays, forecast, bookings, journal) {
        return None;
    }
    Some(Task::Replay {
        hotel: Name::new(hotel),
        stays: Name::new(stays),
        forecast: Name::new(forecast),
        bookings: Name::new(bookings),
        journal: Name::new(journal),
    })
}

/// The words behind `replay`: five names.
pub(crate) fn replay_line(words: &[String]) -> Option<Task<'_>>
    ensures { IsReadOf (codes "replay" ∷ texts words.now) result }
{
    match words {
        [hotel, stays, forecast, bookings, journal] => replay_of(
            hotel.as_str(),
            stays.as_str(),
            forecast.as_str(),
            bookings.as_str(),
            journal.as_str(),
        ),
        _ => None,
    }
}

/// A report, where each name is one that a file may have.
fn report_of<'a>(
    hotel: &'a str,
    stays: &'a str,
    forecast: &'a str,
    bookings: &'a str,
    journal: &'a str,
) -> Option<Task<'a>>
    ensures { IsReadOf
        (codes "report" ∷ hotel.now ∷ stays.now ∷ forecast.now ∷ bookings.now ∷ journal.now ∷ []) result }
{
    if !are_file_names(hotel, stays, forecast, bookings, journal) {
        return None;
    }
    Some(Task::Report {
        hotel: Name::new(hotel),
        stays: Name::new(stays),
        forecast: Name::new(forecast),
        bookings: Name::new(bookings),
        journal: Name::new(journal),
    })
}

/// The words behind `report`: five names.
pub(crate) fn report_line(words: &[String]) -> Option<Task<'_>>
    ensures { IsReadOf (codes "report" ∷ texts words.now) result }
{
    match words {
        [hotel, stays, forecast, bookings, journal] => report_of(
            hotel.as_str(),
            stays.as_str(),
            forecast.as_str(),
            bookings.as_str(),
            journal.as_str(),
        ),
        _ => None,
    }
}

/// Whether the words are plain that give a number of workers.
fn are_workers(option: &str, workers: &str) -> bool
    ensures { IsTrue result ↔ GiveWorkers option.now workers.now }
{
    option == "--workers" && number_within(0, MOST_WORKERS, workers).is_some()
}

/// Whether five words behind `desk` are those of a plain line.
fn is_desk(hotel: &str, stays: &str, forecast: &str, bookings: &str, script: &str) -> bool
    ensures { IsTrue result ↔ IsPlain
        (codes "desk" ∷ hotel.now ∷ stays.now ∷ forecast.now ∷ bookings.now ∷ script.now ∷ []) }
{
    are_file_names(hotel, stays, forecast, bookings, script)
}

/// The same with a number of workers.
fn is_desk_by(
    hotel: &str,
    stays: &str,
    forecast: &str,
    bookings: &str,
    script: &str,
    option: &str,
    workers: &str,
) -> bool
    ensures { IsTrue result ↔ IsPlain
        (codes "desk" ∷ hotel.now ∷ stays.now ∷ forecast.now ∷ bookings.now ∷ script.now ∷ option.now ∷ workers.now ∷
        []) }
{
    are_file_names(hotel, stays, forecast, bookings, script) && are_workers(option, workers)
}

/// Whether the words behind `desk` are those of a plain line.
fn is_desk_line(words: &[String]) -> bool
    ensures { IsTrue result ↔ IsPlain (codes "desk" ∷ texts words.now) }
{
    match words {
        [hotel, stays, forecast, bookings, script] => is_desk(
            hotel.as_str(),
            stays.as_str(),
            forecast.as_str(),
            bookings.as_str(),
            script.as_str(),
        ),
        [hotel, stays, forecast, bookings, script, option, workers] => is_desk_by(
            hotel.as_str(),
            stays.as_str(),
            forecast.as_str(),
            bookings.as_str(),
            script.as_str(),
            option.as_str(),
            workers.as_str(),
        ),
        _ => false,
    }
}

/// The number of workers that a plain line gives.
fn workers_of(given: Option<&str>) -> Option<u32>
    ensures { (workers : ℕ) → AsksWorkers (option_map (λ s. s.now) given.entry) workers → result ≡ Some workers }
{
    match given {
        None => Some(WORKERS),
        Some(word) => number_of(word),
    }
}

/// The task of a plain line, by what was read of it.
fn task_of(words: DeskWords<'_>) -> Option<Task<'_>>
    ensures { (line : DeskLine) → IsPlain (codes "desk" ∷ words_of line)
        → Gives line (option_map (λ s. s.now) words.entry.hotel) (option_map (λ s. s.now) words.entry.stays)
        (option_map (λ s. s.now) words.entry.forecast) (option_map (λ s. s.now) words.entry.bookings)
        (option_map (λ s. s.now) words.entry.script) (option_map (λ s. s.now) words.entry.workers)
        → MatchOption result ⊥ (λ t. Asks (codes "desk" ∷ words_of line) (asked t)) }
{
    Some(Task::Desk {
        hotel: Name::new(words.hotel?),
        stays: Name::new(words.stays?),
        forecast: Name::new(words.forecast?),
        bookings: Name::new(words.bookings?),
        script: Name::new(words.script?),
        workers: workers_of(words.workers)?,
    })
}

/// The words behind `desk`: five names, and perhaps a number of workers.
pub(crate) fn desk_line<'a>(alloc: Global, words: &'a [String]) -> Result<Task<'a>, WordsError>
    ensures { IsAnswered (codes "desk" ∷ texts words.entry.now) result }
{
    if !is_desk_line(words) {
        return Err(WordsError::Usage);
    }
    let Ok(words) = desk_words(alloc, words) else {
        return Err(WordsError::Memory);
    };
    task_of(words).ok_or(WordsError::Usage)
}
