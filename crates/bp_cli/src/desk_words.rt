//! The words behind `desk`, as `clap` reads them.
ghost use Rattle.std.specs.Prelude.{◌≡◌, map, IfOk, false, string_bytes};
ghost use Rattle.std.specs.Option.{option_map};
ghost use Rattle.clap.specs.Walk.{rule_of};
ghost use Rattle.clap.specs.Simple.{app_of, with_rule};
ghost use Rattle.bp_cli.specs.Clap.{DeskLine, words_of, IsPlainLine, Gives, desk_app, file, workers_rule, named};

use clap::error::ErrorKind;
use clap::{Arg, Command};
use std::alloc::{AllocError, Global};

/// The five names of a desk's line, and its number of workers.
#[derive(Clone, Copy)]
pub(crate) struct DeskWords<'a> {
    /// The hotel file.
    pub hotel: Option<&'a str>,
    /// The stays file.
    pub stays: Option<&'a str>,
    /// The forecast file.
    pub forecast: Option<&'a str>,
    /// The bookings file.
    pub bookings: Option<&'a str>,
    /// The script.
    pub script: Option<&'a str>,
    /// The number of workers, where the line gives one.
    pub workers: Option<&'a str>,
}

/// A name that has to be there.
fn file<'a>(alloc: Global, id: &'a str) -> Arg<'a>
    ensures rule { rule_of result ≡ file id.entry.now }
    ensures plain { result.global ≡ false }
{
    Arg::new(alloc, id).required(true)
}

/// The option for a number of workers.
fn workers<'a>(alloc: Global) -> Arg<'a>
    ensures rule { rule_of result ≡ workers_rule }
    ensures plain { result.global ≡ false }
{
    Arg::new(alloc, "workers").long("workers")
}

/// A command without words of its own.
fn named<'a>(alloc: Global) -> Command<'a>
    ensures { app_of result ≡ named }
{
    Command::new(alloc, "desk").no_binary_name(true)
}

/// The command with a word more.
fn with<'a>(command: Command<'a>, arg: Arg<'a>) -> Result<Command<'a>, AllocError>
    requires { arg.global ≡ false }
    ensures { IfOk result (λ r. app_of r ≡ with_rule (app_of command.entry) (rule_of arg.entry)) }
{
    command.arg(arg)
}

/// Five names and the option `--workers`.
fn command<'a>(alloc: Global) -> Result<Command<'a>, AllocError>
    ensures { IfOk result (λ c. app_of c ≡ desk_app) }
{
    let one = with(named(alloc), file(alloc, "hotel"))?;
    let two = with(one, file(alloc, "stays"))?;
    let three = with(two, file(alloc, "forecast"))?;
    let four = with(three, file(alloc, "bookings"))?;
    let five = with(four, file(alloc, "script"))?;
    with(five, workers(alloc))
}

/// What `clap` reads of words that are plain. It refuses none of these but for want of memory.
pub(crate) fn desk_words<'a>(
    alloc: Global,
    words: &'a [String],
) -> Result<DeskWords<'a>, AllocError>
    requires { (line : DeskLine) × IsPlainLine line × (map string_bytes words.now ≡ words_of line) }
    ensures { (line : DeskLine) → IsPlainLine line → map string_bytes words.entry.now ≡ words_of line
        → IfOk result (λ d. Gives line (option_map (λ s. s.now) d.hotel) (option_map (λ s. s.now) d.stays) (option_map (λ s. s.now) d.forecast)
        (option_map (λ s. s.now) d.bookings) (option_map (λ s. s.now) d.script) (option_map (λ s. s.now) d.workers)) }
{
    let command = command(alloc)?;
    match command.try_get_matches_from(words) {
        Ok(matches) => Ok(DeskWords {
            hotel: matches.get_str("hotel"),
            stays: matches.get_str("stays"),
            forecast: matches.get_str("forecast"),
            bookings: matches.get_str("bookings"),
            script: matches.get_str("script"),
            workers: matches.get_str("workers"),
        }),
        Err(error) => match error.kind() {
            ErrorKind::OutOfMemory => Err(AllocError),
            _ => unreachable!(),
        },
    }
}
