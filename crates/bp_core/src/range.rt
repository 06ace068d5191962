//! Whether the numbers of an act are within their limits, and its stay, night or span is one of the house.
ghost use Rattle.std.specs.Prelude.{◌≡◌};
ghost use Rattle.bp_types.specs.House.{is_from_one};
ghost use Rattle.bp_types.specs.Spans.{is_within};
ghost use Rattle.bp_core.specs.Legal.{is_in_range, is_command_in_range};

use crate::Act;
use bp_types::limits::{
    MOST_AMOUNT, MOST_ENTRIES, MOST_FORECAST, MOST_GROUP_ROOMS, MOST_RATE, MOST_ROOMS,
};
use bp_types::{Command, House, Span};

/// Whether the numbers of an act are within their limits, and its stay, night or span is one of the house.
pub fn is_in_range(house: &House, act: Act) -> bool
    ensures { result ≡ is_in_range house.now act }
{
    match act {
        Act::Do(command) => is_command_in_range(house, command),
        Act::Publish { .. } | Act::Enrol | Act::Leave => true,
    }
}

/// The same of a command.
fn is_command_in_range(house: &House, command: Command) -> bool
    ensures { result ≡ is_command_in_range house.now command }
{
    match command {
        Command::Book { stay } => stay < house.stays(),
        Command::Cancel { nth } => is_from_one(MOST_ENTRIES, nth),
        Command::Reforecast { stay, count } => stay < house.stays() && count <= MOST_FORECAST,
        Command::Reprice { stay, rate } => stay < house.stays() && is_from_one(MOST_RATE, rate),
        Command::Resize { night, rooms } => night < house.nights() && rooms <= MOST_ROOMS,
        Command::Group {
            span,
            rooms,
            amount,
        } => {
            is_within(house.nights(), span)
                && is_from_one(MOST_GROUP_ROOMS, rooms)
                && amount <= MOST_AMOUNT
        }
    }
}

/// Whether a number is one of 1 to the greatest.
fn is_from_one(most: u64, number: u64) -> bool
    ensures { result ≡ is_from_one most number }
{
    1 <= number && number <= most
}

/// Whether a span has a night, and only nights below this number.
fn is_within(nights: u32, span: Span) -> bool
    ensures { result ≡ is_within nights span }
{
    span.from < span.to && span.to <= nights
}
