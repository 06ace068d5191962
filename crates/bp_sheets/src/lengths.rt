//! Which stays are open at the least prices, and the least length of each arrival.
ghost use Rattle.std.specs.Prelude.{◌≡◌, ℕ, ◌+◌, ◌<◌, min, length, MatchOption, IfOk};
ghost use Rattle.bp_types.specs.Program.{stay_at};
ghost use Rattle.bp_types.specs.Spans.{IsSpanWithin};
ghost use Rattle.bp_sheets.specs.Lengths.{is_open, has_rooms, IsOpenAt, IsLeastLength, IsLeastAmong, AreLeastLengths};

use bp_board::Board;
use bp_types::{Instance, Span};
use std::alloc::{AllocError, Global};

/// Whether each night of a span has a unit.
fn has_rooms(instance: &Instance, span: Span) -> bool
    requires { IsSpanWithin (length instance.now.rooms) span }
    ensures { result ≡ has_rooms instance.now span }
{
    for night in span.from..span.to {
        if instance.rooms(night) < 1 {
            return false;
        }
    }
    true
}

/// Whether a stay is open: its rate covers its nights' prices, and each of its nights has a unit.
fn is_open(instance: &Instance, board: &Board, stay: u32) -> bool
    requires there { stay < length instance.now.stays }
    requires nights { length board.now.certificate.prices ≡ length instance.now.rooms }
    ensures { result ≡ is_open instance.now board.now.certificate.prices (stay_at instance.now stay) }
{
    let _nights = instance.nights();
    let stay = instance.stay(stay);
    board.price(stay.span) <= stay.rate && has_rooms(instance, stay.span)
}

/// The least length of each arrival, by a pass over all stays for each: in nights, or None where no stay that arrives
/// then is open.
pub(crate) fn least_lengths(
    alloc: Global,
    instance: &Instance,
    board: &Board,
) -> Result<Vec<Option<u32>>, AllocError>
    requires { length board.now.certificate.prices ≡ length instance.now.rooms }
    ensures { IfOk result (λ l. AreLeastLengths instance.now board.now.certificate.prices l.items) }
{
    let mut lengths = Vec::new(alloc);
    for arrival in 0..instance.nights() {
        lengths.push(least_length(instance, board, arrival))?;
    }
    Ok(lengths)
}

/// The fewest nights of an open stay that arrives on a night, if there is one.
fn least_length(instance: &Instance, board: &Board, arrival: u32) -> Option<u32>
    requires { length board.now.certificate.prices ≡ length instance.now.rooms }
    ensures { IsLeastLength instance.now board.now.certificate.prices arrival result }
{
    let mut least = None;
    for stay in 0..instance.stays() {
        least = least_with(instance, board, arrival, least, stay);
    }
    least
}

/// The same among the stays up to one, from what it is among those before.
fn least_with(
    instance: &Instance,
    board: &Board,
    arrival: u32,
    least: Option<u32>,
    stay: u32,
) -> Option<u32>
    requires there { stay < length instance.now.stays }
    requires nights { length board.now.certificate.prices ≡ length instance.now.rooms }
    requires before { IsLeastAmong instance.now board.now.certificate.prices stay arrival least }
    ensures { IsLeastAmong instance.now board.now.certificate.prices (stay + 1) arrival result }
{
    match open_length(instance, board, arrival, stay) {
        Some(nights) => Some(fewer(least, nights)),
        None => least,
    }
}

/// How many nights a stay has, where it is open and arrives on the night.
fn open_length(instance: &Instance, board: &Board, arrival: u32, stay: u32) -> Option<u32>
    requires there { stay < length instance.now.stays }
    requires nights { length board.now.certificate.prices ≡ length instance.now.rooms }
    ensures { MatchOption result
        ((nights : ℕ) → IsOpenAt instance.now board.now.certificate.prices stay arrival nights → ⊥)
        (IsOpenAt instance.now board.now.certificate.prices stay arrival) }
{
    let _nights = instance.nights();
    let Span { from, to } = instance.stay(stay).span;
    if from == arrival && is_open(instance, board, stay) {
        Some(to - from)
    } else {
        None
    }
}

/// The fewer nights of two lengths, the first of which there may not be.
fn fewer(least: Option<u32>, nights: u32) -> u32
    ensures { MatchOption least (result ≡ nights) (λ l. result ≡ min l nights) }
{
    match least {
        Some(fewest) => fewest.min(nights),
        None => nights,
    }
}
