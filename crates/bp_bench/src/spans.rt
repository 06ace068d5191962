//! A ledger of rooms on long spans: a room is looked for, taken, and every second time given back.
ghost use Rattle.std.specs.Prelude.{◌≡◌, ◌+◌, ◌≤◌, ◌<◌, length, IfOk, IsTrue};
ghost use Rattle.bp_types.specs.Spans.{IsSpanWithin};
ghost use Rattle.bp_ledger.specs.Inventory.{HasSold};

use crate::draws::WideDraws;
use crate::timed::{Timed, since};
use bp_ledger::Ledger;
use bp_types::Span;
use std::alloc::Global;
use std::test::Fail;
use std::time::{Clock, Instant};

/// The nights of the ledger.
const NIGHTS: u32 = 400;

/// Rooms of each night: more than the visits take, so that each looks at its whole span.
const ROOMS: u64 = 10_000_000;

/// Sets the rooms of a night.
fn resize(ledger: &mut Ledger, night: u32, rooms: u64)
    requires { night < length ledger.old.rooms }
    ensures { length ledger.new.rooms ≡ length ledger.old.rooms }
{
    let _below = ledger.resize(night, rooms);
}

/// A ledger of so many nights, with nothing sold.
fn opened(alloc: Global) -> Result<Ledger, Fail>
    ensures { IfOk result (λ l. length l.rooms ≡ NIGHTS) }
{
    let none = vec![in alloc; 0u64; NIGHTS as usize]?;
    let mut ledger = Ledger::new(alloc, &none, &none)?;
    for night in 0..NIGHTS {
        resize(&mut ledger, night, ROOMS);
    }
    Ok(ledger)
}

/// Takes a room on each night of a span, where each has one. The look at a night's number is for the proof.
#[tactic(auto, using(crate::proofs::SpanLemmas::has_left, crate::proofs::SpanLemmas::has_sold))]
fn take(ledger: &mut Ledger, span: Span) -> bool
    requires { IsSpanWithin (length ledger.old.rooms) span }
    ensures nights { length ledger.new.rooms ≡ length ledger.old.rooms }
    ensures sold { IsTrue result → HasSold ledger.new span 1 }
{
    let _sold = ledger.sold(span.from);
    match ledger.first_full(span, 1) {
        Some(_) => false,
        None => {
            ledger.take(span, 1);
            true
        }
    }
}

/// Takes a room and may give it back; whether there was one.
fn visit(ledger: &mut Ledger, span: Span, back: bool) -> bool
    requires { IsSpanWithin (length ledger.old.rooms) span }
    ensures { length ledger.new.rooms ≡ length ledger.old.rooms }
{
    let took = take(ledger, span);
    if took && back {
        ledger.release(span, 1);
    }
    took
}

/// A span of so many nights at least and at most.
fn draw_span(draws: &mut WideDraws, least: u32, most: u32) -> Span
    requires { (1 ≤ least) × (least ≤ most) × (most ≤ NIGHTS) }
    ensures { IsSpanWithin NIGHTS result }
{
    let length = least + draws.below(u64::from(most - least + 1)) as u32;
    let from = draws.below(u64::from(NIGHTS - length + 1)) as u32;
    Span {
        from,
        to: from + length,
    }
}

/// Makes so many visits; how many found a room on each night.
fn visit_all(ledger: &mut Ledger, least: u32, most: u32, visits: u32) -> u128
    requires nights { length ledger.old.rooms ≡ NIGHTS }
    requires spans { (1 ≤ least) × (least ≤ most) × (most ≤ NIGHTS) }
{
    let mut draws = WideDraws { state: 1 };
    let mut found: u128 = 0;
    for number in 0..visits {
        let span = draw_span(&mut draws, least, most);
        if visit(ledger, span, number % 2 == 1) {
            found = found.saturating_add(1);
        }
    }
    found
}

/// Times so many visits on spans of so many nights at least and at most.
pub(crate) fn run<C: Clock>(
    clock: &C,
    alloc: Global,
    least: u32,
    most: u32,
    visits: u32,
) -> Result<Vec<Timed>, Fail> {
    if least < 1 || most < least || most > NIGHTS {
        return Err(Fail::new("1 to 400 nights"));
    }
    let mut ledger = opened(alloc)?;
    let start = Instant::now(clock)?;
    let found = visit_all(&mut ledger, least, most, visits);
    let nanoseconds = since(clock, start)?;
    let mut lines = Vec::new(alloc);
    lines.push(Timed {
        name: "spans",
        nanoseconds,
        count: found,
    })?;
    Ok(lines)
}
