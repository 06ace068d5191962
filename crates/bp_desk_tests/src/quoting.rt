//! Groups with a quote at position 0.
ghost use Rattle.std.specs.Prelude.{IfOk};
ghost use Rattle.bp_desk_tests.specs.Passing.{IsPassOf, IsOpeningQuote};

use crate::hotel::Hotel;
use bp_core::{Act, is_in_range};
use bp_desk::{Desk, GroupReply, GroupStop, Pass};
use bp_fixtures::{Claimed, displacement};
use bp_types::{Command, Quoted, Span};
use std::alloc::Global;
use std::sync::Wait;
use std::test::Fail;

/// A quote at position 0.
pub(crate) fn quote(
    alloc: Global,
    hotel: &Hotel,
    span: Span,
    rooms: u64,
    before: Claimed<'_>,
    after: Claimed<'_>,
) -> Result<Quoted, Fail>
    ensures { IfOk result (λ q. IsOpeningQuote hotel.now.house.limits.unit hotel.now.start span rooms q) }
{
    let Some(units) = hotel.house.limits().unit.checked_mul(rooms) else {
        return Err(Fail::new("too many units"));
    };
    let displacement = displacement(alloc, &hotel.start, span, units, before, after)?;
    Ok(Quoted {
        position: 0,
        displacement,
    })
}

/// What the desk answers to a group with such a quote; None where its numbers are out of range.
#[tactic(auto, using(crate::proofs::Keeping::by_call))]
pub(crate) fn group<R: Wait>(
    rt: &R,
    desk: &Desk,
    hotel: &Hotel,
    pass: &mut Pass,
    span: Span,
    rooms: u64,
    amount: u64,
    quote: Quoted,
) -> Option<Result<GroupReply, GroupStop>>
    requires pass { IsPassOf desk.now hotel.now.house hotel.now.start pass.old }
    requires quote { IsOpeningQuote hotel.now.house.limits.unit hotel.now.start span rooms quote }
    ensures { IsPassOf desk.now hotel.now.house hotel.now.start pass.new }
{
    let command = Command::Group {
        span,
        rooms,
        amount,
    };
    if !is_in_range(&hotel.house, Act::Do(command)) {
        return None;
    }
    Some(desk.group(rt, pass, span, rooms, amount, Some(quote)))
}
