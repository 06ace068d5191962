//! What the tests ask of a desk: each call keeps what they know of its pass.
ghost use Rattle.std.specs.Prelude.{◌≡◌, IfOk};
ghost use Rattle.bp_desk_tests.specs.Passing.{IsPassOf};

use crate::day;
use crate::hotel::Hotel;
use bp_core::{Act, Answer, is_in_range};
use bp_desk::{Desk, Pass, Quote, SubmitError};
use bp_fixtures::{Claimed, certificate};
use bp_types::{Command, Span};
use std::alloc::Global;
use std::process::Abort;
use std::sync::Wait;
use std::test::Fail;

/// A command, and what is answered.
pub(crate) type Row = (Command, Answer);

/// What the desk answers to a command without a quote; None where its numbers are out of range.
#[tactic(auto, using(crate::proofs::Keeping::by_call, crate::proofs::Keeping::caller_by_call))]
pub(crate) fn ask<R: Wait>(
    rt: &R,
    desk: &Desk,
    hotel: &Hotel,
    pass: &mut Pass,
    command: Command,
) -> Option<Answer>
    requires { IsPassOf desk.now hotel.now.house hotel.now.start pass.old }
    ensures pass { IsPassOf desk.now hotel.now.house hotel.now.start pass.new }
    ensures caller { pass.new.caller ≡ pass.old.caller }
{
    if !is_in_range(&hotel.house, Act::Do(command)) {
        return None;
    }
    Some(desk.command(rt, pass, command, None))
}

/// Makes the commands of a table, and wants its answers.
pub(crate) fn run<R: Wait + Abort>(
    rt: &R,
    desk: &Desk,
    hotel: &Hotel,
    pass: &mut Pass,
    rows: &[Row],
)
    requires { IsPassOf desk.now hotel.now.house hotel.now.start pass.old }
    ensures pass { IsPassOf desk.now hotel.now.house hotel.now.start pass.new }
    ensures caller { pass.new.caller ≡ pass.old.caller }
{
    for row in rows {
        let got = ask(rt, desk, hotel, pass, row.0);
        assert_eq!(rt; got, Some(row.1), "{:?}", row.0);
    }
}

/// The pass of the next caller.
#[tactic(auto, using(crate::proofs::Keeping::by_enrolment, crate::proofs::Keeping::by_handing))]
pub(crate) fn next<R: Wait>(
    rt: &R,
    alloc: Global,
    desk: &Desk,
    hotel: &Hotel,
    opener: &mut Pass,
) -> Result<Pass, Fail>
    requires { IsPassOf desk.now hotel.now.house hotel.now.start opener.old × (opener.old.caller ≡ 0) }
    ensures opener { IsPassOf desk.now hotel.now.house hotel.now.start opener.new × (opener.new.caller ≡ 0) }
    ensures pass { IfOk result (λ p. IsPassOf desk.now hotel.now.house hotel.now.start p) }
{
    match desk.enrol(rt, alloc, opener) {
        Ok(pass) => Ok(pass),
        Err(error) => Err(Fail::new(format_args!("{error:?}"))),
    }
}

/// What the desk answers to these numbers as a certificate.
#[tactic(auto, using(crate::proofs::Keeping::by_submission, crate::proofs::Keeping::caller_by_submission))]
pub(crate) fn submit<R: Wait>(
    rt: &R,
    alloc: Global,
    desk: &Desk,
    hotel: &Hotel,
    pass: &mut Pass,
    position: u64,
    claimed: Claimed<'_>,
) -> Result<Result<u64, SubmitError>, Fail>
    requires { IsPassOf desk.now hotel.now.house hotel.now.start pass.old }
    ensures pass { IsPassOf desk.now hotel.now.house hotel.now.start pass.new }
    ensures caller { pass.new.caller ≡ pass.old.caller }
{
    let certificate = certificate(alloc, claimed)?;
    Ok(desk.submit(rt, alloc, pass, &hotel.start, position, certificate))
}

/// A position, a certificate for it, and what is answered.
pub(crate) type Offer<'a> = (u64, Claimed<'a>, Result<u64, SubmitError>);

/// Submits the certificates of a table, and wants its answers.
pub(crate) fn offer_all<R: Wait + Abort>(
    rt: &R,
    alloc: Global,
    desk: &Desk,
    hotel: &Hotel,
    pass: &mut Pass,
    offers: &[Offer<'_>],
) -> Result<(), Fail>
    requires { IsPassOf desk.now hotel.now.house hotel.now.start pass.old }
    ensures pass { IsPassOf desk.now hotel.now.house hotel.now.start pass.new }
    ensures caller { pass.new.caller ≡ pass.old.caller }
{
    for offer in offers {
        let got = submit(rt, alloc, desk, hotel, pass, offer.0, offer.1)?;
        assert_eq!(rt; got, offer.2, "position {}", offer.0);
    }
    Ok(())
}

/// Ends a caller in the opener's pass, where it is not the opener itself.
#[tactic(auto, using(crate::proofs::Keeping::keeps))]
pub(crate) fn end<R: Wait>(
    rt: &R,
    desk: &Desk,
    hotel: &Hotel,
    opener: &mut Pass,
    pass: Pass,
) -> Result<(), Fail>
    requires opener { IsPassOf desk.now hotel.now.house hotel.now.start opener.old × (opener.old.caller ≡ 0) }
    requires pass { IsPassOf desk.now hotel.now.house hotel.now.start pass }
    ensures { IsPassOf desk.now hotel.now.house hotel.now.start opener.new × (opener.new.caller ≡ 0) }
{
    if pass.caller() == 0 {
        return Err(Fail::new("the opener never leaves"));
    }
    day::end(rt, desk, opener, pass);
    Ok(())
}

/// Has a pass see the history so far.
#[tactic(auto, using(crate::proofs::Keeping::by_read))]
pub(crate) fn refresh<R: Wait>(rt: &R, desk: &Desk, hotel: &Hotel, pass: &mut Pass)
    requires { IsPassOf desk.now hotel.now.house hotel.now.start pass.old }
    ensures { IsPassOf desk.now hotel.now.house hotel.now.start pass.new }
{
    desk.refresh(rt, pass);
}

/// The price of a span by the newest vector that a pass has seen; None where it is no span of the hotel.
pub(crate) fn price(hotel: &Hotel, pass: &Pass, span: Span) -> Option<Quote>
    requires { pass.now.house ≡ hotel.now.house }
{
    if span.from >= span.to || span.to > hotel.house.nights() {
        return None;
    }
    Some(pass.quote(span))
}
