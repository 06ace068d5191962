//! A day at a hotel's desk, as a user of the library would write it.
ghost use Rattle.std.specs.Prelude.{◌≡◌, ◌≢◌, IfOk};
ghost use Rattle.std.specs.Arc.{arc_value};
ghost use Rattle.bp_types.specs.Claim.{IsCertificateOf};
ghost use Rattle.bp_desk_tests.specs.Passing.{IsPassOf};

use bp_board::Board;
use bp_cert::{Verdict, check};
use bp_core::Book;
use bp_desk::{Desk, Pass};
use bp_types::{Certificate, House, Instance};
use std::alloc::Global;
use std::sync::{Arc, Wait};
use std::test::Fail;

/// The five nights of the trade fair.
const TRADE_FAIR: u32 = 3;

/// The night of the wedding.
const WEDDING: u32 = 5;

/// Two callers at one desk, from its opening to its closed book.
#[tactic(auto, using(crate::proofs::Keeping::by_enrolment))]
pub(crate) fn a_day<R: Wait>(
    rt: &R,
    alloc: Global,
    house: House,
    morning: Certificate,
    evening: Certificate,
) -> Result<Book, Fail> {
    let start = house.instance(alloc)?;
    let board = opening_board(alloc, &start, morning)?;
    let (desk, mut opener) = Desk::new(alloc, house, board)?;

    // Each pass may go to a thread of its own.
    let mut one = desk.enrol(rt, alloc, &mut opener)?;
    let mut other = desk.enrol(rt, alloc, &mut opener)?;
    sell(rt, &desk, &start, &mut one, &mut other)?;
    offer(rt, alloc, &desk, &start, &mut other, evening)?;

    end(rt, &desk, &mut opener, one);
    end(rt, &desk, &mut opener, other);
    Ok(desk.close(rt, opener))
}

/// The prices that a desk opens with. They have to be right for the house as it is then.
pub(crate) fn opening_board(
    alloc: Global,
    start: &Instance,
    certificate: Certificate,
) -> Result<Arc<Board>, Fail>
    ensures { IfOk result (λ b. ((arc_value b).position ≡ 0) × IsCertificateOf start.now (arc_value b).certificate) }
{
    let _nights = start.nights();
    match check(start, &certificate) {
        Verdict::Optimal { .. } => Ok(Arc::new(alloc, Board::new(alloc, 0, certificate)?)?),
        verdict => Err(Fail::new(format_args!("{verdict:?}"))),
    }
}

/// Two bookings, of which one is given up. A refusal ends the day, and each reply is an entry of the book.
#[tactic(auto, using(crate::proofs::Keeping::by_call, crate::proofs::Keeping::caller_by_call))]
fn sell<R: Wait>(
    rt: &R,
    desk: &Desk,
    start: &Instance,
    one: &mut Pass,
    other: &mut Pass,
) -> Result<(), Fail>
    requires one { IsPassOf desk.now one.old.house start.now one.old }
    requires other { IsPassOf desk.now other.old.house start.now other.old }
    ensures one { IsPassOf desk.now one.old.house start.now one.new × (one.new.caller ≡ one.old.caller) }
    ensures other { IsPassOf desk.now other.old.house start.now other.new × (other.new.caller ≡ other.old.caller) }
{
    if start.stays() <= WEDDING {
        return Err("the house has fewer stays".into());
    }
    desk.book(rt, one, TRADE_FAIR)?;
    desk.book(rt, other, WEDDING)?;
    desk.cancel(rt, one, 1)?;
    Ok(())
}

/// Prices from elsewhere, for the history as it is now. The desk has them checked, and answers their number.
#[tactic(auto, using(crate::proofs::Keeping::by_read, crate::proofs::Keeping::by_submission, crate::proofs::Keeping::caller_by_submission))]
fn offer<R: Wait>(
    rt: &R,
    alloc: Global,
    desk: &Desk,
    start: &Instance,
    pass: &mut Pass,
    certificate: Certificate,
) -> Result<u64, Fail>
    requires { IsPassOf desk.now pass.old.house start.now pass.old }
    ensures { IsPassOf desk.now pass.old.house start.now pass.new × (pass.new.caller ≡ pass.old.caller) }
{
    let position = desk.lag(rt, pass).length;
    Ok(desk.submit(rt, alloc, pass, start, position, certificate)?)
}

/// Ends a caller in the opener's pass.
pub(crate) fn end<R: Wait>(rt: &R, desk: &Desk, opener: &mut Pass, pass: Pass)
    requires desk { (opener.old.desk ≡ desk.now) × (pass.desk ≡ desk.now) }
    requires caller { pass.caller ≢ 0 }
    ensures desk { opener.new.desk ≡ opener.old.desk }
    ensures house { opener.new.house ≡ opener.old.house }
    ensures caller { opener.new.caller ≡ opener.old.caller }
{
    let left = desk.leave(rt, pass);
    desk.join(opener, left);
}
