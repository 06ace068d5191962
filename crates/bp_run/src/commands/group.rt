//! `group PROBLEM FROM TO ROOMS`: what a group displaces.
ghost use Rattle.std.specs.Prelude.{◌≡◌, ◌<◌, IfOk, length, string_bytes};
ghost use Rattle.bp_types.specs.Spans.{IsSpanWithin};
ghost use Rattle.bp_inputs.specs.Fetches.{over};
ghost use Rattle.bp_run.specs.Command.{Brings};
ghost use Rattle.bp_run.specs.Group.{IsGroupAnswer, group_command, group_said, group_status};

use crate::Status;
use bp_cert::text_of_certificate;
use bp_edges::Shelf;
use bp_flow::Solver;
use bp_group::{GroupQuote, QuoteError, quote};
use bp_inputs::{ProblemFile, Stop, load};
use bp_types::{Certificate, Instance, Memory, Span, Steps};
use std::alloc::{AllocError, Global};
use std::marker::Brand;
use std::sync::ledger::{Blank, Ledger};

/// What is answered to a group.
#[derive(Debug, Drop)]
pub enum GroupAnswer {
    /// Its displacement, in minor units of money, and both optima with their least prices.
    Quoted {
        displacement: u128,
        before: Certificate,
        after: Certificate,
    },
    /// Its nights are no span of the problem.
    BadSpan,
    /// This night is the first of its nights that lacks the rooms.
    NoRoom {
        night: u32,
    },
}

/// Reads the problem and quotes the group, of so many units on each night of the span, where its nights are a span of
/// the problem.
pub fn answer<S: Shelf>(
    alloc: Global,
    shelf: &mut S,
    problem: &str,
    span: Span,
    rooms: u64,
) -> Result<GroupAnswer, Stop>
    ensures { Brings (over S.held S.faults S.fetches S.last S.steady shelf.old shelf.new)
        (group_command problem.now span rooms) result }
{
    let instance = load(alloc, shelf, &ProblemFile, 1, problem)?;
    Ok(group_answer(alloc, &instance, span, rooms)?)
}

/// What is answered to a group of so many units on each night of the span.
fn group_answer(
    alloc: Global,
    instance: &Instance,
    span: Span,
    rooms: u64,
) -> Result<GroupAnswer, Memory>
    ensures { IfOk result (IsGroupAnswer instance.now span rooms) }
{
    if span.from >= span.to || span.to > instance.nights() {
        return Ok(GroupAnswer::BadSpan);
    }
    quoted::<Brand>(alloc, instance, span, rooms, Blank::new(1))
}

/// A quote from a cold solve, with the searches counted in a ledger.
fn quoted<L: Ledger>(
    alloc: Global,
    instance: &Instance,
    span: Span,
    rooms: u64,
    blank: Blank,
) -> Result<GroupAnswer, Memory>
    requires name { blank.name ≡ L.name }
    requires parts { blank.parts ≡ L.parts }
    requires some { 0 < blank.parts }
    requires span { IsSpanWithin (length instance.now.rooms) span }
    ensures { IfOk result (IsGroupAnswer instance.now span rooms) }
{
    let mut steps: Steps<L> = Steps::new(blank);
    let solver = Solver::cold(alloc, instance, &mut steps)?;
    match quote(alloc, &solver, 0, span, rooms, &mut steps) {
        Ok(
            GroupQuote {
                displacement,
                before,
                after,
                ..
            },
        ) => Ok(GroupAnswer::Quoted {
            displacement,
            before,
            after,
        }),
        Err(QuoteError::NoRoom { night }) => Ok(GroupAnswer::NoRoom { night }),
        Err(QuoteError::Memory) => Err(Memory),
    }
}

/// The status of what is answered to a group: done where it is quoted, and else refused.
pub fn status_of(answer: &GroupAnswer) -> Status
    ensures { result ≡ group_status answer.now }
{
    match answer {
        GroupAnswer::Quoted { .. } => Status::Done,
        GroupAnswer::BadSpan | GroupAnswer::NoRoom { .. } => Status::Refused,
    }
}

/// The line of a displacement, and behind it the certificates of both optima.
fn quote_text(
    alloc: Global,
    displacement: u128,
    before: &Certificate,
    after: &Certificate,
) -> Result<Vec<u8>, AllocError>
    ensures { IfOk result (λ text. text.items ≡ group_said (GroupAnswer.Quoted displacement before.now after.now)) }
{
    let mut text = format!(in alloc; "displacement {displacement}\n")?.into_bytes();
    text.extend_from_slice(&text_of_certificate(alloc, before)?)?;
    text.extend_from_slice(&text_of_certificate(alloc, after)?)?;
    Ok(text)
}

/// The line of the first night that lacks the rooms.
fn no_room_line(alloc: Global, night: u32) -> Result<String, AllocError>
    ensures { IfOk result (λ text. string_bytes text ≡ group_said (GroupAnswer.NoRoom night)) }
{
    format!(in alloc; "noroom {night}\n")
}

/// The text of what is answered to a group.
pub fn text_of(alloc: Global, answer: &GroupAnswer) -> Result<Vec<u8>, AllocError>
    ensures { IfOk result (λ text. text.items ≡ group_said answer.now) }
{
    match answer {
        GroupAnswer::Quoted {
            displacement,
            before,
            after,
        } => quote_text(alloc, *displacement, before, after),
        GroupAnswer::BadSpan => Ok(String::from_str(alloc, "refused span\n")?.into_bytes()),
        GroupAnswer::NoRoom { night } => Ok(no_room_line(alloc, *night)?.into_bytes()),
    }
}
