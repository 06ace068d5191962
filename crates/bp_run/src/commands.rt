//! The commands, one file each: its answer, and the status and the text of the answer. A command stops at the first file
//! that gives no value; its text fails for want of memory alone, or where the sink does.
ghost use Rattle.std.specs.Prelude.{◌≡◌, IfOk};
ghost use Rattle.bp_cli.specs.Asked.{asked};
ghost use Rattle.bp_run.specs.Served.{IsPlainTask};
ghost use Rattle.bp_run.specs.Demo.{HasDemoNumbers};
ghost use Rattle.bp_run.specs.Puts.{onto, PutsText};
ghost use Rattle.bp_inputs.specs.Fetches.{over};
ghost use Rattle.bp_run.specs.Commands.{command_of, answer_status, answer_said, IsPlainAnswer};
ghost use Rattle.bp_run.specs.Command.{Brings, Concludes};
ghost use Rattle.bp_inputs.specs.HotelPlan.{named};
ghost use Rattle.bp_run.specs.Judge.{ruling_command, replay_plan};
ghost use Rattle.bp_run.specs.Report.{report_command};

use crate::{Answer, ReportAnswer, Ruling, Status};
use bp_cert::text_of_certificate;
use bp_cli::{Name, Task};
use bp_edges::{Shelf, Sink, WriteError};
use bp_inputs::{HotelFiles, Stop};
use bp_text::write_text;
use bp_types::Span;
use std::alloc::Global;

pub mod check;
pub mod demo;
pub mod desk;
pub mod group;
pub mod judge;
pub mod portfolio;
pub mod report;
pub mod scenarios;
pub mod sheet;
pub mod solve;

/// The names of a hotel's four files.
pub fn hotel_files<'a>(
    hotel: &Name<'a>,
    stays: &Name<'a>,
    forecast: &Name<'a>,
    bookings: &Name<'a>,
) -> HotelFiles<'a>
    ensures { named result ≡
        record { hotel = hotel.now; stays = stays.now; forecast = forecast.now; bookings = bookings.now } }
{
    HotelFiles {
        hotel: hotel.text(),
        stays: stays.text(),
        forecast: forecast.text(),
        bookings: bookings.text(),
    }
}

/// What `replay` answers to its five names.
fn replayed<S: Shelf>(
    alloc: Global,
    shelf: &mut S,
    hotel: &Name<'_>,
    stays: &Name<'_>,
    forecast: &Name<'_>,
    bookings: &Name<'_>,
    journal: &Name<'_>,
) -> Result<Ruling, Stop>
    ensures { Brings (over S.held S.faults S.fetches S.last S.steady shelf.old shelf.new)
        (ruling_command (replay_plan (record { hotel = hotel.now; stays = stays.now; forecast = forecast.now; bookings = bookings.now }) journal.now)) result }
{
    let hotel = hotel_files(hotel, stays, forecast, bookings);
    judge::replay(alloc, shelf, &hotel, journal.text())
}

/// What `report` answers to its five names.
fn reported<S: Shelf>(
    alloc: Global,
    shelf: &mut S,
    hotel: &Name<'_>,
    stays: &Name<'_>,
    forecast: &Name<'_>,
    bookings: &Name<'_>,
    journal: &Name<'_>,
) -> Result<ReportAnswer, Stop>
    ensures { Brings (over S.held S.faults S.fetches S.last S.steady shelf.old shelf.new)
        (report_command (record { hotel = hotel.now; stays = stays.now; forecast = forecast.now; bookings = bookings.now }) journal.now) result }
{
    let hotel = hotel_files(hotel, stays, forecast, bookings);
    report::answer(alloc, shelf, &hotel, journal.text())
}

/// The answer to a task. Its files are read in their order, up to the first that gives no value.
pub fn answer<S: Shelf>(alloc: Global, shelf: &mut S, task: &Task<'_>) -> Result<Answer, Stop>
    requires plain { IsPlainTask (asked task.now) }
    requires numbers { HasDemoNumbers (asked task.now) }
    ensures plain { IfOk result IsPlainAnswer }
    ensures concludes { Concludes (over S.held S.faults S.fetches S.last S.steady shelf.old shelf.new)
        (command_of (asked task.now)) result }
{
    match task {
        Task::Check {
            problem,
            certificate,
        } => Ok(Answer::Checked(check::answer(alloc, shelf, problem.text(), certificate.text())?)),
        Task::Solve { problem } => {
            Ok(Answer::Solved(solve::answer(alloc, shelf, problem.text())?))
        }
        Task::Group {
            problem,
            from,
            to,
            rooms,
        } => {
            let span = Span {
                from: *from,
                to: *to,
            };
            Ok(Answer::Grouped(group::answer(alloc, shelf, problem.text(), span, *rooms)?))
        }
        Task::Judge { problem, journal } => {
            Ok(Answer::Judged(judge::answer(alloc, shelf, problem.text(), journal.text())?))
        }
        Task::Replay {
            hotel,
            stays,
            forecast,
            bookings,
            journal,
        } => {
            Ok(Answer::Judged(replayed(alloc, shelf, hotel, stays, forecast, bookings, journal)?))
        }
        Task::Report {
            hotel,
            stays,
            forecast,
            bookings,
            journal,
        } => {
            Ok(Answer::Reported(reported(alloc, shelf, hotel, stays, forecast, bookings, journal)?))
        }
        Task::Sheet { problem } => Ok(Answer::Sheeted(sheet::answer(
            alloc,
            shelf,
            problem.text(),
        )?)),
        Task::Demo {
            seed,
            nights,
            rooms,
            stays,
        } => {
            Ok(Answer::Demonstrated(demo::answer(alloc, shelf, *seed, *nights, *rooms, *stays)?))
        }
        Task::Scenarios { problem, changes } => Ok(Answer::Foreseen(scenarios::answer_alone(
            alloc,
            shelf,
            problem.text(),
            changes.text(),
        )?)),
        Task::Desk { .. } | Task::Portfolio { .. } => unreachable!(),
    }
}

/// The status of an answer.
pub fn status_of(answer: &Answer) -> Status
    ensures { result ≡ answer_status answer.now }
{
    match answer {
        Answer::Checked(verdict) => check::status_of(*verdict),
        Answer::Solved(_) => Status::Done,
        Answer::Grouped(group) => group::status_of(group),
        Answer::Judged(ruling) => judge::status_of(*ruling),
        Answer::Ran(ran) => desk::status_of(ran),
        Answer::Sheeted(_) => Status::Done,
        Answer::Reported(answer) => report::status_of(answer),
        Answer::Demonstrated(_) => Status::Done,
        Answer::Foreseen(_) => Status::Done,
        Answer::RanAll(runs) => portfolio::status_of(runs),
    }
}

/// Writes the text of an answer. Those of a run and of a report are never built whole.
pub fn write<K: Sink>(alloc: Global, answer: &Answer, out: &mut K) -> Result<(), WriteError>
    ensures { PutsText (onto K.written K.faults K.steady out.old out.new) (answer_said answer.now) result }
{
    match answer {
        Answer::Checked(verdict) => write_text(alloc, &check::text_of(alloc, *verdict)?, out),
        Answer::Solved(certificate) => {
            write_text(alloc, &text_of_certificate(alloc, certificate)?, out)
        }
        Answer::Grouped(group) => write_text(alloc, &group::text_of(alloc, group)?, out),
        Answer::Judged(ruling) => write_text(alloc, &judge::text_of(alloc, *ruling)?, out),
        Answer::Ran(ran) => bp_journal::write(alloc, &ran.book, out),
        Answer::Sheeted(sheet) => write_text(alloc, sheet.text(), out),
        Answer::Reported(answer) => report::write(alloc, answer, out),
        Answer::Demonstrated(demo) => write_text(alloc, demo.text(), out),
        Answer::Foreseen(outcomes) => bp_scenarios::write_outcomes(alloc, outcomes.list(), out),
        Answer::RanAll(runs) => portfolio::write(alloc, runs, out),
    }
}
