//! `report HOTEL STAYS FORECAST BOOKINGS JOURNAL`: the tables of a journal, where it is legal.
ghost use Rattle.std.specs.Prelude.{◌≡◌, ◌<◌, IfOk};
ghost use Rattle.bp_inputs.specs.Fetches.{over};
ghost use Rattle.bp_run.specs.Command.{Brings};
ghost use Rattle.bp_inputs.specs.HotelPlan.{named};
ghost use Rattle.bp_run.specs.Puts.{onto, PutsText};
ghost use Rattle.bp_run.specs.Report.{IsReportAnswer, report_command, report_said, report_status};

use crate::commands::judge;
use crate::{Ruling, Status};
use bp_edges::{Shelf, Sink, WriteError};
use bp_inputs::{HotelFiles, JournalFile, OpenHotel, Stop, load, load_house};
use bp_journal::Journal;
use bp_judge::{Cause, Judgement};
use bp_report::Report;
use bp_text::write_text;
use bp_types::{Memory, Steps};
use std::alloc::Global;
use std::marker::Brand;
use std::sync::ledger::{Blank, Ledger};

/// What is answered where the report of a journal is asked for. Places count from 0.
#[derive(Drop)]
pub enum ReportAnswer {
    /// It is legal, and this is its report.
    Tables(Report),
    /// This place is the first that breaks a rule, and this is the first rule that it breaks.
    Illegal { place: u64, rule: Cause },
}

/// Reads a hotel's four files and a journal, and makes the report of the journal, where it is legal.
pub fn answer<S: Shelf>(
    alloc: Global,
    shelf: &mut S,
    hotel: &HotelFiles<'_>,
    journal: &str,
) -> Result<ReportAnswer, Stop>
    ensures { Brings (over S.held S.faults S.fetches S.last S.steady shelf.old shelf.new)
        (report_command (named hotel.now) journal.now) result }
{
    let open = load_house(alloc, shelf, 1, hotel)?;
    let journal = load(alloc, shelf, &JournalFile, 5, journal)?;
    Ok(told(alloc, open, journal)?)
}

/// What is answered to the journal of a hotel.
fn told(alloc: Global, inn: OpenHotel, journal: Journal) -> Result<ReportAnswer, Memory>
    requires rooms { inn.house.rooms ≡ inn.hotel.rooms }
    requires stays { inn.house.stays ≡ inn.stays.stays }
    ensures { IfOk result (IsReportAnswer (record { inn = inn; lines = journal })) }
{
    counted::<Brand>(alloc, inn, journal, Blank::new(1))
}

/// The same, with the searches counted in a ledger.
fn counted<L: Ledger>(
    alloc: Global,
    inn: OpenHotel,
    journal: Journal,
    blank: Blank,
) -> Result<ReportAnswer, Memory>
    requires name { blank.name ≡ L.name }
    requires parts { blank.parts ≡ L.parts }
    requires some { 0 < blank.parts }
    requires rooms { inn.house.rooms ≡ inn.hotel.rooms }
    requires stays { inn.house.stays ≡ inn.stays.stays }
    ensures { IfOk result (IsReportAnswer (record { inn = inn; lines = journal })) }
{
    let OpenHotel {
        hotel,
        stays,
        house,
    } = inn;
    let _one_each = stays.codes();
    let mut steps: Steps<L> = Steps::new(blank);
    match bp_judge::judge(alloc, house, journal, &mut steps)? {
        Judgement::Legal(book) => {
            Ok(ReportAnswer::Tables(Report::new(alloc, &hotel, stays, book)?))
        }
        Judgement::NotLegal { place, cause } => Ok(ReportAnswer::Illegal { place, rule: cause }),
    }
}

/// The status of what is answered: done where the journal is legal, and else wrong.
pub fn status_of(answer: &ReportAnswer) -> Status
    ensures { result ≡ report_status answer.now }
{
    match answer {
        ReportAnswer::Tables(_) => Status::Done,
        ReportAnswer::Illegal { .. } => Status::Wrong,
    }
}

/// Writes what is answered. Tables are never built whole.
pub fn write<K: Sink>(alloc: Global, answer: &ReportAnswer, out: &mut K) -> Result<(), WriteError>
    ensures { PutsText (onto K.written K.faults K.steady out.old out.new) (report_said answer.now) result }
{
    match answer {
        ReportAnswer::Tables(report) => report.write(alloc, out),
        ReportAnswer::Illegal { place, rule } => {
            let ruling = Ruling::Illegal {
                place: *place,
                rule: *rule,
            };
            write_text(alloc, &judge::text_of(alloc, ruling)?, out)
        }
    }
}
