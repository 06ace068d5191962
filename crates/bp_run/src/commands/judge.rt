//! `judge PROBLEM JOURNAL` and `replay HOTEL STAYS FORECAST BOOKINGS JOURNAL`: whether a journal is legal.
ghost use Rattle.std.specs.Prelude.{◌≡◌, ◌<◌, IfOk, string_bytes};
ghost use Rattle.bp_inputs.specs.Fetches.{over};
ghost use Rattle.bp_run.specs.Command.{Brings};
ghost use Rattle.bp_inputs.specs.HotelPlan.{named};
ghost use Rattle.bp_run.specs.Judge.{IsRuling, ruling_command, judge_plan, replay_plan, ruling_line, ruling_status};

use crate::Status;
use bp_edges::Shelf;
use bp_inputs::{HotelFiles, JournalFile, ProblemFile, Stop, load, load_house};
use bp_journal::Journal;
use bp_judge::{Cause, Judgement};
use bp_problem_house::house_of_problem;
use bp_types::{House, Memory, Steps};
use std::alloc::{AllocError, Global};
use std::marker::Brand;
use std::sync::ledger::{Blank, Ledger};

/// What is answered to a journal of a house. Places count from 0.
#[derive(Clone, Copy, Debug, PartialEq, Eq)]
pub enum Ruling {
    /// It is legal, and has so many entries.
    Legal { entries: u64 },
    /// This place is the first that breaks a rule, and this is the first rule that it breaks.
    Illegal { place: u64, rule: Cause },
}

/// Reads a problem and a journal, and judges the journal by the problem's house.
pub fn answer<S: Shelf>(
    alloc: Global,
    shelf: &mut S,
    problem: &str,
    journal: &str,
) -> Result<Ruling, Stop>
    ensures { Brings (over S.held S.faults S.fetches S.last S.steady shelf.old shelf.new)
        (ruling_command (judge_plan problem.now journal.now)) result }
{
    let problem = load(alloc, shelf, &ProblemFile, 1, problem)?;
    let journal = load(alloc, shelf, &JournalFile, 2, journal)?;
    let house = house_of_problem(alloc, &problem)?;
    Ok(ruled(alloc, house, journal)?)
}

/// Reads a hotel's four files and a journal, and judges the journal by the hotel's house.
pub fn replay<S: Shelf>(
    alloc: Global,
    shelf: &mut S,
    hotel: &HotelFiles<'_>,
    journal: &str,
) -> Result<Ruling, Stop>
    ensures { Brings (over S.held S.faults S.fetches S.last S.steady shelf.old shelf.new)
        (ruling_command (replay_plan (named hotel.now) journal.now)) result }
{
    let open = load_house(alloc, shelf, 1, hotel)?;
    let journal = load(alloc, shelf, &JournalFile, 5, journal)?;
    Ok(ruled(alloc, open.house, journal)?)
}

/// Whether the journal is a legal history of the house.
fn ruled(alloc: Global, house: House, journal: Journal) -> Result<Ruling, Memory>
    ensures { IfOk result (IsRuling (record { house = house; lines = journal })) }
{
    counted::<Brand>(alloc, house, journal, Blank::new(1))
}

/// The same, with the searches counted in a ledger.
fn counted<L: Ledger>(
    alloc: Global,
    house: House,
    journal: Journal,
    blank: Blank,
) -> Result<Ruling, Memory>
    requires name { blank.name ≡ L.name }
    requires parts { blank.parts ≡ L.parts }
    requires some { 0 < blank.parts }
    ensures { IfOk result (IsRuling (record { house = house; lines = journal })) }
{
    let mut steps: Steps<L> = Steps::new(blank);
    match bp_judge::judge(alloc, house, journal, &mut steps)? {
        Judgement::Legal(book) => Ok(Ruling::Legal {
            entries: book.length(),
        }),
        Judgement::NotLegal { place, cause } => Ok(Ruling::Illegal { place, rule: cause }),
    }
}

/// The status of a ruling: done where the journal is legal, and else wrong.
pub fn status_of(ruling: Ruling) -> Status
    ensures { result ≡ ruling_status ruling }
{
    match ruling {
        Ruling::Legal { .. } => Status::Done,
        Ruling::Illegal { .. } => Status::Wrong,
    }
}

/// The line of a journal that is not legal: the place, and the name of the rule.
fn illegal_line(alloc: Global, place: u64, rule: Cause) -> Result<String, AllocError>
    ensures { IfOk result (λ text. string_bytes text ≡ ruling_line (Ruling.Illegal place rule)) }
{
    match rule {
        Cause::Opening => format!(in alloc; "illegal {place} opening\n"),
        Cause::Caller => format!(in alloc; "illegal {place} caller\n"),
        Cause::Range => format!(in alloc; "illegal {place} range\n"),
        Cause::Limit => format!(in alloc; "illegal {place} limit\n"),
        Cause::Behind => format!(in alloc; "illegal {place} behind\n"),
        Cause::Position => format!(in alloc; "illegal {place} position\n"),
        Cause::Certificate => format!(in alloc; "illegal {place} certificate\n"),
        Cause::Reply => format!(in alloc; "illegal {place} reply\n"),
    }
}

/// The line of a ruling, with its end.
fn line_of(alloc: Global, ruling: Ruling) -> Result<String, AllocError>
    ensures { IfOk result (λ text. string_bytes text ≡ ruling_line ruling) }
{
    match ruling {
        Ruling::Legal { entries } => format!(in alloc; "legal {entries}\n"),
        Ruling::Illegal { place, rule } => illegal_line(alloc, place, rule),
    }
}

/// The text of a ruling: one line.
pub fn text_of(alloc: Global, ruling: Ruling) -> Result<Vec<u8>, AllocError>
    ensures { IfOk result (λ text. text.items ≡ ruling_line ruling) }
{
    Ok(line_of(alloc, ruling)?.into_bytes())
}
