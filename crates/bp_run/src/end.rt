//! How a call of the program ends.
use crate::{GroupAnswer, Outcomes, ReportAnswer, Ruling, Runs};
use bp_cert::Verdict;
use bp_demo::DemoText;
use bp_desk_run::Ran;
use bp_inputs::Cause;
use bp_sheets::SheetText;
use bp_types::Certificate;

/// What a command answers, where its files are good.
#[derive(Drop)]
pub enum Answer {
    /// The certificate was checked.
    Checked(Verdict),
    /// The problem was solved: its certificate with the least prices.
    Solved(Certificate),
    /// A group was quoted, or refused.
    Grouped(GroupAnswer),
    /// A journal was judged.
    Judged(Ruling),
    /// A desk ran, and was closed.
    Ran(Ran),
    /// The sheet of a problem was made.
    Sheeted(SheetText),
    /// A journal was judged, and its report made where it is legal.
    Reported(ReportAnswer),
    /// A demo was made.
    Demonstrated(DemoText),
    /// Scenarios were answered, each by its outcome.
    Foreseen(Outcomes),
    /// The desks of several hotels ran, and were closed.
    RanAll(Runs),
}

/// How a call ends where there is memory and the sink takes the text. Files count from 1, in the order of the words.
#[derive(Drop)]
pub enum End {
    /// The words are no plain line.
    NotPlain,
    /// The shelf failed at this file.
    Fault { file: u64 },
    /// This file is the first one that is refused.
    Refused { file: u64, cause: Cause },
    /// The files are good, and this is the command's answer.
    Answered(Answer),
}
