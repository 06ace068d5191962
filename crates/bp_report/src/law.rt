//! A law over the definitions, as the contract of a function that does nothing.
ghost use Rattle.bp_report.specs.Laws.{ReportsAreUnique};

use bp_hotelfile::law;

/// The report of a history is one text, on the nights of a season and with the codes of its stays.
pub fn reports_are_unique()
    ensures { ReportsAreUnique }
{
    law::days_have_one_text();
}
