//! What each end of a call says.
ghost use Rattle.std.specs.Prelude.{◌≡◌, IfOk, string_bytes};
ghost use Rattle.bp_run.specs.Lines.{said, end_status, usage};

use crate::{End, Status, commands};
use std::alloc::{AllocError, Global};

/// The usage text: a line for each command.
const USAGE: &str = "usage:
bidprice check PROBLEM CERTIFICATE
bidprice solve PROBLEM
bidprice group PROBLEM FROM TO ROOMS
bidprice judge PROBLEM JOURNAL
bidprice desk HOTEL STAYS FORECAST BOOKINGS SCRIPT [--workers W]
bidprice replay HOTEL STAYS FORECAST BOOKINGS JOURNAL
bidprice report HOTEL STAYS FORECAST BOOKINGS JOURNAL
bidprice demo SEED NIGHTS ROOMS STAYS
bidprice scenarios PROBLEM CHANGES
bidprice sheet PROBLEM
bidprice portfolio LIST [--workers W]
";

/// The usage text.
pub fn usage_text(alloc: Global) -> Result<String, AllocError>
    ensures { IfOk result (λ text. string_bytes text ≡ usage) }
{
    String::from_str(alloc, USAGE)
}

/// The line of a file at which the shelf failed.
pub fn fault_line(alloc: Global, file: u64) -> Result<String, AllocError>
    ensures { IfOk result (λ text. string_bytes text ≡ said (End.Fault file)) }
{
    format!(in alloc; "fault {file}\n")
}

/// The status of an end.
pub fn status_of(end: &End) -> Status
    ensures { result ≡ end_status end.now }
{
    match end {
        End::NotPlain => Status::NotPlain,
        End::Fault { .. } => Status::Fault,
        End::Refused { .. } => Status::Refused,
        End::Answered(answer) => commands::status_of(answer),
    }
}
