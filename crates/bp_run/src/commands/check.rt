//! `check PROBLEM CERTIFICATE`: the verdict on a certificate.
ghost use Rattle.std.specs.Prelude.{◌≡◌, IfOk, string_bytes};
ghost use Rattle.bp_inputs.specs.Fetches.{over};
ghost use Rattle.bp_run.specs.Command.{Brings};
ghost use Rattle.bp_run.specs.Check.{check_command, verdict_line, verdict_status};

use crate::Status;
use bp_cert::Verdict;
use bp_edges::Shelf;
use bp_inputs::{CertificateFile, ProblemFile, Stop, load};
use std::alloc::{AllocError, Global};

/// Reads both files, the problem first, and checks the certificate, in time that grows with nights plus stays.
pub fn answer<S: Shelf>(
    alloc: Global,
    shelf: &mut S,
    problem: &str,
    certificate: &str,
) -> Result<Verdict, Stop>
    ensures { Brings (over S.held S.faults S.fetches S.last S.steady shelf.old shelf.new)
        (check_command problem.now certificate.now) result }
{
    let problem = load(alloc, shelf, &ProblemFile, 1, problem)?;
    let certificate = load(alloc, shelf, &CertificateFile, 2, certificate)?;
    Ok(bp_cert::check(&problem, &certificate))
}

/// The status of a verdict: done where the certificate is optimal, and else wrong.
pub fn status_of(verdict: Verdict) -> Status
    ensures { result ≡ verdict_status verdict }
{
    match verdict {
        Verdict::Optimal { .. } => Status::Done,
        _ => Status::Wrong,
    }
}

/// The line of a verdict, with its end.
fn line_of(alloc: Global, verdict: Verdict) -> Result<String, AllocError>
    ensures { IfOk result (λ text. string_bytes text ≡ verdict_line verdict) }
{
    match verdict {
        Verdict::WrongLength => String::from_str(alloc, "wronglength\n"),
        Verdict::PriceTooGreat { night } => format!(in alloc; "pricetoogreat {night}\n"),
        Verdict::AboveForecast { stay } => format!(in alloc; "aboveforecast {stay}\n"),
        Verdict::Overfull { night, load } => format!(in alloc; "overfull {night} {load}\n"),
        Verdict::Gap { worth, bound } => format!(in alloc; "gap {worth} {bound}\n"),
        Verdict::Misvalued { worth } => format!(in alloc; "misvalued {worth}\n"),
        Verdict::Optimal { value } => format!(in alloc; "optimal {value}\n"),
    }
}

/// The text of a verdict: one line.
pub fn text_of(alloc: Global, verdict: Verdict) -> Result<Vec<u8>, AllocError>
    ensures { IfOk result (λ text. text.items ≡ verdict_line verdict) }
{
    Ok(line_of(alloc, verdict)?.into_bytes())
}
