//! The forecast file: how many are expected to ask for each stay.
ghost use Rattle.std.specs.Prelude.{◌≡◌, MatchOption, OnOk, IfOk, IfErr, Ok, Err};
ghost use Rattle.bp_stayfile.specs.Forecasts.{forecast_file, SetsBefore};
ghost use Rattle.bp_stayfile.specs.Refusals.{IfRefused};

use crate::counts::{count_header, no_counts, put_counts};
use crate::{Stays, TableError, TableRefusal};
use bp_types::Memory;
use std::alloc::Global;

/// The refusal that a reading ended with, if it did not end for want of memory.
fn refusal_of(outcome: Result<(), TableError>) -> Result<Option<TableRefusal>, Memory>
    ensures { IfOk result (λ refusal. MatchOption refusal (outcome ≡ Ok tt) (λ r. outcome ≡
        Err (TableError.Refused r))) }
{
    match outcome {
        Ok(()) => Ok(None),
        Err(TableError::Refused(refusal)) => Ok(Some(refusal)),
        Err(TableError::Memory) => Err(Memory),
    }
}

/// Sets the forecasts that a forecast file names, in units, or says the first thing that is wrong with the file.
///
/// Where a record is refused, those before it have set theirs; where the header is refused or there is no memory, none
/// is set.
pub fn read_forecast(alloc: Global, stays: &mut Stays, bytes: &[u8]) -> Result<(), TableError>
    ensures read { OnOk result (forecast_file stays.old bytes.now ≡ Ok stays.new) }
    ensures refused { IfErr result (λ e. IfRefused e (λ r. forecast_file stays.old bytes.now ≡ Err r)) }
    ensures set_before { IfErr result (λ e. IfRefused e (λ r. SetsBefore bytes.now r stays.old stays.new)) }
    ensures no_memory { IfErr result (λ e. e ≡ TableError.Memory → stays.new ≡ stays.old) }
{
    let header = count_header(alloc, bytes)?;
    let mut counts = no_counts(alloc, stays.codes().count() as usize)?;
    let outcome = put_counts(stays.codes(), header, &mut counts);
    let refusal = refusal_of(outcome)?;
    stays.set_forecasts(&counts);
    match refusal {
        Some(refusal) => Err(TableError::Refused(refusal)),
        None => Ok(()),
    }
}
