//! `sheet PROBLEM`: the bands of a problem's nights, and what a stay of each length has to pay.
ghost use Rattle.bp_inputs.specs.Fetches.{over};
ghost use Rattle.bp_run.specs.Command.{Brings};
ghost use Rattle.bp_run.specs.Sheet.{sheet_command};

use bp_edges::Shelf;
use bp_inputs::{ProblemFile, Stop, load};
use bp_sheets::{SheetText, sheet_of};
use std::alloc::Global;

/// Reads the problem and makes its sheet.
pub fn answer<S: Shelf>(alloc: Global, shelf: &mut S, problem: &str) -> Result<SheetText, Stop>
    ensures { Brings (over S.held S.faults S.fetches S.last S.steady shelf.old shelf.new) (sheet_command problem.now)
        result }
{
    let instance = load(alloc, shelf, &ProblemFile, 1, problem)?;
    Ok(sheet_of(alloc, &instance)?)
}
