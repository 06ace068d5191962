//! How a run begins: the desk with its first vector, and an optimiser for each caller.
ghost use Rattle.std.specs.Prelude.{◌≡◌, IfOk};
ghost use Rattle.bp_types.specs.House.{opening};
ghost use Rattle.bp_flow.specs.Settled.{IsSettled};
ghost use Rattle.bp_core.specs.declared.line.Line.{Line};
ghost use Rattle.bp_desk.specs.Passes.{opener};
ghost use Rattle.bp_desk_run.specs.Beginnings.{OpensWith, StartsFrom};

use bp_board::Board;
use bp_desk::{Desk, Pass};
use bp_flow::Solver;
use bp_optimise::Optimiser;
use bp_types::{House, Memory};
use std::alloc::Global;
use std::sync::Arc;

/// Opens a desk with the least prices of its house as the first vector. The one error is `Memory`.
pub fn open_desk(alloc: Global, house: House, solver: &Solver) -> Result<(Desk, Pass), Memory>
    requires solver { (solver.now.flow.program ≡ opening house) × IsSettled solver.now }
    ensures { IfOk result (λ r. (o : Line) × OpensWith house o × (r.1 ≡ opener r.0 house o)) }
{
    let _nights = solver.nights();
    let certificate = solver.certificate(alloc)?;
    let board = Board::new(alloc, 0, certificate)?;
    let Ok(board) = Arc::new(alloc, board) else {
        return Err(Memory);
    };
    Desk::new(alloc, house, board)
}

/// An optimiser at the opening, with a copy of the solver. The one error is `Memory`.
pub fn new_optimiser(alloc: Global, solver: &Solver) -> Result<Optimiser, Memory>
    requires settled { IsSettled solver.now }
    ensures { IfOk result (StartsFrom solver.now.flow.program) }
{
    let solver = solver.copy(alloc)?;
    Optimiser::new(alloc, solver)
}
