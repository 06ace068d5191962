//! The band of each night.
ghost use Rattle.std.specs.Prelude.{◌≡◌, ◌≤◌, ◌<◌, ◌+◌, [], length, slice_index, All, IfOk};
ghost use Rattle.bp_types.specs.declared.limits.TheConstants.{MOST_ROOMS};
ghost use Rattle.bp_types.specs.Optimum.{IsOptimum};
ghost use Rattle.bp_sheets.specs.Bands.{IsBand, AreBandsBeside, IsPriced, AreBands};

use crate::margins::{gain_of, loss_of};
use bp_board::Board;
use bp_flow::Solver;
use bp_types::{Instance, Memory, Steps};
use std::alloc::Global;
use std::marker::Brand;
use std::sync::ledger::{Blank, Ledger};

/// The bid price of a night, and between what its worth lies.
#[derive(Clone, Copy, Debug, PartialEq, Eq)]
pub struct Band {
    /// The night's least optimal bid price, in minor units of money.
    pub price: u64,
    /// What one unit more brings, in minor units of money; None where the night has as many as a problem may have.
    pub gain: Option<u128>,
    /// What one unit fewer costs, in minor units of money; None where the night has none.
    pub loss: Option<u128>,
}

/// The band of each night of an instance, whose nights have 10,000 rooms at most; one band per night. The one error is
/// `Memory`.
///
/// It takes one cold solve, and for each night two copies of the solver with one search each.
pub fn bands(alloc: Global, instance: &Instance) -> Result<Vec<Band>, Memory>
    requires { All (λ r. r ≤ MOST_ROOMS) instance.now.rooms }
    ensures { IfOk result (λ b. AreBands instance.now b.items) }
{
    let PricedNights { bands, .. } = price_nights(alloc, instance)?;
    Ok(bands)
}

/// The least optimal prices of an instance, and the bands of its nights.
#[derive(Drop)]
pub(crate) struct PricedNights {
    /// The least optimal prices, on a board for position 0.
    pub board: Board,
    /// One band per night.
    pub bands: Vec<Band>,
}

/// The prices and bands of an instance, from a cold solve.
pub(crate) fn price_nights(alloc: Global, instance: &Instance) -> Result<PricedNights, Memory>
    requires { All (λ r. r ≤ MOST_ROOMS) instance.now.rooms }
    ensures { IfOk result (λ r. IsPriced instance.now r.board.certificate.prices r.bands.items) }
{
    price_nights_by::<Brand>(alloc, instance, Blank::new(1))
}

/// The same, with the searches counted in a ledger.
fn price_nights_by<L: Ledger>(
    alloc: Global,
    instance: &Instance,
    blank: Blank,
) -> Result<PricedNights, Memory>
    requires name { blank.name ≡ L.name }
    requires parts { blank.parts ≡ L.parts }
    requires some { 0 < blank.parts }
    requires rooms { All (λ r. r ≤ MOST_ROOMS) instance.now.rooms }
    ensures { IfOk result (λ r. IsPriced instance.now r.board.certificate.prices r.bands.items) }
{
    let mut steps: Steps<L> = Steps::new(blank);
    let solver = Solver::cold(alloc, instance, &mut steps)?;
    let certificate = solver.certificate(alloc)?;
    let bands = bands_of(alloc, &solver, &certificate.prices, &mut steps)?;
    let board = Board::new(alloc, 0, certificate)?;
    Ok(PricedNights { board, bands })
}

/// The bands of a solver's program, beside its prices.
fn bands_of<L: Ledger>(
    alloc: Global,
    solver: &Solver,
    prices: &[u64],
    steps: &mut Steps<L>,
) -> Result<Vec<Band>, Memory>
    requires rooms { All (λ r. r ≤ MOST_ROOMS) solver.now.flow.program.rooms }
    requires prices { length prices.now ≡ length solver.now.flow.program.rooms }
    ensures { IfOk result (λ b. AreBandsBeside solver.now.flow.program prices.now b.items) }
{
    let value = solver.value();
    let mut bands = Vec::new(alloc);
    for night in 0..solver.nights() {
        let band = band_of(alloc, solver, value, prices[night as usize], night, steps)?;
        bands.push(band)?;
    }
    Ok(bands)
}

/// The band of a night with this price.
fn band_of<L: Ledger>(
    alloc: Global,
    solver: &Solver,
    value: u128,
    price: u64,
    night: u32,
    steps: &mut Steps<L>,
) -> Result<Band, Memory>
    requires optimum { IsOptimum solver.now.flow.program value }
    requires in_range { night < length solver.now.flow.program.rooms }
    requires rooms { slice_index solver.now.flow.program.rooms night ≤ MOST_ROOMS }
    ensures { IfOk result (IsBand solver.now.flow.program price night) }
{
    let gain = gain_of(alloc, solver, value, night, steps)?;
    let loss = loss_of(alloc, solver, value, night, steps)?;
    Ok(Band { price, gain, loss })
}
