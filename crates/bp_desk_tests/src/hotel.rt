//! The hotels that the tests open.
ghost use Rattle.std.specs.Prelude.{◌≡◌, IfOk};
ghost use Rattle.bp_desk_tests.specs.Passing.{IsPassOf};

use crate::day::opening_board;
use bp_desk::{Desk, Pass};
use bp_fixtures::{Numbers, certificate, house};
use bp_types::{House, Instance, Limits};
use std::alloc::Global;
use std::test::Fail;

/// A house in a second copy, and its instance: the desk has the first.
#[derive(Drop)]
pub(crate) struct Hotel {
    pub(crate) house: House,
    pub(crate) start: Instance,
}

/// Opens a hotel's desk.
pub(crate) fn open(
    alloc: Global,
    numbers: Numbers<'_>,
    limits: Limits,
) -> Result<(Hotel, Desk, Pass), Fail>
    ensures { IfOk result (λ r. IsPassOf r.1 r.0.house r.0.start r.2 × (r.2.caller ≡ 0)) }
{
    let of_desk = house(alloc, numbers.rooms, numbers.sold, numbers.stays, limits)?;
    let house = house(alloc, numbers.rooms, numbers.sold, numbers.stays, limits)?;
    let start = house.instance(alloc)?;
    let certificate = certificate(alloc, numbers.opening)?;
    let board = opening_board(alloc, &start, certificate)?;
    let (desk, opener) = Desk::new(alloc, of_desk, board)?;
    Ok((Hotel { house, start }, desk, opener))
}
