//! How the house of a problem is made.
ghost use Rattle.std.specs.Prelude.{◌≡◌, IfOk};
ghost use Rattle.bp_cert.specs.Texts.{IsProblem};
ghost use Rattle.bp_problem_house.specs.Houses.{house_of_problem};

use bp_stayfile::law;
use bp_types::limits::{MOST_ENTRIES, MOST_PUBLICATIONS, MOST_STALE_AFTER};
use bp_types::{House, Instance, Limits, Memory, Stay};
use std::alloc::Global;

/// The greatest limits, in whole rooms.
const GREATEST: Limits = Limits {
    stale_after: MOST_STALE_AFTER,
    entries: MOST_ENTRIES,
    publications: MOST_PUBLICATIONS,
    unit: 1,
};

/// The rooms of each night.
fn rooms_of(alloc: Global, problem: &Instance) -> Result<Vec<u64>, Memory>
    ensures { IfOk result (λ rooms. rooms.items ≡ problem.now.rooms) }
{
    let mut rooms = Vec::new(alloc);
    for night in 0..problem.nights() {
        rooms.push(problem.rooms(night))?;
    }
    Ok(rooms)
}

/// The stays, in the order of the problem.
fn stays_of(alloc: Global, problem: &Instance) -> Result<Vec<Stay>, Memory>
    ensures { IfOk result (λ stays. stays.items ≡ problem.now.stays) }
{
    let mut stays = Vec::new(alloc);
    for stay in 0..problem.stays() {
        stays.push(problem.stay(stay))?;
    }
    Ok(stays)
}

/// The house of a problem: nothing sold, whole rooms, and the greatest limits. It breaks none. The one error is
/// `Memory`.
#[tactic(auto, using(crate::proofs::Fits::problem_fits))]
pub fn house_of_problem(alloc: Global, problem: &Instance) -> Result<House, Memory>
    requires { IsProblem problem.now }
    ensures { IfOk result (λ house. house ≡ house_of_problem problem.now) }
{
    law::houses_are_in_limits();
    let rooms = rooms_of(alloc, problem)?;
    let stays = stays_of(alloc, problem)?;
    let sold = vec![in alloc; 0; rooms.len()]?;
    match House::new(rooms, sold, stays, GREATEST) {
        Ok(house) => Ok(house),
        Err(_) => unreachable!(),
    }
}
