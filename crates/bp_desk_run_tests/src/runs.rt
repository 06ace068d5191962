//! Sessions that book at the hotel of three nights, and a run of them.
ghost use Rattle.std.specs.Prelude.{◌≡◌, ◌≤◌, length, All, IfOk};
ghost use Rattle.bp_optimise.specs.Sessions.{AreInRange};

use bp_core::{Act, is_in_range};
use bp_desk_run::{Ran, run_desk};
use bp_edges::NoGate;
use bp_fixtures::three_nights as house;
use bp_script::Commands;
use bp_types::{Command, House, Limits};
use std::alloc::Global;
use std::sync::Wait;
use std::test::Fail;
use std::thread::Threads;

/// Runs sessions that book these stays beside so many workers.
pub fn run<R: Threads + Wait + Sync>(
    rt: &R,
    alloc: Global,
    limits: Limits,
    sessions: &[&[u32]],
    workers: u32,
) -> Result<Ran, Fail>
    requires sessions { length sessions.now ≤ 2 }
    requires workers { workers ≤ 2 }
{
    let house = house(alloc, limits)?;
    let scripts = scripts(alloc, &house, sessions)?;
    match run_desk(rt, alloc, house, scripts, workers, &NoGate) {
        Ok(ran) => Ok(ran),
        Err(_) => Err("memory".into()),
    }
}

/// The commands of all sessions.
fn scripts(alloc: Global, house: &House, sessions: &[&[u32]]) -> Result<Vec<Commands>, Fail>
    ensures range { IfOk result (λ v. All (AreInRange house.now) v.items) }
    ensures each { IfOk result (λ v. length v.items ≡ length sessions.now) }
{
    let mut scripts = Vec::new(alloc);
    for i in 0..sessions.len() {
        scripts.push(books(alloc, house, sessions[i])?)?;
    }
    Ok(scripts)
}

/// A Book for each of these stays.
fn books(alloc: Global, house: &House, stays: &[u32]) -> Result<Commands, Fail>
    ensures { IfOk result (AreInRange house.now) }
{
    let mut list = Vec::new(alloc);
    for stay in stays {
        let command = Command::Book { stay: *stay };
        if !is_in_range(house, Act::Do(command)) {
            return Err("no such stay".into());
        }
        list.push(command)?;
    }
    Ok(Commands::new(list))
}
