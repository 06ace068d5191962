//! `desk HOTEL STAYS FORECAST BOOKINGS SCRIPT [--workers W]`: the sessions of a script on one desk.
ghost use Rattle.std.specs.Prelude.{◌≡◌, ◌+◌, ◌<◌, ◌≤◌, ◌^◌};
ghost use Rattle.bp_types.specs.declared.limits.TheConstants.{MOST_WORKERS};
ghost use Rattle.bp_inputs.specs.Fetches.{over};
ghost use Rattle.bp_inputs.specs.Stops.{Follows};
ghost use Rattle.bp_run.specs.Command.{Brings};
ghost use Rattle.bp_inputs.specs.HotelPlan.{named};
ghost use Rattle.bp_run.specs.Desk.{desk_command, desk_plan, run_status};

use crate::Status;
use bp_desk_run::Ran;
use bp_edges::{Gate, Shelf};
use bp_inputs::{HotelFiles, ScriptFile, Stop, load, load_house};
use bp_portfolio::Staged;
use std::alloc::Global;
use std::sync::Wait;
use std::thread::Threads;

/// Reads a hotel's four files and a script of its sessions, the first of which has this number.
pub fn load_desk<S: Shelf>(
    alloc: Global,
    shelf: &mut S,
    first: u64,
    hotel: &HotelFiles<'_>,
    script: &str,
) -> Result<Staged, Stop>
    requires { first + 5 < 2 ^ 64 }
    ensures { Follows (over S.held S.faults S.fetches S.last S.steady shelf.old shelf.new)
        (desk_plan (named hotel.now) script.now) first (first + 5) result }
{
    let open = load_house(alloc, shelf, first, hotel)?;
    let file = ScriptFile {
        hotel: &open.hotel,
        stays: &open.stays,
    };
    let scripts = load(alloc, shelf, &file, first + 4, script)?;
    Ok(Staged::new(open.house, scripts.into_vec()))
}

/// Reads a hotel's four files and a script, and runs its sessions beside so many optimisers.
pub fn answer<R: Wait + Threads + Sync, S: Shelf, G: Gate>(
    rt: &R,
    alloc: Global,
    shelf: &mut S,
    hotel: &HotelFiles<'_>,
    script: &str,
    workers: u32,
    gate: &G,
) -> Result<Ran, Stop>
    requires { workers ≤ MOST_WORKERS }
    ensures { Brings (over S.held S.faults S.fetches S.last S.steady shelf.old shelf.new)
        (desk_command (named hotel.now) script.now workers) result }
{
    let staged = load_desk(alloc, shelf, 1, hotel, script)?;
    Ok(staged.run(rt, alloc, workers, 0, gate)?)
}

/// The status of a run: done where it is whole.
pub fn status_of(ran: &Ran) -> Status
    ensures { result ≡ run_status ran.now }
{
    if ran.whole {
        Status::Done
    } else {
        Status::Unfinished
    }
}
