//! The desk of one hotel among several.
ghost use Rattle.std.specs.Prelude.{◌≡◌, ◌≤◌, IfOk};
ghost use Rattle.bp_types.specs.declared.limits.TheConstants.{MOST_SESSIONS, MOST_WORKERS};
ghost use Rattle.bp_desk_run.specs.RightRun.{IsRightRun};
ghost use Rattle.bp_portfolio.specs.Desks.{CanRun};

use crate::gate::HotelGate;
use bp_desk_run::{Ran, run_desk};
use bp_edges::Gate;
use bp_script::Commands;
use bp_types::{House, Memory};
use std::alloc::Global;
use std::marker::Model;
use std::sync::Wait;
use std::thread::Threads;

/// A house, and what each session asks of its desk, the first session first. What they ask is in range of the house.
///
/// Contracts see the house and a list of lists.
#[derive(Debug, Drop)]
pub struct Staged {
    house: House,
    scripts: Vec<Commands>,
}

impl Model for Staged {
    ghost use Rattle.bp_desk_run.specs.RightRun.{Staged as StagedDesk};
    ghost use Rattle.bp_portfolio.specs.Desks.{CanRun};

    ghost Value = { StagedDesk };

    ghost view = { λ s. record { house = s.house; scripts = s.scripts.items } };

    ghost invariant = { λ s. CanRun (record { house = s.house; scripts = s.scripts.items }) };
}

impl Staged {
    /// A house with what its sessions ask.
    pub fn new(house: House, scripts: Vec<Commands>) -> Staged
        requires { CanRun (record { house = house; scripts = scripts.items }) }
        ensures { result ≡ record { house = house; scripts = scripts.items } }
    {
        Staged { house, scripts }
    }

    /// Runs its sessions beside so many optimisers, to the closed book. Of several hotels this is the one with the
    /// index; the first has 0, and so has a hotel alone. The one error is `Memory`.
    pub fn run<R: Wait + Threads + Sync, G: Gate>(
        self,
        rt: &R,
        alloc: Global,
        workers: u32,
        hotel: u32,
        gate: &G,
    ) -> Result<Ran, Memory>
        requires { workers ≤ MOST_WORKERS }
        ensures { IfOk result (IsRightRun workers self) }
    {
        let Staged { house, scripts } = self;
        run_house(
            rt,
            alloc,
            house,
            scripts,
            workers,
            &HotelGate { gate, hotel },
        )
    }
}

/// Runs the sessions of a house beside so many optimisers, to the closed book.
fn run_house<R: Wait + Threads + Sync, G: Gate>(
    rt: &R,
    alloc: Global,
    house: House,
    scripts: Vec<Commands>,
    workers: u32,
    gate: &G,
) -> Result<Ran, Memory>
    requires workers { workers ≤ MOST_WORKERS }
    requires can { CanRun (record { house = house; scripts = scripts.items }) }
    ensures { IfOk result (IsRightRun workers (record { house = house; scripts = scripts.items })) }
{
    let ran = run_desk(rt, alloc, house, scripts, workers, gate)?;
    Ok(ran)
}
