//! The callers of a run, from their enrolment to the closed book.
ghost use Rattle.std.specs.Prelude.{◌≡◌, ◌+◌, ◌-◌, ◌<◌, ◌≤◌, ◌&&◌, ℕ, List, [], length, slice_index_or, IfOk};
ghost use Rattle.bp_types.specs.House.{opening};
ghost use Rattle.bp_types.specs.declared.command.Command.{Command};
ghost use Rattle.bp_flow.specs.Settled.{IsSettled};
ghost use Rattle.bp_optimise.specs.Sessions.{AreInRange};
ghost use Rattle.bp_desk_run.specs.Finals.{AreScripted, ComesTo};

use crate::actor::{Actor, MOST_ACTORS};
use crate::crew::{enrol_all, join_all, meet_all, run_all};
use crate::finish::{all_finished, any_stopped, close_desk, has_closed};
use crate::start::open_desk;
use bp_core::Book;
use bp_edges::Gate;
use bp_flow::Solver;
use bp_optimise::Stop;
use bp_types::{House, Memory, Steps};
use std::alloc::Global;
use std::sync::Wait;
use std::sync::ledger::Ledger;
use std::thread::Threads;

/// A run that has ended.
#[derive(Drop)]
pub struct Ran {
    /// The book of the closed desk, with the one history of the run.
    pub book: Book,
    /// Whether all commands of all sessions are in it, and no change stands after the last vector's position. Where
    /// not, the run was cut: the house allowed no entry more, or no vector more.
    pub whole: bool,
}

/// Runs a house with the callers of its sessions and its workers. Caller 1 stands last in the slice. The one error is
/// `Memory`, of whichever caller.
pub fn run_callers<R: Threads + Wait + Sync, G: Gate, L: Ledger>(
    rt: &R,
    alloc: Global,
    house: House,
    solver: &Solver,
    actors: &mut [Actor],
    sessions: u32,
    gate: &G,
    steps: &mut Steps<L>,
) -> Result<Ran, Memory>
    requires solver { (solver.now.flow.program ≡ opening house) × IsSettled solver.now }
    requires few { length actors.old ≤ MOST_ACTORS }
    requires sessions { sessions ≤ length actors.old }
    requires range { (i : ℕ) (a : Actor) → i < length actors.old →
        AreInRange house (slice_index_or actors.old i a).commands.items }
    requires workers { (c : ℕ) (a : Actor) → sessions < c → c ≤ length actors.old →
        (slice_index_or actors.old (length actors.old - c) a).commands.items ≡ [] }
    ensures ran { IfOk result (λ r. (scripts : List (List Command)) (workers : ℕ) →
        AreScripted scripts workers sessions actors.old → ComesTo house scripts workers r.book.history r.whole) }
    ensures house { IfOk result (λ r. r.book.house ≡ house) }
{
    let limits = house.limits();
    let lead = (limits.stale_after + 1) / 2;
    let (desk, mut opener) = open_desk(alloc, house, solver)?;
    opener.facts();
    enrol_all(rt, alloc, &desk, &mut opener, solver, actors, sessions)?;
    meet_all(alloc, &desk, &mut opener, actors);
    opener.facts();
    run_all(rt, alloc, &desk, actors, sessions, lead, limits.unit, gate);
    join_all(&desk, &mut opener, actors);
    opener.facts();
    if any_stopped(actors, Stop::Memory) {
        return Err(Memory);
    }
    let finished = all_finished(actors);
    let (book, round) = close_desk(rt, alloc, desk, opener, solver, steps)?;
    Ok(Ran {
        book,
        whole: both(finished, has_closed(&round)),
    })
}

/// Whether both of two answers hold, as one value: what follows from it is said without a second case.
fn both(a: bool, b: bool) -> bool
    ensures { result ≡ (a && b) }
{
    a && b
}
