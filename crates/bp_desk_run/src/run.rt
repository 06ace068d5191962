//! From a house, scripts and a number of workers to the closed book.
ghost use Rattle.std.specs.Prelude.{◌≡◌, ◌<◌, ◌≤◌, ◌+◌, ◌/◌, true, false, length, All, IfOk};
ghost use Rattle.bp_types.specs.declared.limits.TheConstants.{MOST_SESSIONS, MOST_WORKERS};
ghost use Rattle.bp_core.specs.Lines.{vectors};
ghost use Rattle.bp_optimise.specs.Sessions.{AreInRange};
ghost use Rattle.bp_desk_run.specs.DeskRun.{lead_of, IsDeskRun, IsComplete, IsClosed, IsCut, all_commands, HasRoomFor};
ghost use Rattle.bp_desk_run.specs.Finals.{AreScripted};

use crate::actor::Actor;
use crate::callers::{Ran, run_callers};
use bp_edges::Gate;
use bp_flow::Solver;
use bp_optimise::Stop;
use bp_script::Commands;
use bp_types::{Command, House, Memory, Steps};
use std::alloc::Global;
use std::marker::Brand;
use std::sync::Wait;
use std::sync::ledger::{Blank, Ledger};
use std::thread::Threads;

/// Runs the sessions of a house beside workers, to the closed book: a session for each script, in their order.
///
/// Whatever the interleaving, the book's history is a desk run. It is complete and closed where the answer says so, and
/// else it was cut, by one of three causes. Want of memory, of whichever caller, is the one other answer. Before each
/// command of a session and each step of a worker the gate is told, and it may hold the caller up.
pub fn run_desk<R: Threads + Wait + Sync, G: Gate>(
    rt: &R,
    alloc: Global,
    house: House,
    scripts: Vec<Commands>,
    workers: u32,
    gate: &G,
) -> Result<Ran, Memory>
    requires sessions { length scripts.items ≤ MOST_SESSIONS }
    requires workers { workers ≤ MOST_WORKERS }
    requires range { All (AreInRange house) scripts.items }
    ensures house { IfOk result (λ r. r.book.house ≡ house) }
    ensures run { IfOk result (λ r. IsDeskRun house scripts.items workers r.book.history) }
    ensures whole { IfOk result (λ r. r.whole ≡ true → IsComplete scripts.items r.book.history ×
        IsClosed r.book.history) }
    ensures cut { IfOk result (λ r. r.whole ≡ false → IsCut house scripts.items r.book.history) }
    ensures vectors { IfOk result (λ r. vectors r.book.history ≤ 2 + all_commands scripts.items / lead_of house) }
    ensures room { IfOk result (λ r. HasRoomFor house (all_commands scripts.items) → r.whole ≡ true) }
{
    counted_run::<R, G, Brand>(rt, alloc, house, scripts, workers, gate, Blank::new(1))
}

/// The run, with the opener's searches counted in a ledger.
fn counted_run<R: Threads + Wait + Sync, G: Gate, L: Ledger>(
    rt: &R,
    alloc: Global,
    house: House,
    scripts: Vec<Commands>,
    workers: u32,
    gate: &G,
    blank: Blank,
) -> Result<Ran, Memory>
    requires name { blank.name ≡ L.name }
    requires parts { blank.parts ≡ L.parts }
    requires some { 0 < blank.parts }
    requires sessions { length scripts.items ≤ MOST_SESSIONS }
    requires workers { workers ≤ MOST_WORKERS }
    requires range { All (AreInRange house) scripts.items }
    ensures house { IfOk result (λ r. r.book.house ≡ house) }
    ensures run { IfOk result (λ r. IsDeskRun house scripts.items workers r.book.history) }
    ensures whole { IfOk result (λ r. r.whole ≡ true → IsComplete scripts.items r.book.history ×
        IsClosed r.book.history) }
    ensures cut { IfOk result (λ r. r.whole ≡ false → IsCut house scripts.items r.book.history) }
    ensures vectors { IfOk result (λ r. vectors r.book.history ≤ 2 + all_commands scripts.items / lead_of house) }
    ensures room { IfOk result (λ r. HasRoomFor house (all_commands scripts.items) → r.whole ≡ true) }
{
    let _limits = house.limits();
    let mut steps: Steps<L> = Steps::new(blank);
    let instance = house.instance(alloc)?;
    let solver = Solver::cold(alloc, &instance, &mut steps)?;
    let sessions = scripts.len() as u32;
    let mut actors = actors_of(alloc, scripts, workers)?;
    run_callers(
        rt,
        alloc,
        house,
        &solver,
        &mut actors,
        sessions,
        gate,
        &mut steps,
    )
}

/// The callers of a run: the workers first, and then the sessions, the first session last. They run from the last to
/// the first where no thread can be made, and a worker waits for the sessions.
fn actors_of(alloc: Global, scripts: Vec<Commands>, workers: u32) -> Result<Vec<Actor>, Memory>
    ensures { IfOk result (λ v. AreScripted scripts.items workers (length scripts.items) v.items) }
{
    let mut scripts = scripts;
    let sessions = scripts.len();
    let mut actors = Vec::new(alloc);
    for i in 0..workers {
        actors.push(new_actor(Vec::new(alloc)))?;
    }
    for j in 0..sessions {
        let Some(script) = scripts.pop() else {
            unreachable!()
        };
        actors.push(new_actor(script.into_list()))?;
    }
    Ok(actors)
}

/// A caller that has not enrolled.
fn new_actor(commands: Vec<Command>) -> Actor
    ensures { result.commands.items ≡ commands.items }
{
    Actor {
        commands,
        pass: None,
        optimiser: None,
        left: None,
        done: 0,
        stop: Stop::Finished,
    }
}
