//! A worker beside the sessions: rounds until all of them have left.
ghost use Rattle.std.specs.Prelude.{◌≡◌, ◌≢◌, ◌≤◌, true, false};
ghost use Rattle.bp_desk.specs.Calling.{HasRead};
ghost use Rattle.bp_optimise.specs.Following.{GoesWith};
ghost use Rattle.bp_optimise.specs.Acts.{HasActed, commands_in};
ghost use Rattle.bp_optimise.specs.Tries.{GoesOn, MakesNone};
ghost use Rattle.bp_optimise.specs.Works.{HaveLeft, AddsSettled, IsWork};
ghost use Rattle.bp_optimise.specs.Stepping.{IsStep};

use crate::optimiser::Optimiser;
use bp_desk::{Desk, Left, Pass};
use bp_edges::Gate;
use bp_types::Steps;
use std::alloc::Global;
use std::sync::Wait;
use std::sync::ledger::Ledger;

/// A worker that has left, and whether it left for want of memory.
#[derive(Drop)]
pub struct WorkEnd {
    /// Its caller, which has left.
    pub left: Left,
    /// Whether a round found no memory.
    pub memory: bool,
}

/// What a worker does next.
#[derive(Clone, Copy, Debug, PartialEq, Eq)]
pub(crate) enum Next {
    /// All sessions have left, and the last round was not superseded.
    Leaves,
    /// Another round. `superseded` says whether this step's one was.
    Rounds { superseded: bool },
    /// This step's round found no memory.
    NoMemory,
}

/// Makes rounds for `lead` changes until the callers from 1 to `sessions` have left, and leaves. Where a round finds no
/// memory it leaves at once.
///
/// The gate is passed before each step. A round that was superseded is followed by one more.
pub fn work<R: Wait, G: Gate, L: Ledger>(
    rt: &R,
    alloc: Global,
    desk: &Desk,
    pass: Pass,
    optimiser: Optimiser,
    sessions: u32,
    lead: u64,
    gate: &G,
    steps: &mut Steps<L>,
) -> WorkEnd
    requires desk { pass.desk ≡ desk.now }
    requires caller { pass.caller ≢ 0 }
    requires goes { GoesWith pass.house pass.seen optimiser }
    requires lead { 1 ≤ lead }
    ensures work { IsWork sessions lead pass result.left result.memory }
{
    let mut pass = pass;
    let mut optimiser = optimiser;
    let memory = make_rounds(
        rt,
        alloc,
        desk,
        &mut pass,
        &mut optimiser,
        sessions,
        lead,
        gate,
        steps,
    );
    WorkEnd {
        left: desk.leave(rt, pass),
        memory,
    }
}

/// Makes rounds until all sessions have left, and says whether it stopped for want of memory.
fn make_rounds<R: Wait, G: Gate, L: Ledger>(
    rt: &R,
    alloc: Global,
    desk: &Desk,
    pass: &mut Pass,
    optimiser: &mut Optimiser,
    sessions: u32,
    lead: u64,
    gate: &G,
    steps: &mut Steps<L>,
) -> bool
    requires desk { pass.old.desk ≡ desk.now }
    requires goes { GoesWith pass.old.house pass.old.seen optimiser.old }
    requires lead { 1 ≤ lead }
    ensures acted { HasActed lead pass.old pass.new }
    ensures no_command { MakesNone pass.old pass.new }
    ensures left { result ≡ false → HaveLeft pass.new.seen sessions }
    ensures settled { result ≡ false → AddsSettled sessions lead pass.old pass.new }
{
    let caller = pass.caller();
    let mut superseded = false;
    let mut nth: u64 = 1;
    for _ in rt.forever() {
        gate.arrive(rt, caller, nth);
        nth = nth.saturating_add(1);
        match make_step(
            rt, alloc, desk, pass, optimiser, sessions, lead, superseded, steps,
        ) {
            Next::Leaves => return false,
            Next::NoMemory => return true,
            Next::Rounds { superseded: again } => superseded = again,
        }
    }
    unreachable!()
}

/// Looks whether all sessions have left, and makes a round where not, or where the last one was superseded.
fn make_step<R: Wait, L: Ledger>(
    rt: &R,
    alloc: Global,
    desk: &Desk,
    pass: &mut Pass,
    optimiser: &mut Optimiser,
    sessions: u32,
    lead: u64,
    superseded: bool,
    steps: &mut Steps<L>,
) -> Next
    requires desk { pass.old.desk ≡ desk.now }
    requires goes { GoesWith pass.old.house pass.old.seen optimiser.old }
    requires lead { 1 ≤ lead }
    ensures goes_on { GoesOn lead pass.old pass.new optimiser.new }
    ensures no_command { MakesNone pass.old pass.new }
    ensures step { IsStep sessions lead superseded pass.old pass.new result }
{
    let left = have_left(rt, desk, pass, sessions);
    if left && !superseded {
        return Next::Leaves;
    }
    match optimiser.round(rt, alloc, desk, pass, lead, steps) {
        Ok(round) => Next::Rounds {
            superseded: round.is_superseded(),
        },
        Err(_) => Next::NoMemory,
    }
}

/// Whether the callers from 1 to a number have left.
fn have_left<R: Wait>(rt: &R, desk: &Desk, pass: &mut Pass, sessions: u32) -> bool
    requires { pass.old.desk ≡ desk.now }
    ensures read { HasRead pass.old pass.new }
    ensures left { result ≡ true → HaveLeft pass.new.seen sessions }
{
    desk.left(rt, pass, sessions) == sessions
}
