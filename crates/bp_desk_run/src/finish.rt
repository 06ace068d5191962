//! How a run ends: how its callers stopped, and the last round of the opener, after which the desk is closed.
ghost use Rattle.std.specs.Prelude.{◌≡◌, ◌≢◌, ◌<◌, ℕ, true, false, length, slice_index_or, IfOk};
ghost use Rattle.bp_types.specs.House.{opening};
ghost use Rattle.bp_flow.specs.Settled.{IsSettled};
ghost use Rattle.bp_desk_run.specs.Closing.{HasAllBack, has_closed};
ghost use Rattle.bp_desk_run.specs.Finals.{IsClosedAfter};

use crate::actor::Actor;
use crate::start::new_optimiser;
use bp_core::Book;
use bp_desk::{Desk, Pass};
use bp_flow::Solver;
use bp_optimise::{Round, Stop};
use bp_types::{Memory, Steps};
use std::alloc::Global;
use std::sync::Wait;
use std::sync::ledger::Ledger;

/// Publishes once more where a change stands after the last vector's position, and closes the desk. It gives the book
/// and what the last round did; the one error is `Memory`.
pub fn close_desk<R: Wait, L: Ledger>(
    rt: &R,
    alloc: Global,
    desk: Desk,
    pass: Pass,
    solver: &Solver,
    steps: &mut Steps<L>,
) -> Result<(Book, Round), Memory>
    requires desk { pass.desk ≡ desk }
    requires back { (most : ℕ) × HasAllBack most pass }
    requires solver { (solver.now.flow.program ≡ opening pass.house) × IsSettled solver.now }
    ensures { IfOk result (λ r. IsClosedAfter pass r.0 r.1) }
{
    pass.facts();
    let mut pass = pass;
    let mut optimiser = new_optimiser(alloc, solver)?;
    let round = optimiser.round(rt, alloc, &desk, &mut pass, 1, steps)?;
    pass.facts();
    Ok((desk.close(rt, pass), round))
}

/// Whether nothing was left to publish after a last round.
pub fn has_closed(round: &Round) -> bool
    ensures { result ≡ has_closed round.now }
{
    !matches!(round, Round::PublicationsFull)
}

/// Whether an actor stopped so.
pub fn any_stopped(actors: &[Actor], stop: Stop) -> bool
    ensures yes { result ≡ true → (i : ℕ) × (i < length actors.now) ×
        ((a : Actor) → (slice_index_or actors.now i a).stop ≡ stop) }
    ensures no { result ≡ false → (i : ℕ) (a : Actor) → i < length actors.now →
        (slice_index_or actors.now i a).stop ≢ stop }
{
    let mut i = 0;
    while i < actors.len() {
        if actors[i].stop == stop {
            return true;
        }
        i += 1;
    }
    false
}

/// Whether all actors finished.
pub fn all_finished(actors: &[Actor]) -> bool
    ensures yes { result ≡ true → (i : ℕ) (a : Actor) → i < length actors.now →
        (slice_index_or actors.now i a).stop ≡ Stop.Finished }
    ensures no { result ≡ false → (i : ℕ) × (i < length actors.now) ×
        ((a : Actor) → (slice_index_or actors.now i a).stop ≢ Stop.Finished) }
{
    let mut i = 0;
    while i < actors.len() {
        if actors[i].stop != Stop::Finished {
            return false;
        }
        i += 1;
    }
    true
}
