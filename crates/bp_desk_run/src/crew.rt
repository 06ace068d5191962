//! Callers that share a desk, from their enrolment to their end. They stand in a slice, caller 1 last.
ghost use Rattle.std.specs.Prelude.{◌≡◌, ◌+◌, ◌-◌, ◌<◌, ◌≤◌, ◌∷◌, ℕ, [], length, slice_index_or, Some, OnOk};
ghost use Rattle.bp_types.specs.House.{opening};
ghost use Rattle.bp_flow.specs.Settled.{IsSettled};
ghost use Rattle.bp_turn.specs.Callers.{numbers_from};
ghost use Rattle.bp_core.specs.declared.call.Call.TheVariants.{Enrol};
ghost use Rattle.bp_core.specs.declared.line.Reply.TheVariants.{Done};
ghost use Rattle.bp_core.specs.Lines.{calls};
ghost use Rattle.bp_core.specs.Acting.{line_of};
ghost use Rattle.bp_optimise.specs.Sessions.{AreInRange};
ghost use Rattle.bp_desk_run.specs.Endings.{IsEnded};
ghost use Rattle.bp_desk_run.specs.Actors.{
  AreTerms,
  IsReady,
  HasRun,
  AreReady,
  HaveRun,
  KeepCommands,
  HasEnrolled,
  HasEnrolledAll,
  HasJoined,
};

use crate::actor::{Actor, MOST_ACTORS};
use crate::start::new_optimiser;
use bp_desk::{Desk, Pass};
use bp_edges::Gate;
use bp_flow::Solver;
use bp_types::Memory;
use bp_types::limits::CALLERS;
use std::alloc::Global;
use std::sync::Wait;
use std::thread::{self, Threads};

impl Actor {
    /// Gives the actor a pass of its own, which has met the opener's, and an optimiser.
    fn enrol<R: Wait>(
        &mut self,
        rt: &R,
        alloc: Global,
        desk: &Desk,
        opener: &mut Pass,
        solver: &Solver,
        number: u32,
        sessions: u32,
    ) -> Result<(), Memory>
        requires desk { opener.old.desk ≡ desk.now }
        requires opener { opener.old.caller ≡ 0 }
        requires number { (1 ≤ number) × (number < CALLERS) }
        requires free { opener.old.free ≡ numbers_from number (CALLERS - number) }
        requires range { AreInRange opener.old.house self.old.commands.items }
        requires workers { sessions < number → self.old.commands.items ≡ [] }
        requires solver { (solver.now.flow.program ≡ opening opener.old.house) × IsSettled solver.now }
        ensures ready { OnOk result (IsReady desk.now opener.old.house sessions number opener.new.seen self.new) }
        ensures opener { OnOk result (HasEnrolled number opener.old opener.new) }
        ensures commands { self.new.commands ≡ self.old.commands }
    {
        opener.facts();
        let Ok(mut pass) = desk.enrol(rt, alloc, opener) else {
            return Err(Memory);
        };
        let Ok(()) = desk.meet(alloc, opener, &mut pass) else {
            unreachable!()
        };
        pass.facts();
        let optimiser = new_optimiser(alloc, solver)?;
        self.pass = Some(pass);
        self.optimiser = Some(optimiser);
        Ok(())
    }

    /// Meets the opener's pass again.
    fn meet(&mut self, alloc: Global, desk: &Desk, opener: &mut Pass)
        requires desk { opener.old.desk ≡ desk.now }
        requires ready { (house : _) × (sessions : ℕ) × (number : ℕ) ×
            IsReady desk.now house sessions number opener.old.seen self.old }
        ensures opener { opener.new ≡ opener.old }
        ensures ready { (house : _) (sessions number : ℕ) →
            IsReady desk.now house sessions number opener.old.seen self.old →
            IsReady desk.now house sessions number opener.old.seen self.new ×
            (calls opener.old.seen number ≡ line_of number Enrol Done ∷ []) }
        ensures commands { self.new.commands ≡ self.old.commands }
    {
        let Some(mut pass) = self.pass.take() else {
            unreachable!()
        };
        let Ok(()) = desk.meet(alloc, opener, &mut pass) else {
            unreachable!()
        };
        pass.facts();
        self.pass = Some(pass);
    }

    /// Ends the actor in the opener's pass.
    fn join(&mut self, desk: &Desk, opener: &mut Pass)
        requires desk { opener.old.desk ≡ desk.now }
        requires run { (house : _) × (sessions : ℕ) × (number : ℕ) × HasRun desk.now house sessions number self.old }
        ensures opener { HasJoined opener.old opener.new }
        ensures ended { (house : _) (sessions number : ℕ) → HasRun desk.now house sessions number self.old →
            IsEnded house sessions number self.old.commands.items opener.new self.old.stop }
        ensures others { (house : _) (sessions number : ℕ) (cs : _) (stop : _) →
            IsEnded house sessions number cs opener.old stop → IsEnded house sessions number cs opener.new stop }
        ensures commands { self.new.commands ≡ self.old.commands }
        ensures stop { self.new.stop ≡ self.old.stop }
    {
        let Some(left) = self.left.take() else {
            unreachable!()
        };
        desk.join(opener, left);
    }
}

/// Gives each actor a pass of its own: the last place has number 1. The one error is `Memory`.
pub fn enrol_all<R: Wait>(
    rt: &R,
    alloc: Global,
    desk: &Desk,
    opener: &mut Pass,
    solver: &Solver,
    actors: &mut [Actor],
    sessions: u32,
) -> Result<(), Memory>
    requires desk { opener.old.desk ≡ desk.now }
    requires opener { opener.old.caller ≡ 0 }
    requires free { opener.old.free ≡ numbers_from 1 (CALLERS - 1) }
    requires few { length actors.old ≤ MOST_ACTORS }
    requires range { (i : ℕ) (a : Actor) → i < length actors.old →
        AreInRange opener.old.house (slice_index_or actors.old i a).commands.items }
    requires workers { (c : ℕ) (a : Actor) → sessions < c → c ≤ length actors.old →
        (slice_index_or actors.old (length actors.old - c) a).commands.items ≡ [] }
    requires solver { (solver.now.flow.program ≡ opening opener.old.house) × IsSettled solver.now }
    ensures ready { OnOk result (AreReady desk.now opener.old.house sessions opener.new.seen actors.new) }
    ensures opener { OnOk result (HasEnrolledAll (length actors.old) opener.old opener.new) }
    ensures commands { OnOk result (KeepCommands actors.old actors.new) }
{
    let callers = actors.len();
    for i in 0..callers {
        let place = callers - 1 - i;
        actors[place].enrol(rt, alloc, desk, opener, solver, i as u32 + 1, sessions)?;
    }
    Ok(())
}

/// Lets the opener meet each actor again, after which all have seen the same.
pub fn meet_all(alloc: Global, desk: &Desk, opener: &mut Pass, actors: &mut [Actor])
    requires desk { opener.old.desk ≡ desk.now }
    requires few { length actors.old ≤ MOST_ACTORS }
    requires ready { (house : _) × (sessions : ℕ) × AreReady desk.now house sessions opener.old.seen actors.old }
    ensures opener { opener.new ≡ opener.old }
    ensures ready { (house : _) (sessions : ℕ) → AreReady desk.now house sessions opener.old.seen actors.old →
        AreReady desk.now house sessions opener.old.seen actors.new ×
        ((c : ℕ) → 1 ≤ c → c ≤ length actors.old → calls opener.old.seen c ≡ line_of c Enrol Done ∷ []) }
    ensures commands { KeepCommands actors.old actors.new }
{
    let callers = actors.len();
    for i in 0..callers {
        let place = callers - 1 - i;
        actors[place].meet(alloc, desk, opener);
    }
}

/// Runs all actors beside one another, each in a thread of its own where one can be made. Where none can, the places
/// are visited from the last to the first: so sessions stand last and workers first, since a worker waits for the
/// sessions.
pub fn run_all<R: Threads + Wait + Sync, G: Gate>(
    rt: &R,
    alloc: Global,
    desk: &Desk,
    actors: &mut [Actor],
    sessions: u32,
    lead: u64,
    unit: u64,
    gate: &G,
)
    requires ready { (house : _) × (seen : _) × AreReady desk.now house sessions seen actors.old ×
        AreTerms house sessions lead unit }
    ensures run { (house : _) (seen : _) → AreReady desk.now house sessions seen actors.old →
        AreTerms house sessions lead unit → HaveRun desk.now house sessions actors.new }
    ensures commands { KeepCommands actors.old actors.new }
{
    let threads = actors.len();
    if threads == 0 {
        return;
    }
    thread::for_each_mut(
        rt,
        actors,
        threads,
        &|_: usize, actor: &mut Actor|
            requires { (house : _) × (number : ℕ) × (seen : _) ×
                IsReady desk.now house sessions number seen actor.old × AreTerms house sessions lead unit }
            ensures run { (house : _) (number : ℕ) (seen : _) →
                IsReady desk.entry.now house sessions number seen actor.old → AreTerms house sessions lead unit →
                HasRun desk.entry.now house sessions number actor.new }
            ensures commands { actor.new.commands ≡ actor.old.commands }
        { actor.run(rt, alloc, desk, sessions, lead, unit, gate) },
    );
}

/// Ends all actors in the opener's pass.
pub fn join_all(desk: &Desk, opener: &mut Pass, actors: &mut [Actor])
    requires desk { opener.old.desk ≡ desk.now }
    requires few { length actors.old ≤ MOST_ACTORS }
    requires run { (house : _) × (sessions : ℕ) × HaveRun desk.now house sessions actors.old }
    ensures opener { HasJoined opener.old opener.new }
    ensures ended { (house : _) (sessions c : ℕ) (a : Actor) → HaveRun desk.now house sessions actors.old → 1 ≤ c →
        c ≤ length actors.old →
        IsEnded house sessions c (slice_index_or actors.old (length actors.old - c) a).commands.items opener.new
        (slice_index_or actors.old (length actors.old - c) a).stop }
    ensures stops { (length actors.new ≡ length actors.old) ×
        ((i : ℕ) (a : Actor) → i < length actors.old →
        (slice_index_or actors.new i a).stop ≡ (slice_index_or actors.old i a).stop) }
{
    let callers = actors.len();
    for i in 0..callers {
        let place = callers - 1 - i;
        actors[place].join(desk, opener);
    }
}
