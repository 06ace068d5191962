//! One caller of a run: a session with its commands, or a worker with its optimiser.
ghost use Rattle.std.specs.Prelude.{◌≡◌, ◌≢◌, ◌≤◌, ◌<◌, ℕ};
ghost use Rattle.bp_optimise.specs.Following.{GoesWith};
ghost use Rattle.bp_optimise.specs.Sessions.{AreInRange, IsSession};
ghost use Rattle.bp_optimise.specs.Works.{IsWork};
ghost use Rattle.bp_desk_run.specs.Endings.{stop_of};
ghost use Rattle.bp_desk_run.specs.Actors.{AreTerms, IsReady, HasRun};

use bp_desk::{Desk, Left, Pass};
use bp_edges::Gate;
use bp_optimise::{Optimiser, SessionEnd, Stop, WorkEnd, session, work};
use bp_types::limits::{MOST_SESSIONS, MOST_WORKERS};
use bp_types::{Command, Steps};
use std::alloc::Global;
use std::marker::Brand;
use std::sync::Wait;
use std::sync::ledger::{Blank, Ledger};

/// Actors of a run, at most: its sessions and its workers.
pub const MOST_ACTORS: usize = MOST_SESSIONS as usize + MOST_WORKERS as usize;

/// A caller: its commands, its pass and optimiser until it runs, and its end. A worker has no command.
#[derive(Drop)]
pub struct Actor {
    /// What a session asks, in its order.
    pub commands: Vec<Command>,
    /// Its pass, from its enrolment until it runs.
    pub pass: Option<Pass>,
    /// Its optimiser, from its enrolment until it runs.
    pub optimiser: Option<Optimiser>,
    /// What is left of its pass, from its end until it is joined into the opener's.
    pub left: Option<Left>,
    /// How many of its commands it made.
    pub done: u64,
    /// Why it made no more of them. A worker finishes, or stops for want of memory.
    pub stop: Stop,
}

impl Actor {
    /// Makes the commands of a session and leaves, or works until all sessions have left.
    pub fn run<R: Wait, G: Gate>(
        &mut self,
        rt: &R,
        alloc: Global,
        desk: &Desk,
        sessions: u32,
        lead: u64,
        unit: u64,
        gate: &G,
    )
        requires { (house : _) × (number : ℕ) × (seen : _) × IsReady desk.now house sessions number seen self.old ×
            AreTerms house sessions lead unit }
        ensures run { (house : _) (number : ℕ) (seen : _) → IsReady desk.now house sessions number seen self.old →
            AreTerms house sessions lead unit → HasRun desk.now house sessions number self.new }
        ensures commands { self.new.commands ≡ self.old.commands }
    {
        let Some(pass) = self.pass.take() else {
            unreachable!()
        };
        let Some(optimiser) = self.optimiser.take() else {
            unreachable!()
        };
        if pass.caller() <= sessions {
            let SessionEnd { left, done, stop } = counted_session::<R, G, Brand>(
                rt,
                alloc,
                desk,
                pass,
                &self.commands,
                optimiser,
                lead,
                unit,
                gate,
                Blank::new(1),
            );
            self.left = Some(left);
            self.done = done;
            self.stop = stop;
        } else {
            let WorkEnd { left, memory } = counted_work::<R, G, Brand>(
                rt,
                alloc,
                desk,
                pass,
                optimiser,
                sessions,
                lead,
                gate,
                Blank::new(1),
            );
            self.left = Some(left);
            self.done = 0;
            self.stop = stop_of(memory);
        }
    }
}

/// A session with a counter of its own.
fn counted_session<R: Wait, G: Gate, L: Ledger>(
    rt: &R,
    alloc: Global,
    desk: &Desk,
    pass: Pass,
    commands: &[Command],
    optimiser: Optimiser,
    lead: u64,
    unit: u64,
    gate: &G,
    blank: Blank,
) -> SessionEnd
    requires name { blank.name ≡ L.name }
    requires parts { blank.parts ≡ L.parts }
    requires some { 0 < blank.parts }
    requires desk { pass.desk ≡ desk.now }
    requires caller { pass.caller ≢ 0 }
    requires range { AreInRange pass.house commands.now }
    requires goes { GoesWith pass.house pass.seen optimiser }
    requires lead { 1 ≤ lead }
    requires unit { unit ≡ pass.house.limits.unit }
    ensures session { IsSession lead commands.now pass result.left result.done result.stop }
{
    let mut steps: Steps<L> = Steps::new(blank);
    session(
        rt, alloc, desk, pass, commands, optimiser, lead, unit, gate, &mut steps,
    )
}

/// A worker with a counter of its own.
fn counted_work<R: Wait, G: Gate, L: Ledger>(
    rt: &R,
    alloc: Global,
    desk: &Desk,
    pass: Pass,
    optimiser: Optimiser,
    sessions: u32,
    lead: u64,
    gate: &G,
    blank: Blank,
) -> WorkEnd
    requires name { blank.name ≡ L.name }
    requires parts { blank.parts ≡ L.parts }
    requires some { 0 < blank.parts }
    requires desk { pass.desk ≡ desk.now }
    requires caller { pass.caller ≢ 0 }
    requires goes { GoesWith pass.house pass.seen optimiser }
    requires lead { 1 ≤ lead }
    ensures work { IsWork sessions lead pass result.left result.memory }
{
    let mut steps: Steps<L> = Steps::new(blank);
    work(
        rt, alloc, desk, pass, optimiser, sessions, lead, gate, &mut steps,
    )
}

/// How a worker stopped.
fn stop_of(memory: bool) -> Stop
    ensures { result ≡ stop_of memory }
{
    if memory { Stop::Memory } else { Stop::Finished }
}
