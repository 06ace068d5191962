//! Which calls of an edge in memory fail.
ghost use Rattle.std.specs.Prelude.{◌≡◌, ◌≤◌, ◌↔◌, IsTrue};
ghost use Rattle.bp_edges.specs.Counts.{raised};
ghost use Rattle.bp_edges.specs.Schedule.{NextFails, one_more};

use std::marker::Model;

/// The calls that fail, counted from 1, and how many were made.
#[derive(Drop)]
pub struct Schedule {
    failing: Vec<u64>,
    calls: u64,
}

impl Model for Schedule {
    ghost use Rattle.bp_edges.specs.Schedule.{Schedule as State};

    ghost Value = { State };

    ghost view = { λ schedule. record { calls = schedule.calls; failing = schedule.failing.items } };
}

impl Schedule {
    /// No call made yet; those of the numbers in `failing`, counted from 1, will fail.
    pub fn new(failing: Vec<u64>) -> Schedule
        ensures calls { result.calls ≡ 0 }
        ensures failing { result.failing ≡ failing.items }
    {
        Schedule { failing, calls: 0 }
    }

    /// Counts a call, and says whether it fails. It takes the time of the list.
    pub fn next_fails(&mut self) -> bool
        ensures fails { IsTrue result ↔ NextFails self.old }
        ensures counted { self.new ≡ one_more self.old }
        ensures later { self.old.calls ≤ self.new.calls }
    {
        if self.calls == u64::MAX {
            return false;
        }
        self.calls += 1;
        self.failing.contains(&self.calls)
    }
}
