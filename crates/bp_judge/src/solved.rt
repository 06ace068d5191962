//! A solver along a history, carried on where few units moved.
ghost use Rattle.std.specs.Prelude.{◌≡◌, ◌+◌, ◌≤◌, length, IfOk, MatchBool};
ghost use Rattle.bp_types.specs.Changes.{Leads};
ghost use Rattle.bp_warm.specs.Turns.{units_moved_by_all};
ghost use Rattle.bp_flow.specs.Settled.{IsSettled};
ghost use Rattle.bp_flow.specs.Solvers.{CountsUpTo};
ghost use Rattle.bp_flow.specs.Rising.{searches_from_nothing};
ghost use Rattle.bp_judge.specs.Courses.{IsCourse};
ghost use Rattle.bp_judge.specs.Searches.{most_moved, moved_between};
ghost use Rattle.bp_judge.specs.Trails.{IsSolvedAt};

use crate::course::Course;
use bp_core::Book;
use bp_flow::Solver;
use bp_types::{Memory, Steps};
use bp_warm::catch_up;
use std::alloc::Global;
use std::sync::ledger::Ledger;

/// Where more rooms than these are moved, an instance is solved from nothing. A booking moves two at most.
pub(crate) const MOST_MOVED: u64 = 128;

/// A solver at a position of a history, with the course of its instance.
#[derive(Drop)]
pub(crate) struct Solved {
    pub(crate) solver: Solver,
    pub(crate) course: Course,
}

impl Solved {
    /// Solves the instance of a course from nothing.
    pub(crate) fn cold<L: Ledger>(
        alloc: Global,
        course: Course,
        steps: &mut Steps<L>,
    ) -> Result<Solved, Memory>
        ensures course { IfOk result (λ s. s.course ≡ course) }
        ensures program { IfOk result (λ s. s.solver.flow.program ≡ course.instance) }
        ensures settled { IfOk result (λ s. IsSettled s.solver) }
        ensures counted { CountsUpTo steps.old steps.new (searches_from_nothing course.instance) }
    {
        let solver = Solver::cold(alloc, &course.instance, steps)?;
        Ok(Solved { solver, course })
    }

    /// Goes on to a position, where few enough units are moved up to it; else the course alone goes on, some way.
    ///
    /// One search a unit moved, and one for each time that changes are taken, are counted against a number of rooms; so
    /// there are no more searches than these rooms have units.
    pub(crate) fn reach<L: Ledger>(&mut self, book: &Book, until: u64, steps: &mut Steps<L>) -> bool
        requires is { IsSolvedAt book.now.house book.now.history self.old }
        requires before { self.old.course.position ≤ until }
        requires within { until ≤ length book.now.history }
        ensures course { IsCourse book.now.house book.now.history self.new.course }
        ensures within { self.new.course.position ≤ until }
        ensures reached { MatchBool result (IsSolvedAt book.now.house book.now.history self.new ×
            (self.new.course.position ≡ until)) (IsCourse book.now.house book.now.history self.new.course) }
        ensures counted { CountsUpTo steps.old steps.new (most_moved book.now.house) }
        ensures caught_up { MatchBool result
            (CountsUpTo steps.old steps.new
            (moved_between book.now.house book.now.history self.old.course.position until))
            (most_moved book.now.house ≤ moved_between book.now.house book.now.history self.old.course.position until) }
    {
        let mut left = u128::from(book.house().limits().unit * MOST_MOVED);
        while self.course.position < until {
            let moved = self.course.step(book, until);
            if moved >= left {
                return false;
            }
            left -= moved + 1;
            self.follow(steps);
        }
        true
    }

    /// Makes the changes that the course made last.
    fn follow<L: Ledger>(&mut self, steps: &mut Steps<L>)
        requires { Leads self.old.solver.flow.program self.old.course.changes.items self.old.course.instance }
        ensures course { self.new.course ≡ self.old.course }
        ensures program { self.new.solver.flow.program ≡ self.old.course.instance }
        ensures settled { IsSettled self.new.solver }
        ensures counted { CountsUpTo steps.old steps.new
            (units_moved_by_all self.old.solver.flow.program self.old.course.changes.items + 1) }
    {
        catch_up(&mut self.solver, &self.course.changes, steps);
    }
}
