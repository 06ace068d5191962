//! The instance along a history, a few changes at a time.
ghost use Rattle.std.specs.Prelude.{◌≡◌, ◌<◌, ◌≤◌, length, vec_capacity, IfOk};
ghost use Rattle.bp_types.specs.Changes.{Leads};
ghost use Rattle.bp_warm.specs.Turns.{units_moved_by_all};
ghost use Rattle.bp_core.specs.Changes.{deltas_between};
ghost use Rattle.bp_judge.specs.Courses.{IsCourse};

use crate::units::apply_all;
use bp_core::Book;
use bp_types::{Change, Instance, Memory};
use std::alloc::Global;

/// How many changes are taken at once.
const BUFFER: usize = 512;

/// The instance at a position of a history, with the changes that were made last.
#[derive(Drop)]
pub(crate) struct Course {
    pub(crate) instance: Instance,
    pub(crate) position: u64,
    pub(crate) changes: Vec<Change>,
}

impl Course {
    /// The course that begins at a position with its instance.
    pub(crate) fn new(alloc: Global, instance: Instance, position: u64) -> Result<Course, Memory>
        ensures instance { IfOk result (λ c. c.instance ≡ instance) }
        ensures position { IfOk result (λ c. c.position ≡ position) }
        ensures room { IfOk result (λ c. 2 ≤ vec_capacity c.changes) }
    {
        let changes = Vec::with_capacity(alloc, BUFFER)?;
        Ok(Course {
            instance,
            position,
            changes,
        })
    }

    /// A course of its own from the same position.
    pub(crate) fn copy(&self, alloc: Global) -> Result<Course, Memory>
        ensures instance { IfOk result (λ c. c.instance ≡ self.now.instance) }
        ensures position { IfOk result (λ c. c.position ≡ self.now.position) }
        ensures room { IfOk result (λ c. 2 ≤ vec_capacity c.changes) }
    {
        Course::new(alloc, self.instance.copy(alloc)?, self.position)
    }

    /// Goes on to a position.
    pub(crate) fn advance(&mut self, book: &Book, until: u64)
        requires is { IsCourse book.now.house book.now.history self.old }
        requires before { self.old.position ≤ until }
        requires within { until ≤ length book.now.history }
        ensures is { IsCourse book.now.house book.now.history self.new }
        ensures position { self.new.position ≡ until }
    {
        while self.position < until {
            self.step(book, until);
        }
    }

    /// Makes the next changes, as many as there is room for, and answers how many units they move.
    pub(crate) fn step(&mut self, book: &Book, until: u64) -> u128
        requires is { IsCourse book.now.house book.now.history self.old }
        requires before { self.old.position < until }
        requires within { until ≤ length book.now.history }
        ensures is { IsCourse book.now.house book.now.history self.new }
        ensures goes_on { self.old.position < self.new.position }
        ensures within { self.new.position ≤ until }
        ensures deltas { self.new.changes.items ≡
            deltas_between book.now.house book.now.history self.old.position self.new.position }
        ensures leads { Leads self.old.instance self.new.changes.items self.new.instance }
        ensures moved { result ≡ units_moved_by_all self.old.instance self.new.changes.items }
    {
        self.changes.clear();
        self.position = book.changes_until(self.position, until, &mut self.changes);
        apply_all(&mut self.instance, &self.changes)
    }
}
