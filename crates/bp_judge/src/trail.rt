//! What a judge carries along a history.
ghost use Rattle.std.specs.Prelude.{◌≡◌, ◌+◌, ◌≤◌, Some, None, length, IfOk};
ghost use Rattle.bp_types.specs.declared.limits.TheConstants.{MOST_GROUP_ROOMS};
ghost use Rattle.bp_types.specs.Spans.{IsSpanWithin, first_short};
ghost use Rattle.bp_types.specs.declared.command.Command.TheVariants.{Group};
ghost use Rattle.bp_flow.specs.Solvers.{CountsUpTo};
ghost use Rattle.bp_core.specs.Acting.{IsQuoteFor};
ghost use Rattle.bp_core.specs.Instance.{rooms_left_at};
ghost use Rattle.bp_judge.specs.Searches.{searches_to_solve, searches_to_quote};
ghost use Rattle.bp_judge.specs.Trails.{GoesWith, IsSolvedAt, quoted_at};

use crate::course::Course;
use crate::solved::Solved;
use bp_core::Book;
use bp_group::{QuoteError, quote};
use bp_types::{Memory, Quoted, Span, Steps};
use std::alloc::Global;
use std::sync::ledger::Ledger;

/// What is carried along a history: the instance at the last vector's position, and the last solver used.
#[derive(Drop)]
pub(crate) struct Trail {
    pub(crate) course: Course,
    pub(crate) solved: Option<Solved>,
}

impl Trail {
    /// The displacement of a group for which there are rooms, at the end of the history.
    pub(crate) fn quote<L: Ledger>(
        &mut self,
        alloc: Global,
        book: &Book,
        span: Span,
        rooms: u64,
        amount: u64,
        steps: &mut Steps<L>,
    ) -> Result<Quoted, Memory>
        requires goes { GoesWith book.now.house book.now.history self.old }
        requires span { IsSpanWithin (length book.now.house.rooms) span }
        requires rooms { rooms ≤ MOST_GROUP_ROOMS }
        requires room { first_short (rooms_left_at book.now.house book.now.history) span rooms ≡ None }
        ensures right { IfOk result (λ q. IsQuoteFor book.now.house book.now.history (Group span rooms amount) q) }
        ensures newest { IfOk result (λ q. q.position ≡ length book.now.history) }
        ensures goes { IfOk result (λ _. GoesWith book.now.house book.now.history self.new) }
        ensures at { IfOk result (λ _. quoted_at self.new ≡ Some (length book.now.history)) }
        ensures course { IfOk result (λ _. self.new.course ≡ self.old.course) }
        ensures counted { CountsUpTo steps.old steps.new
            (searches_to_solve book.now.house book.now.history (quoted_at self.old) +
            searches_to_quote book.now.house rooms) }
    {
        let solved = self.solved_now(alloc, book, steps)?;
        let units = book.house().limits().unit * rooms;
        match quote(
            alloc,
            &solved.solver,
            solved.course.position,
            span,
            units,
            steps,
        ) {
            Ok(found) => {
                self.solved = Some(solved);
                Ok(found.quoted())
            }
            Err(QuoteError::Memory) => Err(Memory),
            Err(QuoteError::NoRoom { .. }) => unreachable!(),
        }
    }

    /// A solver of the instance at the end of the history: the last one used, where it can catch up, or else a new one.
    fn solved_now<L: Ledger>(
        &mut self,
        alloc: Global,
        book: &Book,
        steps: &mut Steps<L>,
    ) -> Result<Solved, Memory>
        requires goes { GoesWith book.now.house book.now.history self.old }
        ensures solved { IfOk result (IsSolvedAt book.now.house book.now.history) }
        ensures newest { IfOk result (λ s. s.course.position ≡ length book.now.history) }
        ensures course { self.new.course ≡ self.old.course }
        ensures counted { CountsUpTo steps.old steps.new
            (searches_to_solve book.now.house book.now.history (quoted_at self.old)) }
    {
        let until = book.length();
        let mut course = match self.solved.take() {
            Some(mut solved) => {
                if solved.reach(book, until, steps) {
                    return Ok(solved);
                }
                solved.course
            }
            None => self.course.copy(alloc)?,
        };
        course.advance(book, until);
        Solved::cold(alloc, course, steps)
    }
}
