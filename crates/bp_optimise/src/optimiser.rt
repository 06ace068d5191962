//! An optimiser: a solver that follows the history of a desk, publishes and quotes.
ghost use Rattle.std.specs.Prelude.{◌≡◌, ◌*◌, ◌<◌, ◌≤◌, length, IfOk, OnErr};
ghost use Rattle.std.specs.Arc.{arc_value};
ghost use Rattle.bp_types.specs.Claim.{IsLeastCertificate};
ghost use Rattle.bp_types.specs.Spans.{IsSpanWithin};
ghost use Rattle.bp_flow.specs.Settled.{IsSettled};
ghost use Rattle.bp_optimise.specs.Following.{Optimising, GoesWith, HasLooked, HasCaughtUp};
ghost use Rattle.bp_optimise.specs.Rounds.{IsRound};
ghost use Rattle.bp_optimise.specs.Searching.{LeadOn, CountsCatchingUp};
ghost use Rattle.bp_optimise.specs.Quoting.{IsQuoteOf};

use crate::round::{Round, round_of};
use bp_board::Board;
use bp_desk::{Desk, Pass};
use bp_flow::Solver;
use bp_group::{QuoteError, quote};
use bp_types::{Change, Memory, Quoted, Span, Steps};
use bp_warm::catch_up;
use std::alloc::Global;
use std::marker::Model;
use std::sync::ledger::Ledger;
use std::sync::{Arc, Wait};

/// How many changes an optimiser takes from the desk at one turn. An entry makes two at most.
const BATCH: usize = 256;

/// A solver that follows the history of a desk. Between calls its prices are the least ones of its instance.
///
/// Contracts see the solver and the position: how many entries its instance knows. It goes with a pass where the pass
/// has seen so many entries, and the instance is the one after them.
#[derive(Drop)]
pub struct Optimiser {
    solver: Solver,
    position: u64,
    /// The changes of one turn; only its room is kept between calls.
    buffer: Vec<Change>,
}

impl Model for Optimiser {
    ghost use Rattle.std.specs.Prelude.{◌≤◌, vec_capacity};
    ghost use Rattle.bp_flow.specs.Settled.{IsSettled};
    ghost use Rattle.bp_optimise.specs.Following.{Optimising};

    ghost Value = { Optimising };

    ghost view = { λ o. record { solver = o.solver; position = o.position } };

    ghost invariant = { λ o. IsSettled o.solver × (2 ≤ vec_capacity o.buffer) };
}

impl Optimiser {
    /// An optimiser at position 0 with a settled solver. It takes the room that catching up needs. The one error is
    /// `Memory`.
    pub fn new(alloc: Global, solver: Solver) -> Result<Optimiser, Memory>
        requires { IsSettled solver }
        ensures { IfOk result (λ o. o ≡ record { solver = solver; position = 0 }) }
    {
        let buffer = Vec::with_capacity(alloc, BATCH)?;
        Ok(Optimiser {
            solver,
            position: 0,
            buffer,
        })
    }

    /// Tells what holds of every optimiser between calls: its prices are the least ones. It does nothing.
    pub fn facts(&self)
        ensures { IsSettled self.now.solver }
    {
        let _position = self.position;
    }

    /// Looks how long the history is, and catches up to there. It takes no memory.
    ///
    /// It makes as many searches as the changes on its way move units, and one more for each of these changes, at most.
    pub fn advance<R: Wait, L: Ledger>(
        &mut self,
        rt: &R,
        desk: &Desk,
        pass: &mut Pass,
        steps: &mut Steps<L>,
    )
        requires desk { pass.old.desk ≡ desk.now }
        requires goes { GoesWith pass.old.house pass.old.seen self.old }
        ensures goes { GoesWith pass.new.house pass.new.seen self.new }
        ensures caught_up { HasCaughtUp pass.old pass.new self.new.position }
        ensures counted { CountsCatchingUp pass.new.house pass.new.seen steps.old steps.new self.old self.new }
    {
        let lag = desk.lag(rt, pass);
        self.advance_to(rt, desk, pass, lag.length, steps);
    }

    /// Catches up to a position that the pass has seen.
    fn advance_to<R: Wait, L: Ledger>(
        &mut self,
        rt: &R,
        desk: &Desk,
        pass: &mut Pass,
        until: u64,
        steps: &mut Steps<L>,
    )
        requires desk { pass.old.desk ≡ desk.now }
        requires within { until ≤ length pass.old.seen }
        requires before { self.old.position ≤ until }
        requires goes { GoesWith pass.old.house pass.old.seen self.old }
        ensures goes { GoesWith pass.new.house pass.new.seen self.new }
        ensures position { self.new.position ≡ until }
        ensures pass { HasLooked pass.old pass.new }
        ensures counted { CountsCatchingUp pass.old.house pass.old.seen steps.old steps.new self.old self.new }
    {
        while self.position < until {
            self.step(rt, desk, pass, until, steps);
        }
    }

    /// Makes the next changes, as many as fit into the buffer, in one restart. Where nothing changed there is none.
    fn step<R: Wait, L: Ledger>(
        &mut self,
        rt: &R,
        desk: &Desk,
        pass: &mut Pass,
        until: u64,
        steps: &mut Steps<L>,
    )
        requires desk { pass.old.desk ≡ desk.now }
        requires within { until ≤ length pass.old.seen }
        requires before { self.old.position < until }
        requires goes { GoesWith pass.old.house pass.old.seen self.old }
        ensures goes { GoesWith pass.new.house pass.new.seen self.new }
        ensures moves { (self.old.position < self.new.position) × (self.new.position ≤ until) }
        ensures leads { LeadOn pass.old.house pass.old.seen self.old.position self.new.position }
        ensures pass { HasLooked pass.old pass.new }
        ensures counted { CountsCatchingUp pass.old.house pass.old.seen steps.old steps.new self.old self.new }
    {
        self.buffer.clear();
        let reached = desk.changes_until(rt, pass, self.position, until, &mut self.buffer);
        if !self.buffer.is_empty() {
            catch_up(&mut self.solver, &self.buffer, steps);
        }
        self.position = reached;
    }

    /// Publishes a board with the least prices at the position that it catches up to, where at least so many changes
    /// stand after the last vector's position.
    ///
    /// It makes no more searches than `advance`. After want of memory nothing was published.
    pub fn round<R: Wait, L: Ledger>(
        &mut self,
        rt: &R,
        alloc: Global,
        desk: &Desk,
        pass: &mut Pass,
        least: u64,
        steps: &mut Steps<L>,
    ) -> Result<Round, Memory>
        requires desk { pass.old.desk ≡ desk.now }
        requires goes { GoesWith pass.old.house pass.old.seen self.old }
        requires least { 1 ≤ least }
        ensures goes { GoesWith pass.new.house pass.new.seen self.new }
        ensures round { IfOk result (IsRound pass.old pass.new self.new.position least) }
        ensures refused { OnErr result (HasLooked pass.old pass.new) }
        ensures counted { CountsCatchingUp pass.new.house pass.new.seen steps.old steps.new self.old self.new }
    {
        let lag = desk.lag(rt, pass);
        if lag.changes < least {
            return Ok(Round::Unchanged {
                changes: lag.changes,
            });
        }
        self.advance_to(rt, desk, pass, lag.length, steps);
        let board = self.board(alloc)?;
        Ok(round_of(desk.publish(rt, pass, board, least)))
    }

    /// A board with the least prices of the instance, for the position.
    fn board(&self, alloc: Global) -> Result<Arc<Board>, Memory>
        ensures position { IfOk result (λ b. (arc_value b).position ≡ self.now.position) }
        ensures least { IfOk result (λ b. IsLeastCertificate self.now.solver.flow.program (arc_value b).certificate) }
    {
        let _nights = self.solver.nights();
        let certificate = self.solver.certificate(alloc)?;
        let board = Board::new(alloc, self.position, certificate)?;
        match Arc::new(alloc, board) {
            Ok(board) => Ok(board),
            Err(_) => Err(Memory),
        }
    }

    /// What a group costs as of the position: so many rooms, of so many units each, on each night of a span. There is
    /// no quote only where a night lacks these units.
    pub(crate) fn quote_units<L: Ledger>(
        &self,
        alloc: Global,
        span: Span,
        rooms: u64,
        unit: u64,
        steps: &mut Steps<L>,
    ) -> Result<Option<Quoted>, Memory>
        requires { IsSpanWithin (length self.now.solver.flow.program.rooms) span }
        ensures { IfOk result (IsQuoteOf self.now.solver.flow.program self.now.position span (unit * rooms)) }
    {
        let _nights = self.solver.nights();
        let Some(units) = unit.checked_mul(rooms) else {
            return Ok(None);
        };
        match quote(alloc, &self.solver, self.position, span, units, steps) {
            Ok(group) => Ok(Some(group.quoted())),
            Err(QuoteError::NoRoom { .. }) => Ok(None),
            Err(QuoteError::Memory) => Err(Memory),
        }
    }
}
