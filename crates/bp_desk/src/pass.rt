//! Passes: the right to call at one desk under one number, and what is left of it after the caller's last entry.
ghost use Rattle.std.specs.Prelude.{◌≡◌, ◌≤◌, length, All, IsTrue};
ghost use Rattle.bp_types.specs.Program.{price};
ghost use Rattle.bp_types.specs.Spans.{IsSpanWithin};
ghost use Rattle.bp_turn.specs.Prefix.{IsPrefix};
ghost use Rattle.bp_core.specs.Lines.{History, calls, last_number, last_position, last_prices};
ghost use Rattle.bp_core.specs.Callers.{may_act, has_left};
ghost use Rattle.bp_core.specs.Legal.{IsLegal};
ghost use Rattle.bp_desk.specs.Passes.{HasAccounts};

use crate::newest::Newest;
use crate::shared::Shared;
use bp_turn::TurnSeat;
use bp_types::Span;
use std::marker::Model;

/// The right to call at one desk, under one number. It may move to another thread.
///
/// Contracts see what it has seen and done there.
#[derive(Drop)]
pub struct Pass {
    pub(crate) seat: TurnSeat<Shared>,
    pub(crate) caller: u32,
    /// The number that it hands out next, and `CALLERS` where it hands out none.
    pub(crate) next: u32,
    pub(crate) newest: Newest,
}

impl Model for Pass {
    ghost use Rattle.bp_desk.specs.Passes.{PassState, pass_of, IsPass};

    ghost Value = { PassState };

    ghost view = { λ p. pass_of p.seat };

    ghost invariant = { λ p. IsPass p.seat p.caller p.next p.newest };
}

/// What the nights of a span cost in a vector.
#[derive(Clone, Copy, Debug, PartialEq, Eq)]
pub struct Quote {
    /// The vector's number, counted from 0.
    pub number: u64,
    /// The position that the vector is for.
    pub position: u64,
    /// The sum of the prices, in minor units of money.
    pub sum: u64,
}

impl Pass {
    /// Tells what holds of every pass. It does nothing.
    pub fn facts(&self)
        ensures legal { IsLegal self.now.house self.now.seen }
        ensures may { IsTrue (may_act self.now.seen self.now.caller) }
        ensures accounts { HasAccounts self.now }
        ensures turns { All (λ t. t ≤ length self.now.seen) self.now.turns }
    {
        self.seat.facts();
    }

    /// The price of a span by the newest vector that the pass has seen, without a turn. It does not wait; the number
    /// never falls. A difference of two sums, it takes the same time for every span.
    pub fn quote(&self, span: Span) -> Quote
        requires { IsSpanWithin (length self.now.house.rooms) span }
        ensures number { result.number ≡ last_number self.now.seen }
        ensures never_falls { (before : History) → IsPrefix before self.now.seen → last_number before ≤ result.number }
        ensures position { result.position ≡ last_position self.now.seen }
        ensures sum { result.sum ≡ price (last_prices self.now.seen) span }
    {
        Quote {
            number: self.newest.number(),
            position: self.newest.position(),
            sum: self.newest.price(span),
        }
    }

    /// The number that it calls under: 0 is the opener's.
    pub fn caller(&self) -> u32
        ensures { result ≡ self.now.caller }
    {
        self.caller
    }
}

/// What is left of a pass after its caller has left.
#[derive(Drop)]
pub struct Left {
    pub(crate) seat: TurnSeat<Shared>,
    pub(crate) newest: Newest,
}

impl Model for Left {
    ghost use Rattle.bp_desk.specs.Passes.{PassState, pass_of, IsGone};

    ghost Value = { PassState };

    ghost view = { λ p. pass_of p.seat };

    ghost invariant = { λ p. IsGone p.seat p.newest };
}

impl Left {
    /// Tells what holds of every caller that has left. It does nothing.
    pub fn facts(&self)
        ensures legal { IsLegal self.now.house self.now.seen }
        ensures left { IsTrue (has_left self.now.seen self.now.caller) }
        ensures own { calls self.now.seen self.now.caller ≡ self.now.calls }
        ensures turns { All (λ t. t ≤ length self.now.seen) self.now.turns }
    {
        self.seat.facts();
    }
}
