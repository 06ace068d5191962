//! A vector as displays keep it: number, position, and the sums of its prices, in a fixed array.
ghost use Rattle.std.specs.Prelude.{◌≡◌, ◌≤◌, length, slice_index};
ghost use Rattle.bp_types.specs.declared.limits.TheConstants.{MOST_NIGHTS};
ghost use Rattle.bp_types.specs.Prices.{SumUp};
ghost use Rattle.bp_types.specs.Program.{price};
ghost use Rattle.bp_types.specs.Spans.{IsSpanWithin};
ghost use Rattle.bp_core.specs.Lines.{last_prices};
ghost use Rattle.bp_show.specs.Vectors.{vector_on, newest_of};

use bp_board::Board;
use bp_desk::Pass;
use bp_types::Span;
use bp_types::limits::MOST_NODES;
use std::marker::Model;

/// A vector as it is kept by a screen and its views. All its room is in place.
#[derive(Drop)]
pub(crate) struct Sums {
    number: u64,
    position: u64,
    nights: u32,
    /// The prices of the nights from each one to the last, and 0 at the end.
    sums: [u64; MOST_NODES],
}

impl Model for Sums {
    ghost use Rattle.bp_show.specs.Vectors.{Vector, falls_of, FallTo};

    ghost Value = { Vector };

    ghost view = { λ s. record { number = s.number; position = s.position; prices = falls_of s.nights s.sums } };

    ghost invariant = { λ s. FallTo s.nights s.sums };
}

impl Sums {
    /// The vector of a board, under a number.
    pub(crate) fn of_board(number: u64, board: &Board) -> Sums
        ensures { result ≡ vector_on number board.now }
    {
        let position = board.position();
        let nights = board.nights();
        let mut sums = [0; MOST_NODES];
        sum_board(board, &mut sums);
        Sums {
            number,
            position,
            nights,
            sums,
        }
    }

    /// The newest vector that a pass has seen, for so many nights.
    pub(crate) fn of_pass(pass: &Pass, nights: u32) -> Sums
        requires nights { nights ≡ length pass.now.house.rooms }
        requires some { 1 ≤ nights }
        requires most { nights ≤ MOST_NIGHTS }
        ensures { result ≡ newest_of pass.now.seen }
    {
        pass.facts();
        let mut sums = [0; MOST_NODES];
        sum_pass(pass, nights, &mut sums);
        let quote = pass.quote(Span {
            from: 0,
            to: nights,
        });
        Sums {
            number: quote.number,
            position: quote.position,
            nights,
            sums,
        }
    }

    /// The same vector once more.
    pub(crate) fn copy(&self) -> Sums
        ensures { result ≡ self.now }
    {
        Sums {
            number: self.number,
            position: self.position,
            nights: self.nights,
            sums: self.sums,
        }
    }

    /// The vector's number.
    pub(crate) fn number(&self) -> u64
        ensures { result ≡ self.now.number }
    {
        self.number
    }

    /// The position that it is for.
    pub(crate) fn position(&self) -> u64
        ensures { result ≡ self.now.position }
    {
        self.position
    }

    /// How many nights have a price.
    pub(crate) fn nights(&self) -> u32
        ensures number { result ≡ length self.now.prices }
        ensures most { result ≤ MOST_NIGHTS }
    {
        self.nights
    }

    /// The sum of the prices of a span's nights, in minor units of money: a difference of two sums.
    pub(crate) fn price(&self, span: Span) -> u64
        requires { IsSpanWithin (length self.now.prices) span }
        ensures { result ≡ price self.now.prices span }
    {
        self.sums[span.from as usize] - self.sums[span.to as usize]
    }
}

/// Fills in the sums of a board's prices.
fn sum_board(board: &Board, sums: &mut [u64; MOST_NODES])
    requires { length board.now.certificate.prices ≤ MOST_NIGHTS }
    ensures { SumUp board.now.certificate.prices sums.new }
{
    for night in 0..=board.nights() {
        sums[night as usize] = board.sum_from(night);
    }
}

/// Fills in the sums of the prices of the newest vector that a pass has seen.
fn sum_pass(pass: &Pass, nights: u32, sums: &mut [u64; MOST_NODES])
    requires nights { nights ≡ length pass.now.house.rooms }
    requires most { nights ≤ MOST_NIGHTS }
    requires prices { length (last_prices pass.now.seen) ≡ nights }
    ensures { SumUp (last_prices pass.now.seen) sums.new }
{
    for night in 0..nights {
        let rest = pass.quote(Span {
            from: night,
            to: nights,
        });
        sums[night as usize] = rest.sum;
    }
    sums[nights as usize] = 0;
}
