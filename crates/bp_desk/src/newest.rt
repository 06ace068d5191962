//! The newest vector that a pass has seen, with its prices as sums.
ghost use Rattle.std.specs.Prelude.{◌≡◌, ◌≢◌, ◌+◌, ◌-◌, ◌<◌, ◌≤◌, length, slice_index, IfOk};
ghost use Rattle.bp_types.specs.Prices.{SumUp};
ghost use Rattle.bp_core.specs.Lines.{last_number};
ghost use Rattle.bp_desk.specs.Newest.{IsNewest};

use bp_board::Board;
use bp_core::Book;
use bp_types::{Memory, Span};
use std::alloc::Global;
use std::marker::Model;

/// The newest vector that a pass has seen. All its room is taken when it is made.
#[derive(Drop)]
pub(crate) struct Newest {
    number: u64,
    position: u64,
    /// The prices of the nights from each one to the last, and 0 at the end.
    sums: Vec<u64>,
}

impl Model for Newest {
    ghost use Rattle.bp_desk.specs.Newest.{Vector};

    ghost Value = { Vector };

    ghost view = { λ n. record { number = n.number; position = n.position; sums = n.sums.items } };

    ghost invariant = { λ n. Unit {0} };
}

impl Newest {
    /// The last vector of a book.
    pub(crate) fn of(alloc: Global, book: &Book) -> Result<Newest, Memory>
        ensures { IfOk result (λ n. IsNewest book.now.house book.now.history n) }
    {
        let nights = book.house().nights() as usize;
        let mut newest = Newest {
            number: 0,
            position: 0,
            sums: vec![in alloc; 0; nights + 1]?,
        };
        newest.copy_last(book);
        Ok(newest)
    }

    /// The same vector, kept in room of its own.
    pub(crate) fn copy(&self, alloc: Global) -> Result<Newest, Memory>
        ensures { IfOk result (λ n. n ≡ self.now) }
    {
        Ok(Newest {
            number: self.number,
            position: self.position,
            sums: Vec::from_slice(alloc, &self.sums)?,
        })
    }

    /// The vector's number.
    pub(crate) fn number(&self) -> u64
        ensures { result ≡ self.now.number }
    {
        self.number
    }

    /// The position that it is for.
    pub(crate) fn position(&self) -> u64
        ensures { result ≡ self.now.position }
    {
        self.position
    }

    /// The difference of the sums at the ends of a span.
    pub(crate) fn price(&self, span: Span) -> u64
        requires ordered { span.from < span.to }
        requires within { span.to < length self.now.sums }
        requires falls { slice_index self.now.sums span.to ≤ slice_index self.now.sums span.from }
        ensures { result ≡ slice_index self.now.sums span.from - slice_index self.now.sums span.to }
    {
        self.sums[span.from as usize] - self.sums[span.to as usize]
    }

    /// Becomes the last vector of a book, where it is another one.
    pub(crate) fn learn(&mut self, book: &Book)
        requires { length self.old.sums ≡ length book.now.house.rooms + 1 }
        ensures same { self.old.number ≡ last_number book.now.history → self.new ≡ self.old }
        ensures other { self.old.number ≢ last_number book.now.history →
            IsNewest book.now.house book.now.history self.new }
    {
        if self.number != book.vectors().saturating_sub(1) {
            self.copy_last(book);
        }
    }

    /// Becomes the last vector of a book.
    fn copy_last(&mut self, book: &Book)
        requires { length self.old.sums ≡ length book.now.house.rooms + 1 }
        ensures { IsNewest book.now.house book.now.history self.new }
    {
        let board = book.last_board();
        self.number = book.vectors().saturating_sub(1);
        self.position = board.position();
        sum_up(board, &mut self.sums);
    }

    /// Becomes the newer of two vectors.
    pub(crate) fn hear(&mut self, other: &Newest)
        requires { length self.old.sums ≡ length other.now.sums }
        ensures newer { self.old.number < other.now.number → self.new ≡ other.now }
        ensures older { other.now.number ≤ self.old.number → self.new ≡ self.old }
    {
        if self.number < other.number {
            self.number = other.number;
            self.position = other.position;
            self.sums.copy_from_slice(&other.sums);
        }
    }
}

/// Fills in the sums of a board's prices from each night to the last.
fn sum_up(board: &Board, sums: &mut [u64])
    requires { length sums.old ≡ length board.now.certificate.prices + 1 }
    ensures { SumUp board.now.certificate.prices sums.new }
{
    let _position = board.position();
    let nights = sums.len() - 1;
    for night in 0..nights {
        sums[night] = board.price(Span {
            from: night as u32,
            to: nights as u32,
        });
    }
    sums[nights] = 0;
}
