//! What it comes to, when each stay of a house is booked once.
ghost use Rattle.std.specs.Prelude.{◌≡◌, ◌+◌, ◌<◌, ◌≤◌, ◌∷◌, [], length, IfOk};
ghost use Rattle.bp_types.specs.Program.{price};
ghost use Rattle.bp_types.specs.Optimum.{IsOptimum};
ghost use Rattle.bp_types.specs.Claim.{IsCertificateOf, IsLeastCertificate};
ghost use Rattle.bp_types.specs.House.{opening};
ghost use Rattle.bp_core.specs.Acting.{opening_line};
ghost use Rattle.bp_core.specs.Instance.{instance_of};
ghost use Rattle.bp_demo.specs.Summaries.{IsSummary, all_nights};

use crate::booking::book_each;
use crate::closing::closing_instance;
use crate::counts::Counts;
use bp_board::Board;
use bp_core::Book;
use bp_flow::Solver;
use bp_types::{Certificate, House, Memory, Span, Steps};
use std::alloc::Global;
use std::marker::Brand;
use std::sync::Arc;
use std::sync::ledger::{Blank, Ledger};

/// What it comes to, when each stay of a house is booked once.
#[derive(Clone, Copy, Debug, PartialEq, Eq)]
pub struct Summary {
    /// The optimum of the house as it opens, in minor units of money times the unit.
    pub value: u128,
    /// The least prices of all its nights together, in minor units of money.
    pub prices: u64,
    /// How the bookings were answered.
    pub counts: Counts,
    /// The optimum of what is left behind the last booking, in minor units of money times the unit.
    pub closing: u128,
}

/// Opens a desk on a house with its least prices, books each stay once, and sums up. The house is solved from nothing
/// twice: as it opens, and behind the last booking. The one error is `Memory`.
pub fn sum_up(alloc: Global, house: House) -> Result<Summary, Memory>
    requires fresh { length house.stays + 1 < house.limits.stale_after }
    requires room { length house.stays + 1 < house.limits.entries }
    ensures { IfOk result (IsSummary house) }
{
    sum_up_by::<Brand>(alloc, house, Blank::new(1))
}

/// The same, with the searches counted in a ledger.
fn sum_up_by<L: Ledger>(alloc: Global, house: House, blank: Blank) -> Result<Summary, Memory>
    requires name { blank.name ≡ L.name }
    requires parts { blank.parts ≡ L.parts }
    requires some { 0 < blank.parts }
    requires fresh { length house.stays + 1 < house.limits.stale_after }
    requires room { length house.stays + 1 < house.limits.entries }
    ensures { IfOk result (IsSummary house) }
{
    let mut steps: Steps<L> = Steps::new(blank);
    let _nights = house.nights();
    let first = least_certificate(alloc, &house, &mut steps)?;
    let value = first.value;
    let board = Board::new(alloc, 0, first)?;
    let prices = price_of_all(&board);
    let mut book = opened(alloc, house, board)?;
    let counts = book_each(&mut book);
    let closing = closing_value(alloc, &book, &mut steps)?;
    Ok(Summary {
        value,
        prices,
        counts,
        closing,
    })
}

/// A certificate of the house as it opens, with the least prices.
fn least_certificate<L: Ledger>(
    alloc: Global,
    house: &House,
    steps: &mut Steps<L>,
) -> Result<Certificate, Memory>
    ensures { IfOk result (IsLeastCertificate (opening house.now)) }
{
    let instance = house.instance(alloc)?;
    let solver = Solver::cold(alloc, &instance, steps)?;
    solver.certificate(alloc)
}

/// The optimum of what a book has come to, solved from nothing.
fn closing_value<L: Ledger>(
    alloc: Global,
    book: &Book,
    steps: &mut Steps<L>,
) -> Result<u128, Memory>
    ensures { IfOk result (IsOptimum (instance_of book.now.house book.now.history)) }
{
    let instance = closing_instance(alloc, book)?;
    let solver = Solver::cold(alloc, &instance, steps)?;
    Ok(solver.value())
}

/// The prices of all nights together.
fn price_of_all(board: &Board) -> u64
    requires { 1 ≤ length board.now.certificate.prices }
    ensures { result ≡ price board.now.certificate.prices (all_nights (length board.now.certificate.prices)) }
{
    board.price(Span {
        from: 0,
        to: board.nights(),
    })
}

/// The book of a house that opens with a board.
fn opened(alloc: Global, house: House, board: Board) -> Result<Book, Memory>
    requires position { board.position ≡ 0 }
    requires certificate { IsCertificateOf (opening house) board.certificate }
    ensures { IfOk result (λ b. b ≡ record { house = house; history = opening_line board ∷ [] }) }
{
    match Arc::new(alloc, board) {
        Ok(board) => Book::new(alloc, house, board),
        Err(_) => Err(Memory),
    }
}
