//! What a stay of each length has to pay.
ghost use Rattle.std.specs.Prelude.{◌≡◌, ◌<◌, length, IfOk};
ghost use Rattle.bp_sheets.specs.Lengths.{hurdles};

use bp_board::Board;
use bp_types::Span;
use std::alloc::{AllocError, Global};

/// The longest stay that a sheet has a hurdle for, in nights.
pub const MOST_LENGTH: u32 = 7;

/// The prices of the stays of 1, 2 and so on nights from an arrival, up to a week and within the nights, in minor units
/// of money. Each is a difference of two sums.
pub(crate) fn hurdles(alloc: Global, board: &Board, arrival: u32) -> Result<Vec<u64>, AllocError>
    requires { arrival < length board.now.certificate.prices }
    ensures { IfOk result (λ h. h.items ≡ hurdles board.now.certificate.prices arrival) }
{
    let mut prices = Vec::new(alloc);
    for length in 0..MOST_LENGTH.min(board.nights() - arrival) {
        let span = Span {
            from: arrival,
            to: arrival + length + 1,
        };
        prices.push(board.price(span))?;
    }
    Ok(prices)
}
