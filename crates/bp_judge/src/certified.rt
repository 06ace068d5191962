//! A vector's certificate, checked.
ghost use Rattle.std.specs.Prelude.{◌≡◌, IfOk};
ghost use Rattle.bp_judge.specs.Certified.{IsBoardFor};

use bp_board::Board;
use bp_cert::{Verdict, check};
use bp_types::{Certificate, Instance, Memory};
use std::alloc::Global;
use std::sync::Arc;

/// The board of a certificate for a position, where it certifies the instance. The certificate moves into it.
pub(crate) fn certified(
    alloc: Global,
    instance: &Instance,
    position: u64,
    given: Option<Certificate>,
) -> Result<Option<Arc<Board>>, Memory>
    ensures { IfOk result (IsBoardFor instance.now position given) }
{
    let Some(certificate) = given else {
        return Ok(None);
    };
    match check(instance, &certificate) {
        Verdict::Optimal { .. } => {
            let _nights = instance.nights();
            let board = Board::new(alloc, position, certificate)?;
            Ok(Some(Arc::new(alloc, board)?))
        }
        _ => Ok(None),
    }
}
