//! A text, written in pieces.
ghost use Rattle.std.specs.Prelude.{◌≤◌, IsErrOf};
ghost use Rattle.bp_edges.specs.Counts.{Rose};
ghost use Rattle.bp_edges.specs.Writing.{Writes};

use bp_edges::{MOST_PIECE, Sink, WriteError};
use std::alloc::Global;

/// Writes a text, in pieces of at most 65,536 bytes. An error is the sink's, and a first part of the text is written
/// then.
pub fn write_text<K: Sink>(alloc: Global, text: &[u8], out: &mut K) -> Result<(), WriteError>
    ensures writes { Writes (K.written out.old) (K.written out.new) text.now result }
    ensures failed { IsErrOf result WriteError.Failed → Rose (K.faults out.old) (K.faults out.new) }
    ensures unfailing { K.steady out.old → ¬ IsErrOf result WriteError.Failed }
    ensures steady { K.steady out.old → K.steady out.new }
    ensures faults { K.faults out.old ≤ K.faults out.new }
{
    let mut rest = text;
    while rest.len() > MOST_PIECE {
        let (piece, more) = rest.split_at(MOST_PIECE);
        out.put(alloc, piece)?;
        rest = more;
    }
    out.put(alloc, rest)?;
    Ok(())
}
