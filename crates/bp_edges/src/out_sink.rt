//! Standard output, as a sink.
ghost use Rattle.std.specs.Prelude.{◌≡◌, None, IsOkUnless};
ghost use Rattle.bp_edges.specs.Writing.{Writes};

use crate::{Sink, SinkError};
use std::alloc::Global;
use std::io;
use std::io::Write;

/// The standard output of a runtime. It counts each piece that did not go out, and tells nothing of what was written.
#[derive(Drop)]
pub struct OutSink<'a, R> {
    rt: &'a R,
    faults: u64,
}

impl<'a, R: Print> OutSink<'a, R> {
    /// The standard output of a runtime, with no write failed yet.
    pub fn new(rt: &'a R) -> OutSink<'a, R>
        ensures { ⟦<OutSink<'a, R> as Sink>⟧.faults result ≡ 0 }
    {
        OutSink { rt, faults: 0 }
    }
}

/// Writes the whole piece to a stream of `std`, or fails after a first part of it. The one error is `Failed`: the
/// stream failed, or took no byte.
pub fn write_out<W: Write>(out: &mut W, piece: &[u8]) -> Result<(), SinkError>
    ensures writes { Writes (W.contents out.old) (W.contents out.new) piece.now result }
    ensures failed { IsOkUnless result SinkError.Failed }
{
    let mut rest = piece;
    while !rest.is_empty() {
        match out.write(rest) {
            Ok(0) | Err(_) => return Err(SinkError::Failed),
            Ok(taken) => rest = rest.split_at(taken).1,
        }
    }
    Ok(())
}

impl<R: Print> Sink for OutSink<'_, R> {
    ghost written = { λ _. None };

    ghost faults = { λ s. s.faults };

    ghost steady = { λ _. ⊥ };

    fn put(&mut self, _alloc: Global, piece: &[u8]) -> Result<(), SinkError> {
        let result = write_out(&mut io::writer(self.rt), piece);
        if result.is_err() {
            self.faults = self.faults.saturating_add(1);
        }
        result
    }
}
