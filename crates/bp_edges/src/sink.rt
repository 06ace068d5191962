//! Where text goes to.
ghost use Rattle.std.specs.Prelude.{◌≡◌, ◌≤◌, ℕ, List, Option, IsErrOf, length};
ghost use Rattle.bp_edges.specs.declared.sink.SinkError.TheVariants.{Memory};
ghost use Rattle.bp_edges.specs.declared.sink.WriteError.TheVariants.{Memory as NoMemory};
ghost use Rattle.bp_edges.specs.Counts.{Rose};
ghost use Rattle.bp_edges.specs.Writing.{Writes};
ghost use Rattle.bp_edges.specs.WriteError.{write_error};

use std::alloc::{AllocError, AllocFailed, Global};
use thiserror::Error;

/// The most bytes that a sink is given at once.
pub const MOST_PIECE: usize = 65_536;

/// Why a sink did not take a piece. It may have taken a first part of it.
#[derive(Clone, Copy, Debug, PartialEq, Eq, Error)]
pub enum SinkError {
    /// The sink failed.
    #[error("the text could not be written")]
    Failed,
    /// There was no memory.
    #[error("out of memory")]
    Memory,
}

impl From<AllocError> for SinkError {
    ghost from_gives = { λ _ e. e ≡ Memory };

    fn from(_: AllocError) -> Self {
        SinkError::Memory
    }
}

/// Why a text was not written to its end. A first part of it was written.
#[derive(Clone, Copy, Debug, PartialEq, Eq, Error)]
pub enum WriteError {
    /// The sink failed.
    #[error("the text could not be written")]
    Failed,
    /// There was no memory.
    #[error("out of memory")]
    Memory,
}

impl From<SinkError> for WriteError {
    ghost from_gives = { λ e w. w ≡ write_error e };

    fn from(error: SinkError) -> Self {
        match error {
            SinkError::Failed => WriteError::Failed,
            SinkError::Memory => WriteError::Memory,
        }
    }
}

impl From<AllocError> for WriteError {
    ghost from_gives = { λ _ e. e ≡ NoMemory };

    fn from(_: AllocError) -> Self {
        WriteError::Memory
    }
}

impl<T: Drop> From<AllocFailed<T>> for WriteError {
    ghost from_gives = { λ _ e. e ≡ NoMemory };

    fn from(_: AllocFailed<T>) -> Self {
        WriteError::Memory
    }
}

/// A place that takes text, a piece after a piece.
pub trait Sink {
    /// What was written to it, where it tells.
    ghost written: { Self → Option (List ℕ) };

    /// How often it has failed, as a u64 that stays at its last value.
    ghost faults: { Self → ℕ };

    /// No later put fails.
    ghost steady: { Self → Type 0 };

    /// Takes the piece, of 65,536 bytes at most, behind what it has. After an error it has taken a first part of it, or
    /// nothing. To take nothing of a piece that is not empty is a fault.
    fn put(&mut self, alloc: Global, piece: &[u8]) -> Result<(), SinkError>
        requires { length piece.now ≤ MOST_PIECE }

        ensures writes { Writes (written self.old) (written self.new) piece.now result }

        // When it fails, and that it does not give up by itself.
        ensures failed { IsErrOf result SinkError.Failed → Rose (faults self.old) (faults self.new) }
        ensures unfailing { steady self.old → ¬ IsErrOf result SinkError.Failed }

        // What it leaves.
        ensures steady { steady self.old → steady self.new }
        ensures faults { faults self.old ≤ faults self.new };
}
