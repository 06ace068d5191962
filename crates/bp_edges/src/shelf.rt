//! Where files come from.
ghost use Rattle.std.specs.Prelude.{◌≡◌, ◌≤◌, ℕ, length, Option, IfOk, IsErrOf, IsSome};
ghost use Rattle.std.specs.Option.{ForSome};
ghost use Rattle.std.specs.FinMap as map;
ghost use Rattle.bp_edges.specs.declared.shelf.ShelfError.TheVariants.{Memory};
ghost use Rattle.bp_edges.specs.Counts.{Rose};
ghost use Rattle.bp_edges.specs.Held.{Files, Fetch};
ghost use Rattle.bp_edges.specs.Fetching.{Answers, CountsFetch, Remembers};

use std::alloc::{AllocError, AllocFailed, Global};
use thiserror::Error;

/// Why a fetch gave no bytes.
#[derive(Clone, Copy, Debug, PartialEq, Eq, Error)]
pub enum ShelfError {
    /// The shelf failed: the file is absent, or reading it went wrong.
    #[error("the file could not be read")]
    Failed,
    /// The file has more bytes than the limit.
    #[error("the file is too long")]
    TooLong,
    /// There was no memory.
    #[error("out of memory")]
    Memory,
}

impl From<AllocError> for ShelfError {
    ghost from_gives = { λ _ e. e ≡ Memory };

    fn from(_: AllocError) -> Self {
        ShelfError::Memory
    }
}

impl<T: Drop> From<AllocFailed<T>> for ShelfError {
    ghost from_gives = { λ _ e. e ≡ Memory };

    fn from(_: AllocFailed<T>) -> Self {
        ShelfError::Memory
    }
}

/// A place that has files by name.
pub trait Shelf {
    /// What it holds, where it tells. No call changes it.
    ghost held: { Self → Option Files };

    /// How often it has failed, as a u64 that stays at its last value.
    ghost faults: { Self → ℕ };

    /// How many fetches it has answered other than by Memory, as a u64 that stays at its last value.
    ghost fetches: { Self → ℕ };

    /// The newest of these fetches.
    ghost last: { Self → Fetch };

    /// No later fetch of a name that it holds fails.
    ghost steady: { Self → Type 0 };

    /// The bytes of the file with this name, of which it takes at most `limit + 1`. It answers `TooLong` where the file
    /// has more than `limit` bytes, `Failed` where there is no such file or it could not be read, and `Memory` where
    /// there was none.
    fn fetch(&mut self, alloc: Global, name: &str, limit: u64) -> Result<Vec<u8>, ShelfError>
        ensures within { IfOk result (λ bytes. length bytes.items ≤ limit) }
        ensures answers { ForSome (held self.old) (λ files. Answers (map.get files name.now) limit result) }

        // When it fails, and that it does not give up by itself.
        ensures failed { IsErrOf result ShelfError.Failed → Rose (faults self.old) (faults self.new) }
        ensures unfailing { steady self.old → ForSome (held self.old)
            (λ files. IsSome (map.get files name.now) → ¬ IsErrOf result ShelfError.Failed) }

        // What it leaves.
        ensures held { held self.new ≡ held self.old }
        ensures steady { steady self.old → steady self.new }
        ensures faults { faults self.old ≤ faults self.new }
        ensures fetches { fetches self.old ≤ fetches self.new }
        ensures counted { CountsFetch (fetches self.old) (fetches self.new) result }
        ensures last { Remembers (last self.old) (last self.new) name.now limit result };
}
