//! The files of a task: first the fetch, and then the reader.
ghost use Rattle.std.specs.Prelude.{◌≡◌, ◌+◌, ℕ, List, IsSome, IfOk, IfErr};
ghost use Rattle.std.specs.Option.{ForSome};
ghost use Rattle.std.specs.FinMap.{get};
ghost use Rattle.bp_inputs.specs.Stages.{Stage, one, IsRead};
ghost use Rattle.bp_inputs.specs.Fetches.{over, Leaves};
ghost use Rattle.bp_inputs.specs.Stops.{Follows, GivesNone, IsFault};
ghost use Rattle.bp_inputs.specs.Unread.{IfRefused};
ghost use Rattle.bp_inputs.specs.declared.cause.FileError.{FileError};

use crate::cause::Cause;
use crate::stop::Stop;
use crate::unread::Unread;
use bp_edges::{Shelf, ShelfError};
use std::alloc::Global;

pub mod bookings;
pub mod certificate;
pub mod forecast;
pub mod hotel;
pub mod journal;
pub mod list;
pub mod problem;
pub mod scenarios;
pub mod script;
pub mod stays;

/// A kind of file, with the values of earlier files that its reader stands on.
pub trait Kind {
    /// What such a file gives.
    type Value;

    /// How many bytes such a file may have.
    ghost most: { Self → ℕ };

    /// What its reader asks of what it stands on.
    ghost needs: { Self → Type 0 };

    /// These bytes are accepted with this value.
    ghost accepts: { Self → List ℕ → Self.Value → Type 0 };

    /// These bytes are refused with this error.
    ghost refuses: { Self → List ℕ → FileError → Type 0 };

    /// What is known of each value that is read.
    ghost keeps: { Self → Self.Value → Type 0 };

    /// That number of bytes.
    fn most_bytes(&self) -> u64
        ensures { result ≡ most self.now };

    /// The value of these bytes, or why there is none.
    fn read(&self, alloc: Global, bytes: &[u8]) -> Result<Self::Value, Unread>
        requires { needs self.now }
        ensures accepted { IfOk result (λ v. accepts self.now bytes.now v) }
        ensures kept { IfOk result (λ v. keeps self.now v) }
        ensures refused { IfErr result (λ u. IfRefused u (refuses self.now bytes.now)) };
}

/// Fetches a file of at most so many bytes.
fn fetch_file<S: Shelf>(
    alloc: Global,
    shelf: &mut S,
    file: u64,
    name: &str,
    most: u64,
) -> Result<Vec<u8>, Stop>
    ensures read { IfOk result (λ bytes. IsRead (S.held shelf.old) name.now most bytes.items) }
    ensures stopped { IfErr result
        (GivesNone (over S.held S.faults S.fetches S.last S.steady shelf.old shelf.new) name.now most file) }
    ensures unfailing { S.steady shelf.old →
        ForSome (S.held shelf.old) (λ files. IsSome (get files name.now) → IfErr result (λ stop. IsFault stop → ⊥)) }
    ensures leaves { Leaves (over S.held S.faults S.fetches S.last S.steady shelf.old shelf.new) }
{
    match shelf.fetch(alloc, name, most) {
        Ok(bytes) => Ok(bytes),
        Err(ShelfError::Failed) => Err(Stop::Fault { file }),
        Err(ShelfError::TooLong) => Err(Stop::Refused {
            file,
            cause: Cause::TooLong,
        }),
        Err(ShelfError::Memory) => Err(Stop::Memory),
    }
}

/// The value of the file with this name, which is the file with this number, counted from 1. Where there is none, the
/// answer says why: the shelf failed, the file is refused, or there was no memory.
pub fn load<K: Kind, S: Shelf>(
    alloc: Global,
    shelf: &mut S,
    kind: &K,
    file: u64,
    name: &str,
) -> Result<K::Value, Stop>
    requires { K.needs kind.now }
    ensures kept { IfOk result (λ v. K.keeps kind.now v) }
    ensures follows { let stage : Stage =
        record {
          name = name.now;
          most = K.most kind.now;
          Value = K.Value;
          Accepts = K.accepts kind.now;
          Refuses =
              K.refuses kind.now;
        }
        in Follows (over S.held S.faults S.fetches S.last S.steady shelf.old shelf.new) (one stage) file (file + 1) result }
{
    let bytes = fetch_file(alloc, shelf, file, name, kind.most_bytes())?;
    match kind.read(alloc, &bytes) {
        Ok(value) => Ok(value),
        Err(unread) => Err(Stop::by_reader(file, unread)),
    }
}
