//! Real files, as a shelf.
ghost use Rattle.std.specs.Prelude.{◌≡◌, ◌+◌, ◌≤◌, length, None, IfOk};
ghost use Rattle.bp_edges.specs.Held.{no_fetch};

use crate::reading::{Reading, read_up_to};
use crate::tally::Tally;
use crate::{Shelf, ShelfError};
use std::alloc::{AllocError, Global};
use std::fs;
use std::rt::Files;

/// The files of a runtime, by path. It counts each error of the runtime, and tells nothing of what they hold.
#[derive(Drop)]
pub struct FileShelf<'a, R> {
    rt: &'a R,
    tally: Tally,
}

impl<'a, R: Files> FileShelf<'a, R> {
    /// The shelf of a runtime's files, with nothing fetched yet.
    pub fn new(rt: &'a R) -> FileShelf<'a, R>
        ensures faults { ⟦<FileShelf<'a, R> as Shelf>⟧.faults result ≡ 0 }
        ensures fetches { ⟦<FileShelf<'a, R> as Shelf>⟧.fetches result ≡ 0 }
        ensures last { ⟦<FileShelf<'a, R> as Shelf>⟧.last result ≡ no_fetch }
    {
        FileShelf {
            rt,
            tally: Tally::new(),
        }
    }
}

/// Opens and reads the file, up to one byte past the limit.
fn read_file<R: Files>(rt: &R, alloc: Global, path: &str, limit: u64) -> Result<Reading, AllocError>
    ensures { IfOk result (λ reading. length reading.bytes.items ≤ limit + 1) }
{
    match fs::open(rt, path) {
        Ok(mut file) => read_up_to(alloc, &mut file, limit),
        Err(_) => Ok(Reading::nothing(alloc)),
    }
}

impl<R: Files> Shelf for FileShelf<'_, R> {
    ghost held = { λ _. None };

    ghost faults = { λ s. s.tally.faults };

    ghost fetches = { λ s. s.tally.fetches };

    ghost last = { λ s. s.tally.last };

    ghost steady = { λ _. ⊥ };

    fn fetch(&mut self, alloc: Global, name: &str, limit: u64) -> Result<Vec<u8>, ShelfError> {
        let copy = String::from_str(alloc, name)?;
        let reading = read_file(self.rt, alloc, name, limit)?;
        self.tally.answer(copy, limit, reading)
    }
}
