//! A shelf in memory, for tests and for callers that have their texts already.
ghost use Rattle.std.specs.Prelude.{
  ◌≡◌,
  ◌⊎◌,
  ◌+◌,
  ◌≤◌,
  ℕ,
  true,
  false,
  [],
  take,
  length,
  Some,
  IfOk,
  IsErrOf,
  IsSome,
  IsNone,
  IsSomeAnd,
};
ghost use Rattle.std.specs.Option.{option_copied, ForSome};
ghost use Rattle.std.specs.FinMap as map;
ghost use Rattle.bp_edges.specs.Held.{no_fetch};
ghost use Rattle.bp_edges.specs.Counts.{Rose};
ghost use Rattle.bp_edges.specs.Fetching.{Answers, CountsFetch, Remembers};
ghost use Rattle.bp_edges.specs.Schedule.{NextFails, IsOver, one_more};
ghost use Rattle.bp_edges.specs.Memory.{files_of};

use crate::reading::Reading;
use crate::schedule::Schedule;
use crate::tally::Tally;
use crate::{HeldFile, Shelf, ShelfError};
use std::alloc::{AllocError, Global};
use std::marker::Model;

/// Holds these files, and fails at the calls that its list names, counted from 1, and at each name that it does not
/// hold. Where two files have one name, the first counts. A fetch looks at the files one by one, and copies at most
/// `limit + 1` bytes.
#[derive(Drop)]
pub struct MemoryShelf {
    files: Vec<HeldFile>,
    schedule: Schedule,
    tally: Tally,
}

impl Model for MemoryShelf {
    ghost use Rattle.bp_edges.specs.Memory.{ShelfState};

    ghost Value = { ShelfState };

    ghost view = { λ s. record { files = s.files.items; schedule = s.schedule; tally = s.tally } };
}

impl MemoryShelf {
    /// A shelf of these files whose calls of the numbers in `failing` fail, counted from 1.
    pub fn new(files: Vec<HeldFile>, failing: Vec<u64>) -> MemoryShelf
        ensures files { result.files ≡ files.items }
        ensures calls { result.schedule.calls ≡ 0 }
        ensures failing { result.schedule.failing ≡ failing.items }
        ensures tally { result.tally ≡ record { faults = 0; fetches = 0; last = no_fetch } }
        ensures held { ⟦<MemoryShelf as Shelf>⟧.held result ≡ Some (files_of files.items) }
        ensures steady { failing.items ≡ [] → ⟦<MemoryShelf as Shelf>⟧.steady result }
    {
        let schedule = Schedule::new(failing);
        MemoryShelf {
            files,
            schedule,
            tally: Tally::new(),
        }
    }
}

/// The first file with this name.
fn find<'a>(files: &'a [HeldFile], name: &str) -> Option<&'a [u8]>
    ensures { option_copied result ≡ map.get (files_of files.now) name.now }
{
    for file in files {
        if name == file.name() {
            return Some(file.bytes());
        }
    }
    None
}

/// A copy of the first bytes, up to one past the limit.
fn first_bytes(alloc: Global, text: &[u8], limit: u64) -> Result<Vec<u8>, AllocError>
    ensures { IfOk result (λ bytes. bytes.items ≡ take (limit + 1) text.now) }
{
    if text.len() as u64 <= limit {
        return Vec::from_slice(alloc, text);
    }
    Vec::from_slice(alloc, &text[..limit as usize + 1])
}

/// Reads a file of these, or nothing where the call fails.
fn read_held(
    alloc: Global,
    files: &[HeldFile],
    fails: bool,
    name: &str,
    limit: u64,
) -> Result<Reading, AllocError>
    ensures short { IfOk result (λ reading. length reading.bytes.items ≤ limit + 1) }
    ensures failing { fails ≡ true → IfOk result (λ reading. reading.failed ≡ true) }
    ensures nothing { IfOk result (λ reading. reading.failed ≡ true → length reading.bytes.items ≡ 0) }
    ensures absent { fails ≡ false →
        IfOk result (λ reading. reading.failed ≡ true → IsNone (map.get (files_of files.now) name.now)) }
    ensures read { IfOk result (λ reading. reading.failed ≡ false →
        IsSomeAnd (map.get (files_of files.now) name.now) (λ text. reading.bytes.items ≡ take (limit + 1) text)) }
{
    if fails {
        return Ok(Reading::nothing(alloc));
    }
    match find(files, name) {
        None => Ok(Reading::nothing(alloc)),
        Some(text) => Ok(Reading {
            bytes: first_bytes(alloc, text, limit)?,
            failed: false,
        }),
    }
}

impl Shelf for MemoryShelf {
    ghost held = { λ s. Some (files_of s.files) };

    ghost faults = { λ s. s.tally.faults };

    ghost fetches = { λ s. s.tally.fetches };

    ghost last = { λ s. s.tally.last };

    ghost steady = { λ s. IsOver s.schedule };

    fn fetch(&mut self, alloc: Global, name: &str, limit: u64) -> Result<Vec<u8>, ShelfError>
        ensures within { IfOk result (λ bytes. length bytes.items ≤ limit) }
        ensures answers { ForSome (Some (files_of self.old.files))
            (λ files. Answers (map.get files name.now) limit result) }

        // It fails at the calls that the list names and at names that it does not hold, and takes nothing then.
        ensures listed { NextFails self.old.schedule →
            IsErrOf result ShelfError.Failed ⊎ IsErrOf result ShelfError.Memory }
        ensures failed_for { IsErrOf result ShelfError.Failed →
            NextFails self.old.schedule ⊎ IsNone (map.get (files_of self.old.files) name.now) }
        ensures none_taken { IsErrOf result ShelfError.Failed → self.new.tally.last.taken ≡ 0 }
        ensures call { self.new.schedule ≡ one_more self.old.schedule }
        ensures files { self.new.files ≡ self.old.files }

        ensures failed { IsErrOf result ShelfError.Failed → Rose self.old.tally.faults self.new.tally.faults }
        ensures unfailing { IsOver self.old.schedule → ForSome (Some (files_of self.old.files))
            (λ files. IsSome (map.get files name.now) → ¬ IsErrOf result ShelfError.Failed) }
        ensures steady { IsOver self.old.schedule → IsOver self.new.schedule }
        ensures faults { self.old.tally.faults ≤ self.new.tally.faults }
        ensures fetches { self.old.tally.fetches ≤ self.new.tally.fetches }
        ensures counted { CountsFetch self.old.tally.fetches self.new.tally.fetches result }
        ensures last { Remembers self.old.tally.last self.new.tally.last name.now limit result }
    {
        let fails = self.schedule.next_fails();
        let copy = String::from_str(alloc, name)?;
        let reading = read_held(alloc, &self.files, fails, name, limit)?;
        self.tally.answer(copy, limit, reading)
    }
}
