//! What a shelf counts of its fetches.
ghost use Rattle.std.specs.Prelude.{
  ◌≡◌,
  ◌+◌,
  ◌≤◌,
  ◌↔◌,
  ℕ,
  List,
  true,
  false,
  take,
  length,
  IfOk,
  IsErrOf,
  Some,
  string_bytes,
};
ghost use Rattle.bp_edges.specs.Counts.{raised, Rose};
ghost use Rattle.bp_edges.specs.Held.{no_fetch};
ghost use Rattle.bp_edges.specs.Fetching.{Answers, CountsFetch, Remembers};

use crate::ShelfError;
use crate::reading::Reading;
use std::marker::Model;

/// The counts of faults and fetches, which stay at their last value, and the newest fetch.
#[derive(Drop)]
pub struct Tally {
    faults: u64,
    fetches: u64,
    name: Option<String>,
    taken: u64,
    failed: bool,
}

impl Model for Tally {
    ghost use Rattle.std.specs.Prelude.{string_bytes};
    ghost use Rattle.bp_edges.specs.Memory.{Tally as Counted};
    ghost use Rattle.bp_edges.specs.Held.{name_bytes};

    ghost Value = { Counted };

    ghost view = { λ t. record {
      faults = t.faults;
      fetches = t.fetches;
      last = record { name = name_bytes t.name; taken = t.taken; failed = t.failed };
    } };
}

impl Tally {
    /// Nothing fetched, and no fault.
    pub fn new() -> Tally
        ensures { result ≡ record { faults = 0; fetches = 0; last = no_fetch } }
    {
        Tally {
            faults: 0,
            fetches: 0,
            name: None,
            taken: 0,
            failed: false,
        }
    }

    /// Counts a fetch that took these many bytes.
    pub fn took(&mut self, name: String, taken: u64)
        ensures faults { self.new.faults ≡ self.old.faults }
        ensures fetches { self.new.fetches ≡ raised self.old.fetches }
        ensures later { self.old.fetches ≤ self.new.fetches }
        ensures last { self.new.last ≡ record { name = string_bytes name; taken = taken; failed = false } }
    {
        self.fetches = self.fetches.saturating_add(1);
        self.name = Some(name);
        self.taken = taken;
        self.failed = false;
    }

    /// Counts a fetch that failed after these many bytes.
    pub fn failed(&mut self, name: String, taken: u64)
        ensures faults { self.new.faults ≡ raised self.old.faults }
        ensures fetches { self.new.fetches ≡ raised self.old.fetches }
        ensures later_faults { self.old.faults ≤ self.new.faults }
        ensures later_fetches { self.old.fetches ≤ self.new.fetches }
        ensures last { self.new.last ≡ record { name = string_bytes name; taken = taken; failed = true } }
    {
        self.took(name, taken);
        self.faults = self.faults.saturating_add(1);
        self.failed = true;
    }

    /// Answers a fetch whose reading stopped one byte past the limit at the latest, and counts it: `Failed` where
    /// reading went wrong, `TooLong` where it came past the limit.
    pub fn answer(
        &mut self,
        name: String,
        limit: u64,
        reading: Reading,
    ) -> Result<Vec<u8>, ShelfError>
        requires { length reading.bytes.items ≤ limit + 1 }

        ensures within { IfOk result (λ bytes. length bytes.items ≤ limit) }
        ensures answers { (text : List ℕ) → reading.bytes.items ≡ take (limit + 1) text →
            Answers (Some text) limit result }
        ensures failed { IsErrOf result ShelfError.Failed ↔ (reading.failed ≡ true) }
        ensures taken { IsErrOf result ShelfError.Failed → self.new.last.taken ≡ length reading.bytes.items }
        ensures memory { ¬ IsErrOf result ShelfError.Memory }
        ensures rose { IsErrOf result ShelfError.Failed → Rose self.old.faults self.new.faults }
        ensures faults { self.old.faults ≤ self.new.faults }
        ensures fetches { self.old.fetches ≤ self.new.fetches }
        ensures counted { CountsFetch self.old.fetches self.new.fetches result }
        ensures last { Remembers self.old.last self.new.last (string_bytes name) limit result }
    {
        let taken = reading.bytes.len() as u64;
        if reading.failed {
            self.failed(name, taken);
            return Err(ShelfError::Failed);
        }
        self.took(name, taken);
        if taken > limit {
            return Err(ShelfError::TooLong);
        }
        Ok(reading.bytes)
    }
}
