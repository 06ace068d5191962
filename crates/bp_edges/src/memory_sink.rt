//! A sink in memory, for tests and for callers that want the text itself.
ghost use Rattle.std.specs.Prelude.{◌≡◌, [], Some, OnErr, IsErrOf, ◌≤◌, ◌↔◌};
ghost use Rattle.bp_edges.specs.Counts.{raised, Rose};
ghost use Rattle.bp_edges.specs.Schedule.{NextFails, IsOver, one_more};
ghost use Rattle.bp_edges.specs.Writing.{Writes};

use crate::schedule::Schedule;
use crate::{Sink, SinkError};
use std::alloc::Global;
use std::marker::Model;

/// Keeps what is put, and fails at the calls that its list names, counted from 1.
#[derive(Drop)]
pub struct MemorySink {
    written: Vec<u8>,
    schedule: Schedule,
    faults: u64,
}

impl Model for MemorySink {
    ghost use Rattle.bp_edges.specs.Memory.{SinkState};

    ghost Value = { SinkState };

    ghost view = { λ s. record { written = s.written.items; schedule = s.schedule; faults = s.faults } };
}

impl MemorySink {
    /// A sink with nothing written, whose calls of the numbers in `failing` fail, counted from 1.
    pub fn new(failing: Vec<u64>) -> MemorySink
        ensures written { result.written ≡ [] }
        ensures calls { result.schedule.calls ≡ 0 }
        ensures failing { result.schedule.failing ≡ failing.items }
        ensures faults { result.faults ≡ 0 }
        ensures steady { failing.items ≡ [] → ⟦<MemorySink as Sink>⟧.steady result }
    {
        MemorySink {
            written: Vec::new(*failing.allocator()),
            schedule: Schedule::new(failing),
            faults: 0,
        }
    }

    /// All bytes that have been written, in their order.
    pub fn written(&self) -> &[u8]
        ensures { result.now ≡ self.now.written }
    {
        &self.written
    }
}

impl Sink for MemorySink {
    ghost written = { λ s. Some s.written };

    ghost faults = { λ s. s.faults };

    ghost steady = { λ s. IsOver s.schedule };

    fn put(&mut self, _alloc: Global, piece: &[u8]) -> Result<(), SinkError>
        ensures writes { Writes (Some self.old.written) (Some self.new.written) piece.now result }
        ensures refused { OnErr result (self.new.written ≡ self.old.written) }

        // Exactly the calls that the list names fail.
        ensures listed { IsErrOf result SinkError.Failed ↔ NextFails self.old.schedule }
        ensures call { self.new.schedule ≡ one_more self.old.schedule }

        ensures failed { IsErrOf result SinkError.Failed → Rose self.old.faults self.new.faults }
        ensures unfailing { IsOver self.old.schedule → ¬ IsErrOf result SinkError.Failed }
        ensures steady { IsOver self.old.schedule → IsOver self.new.schedule }
        ensures faults { self.old.faults ≤ self.new.faults }
    {
        if self.schedule.next_fails() {
            self.faults = self.faults.saturating_add(1);
            return Err(SinkError::Failed);
        }
        self.written.extend_from_slice(piece)?;
        Ok(())
    }
}
