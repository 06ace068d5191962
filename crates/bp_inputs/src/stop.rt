//! Why the files of a task give no value.
ghost use Rattle.std.specs.Prelude.{◌≡◌};
ghost use Rattle.bp_inputs.specs.Stops.{stop_by_reader};
ghost use Rattle.bp_inputs.specs.declared.stop.Stop.TheVariants.{Memory as NoMemory};

use crate::cause::Cause;
use crate::unread::Unread;
use bp_types::Memory;

/// Why the files of a task give no value. Files count from 1, in the order of the words.
#[derive(Clone, Copy, Debug, PartialEq, Eq)]
pub enum Stop {
    /// There was no memory.
    Memory,
    /// The shelf failed at this file.
    Fault { file: u64 },
    /// This file is refused.
    Refused { file: u64, cause: Cause },
}

impl From<Memory> for Stop {
    ghost from_gives = { λ _ s. s ≡ NoMemory };

    fn from(_error: Memory) -> Stop {
        Stop::Memory
    }
}

impl Stop {
    /// What it means for the call that the reader of this file gives no value.
    pub fn by_reader(file: u64, unread: Unread) -> Stop
        ensures { result ≡ stop_by_reader file unread }
    {
        match unread {
            Unread::Memory => Stop::Memory,
            Unread::Refused(error) => Stop::Refused {
                file,
                cause: Cause::Reader(error),
            },
        }
    }
}
