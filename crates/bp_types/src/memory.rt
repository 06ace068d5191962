//! Want of memory, as the calls of all crates answer it.
ghost use Rattle.bp_types.specs.declared.memory.Memory.{Memory};

use std::alloc::{AllocError, AllocFailed};

/// No memory was found. It may come of any call that takes an allocator, and of no other.
#[derive(Clone, Copy, Debug, PartialEq, Eq)]
pub struct Memory;

impl From<AllocError> for Memory {
    fn from(_error: AllocError) -> Memory {
        Memory
    }
}

impl<T: Drop> From<AllocFailed<T>> for Memory {
    fn from(_error: AllocFailed<T>) -> Memory {
        Memory
    }
}
